//! Sessions, as texts write them.
ghost use Rattle.std.specs.Prelude.{◌≡◌, [], All, IfOk, Ok, OnOk, codes, map};
ghost use Rattle.json_data.specs.ObjectView.{members_view};
ghost use Rattle.json_data.specs.Doubled.{doubled_in_text, first_doubled};
ghost use Rattle.json_data.specs.View.{document_view, tokens_view};
ghost use Rattle.std.specs.Result.{ForOk};
ghost use Rattle.bench_types.specs.Header.{header_check, IsCheckedHeader};
ghost use Rattle.bench_types.specs.Session.{IsSession};
ghost use Rattle.bench_types.specs.Step.{settings_of, IsCheckedStep};
ghost use Rattle.session_text.specs.Array.{list_at};
ghost use Rattle.session_text.specs.Member.{only_at};
ghost use Rattle.session_text.specs.Names.{known_names};
ghost use Rattle.session_text.specs.Node.{data_of, location_of};
ghost use Rattle.session_text.specs.ReadingRules.{Gives};
ghost use Rattle.session_text.specs.Step.{step_at};
ghost use Rattle.session_text.specs.Session.{document, session, session_accepted, session_at, session_members, steps_accepted, whole_session, IsRefusedAtOnce, ReadsAs};

use crate::accepted::{Source, items_accepted};
use crate::array::list_at;
use crate::fault::{ReadFault, TextFault};
use crate::format::{Format, format_at};
use crate::header::header_at;
use crate::names::Names;
use crate::node::Node;
use crate::path::Location;
use crate::step::StepReader;
use bench_types::{Header, HeaderFlaw, Step};
use json_data::{Document, Gathered, Object, Scratch};
use std::alloc::{AllocError, Global};

/// Reads a session from a JSON text.
#[tactic(auto, unfolding(crate::specs::Session::session))]
pub fn read_session(alloc: Global, text: &[u8]) -> Result<(Header, Vec<Step>), TextFault>
    // The header and the steps, or the first fault with its path, or that memory ran out.
    ensures reading { ReadsAs (λ read. (read.0, read.1.items)) result (session text.now) }
    ensures no_text { IsRefusedAtOnce text.now result }
    // So no check of the header or of a step fails later.
    ensures checked { IfOk result
        (λ read. IsSession (record { header = read.0; steps = read.1.items })) }
{
    let mut scratch = Scratch::new(alloc);
    let document = document(alloc, text, &mut scratch)?;
    Ok(session_in(alloc, &document)?)
}

/// The session that is the document.
fn session_in(alloc: Global, document: &Document<'_>) -> Result<(Header, Vec<Step>), ReadFault>
    ensures reading { Gives (λ read. (read.0, read.1.items)) result
        (whole_session [] (document_view document.now)) }
    ensures checked { IfOk result
        (λ read. IsSession (record { header = read.0; steps = read.1.items })) }
{
    whole_session(&Node {
        alloc,
        location: &Location::Top,
        value: &Gathered::of(document.root()),
    })
}

/// The session that is the value.
fn whole_session(node: &Node<'_, '_, '_>) -> Result<(Header, Vec<Step>), ReadFault>
    ensures reading { Gives (λ read. (read.0, read.1.items)) result
        (whole_session (location_of node.now) (data_of node.now)) }
    ensures checked { IfOk result
        (λ read. IsSession (record { header = read.0; steps = read.1.items })) }
{
    let (_format, header, steps) = session_at(node)?;
    session_accepted(node, header, steps)
}

/// The value that the bytes spell, or H1, or that memory ran out.
pub fn document<'a>(
    alloc: Global,
    text: &'a [u8],
    scratch: &'a mut Scratch,
) -> Result<Document<'a>, TextFault>
    ensures reading { ReadsAs document_view result (document text.now) }
    ensures no_text { IsRefusedAtOnce text.now result }
    ensures doubled { IfOk result
        (λ document. first_doubled (tokens_view document) ≡ doubled_in_text text.now) }
{
    match Document::parse(alloc, text, scratch) {
        Ok(document) => Ok(document),
        Err(refused) => Err(TextFault::of_refused(refused)),
    }
}

/// The names of the header's tasks, or none where it is not accepted.
pub fn known_names(
    alloc: Global,
    header: &Result<Header, HeaderFlaw>,
) -> Result<Names<'_>, AllocError>
    requires { ForOk header.now IsCheckedHeader }
    ensures { IfOk result (λ names. names ≡ known_names header.now) }
{
    match header {
        Ok(header) => Names::of(alloc, header),
        Err(_) => Ok(Names::none(alloc)),
    }
}

/// The steps, under the names of the header.
fn steps_at(
    format: Format,
    header: &Result<Header, HeaderFlaw>,
    node: &Node<'_, '_, '_>,
) -> Result<Vec<Step>, ReadFault>
    requires { ForOk header.now IsCheckedHeader }
    ensures { Gives (λ steps. steps.items) result
        (list_at (step_at format (known_names header.now)) (location_of node.now) (codes "steps") (data_of node.now)) }
{
    let names = &known_names(node.alloc, header)?;
    list_at(&StepReader { format, names }, node, "steps")
}

/// The members of a session of the format.
fn members_of(format: Format) -> &'static [&'static str]
    ensures { map (λ name. name.now) result.now ≡ session_members format }
{
    match format {
        Format::One => &[
            "format",
            "cores",
            "priorities",
            "slicing",
            "tick",
            "mutexes",
            "tasks",
            "steps",
        ],
        Format::Two => &[
            "format",
            "cores",
            "priorities",
            "slicing",
            "tick",
            "mutexes",
            "tasks",
            "steps",
            "notes",
        ],
        Format::Three => &[
            "format",
            "cores",
            "priorities",
            "slicing",
            "tick",
            "mutexes",
            "tasks",
            "steps",
            "notes",
            "queues",
            "units",
        ],
    }
}

/// H2 where the session has an unknown member.
pub(crate) fn only_members(
    format: Format,
    node: &Node<'_, '_, '_>,
    members: &Object<'_, '_, '_>,
) -> Result<(), ReadFault>
    ensures { Gives (λ done. done) result
        (only_at (location_of node.now) (session_members format) (members_view members.now)) }
{
    node.only(members_of(format), members)
}

/// The format, the header, accepted or not, and the steps: shapes alone are judged.
#[tactic(auto, unfolding(crate::specs::Session::session_at))]
pub(crate) fn session_at(
    node: &Node<'_, '_, '_>,
) -> Result<(Format, Result<Header, HeaderFlaw>, Vec<Step>), ReadFault>
    ensures reading { Gives (λ read. (read.0, read.1, read.2.items)) result
        (session_at (location_of node.now) (data_of node.now)) }
    ensures valid { IfOk result (λ read. IfOk read.1 IsCheckedHeader) }
{
    let members = node.object()?;
    let format = format_at(node)?;
    let header = header_at(format, node)?;
    let steps = steps_at(format, &header, node)?;
    only_members(format, node, &members)?;
    Ok((format, header, steps))
}

/// The first fault of the steps of the session, if there is one.
#[tactic(auto, unfolding(crate::specs::Session::steps_accepted))]
fn steps_accepted(node: &Node<'_, '_, '_>, header: &Header, steps: &[Step]) -> Result<(), ReadFault>
    ensures reading { Gives (λ done. done) result
        (steps_accepted header.now (location_of node.now) (data_of node.now) steps.now) }
    ensures checked { OnOk result (All (IsCheckedStep (settings_of header.now)) steps.now) }
{
    let source = Source {
        alloc: node.alloc,
        location: &Location::Member(node.location, "steps"),
        value: node.value.item().get("steps"),
    };
    items_accepted(&source, header, steps)
}

/// The session, or F1 for the flaw of its header, or else of its first step at fault.
#[tactic(auto, unfolding(crate::specs::Session::session_accepted))]
pub(crate) fn session_accepted(
    node: &Node<'_, '_, '_>,
    header: Result<Header, HeaderFlaw>,
    steps: Vec<Step>,
) -> Result<(Header, Vec<Step>), ReadFault>
    requires { ForOk header IsCheckedHeader }
    ensures reading { Gives (λ read. (read.0, read.1.items)) result
        (session_accepted (location_of node.now) (data_of node.now) header steps.items) }
    ensures checked { IfOk result
        (λ read. IsSession (record { header = read.0; steps = read.1.items })) }
{
    match header {
        Err(flaw) => Err(ReadFault::of_header(node.alloc, node.location, flaw)),
        Ok(header) => {
            steps_accepted(node, &header, steps.as_slice())?;
            Ok((header, steps))
        }
    }
}
