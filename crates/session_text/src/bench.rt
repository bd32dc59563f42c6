//! Bench documents.
ghost use Rattle.std.specs.Prelude.{◌≡◌, [], All, IfOk, OnOk};
ghost use Rattle.std.specs.Result.{ForOk};
ghost use Rattle.json_data.specs.Doubled.{doubled_in_text, first_doubled};
ghost use Rattle.json_data.specs.View.{document_view, tokens_view, view};
ghost use Rattle.bench_types.specs.Header.{IsCheckedHeader};
ghost use Rattle.session_text.specs.Bench.{bench_accepted, bench_at, bench_of_text, bench_text, edited_at, edits_accepted, kept_bench_text, shapes_at, unedited_at, IsBenchOf, IsCheckedBench, IsKeptBench};
ghost use Rattle.session_text.specs.Node.{data_of, location_of};
ghost use Rattle.session_text.specs.Noted.{doubled_view};
ghost use Rattle.session_text.specs.ReadingRules.{Gives};
ghost use Rattle.session_text.specs.Session.{IsRefusedAtOnce, ReadsAs};

use crate::accepted::{HasCheck, Source, items_accepted};
use crate::array::list_at;
use crate::edit::{EditReader, ReadEdit};
use crate::fault::{ReadFault, TextFault};
use crate::node::Node;
use crate::noted::{Noted, doubled_member};
use crate::path::Location;
use crate::session::{document, known_names, session_accepted, session_at};
use bench_types::{Edit, Header, HeaderFlaw, Items, Step};
use json_data::{Document, Gathered, Scratch};
use kept_edits::KeptEdit;
use std::alloc::Global;
use std::marker::PhantomData;

/// A session, and edits of it that are to be made in their order: edits of the session alone, or of
/// how long its tasks work too.
#[derive(Debug, Drop)]
pub struct Bench<E = Edit> {
    pub header: Header,
    pub steps: Items<Step>,
    pub edits: Items<E>,
}

/// Reads a bench document from a JSON text: an object with `session` and `edits`, or a session
/// alone.
///
/// Whether a session has the locations of its edits is not looked at.
#[tactic(auto, unfolding(crate::specs::Bench::bench_of_text))]
pub fn read_bench(alloc: Global, text: &[u8]) -> Result<Bench, TextFault>
    // The session and its edits, or the first fault with its path, or that memory ran out.
    ensures reading { ReadsAs (λ bench. bench) result (bench_text text.now) }
    ensures no_text { IsRefusedAtOnce text.now result }
    // So no check of the header, of a step or of an edit fails later.
    ensures checked { IfOk result IsCheckedBench }
{
    let mut scratch = Scratch::new(alloc);
    let document = document(alloc, text, &mut scratch)?;
    Ok(bench_in(alloc, &document)?)
}

/// The bench that is the document.
fn bench_in<E: ReadEdit + HasCheck<Header>>(
    alloc: Global,
    document: &Document<'_>,
) -> Result<Bench<E>, ReadFault>
    ensures reading { Gives (λ bench. bench) result
        (bench_at E.reading E.flaw_of [] (document_view document.now)) }
    ensures checked { IfOk result (IsBenchOf E.IsChecked) }
{
    bench_at(&Node {
        alloc,
        location: &Location::Top,
        value: &Gathered::of(document.root()),
    })
}

/// The same, with its first member that stands twice.
pub fn read_bench_noted(alloc: Global, text: &[u8]) -> Result<Noted<Bench>, TextFault>
    ensures reading { ReadsAs (λ noted. noted.document) result (bench_text text.now) }
    ensures no_text { IsRefusedAtOnce text.now result }
    ensures checked { IfOk result (λ noted. IsCheckedBench noted.document) }
    ensures doubled { IfOk result
        (λ noted. doubled_view noted.doubled ≡ doubled_in_text text.now) }
{
    read_noted(alloc, text)
}

/// The same with edits of work too, which format 3 has.
pub fn read_kept_bench_noted(
    alloc: Global,
    text: &[u8],
) -> Result<Noted<Bench<KeptEdit>>, TextFault>
    ensures reading { ReadsAs (λ noted. noted.document) result (kept_bench_text text.now) }
    ensures no_text { IsRefusedAtOnce text.now result }
    ensures checked { IfOk result (λ noted. IsKeptBench noted.document) }
    ensures doubled { IfOk result
        (λ noted. doubled_view noted.doubled ≡ doubled_in_text text.now) }
{
    read_noted(alloc, text)
}

#[tactic(auto, unfolding(crate::specs::Bench::bench_of_text))]
fn read_noted<E: ReadEdit + HasCheck<Header>>(
    alloc: Global,
    text: &[u8],
) -> Result<Noted<Bench<E>>, TextFault>
    ensures reading { ReadsAs (λ noted. noted.document) result
        (bench_of_text E.reading E.flaw_of text.now) }
    ensures no_text { IsRefusedAtOnce text.now result }
    ensures checked { IfOk result (λ noted. IsBenchOf E.IsChecked noted.document) }
    ensures doubled { IfOk result
        (λ noted. doubled_view noted.doubled ≡ doubled_in_text text.now) }
{
    let mut scratch = Scratch::new(alloc);
    let document = document(alloc, text, &mut scratch)?;
    Ok(noted_bench(alloc, &document)?)
}

fn noted_bench<E: ReadEdit + HasCheck<Header>>(
    alloc: Global,
    document: &Document<'_>,
) -> Result<Noted<Bench<E>>, ReadFault>
    ensures reading { Gives (λ noted. noted.document) result
        (bench_at E.reading E.flaw_of [] (document_view document.now)) }
    ensures checked { IfOk result (λ noted. IsBenchOf E.IsChecked noted.document) }
    ensures doubled { IfOk result
        (λ noted. doubled_view noted.doubled ≡ first_doubled (tokens_view document.now)) }
{
    let bench = bench_in(alloc, document)?;
    let doubled = doubled_member(alloc, document)?;
    Ok(Noted {
        document: bench,
        doubled,
    })
}

fn bench_at<E: ReadEdit + HasCheck<Header>>(node: &Node<'_, '_, '_>) -> Result<Bench<E>, ReadFault>
    ensures reading { Gives (λ bench. bench) result
        (bench_at E.reading E.flaw_of (location_of node.now) (data_of node.now)) }
    ensures checked { IfOk result (IsBenchOf E.IsChecked) }
{
    match node.value.item().get("session") {
        Some(session) => edited_at(node, &Gathered::of(session)),
        None => unedited_at(node),
    }
}

/// The session with no edits.
#[tactic(auto, unfolding(crate::specs::Bench::unedited_at))]
fn unedited_at<E: ReadEdit + HasCheck<Header>>(
    node: &Node<'_, '_, '_>,
) -> Result<Bench<E>, ReadFault>
    ensures reading { Gives (λ bench. bench) result
        (unedited_at (location_of node.now) (data_of node.now)) }
    ensures checked { IfOk result (IsBenchOf E.IsChecked) }
{
    let (_format, header, steps) = session_at(node)?;
    let (header, steps) = session_accepted(node, header, steps)?;
    Ok(Bench {
        header,
        steps: Items::new(steps),
        edits: Items::new(Vec::new(node.alloc)),
    })
}

/// The session, which was found as the member `session`, and its edits.
#[tactic(auto, unfolding(crate::specs::Bench::edited_at))]
fn edited_at<E: ReadEdit + HasCheck<Header>>(
    node: &Node<'_, '_, '_>,
    session: &Gathered<'_, '_>,
) -> Result<Bench<E>, ReadFault>
    ensures reading { Gives (λ bench. bench) result
        (edited_at E.reading E.flaw_of (location_of node.now) (data_of node.now)
        (view session.now)) }
    ensures checked { IfOk result (IsBenchOf E.IsChecked) }
{
    let (header, steps, edits) = shapes_at(node, session)?;
    bench_accepted(node, session, header, steps, edits)
}

/// The header, accepted or not, the steps and the edits: shapes alone are judged.
#[tactic(auto, unfolding(crate::specs::Bench::shapes_at))]
fn shapes_at<E: ReadEdit>(
    node: &Node<'_, '_, '_>,
    session: &Gathered<'_, '_>,
) -> Result<(Result<Header, HeaderFlaw>, Vec<Step>, Vec<E>), ReadFault>
    ensures reading { Gives (λ read. (read.0, read.1.items, read.2.items)) result
        (shapes_at E.reading (location_of node.now) (data_of node.now) (view session.now)) }
    ensures valid { IfOk result (λ read. IfOk read.0 IsCheckedHeader) }
{
    let members = node.object()?;
    let (format, header, steps) = session_at(&Node {
        alloc: node.alloc,
        location: &Location::Member(node.location, "session"),
        value: session,
    })?;
    let names = known_names(node.alloc, &header)?;
    let reader = EditReader {
        format,
        names: &names,
        of: PhantomData::<E>,
    };
    let edits = list_at(&reader, node, "edits")?;
    drop(names);
    node.only(&["session", "edits"], &members)?;
    Ok((header, steps, edits))
}

/// The bench, or the fault of its session, or else of its first edit at fault.
#[tactic(auto, unfolding(crate::specs::Bench::bench_accepted))]
fn bench_accepted<E: HasCheck<Header> + Drop>(
    node: &Node<'_, '_, '_>,
    session: &Gathered<'_, '_>,
    header: Result<Header, HeaderFlaw>,
    steps: Vec<Step>,
    edits: Vec<E>,
) -> Result<Bench<E>, ReadFault>
    requires { ForOk header IsCheckedHeader }
    ensures reading { Gives (λ bench. bench) result
        (bench_accepted E.flaw_of (location_of node.now) (data_of node.now) (view session.now)
        header steps.items edits.items) }
    ensures checked { IfOk result (IsBenchOf E.IsChecked) }
{
    let inner = Node {
        alloc: node.alloc,
        location: &Location::Member(node.location, "session"),
        value: session,
    };
    let (header, steps) = session_accepted(&inner, header, steps)?;
    edits_accepted(node, &header, edits.as_slice())?;
    Ok(Bench {
        header,
        steps: Items::new(steps),
        edits: Items::new(edits),
    })
}

#[tactic(auto, unfolding(crate::specs::Bench::edits_accepted))]
fn edits_accepted<E: HasCheck<Header>>(
    node: &Node<'_, '_, '_>,
    header: &Header,
    edits: &[E],
) -> Result<(), ReadFault>
    ensures reading { Gives (λ done. done) result
        (edits_accepted E.flaw_of header.now (location_of node.now) (data_of node.now)
        edits.now) }
    ensures checked { OnOk result (All (E.IsChecked header.now) edits.now) }
{
    let source = Source {
        alloc: node.alloc,
        location: &Location::Member(node.location, "edits"),
        value: node.value.item().get("edits"),
    };
    items_accepted(&source, header, edits)
}
