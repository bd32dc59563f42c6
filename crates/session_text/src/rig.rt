//! Rig documents.
ghost use Rattle.std.specs.Prelude.{◌≡◌, ◌<◌, ◌≤◌, ◌^◌, [], length, option_map, All, IfOk, OnOk};
ghost use Rattle.std.specs.Result.{ForOk};
ghost use Rattle.json_data.specs.Doubled.{doubled_in_text, first_doubled};
ghost use Rattle.json_data.specs.View.{document_view, items_view, tokens_view, view};
ghost use Rattle.bench_types.specs.CoreAction.{IsCheckedCoreAction};
ghost use Rattle.bench_types.specs.Header.{IsCheckedHeader};
ghost use Rattle.bench_types.specs.Limits.{max_steps};
ghost use Rattle.bench_types.specs.Step.{settings_of};
ghost use Rattle.session_text.specs.Node.{data_of, location_of};
ghost use Rattle.session_text.specs.Noted.{doubled_view};
ghost use Rattle.session_text.specs.ReadingRules.{Gives};
ghost use Rattle.session_text.specs.Path.{path_of};
ghost use Rattle.session_text.specs.Rig.{has_arrays, limit_accepted, no_steps_at, rig_accepted, rig_at, rig_shapes_at, rig_text, script_accepted, scripts_accepted, scripts_at, stepless_at, units_accepted, AreCheckedScripts, IsCheckedRig};
ghost use Rattle.session_text.specs.Session.{IsRefusedAtOnce, ReadsAs};

use crate::accepted::{Source, items_accepted};
use crate::array::list_at;
use crate::core_action::{OnCore, ScriptReader};
use crate::detail::Detail;
use crate::fault::{ReadFault, TextFault, Why};
use crate::format::{Format, format_at};
use crate::header::{header_of, settings_at};
use crate::names::Names;
use crate::node::Node;
use crate::noted::{Noted, doubled_member};
use crate::path::Location;
use crate::session::{document, known_names, only_members};
use bench_types::{CoreAction, Fault, Header, HeaderFlaw, Items, MAX_STEPS};
use json_data::{Document, Gathered, Scratch};
use std::alloc::Global;

/// What the cores of a rig do, each in its own thread, once the session has started.
#[derive(Debug, Drop)]
pub struct RigScript {
    pub header: Header,
    /// How many entries the recording has at most.
    pub limit: u32,
    /// What each core does, one script per core.
    pub scripts: Items<Items<CoreAction>>,
}

/// Reads a rig document from a JSON text: an object with `session`, whose `steps` are none,
/// `limit` and `scripts`.
///
/// F5 at `limit` is a limit over [`MAX_STEPS`] entries.
#[tactic(auto, unfolding(crate::specs::Rig::rig_text))]
pub fn read_rig(alloc: Global, text: &[u8]) -> Result<RigScript, TextFault>
    // The header, the limit and the scripts, or the first fault with its path, or that memory ran
    // out.
    ensures reading { ReadsAs (λ rig. rig) result (rig_text text.now) }
    ensures no_text { IsRefusedAtOnce text.now result }
    // So no check of the header or of an action fails later, and each core has a script.
    ensures checked { IfOk result IsCheckedRig }
{
    let mut scratch = Scratch::new(alloc);
    let document = document(alloc, text, &mut scratch)?;
    Ok(rig_in(alloc, &document)?)
}

/// The rig that is the document.
fn rig_in(alloc: Global, document: &Document<'_>) -> Result<RigScript, ReadFault>
    ensures reading { Gives (λ rig. rig) result (rig_at [] (document_view document.now)) }
    ensures checked { IfOk result IsCheckedRig }
{
    rig_at(&Node {
        alloc,
        location: &Location::Top,
        value: &Gathered::of(document.root()),
    })
}

/// The same, with its first member that stands twice.
#[tactic(auto, unfolding(crate::specs::Rig::rig_text))]
pub fn read_rig_noted(alloc: Global, text: &[u8]) -> Result<Noted<RigScript>, TextFault>
    ensures reading { ReadsAs (λ noted. noted.document) result (rig_text text.now) }
    ensures no_text { IsRefusedAtOnce text.now result }
    ensures checked { IfOk result (λ noted. IsCheckedRig noted.document) }
    ensures doubled { IfOk result
        (λ noted. doubled_view noted.doubled ≡ doubled_in_text text.now) }
{
    let mut scratch = Scratch::new(alloc);
    let document = document(alloc, text, &mut scratch)?;
    Ok(noted_rig(alloc, &document)?)
}

fn noted_rig(alloc: Global, document: &Document<'_>) -> Result<Noted<RigScript>, ReadFault>
    ensures reading { Gives (λ noted. noted.document) result
        (rig_at [] (document_view document.now)) }
    ensures checked { IfOk result (λ noted. IsCheckedRig noted.document) }
    ensures doubled { IfOk result
        (λ noted. doubled_view noted.doubled ≡ first_doubled (tokens_view document.now)) }
{
    let rig = rig_in(alloc, document)?;
    let doubled = doubled_member(alloc, document)?;
    Ok(Noted {
        document: rig,
        doubled,
    })
}

#[tactic(auto, unfolding(crate::specs::Rig::rig_at))]
fn rig_at(node: &Node<'_, '_, '_>) -> Result<RigScript, ReadFault>
    ensures reading { Gives (λ rig. rig) result (rig_at (location_of node.now) (data_of node.now)) }
    ensures checked { IfOk result IsCheckedRig }
{
    let (header, limit, scripts) = rig_shapes_at(node)?;
    rig_accepted(node, header, limit, scripts)
}

/// The header, accepted or not, the limit and the scripts: shapes alone are judged.
#[tactic(auto, unfolding(crate::specs::Rig::rig_shapes_at))]
fn rig_shapes_at(
    node: &Node<'_, '_, '_>,
) -> Result<(Result<Header, HeaderFlaw>, u32, Vec<Items<CoreAction>>), ReadFault>
    ensures reading { Gives (λ read. (read.0, read.1, read.2.items)) result
        (rig_shapes_at (location_of node.now) (data_of node.now)) }
    ensures valid { IfOk result (λ read. IfOk read.0 IsCheckedHeader) }
    ensures one_per_core { IfOk result
        (λ read. IfOk read.0 (λ header. length read.2.items ≡ header.config.cores)) }
{
    let members = node.object()?;
    let (format, cores, header) = stepless_at(&Node {
        alloc: node.alloc,
        location: &Location::Member(node.location, "session"),
        value: &Gathered::of(node.member("session")?),
    })?;
    let limit = node.number("limit")?;
    let names = known_names(node.alloc, &header)?;
    let scripts = scripts_at(format, cores, &names, node)?;
    drop(names);
    node.only(&["session", "limit", "scripts"], &members)?;
    Ok((header, limit, scripts))
}

/// The format, the number of cores, and the header, accepted or not, of the session, which has no
/// steps.
#[tactic(auto, unfolding(crate::specs::Rig::stepless_at))]
fn stepless_at(
    node: &Node<'_, '_, '_>,
) -> Result<(Format, u32, Result<Header, HeaderFlaw>), ReadFault>
    ensures reading { Gives (λ read. read) result
        (stepless_at (location_of node.now) (data_of node.now)) }
    ensures valid { IfOk result (λ read. IfOk read.2 IsCheckedHeader) }
    ensures cores { IfOk result
        (λ read. IfOk read.2 (λ header. read.1 ≡ header.config.cores)) }
{
    let members = node.object()?;
    let format = format_at(node)?;
    let (config, queues) = settings_at(format, node)?;
    let header = header_of(config, queues, node)?;
    no_steps_at(node)?;
    only_members(format, node, &members)?;
    Ok((format, config.cores, header))
}

#[tactic(auto, unfolding(crate::specs::Rig::no_steps_at))]
fn no_steps_at(node: &Node<'_, '_, '_>) -> Result<(), ReadFault>
    ensures { Gives (λ done. done) result (no_steps_at (location_of node.now) (data_of node.now)) }
{
    match node.array("steps")?.next() {
        None => Ok(()),
        Some(_) => Err(node.bad_member("steps", Detail::HasSteps)),
    }
}

/// Whether there are so many items, and each is an array.
fn has_arrays(count: u32, items: &mut json_data::Items<'_, '_>) -> bool
    ensures { result ≡ has_arrays count (items_view items.old) }
{
    let mut left = count;
    while let Some(item) = items.next() {
        if left == 0 || item.as_array().is_none() {
            return false;
        }
        left -= 1;
    }
    left == 0
}

/// One script per core.
#[tactic(auto, unfolding(crate::specs::Rig::scripts_at))]
fn scripts_at(
    format: Format,
    cores: u32,
    names: &Names<'_>,
    node: &Node<'_, '_, '_>,
) -> Result<Vec<Items<CoreAction>>, ReadFault>
    ensures reading { Gives (λ scripts. scripts.items) result
        (scripts_at format cores names.now (location_of node.now) (data_of node.now)) }
    ensures one_per_core { IfOk result (λ scripts. length scripts.items ≡ cores) }
{
    if !has_arrays(cores, &mut node.array("scripts")?) {
        return Err(node.bad_member("scripts", Detail::OnePerCore(cores)));
    }
    list_at(&ScriptReader { format, names }, node, "scripts")
}

/// The rig, or F1 for the flaw of its header, or the fault of its limit, or else that of its first
/// action at fault.
#[tactic(auto, unfolding(crate::specs::Rig::rig_accepted))]
fn rig_accepted(
    node: &Node<'_, '_, '_>,
    header: Result<Header, HeaderFlaw>,
    limit: u32,
    scripts: Vec<Items<CoreAction>>,
) -> Result<RigScript, ReadFault>
    requires valid { ForOk header IsCheckedHeader }
    requires one_per_core { ForOk header (λ it. length scripts.items ≡ it.config.cores) }
    ensures reading { Gives (λ rig. rig) result
        (rig_accepted (location_of node.now) (data_of node.now) header limit scripts.items) }
    ensures checked { IfOk result IsCheckedRig }
{
    let session = Location::Member(node.location, "session");
    match header {
        Err(flaw) => Err(ReadFault::of_header(node.alloc, &session, flaw)),
        Ok(header) => {
            units_accepted(node.alloc, &session, &header)?;
            limit_accepted(node, limit)?;
            let source = Source {
                alloc: node.alloc,
                location: &Location::Member(node.location, "scripts"),
                value: node.value.item().get("scripts"),
            };
            scripts_accepted(&source, &header, scripts.as_slice())?;
            Ok(RigScript {
                header,
                limit,
                scripts: Items::new(scripts),
            })
        }
    }
}

/// F1 where a tick has more than one unit of time: recordings by threads have no time.
fn units_accepted(alloc: Global, session: &Location<'_>, header: &Header) -> Result<(), ReadFault>
    ensures reading { Gives (λ done. done) result
        (units_accepted (path_of session.now) header.now) }
    ensures timeless { OnOk result (header.now.config.units ≡ 1) }
{
    let units = header.config.units;
    if units == 1 {
        Ok(())
    } else {
        Err(ReadFault::of_header(alloc, session, HeaderFlaw::Units(units)))
    }
}

fn limit_accepted(node: &Node<'_, '_, '_>, limit: u32) -> Result<(), ReadFault>
    ensures reading { Gives (λ done. done) result (limit_accepted (location_of node.now) limit) }
    ensures few { OnOk result (limit ≤ max_steps) }
{
    if limit > MAX_STEPS {
        let location = Location::Member(node.location, "limit");
        let why = Why::Bench(Fault::BadArgument);
        Err(ReadFault::at(node.alloc, &location, why, Detail::Limit(limit)))
    } else {
        Ok(())
    }
}

/// The first fault of the scripts that were read there, if there is one.
fn scripts_accepted(
    source: &Source<'_, '_>,
    header: &Header,
    scripts: &[Items<CoreAction>],
) -> Result<(), ReadFault>
    requires { length scripts.now < 2 ^ 32 }
    ensures reading { Gives (λ done. done) result
        (scripts_accepted header.now (path_of source.now.location.now)
        (option_map view source.now.value) 0 scripts.now) }
    ensures checked { OnOk result (AreCheckedScripts header.now scripts.now) }
{
    for (core, script) in scripts.iter().enumerate() {
        script_accepted(source, header, core as u32, script.as_slice())?;
    }
    Ok(())
}

/// The first fault of the core's script, which is an item of those that were read there.
fn script_accepted(
    source: &Source<'_, '_>,
    header: &Header,
    core: u32,
    script: &[CoreAction],
) -> Result<(), ReadFault>
    ensures reading { Gives (λ done. done) result
        (script_accepted header.now (path_of source.now.location.now)
        (option_map view source.now.value) core script.now) }
    ensures checked { OnOk result
        (All (IsCheckedCoreAction (settings_of header.now) core) script.now) }
{
    let own = Source {
        alloc: source.alloc,
        location: &Location::Item(source.location, core as usize),
        value: source.item(core as usize),
    };
    items_accepted(&own, &OnCore { header, core }, script)
}
