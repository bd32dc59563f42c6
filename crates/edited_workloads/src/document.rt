//! Workload documents with edits.
ghost use Rattle.std.specs.Prelude.{◌≡◌, [], codes, nat_le, true, IfOk, None, Ok, Some, option_and_then, option_map};
ghost use Rattle.serde_json.specs.Data.{depth};
ghost use Rattle.serde_json.specs.Find.{get, get_item};
ghost use Rattle.serde_json.specs.Read.{max_depth};
ghost use Rattle.serde_json.specs.View.{view as value_view};
ghost use Rattle.json_data.specs.View.{document_view, items_view, view};
ghost use Rattle.bench_types.specs.declared.fault.Fault.TheVariants.{BadMutex};
ghost use Rattle.session_text.specs.declared.detail.BrokenRule.TheVariants.{NoItem};
ghost use Rattle.session_text.specs.Accepted.{item_of};
ghost use Rattle.session_text.specs.Node.{data_of, location_of};
ghost use Rattle.session_text.specs.Path.{item_path, member_path, path_of, path_text};
ghost use Rattle.session_text.specs.ReadingRules.{Gives, StopsAt};
ghost use Rattle.session_text.specs.Session.{document, not_json, IsRefusedAtOnce, ReadsAs};
ghost use Rattle.edited_workloads.specs.Edited.{broken, edit_made, edited_accepted, edited_at, edited_document_at, edited_shapes_at, edited_with, edited_workload_text, edits_made, few_edits, made_or_fault, read_at, task_index, told_at, unedited_at, unedited_text, IsUnedited};
ghost use Rattle.workload_edits.specs.Edits.{edited};
ghost use Rattle.workload_text.specs.ShapesView.{shapes_view};
ghost use Rattle.workload_text.specs.Workloads.{workload_at};

use bench_types::{Fault, Header, StepFlaw};
use json_data::{Document, Gathered, Item, Items, Scratch};
use serde_json::Value;
use session_text::{
    BrokenRule, Detail, Location, Node, Path, ReadFault, TextFault, Why, document, item_fault,
    known_names, list_at,
};
use std::alloc::{AllocError, Global};
use task_programs::CheckedWorkload;
use workload_edits::{TaskEdit, edited, nests_within};
use workload_text::{EditReader, Shapes, accepted_under, document_at, shapes_at, workload_at};

/// How many edits a document has at most.
const MOST_EDITS: usize = 1000;

/// How deep arrays and objects nest in a text at most.
const MAX_DEPTH: u32 = 127;

/// A workload, and what its edits make of it.
#[derive(Debug, Drop)]
pub struct EditedWorkload {
    pub workload: CheckedWorkload,
    /// What the last edit leaves; `None` where there are no edits.
    pub edited: Option<CheckedWorkload>,
}

/// Reads a workload and edits of it from a JSON text: an object with `workload` and `edits`, or
/// what `read_workload` reads.
///
/// The edits are made one after another, and each has to leave a workload that would be accepted as
/// a document: else its fault is told at the edit. Each edit costs one reading of the workload.
#[tactic(auto, unfolding(crate::specs::Edited::edited_workload_text), using(crate::proofs::Unedited::unedited_law))]
pub fn read_edited_workload(alloc: Global, text: &[u8]) -> Result<EditedWorkload, TextFault>
    // Both workloads, or the first fault with its path, or that memory ran out.
    ensures reading { ReadsAs (λ read. read) result (edited_workload_text text.now) }
    ensures no_text { IsRefusedAtOnce text.now result }
    // A document without `edits` is read as `read_workload` reads it.
    ensures unedited { IsUnedited text.now
        → edited_workload_text text.now ≡ unedited_text text.now }
{
    let mut scratch = Scratch::new(alloc);
    let document = document(alloc, text, &mut scratch)?;
    Ok(edited_in(alloc, text, &document)?)
}

/// What the document is, which is that of the text.
fn edited_in(alloc: Global, text: &[u8], whole: &Document<'_>) -> Result<EditedWorkload, ReadFault>
    requires { document text.now ≡ Ok (document_view whole.now) }
    ensures { Gives (λ read. read) result (edited_document_at [] (document_view whole.now)) }
{
    let node = Node {
        alloc,
        location: &Location::Top,
        value: &Gathered::of(whole.root()),
    };
    edited_document_at(text, &node)
}

fn edited_document_at(text: &[u8], node: &Node<'_, '_, '_>) -> Result<EditedWorkload, ReadFault>
    requires { document text.now ≡ Ok (data_of node.now) }
    ensures { Gives (λ read. read) result
        (edited_document_at (location_of node.now) (data_of node.now)) }
{
    match node.value.item().get("workload") {
        None => unedited_at(node),
        Some(workload) => edited_with(text, node, &Gathered::of(workload)),
    }
}

/// The same where the workload was found as the member `workload`.
fn edited_with(
    text: &[u8],
    node: &Node<'_, '_, '_>,
    workload: &Gathered<'_, '_>,
) -> Result<EditedWorkload, ReadFault>
    requires text { document text.now ≡ Ok (data_of node.now) }
    requires workload { get (codes "workload") (data_of node.now) ≡ Some (view workload.now) }
    ensures { Gives (λ read. read) result
        (edited_with (location_of node.now) (data_of node.now) (Some (view workload.now))
        (get (codes "edits") (data_of node.now))) }
{
    match node.value.item().get("edits") {
        None => unedited_at(node),
        Some(edits) => edited_at(text, node, workload, &edits),
    }
}

fn unedited_at(node: &Node<'_, '_, '_>) -> Result<EditedWorkload, ReadFault>
    ensures { Gives (λ read. read) result (unedited_at (location_of node.now) (data_of node.now)) }
{
    Ok(EditedWorkload {
        workload: document_at(node)?,
        edited: None,
    })
}

/// The workload, which was found as the member `workload`, and what its edits make of it, which
/// were found as the member `edits`.
#[tactic(auto, unfolding(crate::specs::Edited::edited_at))]
fn edited_at(
    text: &[u8],
    node: &Node<'_, '_, '_>,
    workload: &Gathered<'_, '_>,
    edits: &Item<'_, '_>,
) -> Result<EditedWorkload, ReadFault>
    requires text { document text.now ≡ Ok (data_of node.now) }
    requires workload { get (codes "workload") (data_of node.now) ≡ Some (view workload.now) }
    requires edits { get (codes "edits") (data_of node.now) ≡ Some (view edits.now) }
    ensures { Gives (λ read. read) result
        (edited_at (location_of node.now) (data_of node.now) (view workload.now)) }
{
    let (shapes, made) = edited_shapes_at(node, workload)?;
    edited_accepted(text, node, workload, edits, shapes, made.as_slice())
}

/// What the workload has, and the edits: shapes alone are judged.
#[tactic(auto, unfolding(crate::specs::Edited::edited_shapes_at))]
fn edited_shapes_at(
    node: &Node<'_, '_, '_>,
    workload: &Gathered<'_, '_>,
) -> Result<(Shapes, Vec<TaskEdit>), ReadFault>
    ensures { Gives (λ read. (shapes_view read.0, read.1.items)) result
        (edited_shapes_at (location_of node.now) (data_of node.now) (view workload.now)) }
{
    let members = node.object()?;
    let shapes = shapes_at(&Node {
        alloc: node.alloc,
        location: &Location::Member(node.location, "workload"),
        value: workload,
    })?;
    let names = known_names(node.alloc, &shapes.header)?;
    let edits = list_at(&EditReader { names: &names }, node, "edits")?;
    drop(names);
    node.only(&["workload", "edits"], &members)?;
    Ok((shapes, edits))
}

/// The fault at the location where the rule is broken.
fn broken(alloc: Global, fault: Fault, rule: BrokenRule, location: &Location<'_>) -> ReadFault
    ensures { StopsAt (broken fault rule (path_of location.now)) result }
{
    ReadFault::at(alloc, location, Why::Bench(fault), Detail::Rule(rule))
}

/// F4 at the path of the edit at the location.
fn no_item(alloc: Global, edit: &Location<'_>) -> ReadFault
    ensures { StopsAt (broken BadMutex NoItem (member_path (path_of edit.now) (codes "item")))
        result }
{
    let location = Location::Member(edit, "item");
    broken(alloc, Fault::BadMutex, BrokenRule::NoItem, &location)
}

/// F5 at the edits where there are too many.
fn few_edits(node: &Node<'_, '_, '_>, edits: &[TaskEdit]) -> Result<(), ReadFault>
    ensures { Gives (λ done. done) result (few_edits (location_of node.now) edits.now) }
{
    if edits.len() <= MOST_EDITS {
        return Ok(());
    }
    let location = Location::Member(node.location, "edits");
    let rule = BrokenRule::Edits(MOST_EDITS);
    Err(broken(node.alloc, Fault::BadArgument, rule, &location))
}

/// The value that the document of the text is, which was read before: only memory can be wanting.
#[tactic(auto, using(session_text::proofs::Documents::document_read))]
fn value_of(alloc: Global, text: &[u8], node: &Node<'_, '_, '_>) -> Result<Value, AllocError>
    requires { document text.now ≡ Ok (data_of node.now) }
    ensures { IfOk result (λ value. value_view value ≡ data_of node.now) }
{
    match Value::from_slice(alloc, text) {
        Ok(value) => Ok(value),
        Err(_) => Err(AllocError),
    }
}

/// The workloads, or the fault of the first one, or else of its first edit at fault.
#[tactic(auto, unfolding(crate::specs::Edited::edited_accepted))]
fn edited_accepted(
    text: &[u8],
    node: &Node<'_, '_, '_>,
    workload: &Gathered<'_, '_>,
    array: &Item<'_, '_>,
    shapes: Shapes,
    edits: &[TaskEdit],
) -> Result<EditedWorkload, ReadFault>
    requires text { document text.now ≡ Ok (data_of node.now) }
    requires workload { get (codes "workload") (data_of node.now) ≡ Some (view workload.now) }
    requires edits { get (codes "edits") (data_of node.now) ≡ Some (view array.now) }
    ensures { Gives (λ read. read) result
        (edited_accepted (location_of node.now) (data_of node.now) (view workload.now)
        (shapes_view shapes) edits.now) }
{
    let checked = accepted_under(
        &Node {
            alloc: node.alloc,
            location: &Location::Member(node.location, "workload"),
            value: workload,
        },
        shapes,
    )?;
    few_edits(node, edits)?;
    let whole = value_of(node.alloc, text, node)?;
    let making = Making {
        alloc: node.alloc,
        header: checked.header(),
        outer: node.location,
        location: &Location::Member(node.location, "edits"),
        array,
        values: &whole["edits"],
    };
    let edited = making.all(edits, &whole["workload"])?;
    Ok(EditedWorkload {
        workload: checked,
        edited,
    })
}

/// The text of the value.
#[tactic(auto, using(crate::proofs::Texts::read_back))]
fn text_of(alloc: Global, value: &Value) -> Result<Vec<u8>, AllocError>
    requires { nat_le (depth (value_view value.now)) max_depth ≡ true }
    ensures { IfOk result (λ text. document text.items ≡ Ok (value_view value.now)) }
{
    Ok(value.to_vec(alloc)?)
}

/// The workload that the document is, as it is read as the member `workload` of what stands at the
/// location.
fn read_in(
    alloc: Global,
    outer: &Location<'_>,
    document: &Document<'_>,
) -> Result<CheckedWorkload, ReadFault>
    ensures { Gives (λ workload. workload) result
        (workload_at (member_path (path_of outer.now) (codes "workload"))
        (document_view document.now)) }
{
    let node = Node {
        alloc,
        location: &Location::Member(outer, "workload"),
        value: &Gathered::of(document.root()),
    };
    workload_at(&node)
}

/// The same of the value, which a text spells.
fn read_spelled(
    alloc: Global,
    outer: &Location<'_>,
    value: &Value,
) -> Result<CheckedWorkload, ReadFault>
    requires { nat_le (depth (value_view value.now)) max_depth ≡ true }
    ensures { Gives (λ workload. workload) result
        (workload_at (member_path (path_of outer.now) (codes "workload"))
        (value_view value.now)) }
{
    let text = text_of(alloc, value)?;
    let mut scratch = Scratch::new(alloc);
    match document(alloc, text.as_slice(), &mut scratch) {
        Ok(document) => read_in(alloc, outer, &document),
        // The text is a document, so only memory can be wanting.
        Err(_) => Err(ReadFault::Memory),
    }
}

/// The workload that a text of the value is, as it is read as the member `workload` of what stands
/// at the location.
fn read_at(alloc: Global, outer: &Location<'_>, value: &Value) -> Result<CheckedWorkload, ReadFault>
    ensures { Gives (λ workload. workload) result
        (read_at (member_path (path_of outer.now) (codes "workload")) (value_view value.now)) }
{
    if !nests_within(value, MAX_DEPTH) {
        return Err(not_json(alloc));
    }
    read_spelled(alloc, outer, value)
}

/// H1.
fn not_json(alloc: Global) -> ReadFault
    ensures { StopsAt not_json result }
{
    let fault = TextFault {
        why: Why::NotJson,
        path: Path::empty(),
        detail: Detail::None,
    };
    ReadFault::of(alloc, fault)
}

/// The fault, told at the location.
fn told_there(alloc: Global, location: &Location<'_>, fault: TextFault) -> ReadFault
    ensures { StopsAt
        (record { why = fault.why; path = path_text (path_of location.now); detail = fault.detail })
        result }
{
    let TextFault { why, detail, .. } = fault;
    ReadFault::at(alloc, location, why, detail)
}

/// The item of that index. Those before it are walked.
fn nth<'t, 'v>(items: &mut Items<'t, 'v>, index: usize) -> Option<Item<'t, 'v>>
    ensures { option_map view result ≡ get_item index (items_view items.old) }
{
    let first = items.next()?;
    if index == 0 {
        Some(first)
    } else {
        nth(items, index - 1)
    }
}

/// What edits of a workload are made with.
#[derive(Clone, Copy)]
struct Making<'m, 'p, 't, 'v> {
    alloc: Global,
    header: &'m Header,
    /// Where the document stands.
    outer: &'m Location<'p>,
    /// Where the array of the edits stands.
    location: &'m Location<'p>,
    array: &'m Item<'t, 'v>,
    /// The same array.
    values: &'m Value,
}

impl<'t, 'v> Making<'_, '_, 't, 'v> {
    /// The edit of that index.
    fn said(&self, index: usize) -> Option<Item<'t, 'v>>
        ensures { option_map view result ≡ item_of index (Some (view self.now.array.now)) }
    {
        let mut items = self.array.as_array()?;
        nth(&mut items, index)
    }

    /// The index of the task that has the number, or F3 at the edit.
    fn task_index(&self, index: usize, task: u32) -> Result<usize, ReadFault>
        ensures { Gives (λ task. task) result
            (task_index self.now.header.now (item_path (path_of self.now.location.now) index)
            (item_of index (Some (view self.now.array.now))) task) }
    {
        let cores = self.header.config.cores;
        if cores <= task {
            return Ok((task - cores) as usize);
        }
        let said = self.said(index);
        let location = Location::Item(self.location, index);
        let flaw = StepFlaw::Task(task);
        Err(item_fault(self.alloc, self.header, &location, said.as_ref(), flaw))
    }

    /// What the edit makes of the workload, if it can be made.
    fn made(
        &self,
        index: usize,
        task: usize,
        edit: &TaskEdit,
        workload: &Value,
    ) -> Result<Option<Value>, AllocError>
        requires { value_view self.now.values.now ≡ view self.now.array.now }
        ensures { IfOk result
            (λ made. option_map value_view made
            ≡ option_and_then
            (λ said. edited task edit.now.change said (value_view workload.now))
            (item_of index (Some (view self.now.array.now)))) }
    {
        match self.values.get(index) {
            Some(said) => edited(self.alloc, task, &edit.change, said, workload),
            None => Ok(None),
        }
    }

    /// What was made, or F4 at the path of the edit.
    fn made_or_fault(&self, index: usize, made: Option<Value>) -> Result<Value, ReadFault>
        ensures { Gives value_view result
            (made_or_fault (item_path (path_of self.now.location.now) index)
            (option_map value_view made)) }
    {
        match made {
            Some(made) => Ok(made),
            None => Err(no_item(self.alloc, &Location::Item(self.location, index))),
        }
    }

    /// The workload that the edit leaves, or its fault, told at the edit.
    fn left_by(&self, index: usize, value: &Value) -> Result<CheckedWorkload, ReadFault>
        ensures { Gives (λ workload. workload) result
            (told_at (item_path (path_of self.now.location.now) index)
            (read_at (member_path (path_of self.now.outer.now) (codes "workload"))
            (value_view value.now))) }
    {
        match read_at(self.alloc, self.outer, value) {
            Ok(workload) => Ok(workload),
            Err(ReadFault::Memory) => Err(ReadFault::Memory),
            Err(ReadFault::Fault(fault)) => {
                let location = Location::Item(self.location, index);
                Err(told_there(self.alloc, &location, Box::into_inner(fault)))
            }
        }
    }

    /// The data that the edit leaves, and the workload that it is.
    #[tactic(auto, unfolding(crate::specs::Edited::edit_made))]
    fn one(
        &self,
        index: usize,
        edit: &TaskEdit,
        workload: &Value,
    ) -> Result<(Value, CheckedWorkload), ReadFault>
        requires { value_view self.now.values.now ≡ view self.now.array.now }
        ensures { Gives (λ made. (value_view made.0, made.1)) result
            (edit_made self.now.header.now
            (member_path (path_of self.now.outer.now) (codes "workload"))
            (item_path (path_of self.now.location.now) index)
            (item_of index (Some (view self.now.array.now))) edit.now
            (value_view workload.now)) }
    {
        let task = self.task_index(index, edit.task)?;
        let made = self.made(index, task, edit, workload)?;
        let left = self.made_or_fault(index, made)?;
        let read = self.left_by(index, &left)?;
        Ok((left, read))
    }

    /// The edits, made one after another, and the workload that the last one leaves.
    fn all(
        &self,
        edits: &[TaskEdit],
        workload: &Value,
    ) -> Result<Option<CheckedWorkload>, ReadFault>
        requires { value_view self.now.values.now ≡ view self.now.array.now }
        ensures { Gives (λ last. last) result
            (edits_made self.now.header.now
            (member_path (path_of self.now.outer.now) (codes "workload"))
            (path_of self.now.location.now) (Some (view self.now.array.now)) 0 edits.now
            (value_view workload.now) None) }
    {
        let mut left = workload.clone()?;
        let mut last = None;
        for (index, edit) in edits.iter().enumerate() {
            let (next, read) = self.one(index, edit, &left)?;
            left = next;
            last = Some(read);
        }
        Ok(last)
    }
}
