//! Workload documents.
ghost use Rattle.std.specs.Prelude.{◌≡◌, [], codes, get_or, IfOk};
ghost use Rattle.std.specs.Result.{ForOk};
ghost use Rattle.json_data.specs.View.{document_view, view};
ghost use Rattle.bench_types.specs.Header.{IsCheckedHeader};
ghost use Rattle.session_text.specs.Array.{list_at};
ghost use Rattle.session_text.specs.Names.{known_names};
ghost use Rattle.session_text.specs.Node.{data_of, location_of};
ghost use Rattle.session_text.specs.ReadingRules.{Gives, StopsAt};
ghost use Rattle.session_text.specs.Session.{IsRefusedAtOnce, ReadsAs};
ghost use Rattle.session_text.specs.declared.fault.Why.TheVariants.{Bench};
ghost use Rattle.session_text.specs.Path.{item_path, member_path, path_of, path_text};
ghost use Rattle.task_programs.specs.Flaw.{instruction_fault, interrupt_fault};
ghost use Rattle.workload_text.specs.Places.{place_in};
ghost use Rattle.workload_text.specs.ShapesView.{shapes_view};
ghost use Rattle.workload_text.specs.Workloads.{accepted_under, contents_at, document_at, flaw_told, format_at, header_at, held_at, instruction_detail, instruction_path, interrupt_detail, judged, most_lists, program_at, shapes_at, workload_at, workload_text};

use crate::interrupt::interrupts_at;
use crate::item::{ItemReader, branch_at};
use crate::place::Flawed;
use bench_types::{Header, HeaderFlaw, Items};
use json_data::{Document, Gathered, Scratch};
use session_text::{
    BrokenRule, Detail, Format, Location, Names, Node, ReadFault, ReadItem, TaskShape, TextFault,
    Why, document, judged_header, known_names, list_at, settings_at,
};
use std::alloc::Global;
use task_programs::{
    CheckedWorkload, Instruction, InstructionFlaw, Interrupt, InterruptFlaw, MAX_ITEMS, MAX_TICKS,
    Program, Workload, WorkloadFlaw,
};

/// How often lists of items stand in one another at most.
const MOST_LISTS: u32 = 17;

/// Reads a workload from a JSON text: a session of format 3 with `program` in its tasks,
/// `interrupts` and `ticks`, and no `steps`; or an object with `workload` alone.
///
/// F5 at an item in which items stand that have more loops and calls with branches around them than
/// may be is told before other faults F1 to F5.
#[tactic(auto, unfolding(crate::specs::Workloads::workload_text))]
pub fn read_workload(alloc: Global, text: &[u8]) -> Result<CheckedWorkload, TextFault>
    // The workload, or the first fault with its path, or that memory ran out.
    ensures reading { ReadsAs (λ workload. workload) result (workload_text text.now) }
    ensures no_text { IsRefusedAtOnce text.now result }
{
    let mut scratch = Scratch::new(alloc);
    let document = document(alloc, text, &mut scratch)?;
    Ok(workload_in(alloc, &document)?)
}

/// The workload that is the document.
fn workload_in(alloc: Global, document: &Document<'_>) -> Result<CheckedWorkload, ReadFault>
    ensures { Gives (λ workload. workload) result (document_at [] (document_view document.now)) }
{
    document_at(&Node {
        alloc,
        location: &Location::Top,
        value: &Gathered::of(document.root()),
    })
}

/// The workload that the value is, or that is its member `workload`.
pub fn document_at(node: &Node<'_, '_, '_>) -> Result<CheckedWorkload, ReadFault>
    ensures { Gives (λ workload. workload) result
        (document_at (location_of node.now) (data_of node.now)) }
{
    match node.value.item().get("workload") {
        Some(workload) => held_at(node, &Gathered::of(workload)),
        None => workload_at(node),
    }
}

/// The workload, which was found as the member `workload`.
#[tactic(auto, unfolding(crate::specs::Workloads::held_at))]
fn held_at(
    node: &Node<'_, '_, '_>,
    workload: &Gathered<'_, '_>,
) -> Result<CheckedWorkload, ReadFault>
    ensures { Gives (λ workload. workload) result
        (held_at (location_of node.now) (data_of node.now) (view workload.now)) }
{
    let members = node.object()?;
    let inner = Node {
        alloc: node.alloc,
        location: &Location::Member(node.location, "workload"),
        value: workload,
    };
    let shapes = shapes_at(&inner)?;
    node.only(&["workload"], &members)?;
    accepted_under(&inner, shapes)
}

/// The workload that the value is.
#[tactic(auto, unfolding(crate::specs::Workloads::workload_at))]
pub fn workload_at(node: &Node<'_, '_, '_>) -> Result<CheckedWorkload, ReadFault>
    ensures { Gives (λ workload. workload) result
        (workload_at (location_of node.now) (data_of node.now)) }
{
    let shapes = shapes_at(node)?;
    accepted_under(node, shapes)
}

/// What a document has.
#[derive(Drop)]
pub struct Shapes {
    /// Accepted or not.
    pub header: Result<Header, HeaderFlaw>,
    programs: Vec<Program>,
    interrupts: Vec<Interrupt>,
    ticks: u32,
}

#[tactic(auto, unfolding(crate::specs::Workloads::format_at))]
fn format_at(node: &Node<'_, '_, '_>) -> Result<(), ReadFault>
    ensures { Gives (λ done. done) result (format_at (location_of node.now) (data_of node.now)) }
{
    let format = node.number("format")?;
    if format == 3 {
        Ok(())
    } else {
        Err(node.bad_member("format", Detail::NoFormat))
    }
}

/// Reads the user tasks, but for their programs.
struct TaskReader;

impl<'v> ReadItem<'v> for TaskReader {
    type Item = TaskShape<'v>;

    ghost use Rattle.workload_text.specs.Workloads.{task_at};

    ghost reading = { λ _. task_at };

    #[tactic(auto, unfolding(crate::specs::Workloads::task_at))]
    fn read(&self, node: &Node<'_, '_, 'v>) -> Result<TaskShape<'v>, ReadFault> {
        let members = node.object()?;
        let name = node.text("name")?;
        let priority = node.number("priority")?;
        let mask = node.number("mask")?;
        node.only(&["name", "priority", "mask", "program"], &members)?;
        Ok(TaskShape {
            name,
            priority,
            mask,
        })
    }
}

#[tactic(auto, unfolding(crate::specs::Workloads::header_at))]
fn header_at(node: &Node<'_, '_, '_>) -> Result<Result<Header, HeaderFlaw>, ReadFault>
    ensures reading { Gives (λ header. header) result
        (header_at (location_of node.now) (data_of node.now)) }
    ensures valid { IfOk result (λ header. IfOk header IsCheckedHeader) }
{
    let (config, queues) = settings_at(Format::Three, node)?;
    let shapes = list_at(&TaskReader, node, "tasks")?;
    Ok(judged_header(node.alloc, config, queues, shapes.as_slice())?)
}

/// Reads the programs of tasks, under their names.
#[derive(Clone, Copy)]
struct ProgramReader<'n, 'a> {
    items: ItemReader<'n, 'a>,
}

impl<'v> ReadItem<'v> for ProgramReader<'_, '_> {
    type Item = Items<Instruction>;

    ghost use Rattle.workload_text.specs.Workloads.{program_at};

    ghost reading = { λ reader. program_at reader.items.names.now };

    fn read(&self, node: &Node<'_, '_, 'v>) -> Result<Items<Instruction>, ReadFault> {
        Ok(Items::new(branch_at(&self.items, MOST_LISTS, "program", node, 0)?))
    }
}

/// The programs of the tasks.
fn programs_at(names: &Names<'_>, node: &Node<'_, '_, '_>) -> Result<Vec<Program>, ReadFault>
    ensures { Gives (λ programs. programs.items) result
        (list_at (program_at names.now) (location_of node.now) (codes "tasks")
        (data_of node.now)) }
{
    let items = ItemReader {
        alloc: node.alloc,
        names,
    };
    list_at(&ProgramReader { items }, node, "tasks")
}

/// The programs, the interrupts and the ticks, under the names of the header.
#[tactic(auto, unfolding(crate::specs::Workloads::contents_at))]
fn contents_at(
    header: Result<Header, HeaderFlaw>,
    node: &Node<'_, '_, '_>,
) -> Result<Shapes, ReadFault>
    requires { ForOk header IsCheckedHeader }
    ensures reading { Gives shapes_view result
        (contents_at header (location_of node.now) (data_of node.now)) }
    ensures valid { IfOk result (λ shapes. IfOk shapes.header IsCheckedHeader) }
{
    let names = known_names(node.alloc, &header)?;
    let programs = programs_at(&names, node)?;
    let interrupts = interrupts_at(&names, node)?;
    drop(names);
    let ticks = node.number("ticks")?;
    Ok(Shapes {
        header,
        programs,
        interrupts,
        ticks,
    })
}

/// What the document has: shapes alone are judged.
#[tactic(auto, unfolding(crate::specs::Workloads::shapes_at))]
pub fn shapes_at(node: &Node<'_, '_, '_>) -> Result<Shapes, ReadFault>
    ensures reading { Gives shapes_view result
        (shapes_at (location_of node.now) (data_of node.now)) }
    ensures valid { IfOk result (λ shapes. IfOk shapes.header IsCheckedHeader) }
{
    let members = node.object()?;
    format_at(node)?;
    let header = header_at(node)?;
    let shapes = contents_at(header, node)?;
    node.only(
        &[
            "format",
            "cores",
            "priorities",
            "slicing",
            "tick",
            "mutexes",
            "notes",
            "queues",
            "units",
            "tasks",
            "interrupts",
            "ticks",
        ],
        &members,
    )?;
    Ok(shapes)
}

/// The workload, or F1 for the flaw of its header, or the fault of its first flaw.
pub fn accepted_under(node: &Node<'_, '_, '_>, shapes: Shapes) -> Result<CheckedWorkload, ReadFault>
    ensures { Gives (λ workload. workload) result
        (accepted_under (location_of node.now) shapes.header shapes.programs.items
        shapes.interrupts.items shapes.ticks) }
{
    let Shapes {
        header,
        programs,
        interrupts,
        ticks,
    } = shapes;
    match header {
        Err(flaw) => Err(ReadFault::of_header(node.alloc, node.location, flaw)),
        Ok(header) => judged(
            node,
            Workload {
                header,
                programs: Items::new(programs),
                interrupts: Items::new(interrupts),
                ticks,
            },
        ),
    }
}

fn judged(node: &Node<'_, '_, '_>, workload: Workload) -> Result<CheckedWorkload, ReadFault>
    ensures { Gives (λ workload. workload) result (judged (location_of node.now) workload) }
{
    match workload.flaw() {
        None => Ok(CheckedWorkload::unflawed(workload)),
        Some(flaw) => Err(flaw_told(node, &workload, flaw)),
    }
}

/// The fault of the flaw, at its place.
fn flaw_told(node: &Node<'_, '_, '_>, workload: &Workload, flaw: WorkloadFlaw) -> ReadFault
    ensures { StopsAt (flaw_told (location_of node.now) workload.now flaw) result }
{
    let why = Why::Bench(flaw.fault());
    match flaw {
        WorkloadFlaw::Header(_) | WorkloadFlaw::NoQueues | WorkloadFlaw::Programs(_) => {
            ReadFault::at(node.alloc, node.location, why, Detail::None)
        }
        WorkloadFlaw::Items => {
            let location = Location::Member(node.location, "tasks");
            let rule = BrokenRule::Items(MAX_ITEMS);
            ReadFault::at(node.alloc, &location, why, Detail::Rule(rule))
        }
        WorkloadFlaw::Instruction { task, index, flaw } => {
            instruction_told(node, workload, task, index, flaw)
        }
        WorkloadFlaw::Interrupt { index, flaw } => interrupt_told(node, index, flaw),
        WorkloadFlaw::Ticks(_) => {
            let location = Location::Member(node.location, "ticks");
            let rule = BrokenRule::Ticks(MAX_TICKS);
            ReadFault::at(node.alloc, &location, why, Detail::Rule(rule))
        }
    }
}

// No workload that was read has an interrupt that is none.
fn interrupt_detail(flaw: InterruptFlaw) -> Detail
    ensures { result ≡ interrupt_detail flaw }
{
    match flaw {
        InterruptFlaw::NoPeriod => Detail::Rule(BrokenRule::NoPeriod),
        InterruptFlaw::NoInterrupt => Detail::None,
        InterruptFlaw::Step(flaw) => Detail::Step(flaw),
    }
}

/// The fault of the interrupt of those at the location.
fn item_told(
    alloc: Global,
    interrupts: &Location<'_>,
    index: usize,
    flaw: InterruptFlaw,
) -> ReadFault
    ensures { StopsAt
        (record {
          why = Bench (interrupt_fault flaw);
          path = path_text (item_path (path_of interrupts.now) index);
          detail = interrupt_detail flaw;
        }) result }
{
    let location = Location::Item(interrupts, index);
    let why = Why::Bench(flaw.fault());
    ReadFault::at(alloc, &location, why, interrupt_detail(flaw))
}

fn interrupt_told(node: &Node<'_, '_, '_>, index: usize, flaw: InterruptFlaw) -> ReadFault
    ensures { StopsAt
        (record {
          why = Bench (interrupt_fault flaw);
          path = path_text (item_path (member_path (location_of node.now) (codes "interrupts")) index);
          detail = interrupt_detail flaw;
        }) result }
{
    let interrupts = Location::Member(node.location, "interrupts");
    item_told(node.alloc, &interrupts, index, flaw)
}

fn instruction_told(
    node: &Node<'_, '_, '_>,
    workload: &Workload,
    task: usize,
    index: usize,
    flaw: InstructionFlaw,
) -> ReadFault
    ensures { StopsAt
        (record {
          why = Bench (instruction_fault flaw);
          path = path_text
              (instruction_path (location_of node.now) workload.now.programs task index);
          detail = instruction_detail flaw;
        }) result }
{
    let flawed = Flawed {
        program: program_of(workload.programs.as_slice(), task),
        index,
        flaw,
    };
    let tasks = Location::Member(node.location, "tasks");
    program_told(node.alloc, &tasks, task, &flawed)
}

/// The fault of the program of the task of those at the location.
fn program_told(alloc: Global, tasks: &Location<'_>, task: usize, flawed: &Flawed<'_>) -> ReadFault
    ensures { StopsAt
        (record {
          why = Bench (instruction_fault flawed.now.flaw);
          path = path_text
              (place_in flawed.now.program.now flawed.now.index most_lists
              (member_path (item_path (path_of tasks.now) task) (codes "program")) 0);
          detail = instruction_detail flawed.now.flaw;
        }) result }
{
    flawed.fault_in_member(
        alloc,
        MOST_LISTS,
        &Location::Item(tasks, task),
        "program",
        0,
    )
}

/// The program of the task, an empty one where there is none.
fn program_of(programs: &[Program], task: usize) -> &[Instruction]
    ensures { result.now ≡ get_or programs.now task [] }
{
    match programs.get(task) {
        Some(program) => program.as_slice(),
        None => &[],
    }
}
