//! Steps of two runs that stand beside one another.
ghost use Rattle.std.specs.Prelude.{◌≡◌};
ghost use Rattle.bench_model.specs.SameTest.{are_same_calls, are_same_directions, are_same_notes};
ghost use Rattle.settled_runs.specs.SettleLaws.{comes_from_outside};
ghost use Rattle.run_comparisons.specs.Alike.{are_alike};

use bench_types::{Call, Direction, Note, Step};

fn are_same_calls(call: Call, other: Call) -> bool
    ensures { result ≡ are_same_calls call other }
{
    call == other
}

fn are_same_notes(note: Note, other: Note) -> bool
    ensures { result ≡ are_same_notes note other }
{
    note == other
}

fn are_same_directions(direction: Direction, other: Direction) -> bool
    ensures { result ≡ are_same_directions direction other }
{
    direction == other
}

/// Whether the steps are equal, or one call of one task, on whatever cores.
pub(crate) fn are_alike(step: &Step, other: &Step) -> bool
    ensures { result ≡ are_alike step.now other.now }
{
    match (*step, *other) {
        (Step::Tick, Step::Tick) => true,
        (Step::Switch { core }, Step::Switch { core: other }) => core == other,
        (
            Step::Call { task, call, .. },
            Step::Call {
                task: caller,
                call: made,
                ..
            },
        ) => task == caller && are_same_calls(call, made),
        (
            Step::Interrupt { core, note },
            Step::Interrupt {
                core: other,
                note: sent,
            },
        ) => core == other && are_same_notes(note, sent),
        (
            Step::QueueInterrupt {
                core,
                queue,
                direction,
            },
            Step::QueueInterrupt {
                core: other,
                queue: others,
                direction: way,
            },
        ) => core == other && queue == others && are_same_directions(direction, way),
        (
            Step::ResumeInterrupt { core, task },
            Step::ResumeInterrupt {
                core: other,
                task: resumed,
            },
        ) => core == other && task == resumed,
        (Step::Pass { units }, Step::Pass { units: others }) => units == others,
        _ => false,
    }
}

/// A tick, time that passes, or an interrupt.
pub(crate) fn comes_from_outside(step: &Step) -> bool
    ensures { result ≡ comes_from_outside step.now }
{
    matches!(
        step,
        Step::Tick
            | Step::Interrupt { .. }
            | Step::QueueInterrupt { .. }
            | Step::ResumeInterrupt { .. }
            | Step::Pass { .. }
    )
}
