//! What people are told of a rule of workloads that is broken.
ghost use Rattle.std.specs.Prelude.{◌≡◌, ◌++◌, OnOk, string_bytes};
ghost use Rattle.program_io.specs.Rule.{at_most, rule_text};

use session_text::BrokenRule;
use std::alloc::AllocError;

// A limit: so many of these at most.
fn push_most(text: &mut String, what: &str, most: usize, of: &str) -> Result<(), AllocError>
    ensures { OnOk result
        (string_bytes text.new ≡ string_bytes text.old ++ at_most what.now most of.now) }
{
    write!(text, "{what} {most} {of} at most")
}

/// What may stand there.
pub(crate) fn push_rule(text: &mut String, rule: BrokenRule) -> Result<(), AllocError>
    ensures { OnOk result (string_bytes text.new ≡ string_bytes text.old ++ rule_text rule) }
{
    match rule {
        BrokenRule::Unreached => {
            text.push_str(
                "no run comes here: a break, or a forever that no break leaves, is before",
            )
        }
        BrokenRule::NoWork => text.push_str("work has to be 1 or more"),
        BrokenRule::NoWorks => text.push_str("a list of works has one at least"),
        BrokenRule::Finish => text.push_str("a task finishes its calls by itself"),
        BrokenRule::NoRounds => text.push_str("repeat has to be 1 or more"),
        BrokenRule::NoBody => text.push_str("a loop has items, and none begins with break"),
        BrokenRule::NoLoop => text.push_str("no loop is around this break"),
        BrokenRule::Nesting(most) => {
            push_most(
                text,
                "around an item stand",
                most,
                "loops and calls with branches",
            )
        }
        BrokenRule::NoPeriod => text.push_str("every has to be 1 or more"),
        BrokenRule::Items(most) => push_most(text, "all programs together have", most, "items"),
        BrokenRule::Ticks(most) => {
            push_most(text, "a workload goes on for", most as usize, "ticks")
        }
        BrokenRule::Edits(most) => push_most(text, "a workload has", most, "edits"),
        BrokenRule::NoItem => text.push_str("no item of the program stands at this path"),
    }
}
