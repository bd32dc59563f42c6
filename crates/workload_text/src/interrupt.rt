//! The interrupts of a workload.
ghost use Rattle.std.specs.Prelude.{◌≡◌, codes, map};
ghost use Rattle.serde_json.specs.Find.{get};
ghost use Rattle.json_data.specs.View.{view};
ghost use Rattle.session_text.specs.Node.{data_of, location_of};
ghost use Rattle.session_text.specs.ReadingRules.{Gives};
ghost use Rattle.workload_text.specs.Interrupts.{as_units, interrupt_kind_at, interrupt_kind_of, interrupt_members, interrupt_words, interrupts_at, period_at, units_at};

use bench_types::{NotifyAction, Step};
use json_data::Item;
use session_text::{
    Expected, Format, Kind, Names, Node, ReadFault, ReadItem, list_at, step_of_core_at,
};
use task_programs::Interrupt;

fn as_units(value: &Item<'_, '_>) -> Option<u64>
    ensures { result ≡ as_units (view value.now) }
{
    value.as_u64()
}

/// A number of 64 bits.
#[tactic(auto, unfolding(crate::specs::Interrupts::units_at))]
fn units_at(node: &Node<'_, '_, '_>, name: &str) -> Result<u64, ReadFault>
    ensures { Gives (λ units. units) result
        (units_at (location_of node.now) name.now (data_of node.now)) }
{
    let value = node.member(name)?;
    node.typed(name, Expected::Number, &value, as_units(&value))
}

/// After how many units it comes again.
fn period_at(node: &Node<'_, '_, '_>) -> Result<Option<u64>, ReadFault>
    ensures { Gives (λ every. every) result
        (period_at (location_of node.now) (data_of node.now)) }
{
    match node.value.item().get("every") {
        None => Ok(None),
        Some(value) => {
            let units = node.typed("every", Expected::Number, &value, as_units(&value))?;
            Ok(Some(units))
        }
    }
}

/// What the word says of an interrupt.
fn interrupt_kind_of(word: &str) -> Option<Kind>
    ensures { result ≡ interrupt_kind_of word.now }
{
    match Kind::of(Format::Three, word) {
        Some(Kind::Interrupt) => Some(Kind::Interrupt),
        Some(Kind::QueueInterrupt(direction)) => Some(Kind::QueueInterrupt(direction)),
        Some(Kind::ResumeInterrupt) => Some(Kind::ResumeInterrupt),
        _ => None,
    }
}

fn interrupt_words() -> &'static [&'static str]
    ensures { map (λ word. word.now) result.now ≡ interrupt_words }
{
    &["isr_notify", "isr_send", "isr_receive", "isr_resume"]
}

#[tactic(auto, unfolding(crate::specs::Interrupts::interrupt_kind_at))]
fn interrupt_kind_at(node: &Node<'_, '_, '_>) -> Result<Kind, ReadFault>
    ensures { Gives (λ which. which) result
        (interrupt_kind_at (location_of node.now) (data_of node.now)) }
{
    let word = node.text("do")?;
    node.meant("do", word, interrupt_words(), interrupt_kind_of(word))
}

fn interrupt_members(what: Step) -> &'static [&'static str]
    ensures { map (λ name. name.now) result.now ≡ interrupt_members what }
{
    match what {
        Step::Interrupt { note, .. } => match note.action {
            NotifyAction::Nothing | NotifyAction::Increment => {
                &["at", "every", "core", "do", "to", "action", "index"]
            }
            NotifyAction::SetBits(_) | NotifyAction::Set(_) | NotifyAction::SetNew(_) => {
                &[
                    "at", "every", "core", "do", "to", "action", "value", "index",
                ]
            }
        },
        Step::QueueInterrupt { .. } => &["at", "every", "core", "do", "queue"],
        Step::ResumeInterrupt { .. } => &["at", "every", "core", "do", "to"],
        Step::Tick | Step::Switch { .. } | Step::Call { .. } | Step::Pass { .. } => &[],
    }
}

/// Reads interrupts, under the names of the tasks.
#[derive(Clone, Copy)]
struct InterruptReader<'n, 'a> {
    names: &'n Names<'a>,
}

impl<'v> ReadItem<'v> for InterruptReader<'_, '_> {
    type Item = Interrupt;

    ghost use Rattle.workload_text.specs.Interrupts.{interrupt_at};

    ghost reading = { λ interrupts. interrupt_at interrupts.names.now };

    #[tactic(auto, unfolding(crate::specs::Interrupts::interrupt_at))]
    fn read(&self, node: &Node<'_, '_, 'v>) -> Result<Interrupt, ReadFault> {
        let members = node.object()?;
        let at = units_at(node, "at")?;
        let every = period_at(node)?;
        let kind = interrupt_kind_at(node)?;
        let what = step_of_core_at(Format::Three, self.names, kind, node)?;
        node.only(interrupt_members(what), &members)?;
        Ok(Interrupt { at, every, what })
    }
}

/// The interrupts, which may be left out.
pub(crate) fn interrupts_at(
    names: &Names<'_>,
    node: &Node<'_, '_, '_>,
) -> Result<Vec<Interrupt>, ReadFault>
    ensures { Gives (λ interrupts. interrupts.items) result
        (interrupts_at names.now (location_of node.now) (data_of node.now)) }
{
    match node.value.item().get("interrupts") {
        None => Ok(Vec::new(node.alloc)),
        Some(_) => list_at(&InterruptReader { names }, node, "interrupts"),
    }
}
