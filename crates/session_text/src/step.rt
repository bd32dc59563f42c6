//! Steps, as texts write them.
ghost use Rattle.std.specs.Prelude.{◌≡◌, map, true};
ghost use Rattle.json_data.specs.ObjectView.{members_view};
ghost use Rattle.json_data.specs.Reading.{are_known};
ghost use Rattle.session_text.specs.Detail.{words_of};
ghost use Rattle.session_text.specs.declared.format.Format.TheVariants.{One, Three, Two};
ghost use Rattle.session_text.specs.Member.{only_at};
ghost use Rattle.session_text.specs.Node.{data_of, location_of};
ghost use Rattle.session_text.specs.ReadingRules.{Gives};
ghost use Rattle.session_text.specs.Step.{kind_among, kind_at, kinds, kinds_in, members_of, members_of_call, pass_kinds, step_at, step_kind_at, step_kind_of, step_of_core_at, step_of_kind_at, step_words, third_kinds};

use crate::action::action_number;
use crate::array::ReadItem;
use crate::call::{CallKind, call_at, call_members, interrupt_members, note_at};
use crate::fault::ReadFault;
use crate::format::Format;
use crate::names::Names;
use crate::node::Node;
use bench_types::{Call, Direction, Step};
use json_data::Object;

/// What `do` says of an action, and of a step that a core makes.
#[derive(Clone, Copy)]
pub enum Kind {
    Tick,
    Switch,
    Call(CallKind),
    Interrupt,
    QueueInterrupt(Direction),
    ResumeInterrupt,
}

/// What `do` says of a step.
#[derive(Clone, Copy)]
enum StepKind {
    OfCore(Kind),
    Pass,
}

/// How many words of `do` each format has; format 3 has more behind them.
const FEWEST_WORDS: usize = 20;

/// How many words of `do` an action has in format 3; a step has one more behind them.
const ACTION_WORDS: usize = 27;

impl Kind {
    #[tactic(auto, using(crate::proofs::Lists::map_take))]
    fn words(format: Format) -> &'static [&'static str]
        ensures { map (λ word. word.now) result.now ≡ words_of (kinds_in format) }
    {
        match format {
            Format::One | Format::Two => StepKind::words(format),
            Format::Three => &StepKind::all_words()[..ACTION_WORDS],
        }
    }

    pub fn of(format: Format, word: &str) -> Option<Kind>
        ensures { result ≡ kind_among (kinds_in format) word.now }
    {
        match format {
            Format::One | Format::Two => Kind::of_any_format(word),
            Format::Three => Kind::of_any_format(word).or(Kind::of_format_3(word)),
        }
    }

    /// What a word that each format has says.
    fn of_any_format(word: &str) -> Option<Kind>
        ensures { result ≡ kind_among kinds word.now }
    {
        match word {
            "tick" => Some(Kind::Tick),
            "switch" => Some(Kind::Switch),
            "isr_notify" => Some(Kind::Interrupt),
            "yield" => Some(Kind::Call(CallKind::Yield)),
            "delay" => Some(Kind::Call(CallKind::Delay)),
            "delay_until" => Some(Kind::Call(CallKind::DelayUntil)),
            "priority_set" => Some(Kind::Call(CallKind::PrioritySet)),
            "affinity_set" => Some(Kind::Call(CallKind::AffinitySet)),
            "preempt_off" => Some(Kind::Call(CallKind::PreemptOff)),
            "preempt_on" => Some(Kind::Call(CallKind::PreemptOn)),
            "notify" => Some(Kind::Call(CallKind::Notify)),
            "notify_wait" => Some(Kind::Call(CallKind::NotifyWait)),
            "notify_take" => Some(Kind::Call(CallKind::NotifyTake)),
            "state_clear" => Some(Kind::Call(CallKind::StateClear)),
            "value_clear" => Some(Kind::Call(CallKind::ValueClear)),
            "mutex_take" => Some(Kind::Call(CallKind::MutexTake)),
            "mutex_give" => Some(Kind::Call(CallKind::MutexGive)),
            "finish" => Some(Kind::Call(CallKind::Finish)),
            "hold_open" => Some(Kind::Call(CallKind::HoldOpen)),
            "hold_close" => Some(Kind::Call(CallKind::HoldClose)),
            _ => None,
        }
    }

    /// What a word that format 3 alone has says.
    fn of_format_3(word: &str) -> Option<Kind>
        ensures { result ≡ kind_among third_kinds word.now }
    {
        match word {
            "queue_send" => Some(Kind::Call(CallKind::QueueSend)),
            "queue_receive" => Some(Kind::Call(CallKind::QueueReceive)),
            "isr_send" => Some(Kind::QueueInterrupt(Direction::Send)),
            "isr_receive" => Some(Kind::QueueInterrupt(Direction::Receive)),
            "suspend" => Some(Kind::Call(CallKind::Suspend)),
            "resume" => Some(Kind::Call(CallKind::Resume)),
            "isr_resume" => Some(Kind::ResumeInterrupt),
            _ => None,
        }
    }
}

impl StepKind {
    #[tactic(auto, using(crate::proofs::Lists::map_take))]
    fn words(format: Format) -> &'static [&'static str]
        ensures { map (λ word. word.now) result.now ≡ step_words format }
    {
        match format {
            Format::One | Format::Two => &StepKind::all_words()[..FEWEST_WORDS],
            Format::Three => StepKind::all_words(),
        }
    }

    fn all_words() -> &'static [&'static str]
        ensures { map (λ word. word.now) result.now ≡ step_words Three }
    {
        &[
            "tick",
            "switch",
            "isr_notify",
            "yield",
            "delay",
            "delay_until",
            "priority_set",
            "affinity_set",
            "preempt_off",
            "preempt_on",
            "notify",
            "notify_wait",
            "notify_take",
            "state_clear",
            "value_clear",
            "mutex_take",
            "mutex_give",
            "finish",
            "hold_open",
            "hold_close",
            "queue_send",
            "queue_receive",
            "isr_send",
            "isr_receive",
            "suspend",
            "resume",
            "isr_resume",
            "pass",
        ]
    }

    fn of(format: Format, word: &str) -> Option<StepKind>
        ensures { result ≡ step_kind_of format word.now }
    {
        match Kind::of(format, word) {
            Some(kind) => Some(StepKind::OfCore(kind)),
            None => StepKind::of_no_core(format, word),
        }
    }

    /// What a word says that a step has and an action has not.
    fn of_no_core(format: Format, word: &str) -> Option<StepKind>
        ensures { result ≡ kind_among (pass_kinds format) word.now }
    {
        match format {
            Format::One | Format::Two => None,
            Format::Three => match word {
                "pass" => Some(StepKind::Pass),
                _ => None,
            },
        }
    }
}

/// The members that a step like this one has.
fn known_members(format: Format, step: &Step) -> &'static [&'static str]
    ensures { map (λ name. name.now) result.now ≡ members_of format step.now }
{
    match step {
        Step::Tick => &["do"],
        Step::Switch { .. } => &["core", "do"],
        Step::Call { call, .. } => call_members(format, *call),
        Step::Interrupt { note, .. } => interrupt_members(format, *note),
        Step::QueueInterrupt { .. } => &["core", "do", "queue"],
        Step::ResumeInterrupt { .. } => &["core", "do", "to"],
        Step::Pass { .. } => &["do", "units"],
    }
}

/// Whether each member is one that a step of a call like this one has in format 1. The names are
/// literals here, so that it comes down to comparisons with them.
#[inline(always)]
fn has_only_of_call(call: Call, members: &Object<'_, '_, '_>) -> bool
    ensures { result ≡ are_known (members_of_call One call) (members_view members.now) }
{
    match call {
        Call::Yield | Call::Finish | Call::HoldOpen | Call::HoldClose => {
            members.has_only(&["core", "by", "do"])
        }
        Call::Delay(_) => members.has_only(&["core", "by", "do", "ticks"]),
        Call::DelayUntil { .. } => members.has_only(&["core", "by", "do", "prev", "inc"]),
        Call::PrioritySet { .. } => members.has_only(&["core", "by", "do", "to", "priority"]),
        Call::AffinitySet { .. } => members.has_only(&["core", "by", "do", "to", "mask"]),
        Call::PreemptOff(_) | Call::PreemptOn(_) => members.has_only(&["core", "by", "do", "to"]),
        Call::Notify(note) => match action_number(note.action) {
            None => members.has_only(&["core", "by", "do", "to", "action"]),
            Some(_) => members.has_only(&["core", "by", "do", "to", "action", "value"]),
        },
        Call::NotifyWait { .. } => {
            members.has_only(&["core", "by", "do", "entry", "exit", "ticks"])
        }
        Call::NotifyTake { .. } => members.has_only(&["core", "by", "do", "clear", "ticks"]),
        Call::StateClear { .. } => members.has_only(&["core", "by", "do", "to"]),
        Call::ValueClear { .. } => members.has_only(&["core", "by", "do", "to", "bits"]),
        Call::MutexTake { .. } => members.has_only(&["core", "by", "do", "mutex", "ticks"]),
        Call::MutexGive(_) => members.has_only(&["core", "by", "do", "mutex"]),
        Call::QueueSend { .. } | Call::QueueReceive { .. } => {
            members.has_only(&["core", "by", "do", "queue", "ticks"])
        }
        Call::Suspend(_) | Call::Resume(_) => members.has_only(&["core", "by", "do", "to"]),
    }
}

/// Whether each member is one that a step like this one has in format 1.
#[inline(always)]
fn has_only_in_format_1(step: &Step, members: &Object<'_, '_, '_>) -> bool
    ensures { result ≡ are_known (members_of One step.now) (members_view members.now) }
{
    match step {
        Step::Tick => members.has_only(&["do"]),
        Step::Switch { .. } => members.has_only(&["core", "do"]),
        Step::Call { call, .. } => has_only_of_call(*call, members),
        Step::Interrupt { note, .. } => match action_number(note.action) {
            None => members.has_only(&["core", "do", "to", "action"]),
            Some(_) => members.has_only(&["core", "do", "to", "action", "value"]),
        },
        Step::QueueInterrupt { .. } => members.has_only(&["core", "do", "queue"]),
        Step::ResumeInterrupt { .. } => members.has_only(&["core", "do", "to"]),
        Step::Pass { .. } => members.has_only(&["do", "units"]),
    }
}

/// Whether each member is surely one that a step like this one has in format 2.
#[inline(always)]
fn has_only_in_format_2(step: &Step, members: &Object<'_, '_, '_>) -> bool
    ensures { result ≡ true
        → are_known (members_of Two step.now) (members_view members.now) ≡ true }
{
    match step {
        Step::Call { call, .. } => match call {
            Call::Notify(note) => match action_number(note.action) {
                None => members.has_only(&["core", "by", "do", "to", "action", "index"]),
                Some(_) => {
                    members.has_only(&["core", "by", "do", "to", "action", "value", "index"])
                }
            },
            Call::NotifyWait { .. } => {
                members.has_only(&["core", "by", "do", "entry", "exit", "ticks", "index"])
            }
            Call::NotifyTake { .. } => {
                members.has_only(&["core", "by", "do", "clear", "ticks", "index"])
            }
            Call::StateClear { .. } => members.has_only(&["core", "by", "do", "to", "index"]),
            Call::ValueClear { .. } => {
                members.has_only(&["core", "by", "do", "to", "bits", "index"])
            }
            _ => has_only_in_format_1(step, members),
        },
        Step::Interrupt { note, .. } => match action_number(note.action) {
            None => members.has_only(&["core", "do", "to", "action", "index"]),
            Some(_) => members.has_only(&["core", "do", "to", "action", "value", "index"]),
        },
        _ => has_only_in_format_1(step, members),
    }
}

/// The same in the format.
#[inline(always)]
#[tactic(auto, using(crate::proofs::Known::same_in_three))]
fn has_only_known(format: Format, step: &Step, members: &Object<'_, '_, '_>) -> bool
    ensures { result ≡ true
        → are_known (members_of format step.now) (members_view members.now) ≡ true }
{
    match format {
        Format::One => has_only_in_format_1(step, members),
        Format::Two => has_only_in_format_2(step, members),
        Format::Three => has_only_in_format_2(step, members),
    }
}

/// H2 where the step has a member that no step like it has.
#[inline(always)]
fn only_known(
    format: Format,
    node: &Node<'_, '_, '_>,
    step: &Step,
    members: &Object<'_, '_, '_>,
) -> Result<(), ReadFault>
    ensures { Gives (λ done. done) result
        (only_at (location_of node.now) (members_of format step.now) (members_view members.now)) }
{
    if has_only_known(format, step, members) {
        Ok(())
    } else {
        node.only(known_members(format, step), members)
    }
}

#[tactic(auto, unfolding(crate::specs::Step::kind_at))]
pub(crate) fn kind_at(format: Format, node: &Node<'_, '_, '_>) -> Result<Kind, ReadFault>
    ensures { Gives (λ kind. kind) result
        (kind_at format (location_of node.now) (data_of node.now)) }
{
    let word = node.text("do")?;
    node.meant("do", word, Kind::words(format), Kind::of(format, word))
}

#[tactic(auto, unfolding(crate::specs::Step::step_kind_at))]
fn step_kind_at(format: Format, node: &Node<'_, '_, '_>) -> Result<StepKind, ReadFault>
    ensures { Gives (λ kind. kind) result
        (step_kind_at format (location_of node.now) (data_of node.now)) }
{
    let word = node.text("do")?;
    node.meant(
        "do",
        word,
        StepKind::words(format),
        StepKind::of(format, word),
    )
}

#[tactic(auto, unfolding(crate::specs::Step::step_of_core_at))]
pub fn step_of_core_at(
    format: Format,
    names: &Names<'_>,
    kind: Kind,
    node: &Node<'_, '_, '_>,
) -> Result<Step, ReadFault>
    ensures { Gives (λ step. step) result
        (step_of_core_at format names.now kind (location_of node.now) (data_of node.now)) }
{
    match kind {
        Kind::Tick => Ok(Step::Tick),
        Kind::Switch => Ok(Step::Switch {
            core: node.number("core")?,
        }),
        Kind::Call(kind) => Ok(Step::Call {
            core: node.number("core")?,
            task: names.task_named_at(node, "by")?,
            call: call_at(format, names, kind, node)?,
        }),
        Kind::Interrupt => Ok(Step::Interrupt {
            core: node.number("core")?,
            note: note_at(format, names, node)?,
        }),
        Kind::QueueInterrupt(direction) => Ok(Step::QueueInterrupt {
            core: node.number("core")?,
            queue: node.number("queue")?,
            direction,
        }),
        Kind::ResumeInterrupt => Ok(Step::ResumeInterrupt {
            core: node.number("core")?,
            task: names.task_named_at(node, "to")?,
        }),
    }
}

#[tactic(auto, unfolding(crate::specs::Step::step_of_kind_at))]
fn step_of_kind_at(
    format: Format,
    names: &Names<'_>,
    kind: StepKind,
    node: &Node<'_, '_, '_>,
) -> Result<Step, ReadFault>
    ensures { Gives (λ step. step) result
        (step_of_kind_at format names.now kind (location_of node.now) (data_of node.now)) }
{
    match kind {
        StepKind::OfCore(kind) => step_of_core_at(format, names, kind, node),
        StepKind::Pass => Ok(Step::Pass {
            units: node.number("units")?,
        }),
    }
}

/// Reads steps in a format, under the names of the tasks.
#[derive(Clone, Copy)]
pub(crate) struct StepReader<'n, 'a> {
    pub(crate) format: Format,
    pub(crate) names: &'n Names<'a>,
}

impl<'v> ReadItem<'v> for StepReader<'_, '_> {
    type Item = Step;

    ghost reading = { λ steps. step_at steps.format steps.names.now };

    #[tactic(auto, unfolding(crate::specs::Step::step_at))]
    fn read(&self, node: &Node<'_, '_, 'v>) -> Result<Step, ReadFault> {
        let members = node.object()?;
        let kind = step_kind_at(self.format, node)?;
        let step = step_of_kind_at(self.format, self.names, kind, node)?;
        only_known(self.format, node, &step, &members)?;
        Ok(step)
    }
}
