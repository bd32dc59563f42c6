//! What an item of a program says, but for the items in it.
ghost use Rattle.std.specs.Prelude.{◌≡◌, codes, map};
ghost use Rattle.serde_json.specs.Find.{as_array, get};
ghost use Rattle.json_data.specs.View.{view};
ghost use Rattle.session_text.specs.Member.{as_u32};
ghost use Rattle.session_text.specs.Node.{data_of, location_of};
ghost use Rattle.session_text.specs.Path.{member_path};
ghost use Rattle.session_text.specs.ReadingRules.{Gives};
ghost use Rattle.task_programs.specs.declared.instruction.ProgramCall.TheVariants.{Made};
ghost use Rattle.workload_text.specs.Heads.{break_at, call_head_at, form_of, formed_at, head_at, made_at, members_of_head, members_of_program_call, notify_members, object_head_at, only_members_of, only_of, program_call_at, program_kind_at, program_kind_of, program_words, repeat_head_at, some_at, wake_at, works_at, works_or};

use bench_types::{Call, Items, NotifyAction};
use json_data::Item;
use session_text::{
    BrokenRule, CallKind, Detail, Expected, Format, Kind, Location, Names, Node, ReadFault,
    ReadItem, Stray, call_at, each,
};
use task_programs::ProgramCall;

/// What an item says, but for the items in it.
#[derive(Drop)]
pub(crate) enum Head {
    /// The innermost loop ends.
    Break,
    /// Works, used in turn.
    Works(Items<u32>),
    /// A call; items stand in `then` and `else`.
    Call(ProgramCall),
    /// A loop of so many rounds; its items stand in `of`.
    Repeat(u32),
    /// A loop for ever; its items stand in `forever`.
    Forever,
}

/// Which item an object is, by the members that it has.
#[derive(Clone, Copy)]
enum Form {
    Work,
    Repeat,
    Forever,
    Call,
}

impl Form {
    fn of(node: &Node<'_, '_, '_>) -> Form
        ensures { result ≡ form_of (data_of node.now) }
    {
        let item = node.value.item();
        if item.get("work").is_some() {
            Form::Work
        } else if item.get("repeat").is_some() {
            Form::Repeat
        } else if item.get("forever").is_some() {
            Form::Forever
        } else {
            Form::Call
        }
    }
}

#[tactic(auto, unfolding(crate::specs::Heads::break_at))]
fn break_at(node: &Node<'_, '_, '_>, word: &str) -> Result<Head, ReadFault>
    ensures { Gives (λ head. head) result (break_at (location_of node.now) word.now) }
{
    if word == "break" {
        return Ok(Head::Break);
    }
    match Stray::of(node.alloc, word, &["break"]) {
        Ok(stray) => Err(node.bad_shape(Detail::NoWord(stray))),
        Err(_) => Err(ReadFault::Memory),
    }
}

pub(crate) fn as_u32(value: &Item<'_, '_>) -> Option<u32>
    ensures { result ≡ as_u32 (view value.now) }
{
    u32::try_from(value.as_u64()?).ok()
}

/// Reads the works of a list.
struct WorkReader;

impl<'v> ReadItem<'v> for WorkReader {
    type Item = u32;

    ghost use Rattle.workload_text.specs.Heads.{work_number_at};

    ghost reading = { λ _. work_number_at };

    fn read(&self, node: &Node<'_, '_, 'v>) -> Result<u32, ReadFault> {
        let item = node.value.item();
        match as_u32(item) {
            Some(units) => Ok(units),
            None => Err(node.bad_value(Expected::Number)),
        }
    }
}

/// A list has a work at least.
fn some_at(node: &Node<'_, '_, '_>, works: Vec<u32>) -> Result<Vec<u32>, ReadFault>
    ensures { Gives (λ works. works.items) result
        (some_at (member_path (location_of node.now) (codes "work")) works.items) }
{
    if works.is_empty() {
        Err(node.bad_member("work", Detail::Rule(BrokenRule::NoWorks)))
    } else {
        Ok(works)
    }
}

/// One work, or a list of them.
fn works_or(node: &Node<'_, '_, '_>, value: &Item<'_, '_>) -> Result<Vec<u32>, ReadFault>
    ensures { Gives (λ works. works.items) result
        (works_or (member_path (location_of node.now) (codes "work")) (view value.now)
        (as_array (view value.now))) }
{
    match value.as_array() {
        None => {
            let units = node.typed("work", Expected::Number, value, as_u32(value))?;
            Ok(vec![in node.alloc; units]?)
        }
        Some(mut items) => {
            let location = Location::Member(node.location, "work");
            let works = each(node.alloc, &WorkReader, &location, &mut items)?;
            some_at(node, works)
        }
    }
}

#[tactic(auto, unfolding(crate::specs::Heads::works_at))]
fn works_at(node: &Node<'_, '_, '_>) -> Result<Head, ReadFault>
    ensures { Gives (λ head. head) result (works_at (location_of node.now) (data_of node.now)) }
{
    let value = node.member("work")?;
    let works = works_or(node, &value)?;
    Ok(Head::Works(Items::new(works)))
}

/// What the word says of a call that a program may have.
fn program_kind_of(word: &str) -> Option<CallKind>
    ensures { result ≡ program_kind_of word.now }
{
    match Kind::of(Format::Three, word) {
        Some(Kind::Call(CallKind::Finish)) => None,
        Some(Kind::Call(which)) => Some(which),
        _ => None,
    }
}

fn program_words() -> &'static [&'static str]
    ensures { map (λ word. word.now) result.now ≡ program_words }
{
    &[
        "yield",
        "delay",
        "delay_until",
        "priority_set",
        "affinity_set",
        "preempt_off",
        "preempt_on",
        "notify",
        "notify_wait",
        "notify_take",
        "state_clear",
        "value_clear",
        "mutex_take",
        "mutex_give",
        "hold_open",
        "hold_close",
        "queue_send",
        "queue_receive",
        "suspend",
        "resume",
    ]
}

#[tactic(auto, unfolding(crate::specs::Heads::program_kind_at))]
fn program_kind_at(node: &Node<'_, '_, '_>) -> Result<CallKind, ReadFault>
    ensures { Gives (λ which. which) result
        (program_kind_at (location_of node.now) (data_of node.now)) }
{
    let word = node.text("do")?;
    node.meant("do", word, program_words(), program_kind_of(word))
}

#[tactic(auto, unfolding(crate::specs::Heads::made_at))]
fn made_at(
    names: &Names<'_>,
    which: CallKind,
    node: &Node<'_, '_, '_>,
) -> Result<ProgramCall, ReadFault>
    ensures { Gives (λ made. made) result
        (made_at names.now which (location_of node.now) (data_of node.now)) }
{
    Ok(ProgramCall::Made(call_at(Format::Three, names, which, node)?))
}

/// A delay until a wake; that before it may be left out.
fn wake_at(names: &Names<'_>, node: &Node<'_, '_, '_>) -> Result<ProgramCall, ReadFault>
    ensures { Gives (λ made. made) result
        (wake_at names.now (get (codes "prev") (data_of node.now)) (location_of node.now)
        (data_of node.now)) }
{
    match node.value.item().get("prev") {
        Some(_) => made_at(names, CallKind::DelayUntil, node),
        None => Ok(ProgramCall::DelayUntilNext {
            inc: node.number("inc")?,
        }),
    }
}

fn program_call_at(
    names: &Names<'_>,
    which: CallKind,
    node: &Node<'_, '_, '_>,
) -> Result<ProgramCall, ReadFault>
    ensures { Gives (λ made. made) result
        (program_call_at names.now which (location_of node.now) (data_of node.now)) }
{
    match which {
        CallKind::DelayUntil => wake_at(names, node),
        _ => made_at(names, which, node),
    }
}

#[tactic(auto, unfolding(crate::specs::Heads::call_head_at))]
fn call_head_at(names: &Names<'_>, node: &Node<'_, '_, '_>) -> Result<Head, ReadFault>
    ensures { Gives (λ head. head) result
        (call_head_at names.now (location_of node.now) (data_of node.now)) }
{
    let which = program_kind_at(node)?;
    Ok(Head::Call(program_call_at(names, which, node)?))
}

#[tactic(auto, unfolding(crate::specs::Heads::repeat_head_at))]
fn repeat_head_at(node: &Node<'_, '_, '_>) -> Result<Head, ReadFault>
    ensures { Gives (λ head. head) result
        (repeat_head_at (location_of node.now) (data_of node.now)) }
{
    Ok(Head::Repeat(node.number("repeat")?))
}

fn formed_at(names: &Names<'_>, form: Form, node: &Node<'_, '_, '_>) -> Result<Head, ReadFault>
    ensures { Gives (λ head. head) result
        (formed_at names.now form (location_of node.now) (data_of node.now)) }
{
    match form {
        Form::Work => works_at(node),
        Form::Repeat => repeat_head_at(node),
        Form::Forever => Ok(Head::Forever),
        Form::Call => call_head_at(names, node),
    }
}

#[tactic(auto, unfolding(crate::specs::Heads::object_head_at))]
pub(crate) fn object_head_at(names: &Names<'_>, node: &Node<'_, '_, '_>) -> Result<Head, ReadFault>
    ensures { Gives (λ head. head) result
        (object_head_at names.now (location_of node.now) (data_of node.now)) }
{
    let _members = node.object()?;
    formed_at(names, Form::of(node), node)
}

/// What the item says.
pub(crate) fn head_at(names: &Names<'_>, node: &Node<'_, '_, '_>) -> Result<Head, ReadFault>
    ensures { Gives (λ head. head) result
        (head_at names.now (location_of node.now) (data_of node.now)) }
{
    match node.value.item().as_str() {
        Some(word) => break_at(node, word),
        None => object_head_at(names, node),
    }
}

fn members_of_notify(action: NotifyAction) -> &'static [&'static str]
    ensures { map (λ name. name.now) result.now ≡ notify_members action }
{
    match action {
        NotifyAction::Nothing | NotifyAction::Increment => {
            &["do", "to", "action", "index", "then", "else"]
        }
        NotifyAction::SetBits(_) | NotifyAction::Set(_) | NotifyAction::SetNew(_) => {
            &["do", "to", "action", "value", "index", "then", "else"]
        }
    }
}

fn members_of_call(call: Call) -> &'static [&'static str]
    ensures { map (λ name. name.now) result.now ≡ members_of_program_call (Made call) }
{
    match call {
        Call::Yield | Call::Finish | Call::HoldOpen | Call::HoldClose => &["do", "then", "else"],
        Call::Delay(_) => &["do", "ticks", "then", "else"],
        Call::DelayUntil { .. } => &["do", "prev", "inc", "then", "else"],
        Call::PrioritySet { .. } => &["do", "to", "priority", "then", "else"],
        Call::AffinitySet { .. } => &["do", "to", "mask", "then", "else"],
        Call::PreemptOff(_) | Call::PreemptOn(_) | Call::Suspend(_) | Call::Resume(_) => {
            &["do", "to", "then", "else"]
        }
        Call::Notify(note) => members_of_notify(note.action),
        Call::NotifyWait { .. } => &["do", "entry", "exit", "ticks", "index", "then", "else"],
        Call::NotifyTake { .. } => &["do", "clear", "ticks", "index", "then", "else"],
        Call::StateClear { .. } => &["do", "to", "index", "then", "else"],
        Call::ValueClear { .. } => &["do", "to", "bits", "index", "then", "else"],
        Call::MutexTake { .. } => &["do", "mutex", "ticks", "then", "else"],
        Call::MutexGive(_) => &["do", "mutex", "then", "else"],
        Call::QueueSend { .. } | Call::QueueReceive { .. } => {
            &["do", "queue", "ticks", "then", "else"]
        }
    }
}

pub(crate) fn members_of_head(head: &Head) -> &'static [&'static str]
    ensures { map (λ name. name.now) result.now ≡ members_of_head head.now }
{
    match head {
        Head::Break => &[],
        Head::Works(_) => &["work"],
        Head::Call(ProgramCall::Made(call)) => members_of_call(*call),
        Head::Call(ProgramCall::DelayUntilNext { .. }) => &["do", "prev", "inc", "then", "else"],
        Head::Repeat(_) => &["repeat", "of"],
        Head::Forever => &["forever"],
    }
}

#[tactic(auto, unfolding(crate::specs::Heads::only_members_of))]
fn only_members_of(head: &Head, node: &Node<'_, '_, '_>) -> Result<(), ReadFault>
    ensures { Gives (λ done. done) result
        (only_members_of head.now (location_of node.now) (data_of node.now)) }
{
    let members = node.object()?;
    node.only(members_of_head(head), &members)
}

/// H2 where the item has an unknown member.
pub(crate) fn only_of(head: &Head, node: &Node<'_, '_, '_>) -> Result<(), ReadFault>
    ensures { Gives (λ done. done) result
        (only_of head.now (location_of node.now) (data_of node.now)) }
{
    match head {
        Head::Break => Ok(()),
        _ => only_members_of(head, node),
    }
}
