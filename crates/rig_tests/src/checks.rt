//! What tests assert of seats and recordings. Each is a function, which is proved once, since an
//! assertion is dear to prove where it stands.
ghost use Rattle.core_rig.specs.Seats.{IsSeatOf};

use bench_types::{Call, Direction, Entry, Note, NotifyAction, Reply};
use core_rig::{Answer, CoreSeat, Recorded, Rig, RigRefusal};
use std::fmt::Debug;
use std::process::Abort;
use std::sync::Wait;

/// What an interrupt is answered that notifies a task, and switches no core.
pub const ISR: Reply = Reply::Isr {
    pass: true,
    pend: false,
};

/// A notification of the task, one more.
pub fn one_more(task: u32) -> Note {
    Note {
        task,
        action: NotifyAction::Increment,
        index: 0,
    }
}

/// What is answered at the place.
pub fn at(place: u32, reply: Reply) -> Result<Answer, RigRefusal> {
    Ok(Answer { place, reply })
}

/// What was made is what was wanted.
pub fn assert_same<T: PartialEq + Debug>(rt: &impl Abort, what: &str, made: &T, wanted: &T) {
    assert_eq!(rt; made, wanted, "{what}");
}

fn assert_answer(
    rt: &impl Abort,
    made: Result<Answer, RigRefusal>,
    wanted: Result<Answer, RigRefusal>,
) {
    assert_eq!(rt; made, wanted);
}

/// Makes the call, which has to be answered so.
pub fn assert_call(
    rt: &(impl Wait + Abort),
    rig: &Rig,
    seat: &mut CoreSeat,
    call: Call,
    wanted: Result<Answer, RigRefusal>,
)
    requires { IsSeatOf rig.now seat.old }
    ensures { IsSeatOf rig.now seat.new }
{
    let answer = seat.call(rt, rig, call);
    assert_answer(rt, answer, wanted);
}

/// Makes the interrupt, which has to be answered so.
pub fn assert_interrupt(
    rt: &(impl Wait + Abort),
    rig: &Rig,
    seat: &mut CoreSeat,
    note: Note,
    wanted: Result<Answer, RigRefusal>,
)
    requires { IsSeatOf rig.now seat.old }
    ensures { IsSeatOf rig.now seat.new }
{
    let answer = seat.interrupt(rt, rig, note);
    assert_answer(rt, answer, wanted);
}

/// Tries the interrupt, which has to be answered so.
pub fn assert_tried(
    rt: &impl Abort,
    rig: &Rig,
    seat: &mut CoreSeat,
    note: Note,
    wanted: Result<Answer, RigRefusal>,
)
    requires { IsSeatOf rig.now seat.old }
    ensures { IsSeatOf rig.now seat.new }
{
    let answer = seat.try_interrupt(rig, note);
    assert_answer(rt, answer, wanted);
}

/// Makes an interrupt that sends to the queue, which has to be answered so.
pub fn assert_sent(
    rt: &(impl Wait + Abort),
    rig: &Rig,
    seat: &mut CoreSeat,
    queue: u32,
    wanted: Result<Answer, RigRefusal>,
)
    requires { IsSeatOf rig.now seat.old }
    ensures { IsSeatOf rig.now seat.new }
{
    let answer = seat.interrupt_queue(rt, rig, queue, Direction::Send);
    assert_answer(rt, answer, wanted);
}

/// Tries an interrupt that sends to the queue, which has to be answered so.
pub fn assert_send_tried(
    rt: &impl Abort,
    rig: &Rig,
    seat: &mut CoreSeat,
    queue: u32,
    wanted: Result<Answer, RigRefusal>,
)
    requires { IsSeatOf rig.now seat.old }
    ensures { IsSeatOf rig.now seat.new }
{
    let answer = seat.try_interrupt_queue(rig, queue, Direction::Send);
    assert_answer(rt, answer, wanted);
}

/// Makes a tick, which has to be answered so.
pub fn assert_tick(
    rt: &(impl Wait + Abort),
    rig: &Rig,
    seat: &mut CoreSeat,
    wanted: Result<Answer, RigRefusal>,
)
    requires { IsSeatOf rig.now seat.old }
    ensures { IsSeatOf rig.now seat.new }
{
    let answer = seat.tick(rt, rig);
    assert_answer(rt, answer, wanted);
}

/// Switches the core, which has to be at the place, or refused so.
pub fn assert_switch(
    rt: &(impl Wait + Abort),
    rig: &Rig,
    seat: &mut CoreSeat,
    wanted: Result<u32, RigRefusal>,
)
    requires { IsSeatOf rig.now seat.old }
    ensures { IsSeatOf rig.now seat.new }
{
    let place = seat.switch(rt, rig).map(|answer| answer.place);
    assert_same(rt, "switch", &place, &wanted);
}

/// The core saw and made so many entries.
pub fn assert_counts(rt: &impl Abort, seat: &CoreSeat, seen: u64, made: u64) {
    assert_same(rt, "seen", &seat.seen(), &seen);
    assert_same(rt, "made", &seat.made(), &made);
}

/// So many times over the core holds the kernel.
pub fn assert_depth(rt: &impl Abort, seat: &CoreSeat, depth: u32) {
    assert_same(rt, "depth", &seat.depth(), &depth);
}

/// The cores made so many entries.
pub fn assert_made(rt: &impl Abort, recorded: &Recorded, made: &[u64]) {
    assert_eq!(rt; recorded.made.as_slice(), made);
}

/// The entry at the place is of that core, and has the reply.
pub fn assert_reply(rt: &impl Abort, entries: &[Entry], place: usize, core: u32, reply: Reply) {
    let made = entries.get(place).map(|entry| (entry.core, entry.reply));
    assert_same(rt, "reply", &made, &Some((core, reply)));
}
