//! A session whose works were told by hand: 2 cores, and 10 units in each tick; A and B on core 0
//! alone. A works for 4 units before each delay. B works for 6 units behind the first of them and
//! for 2 behind the second: so for 8 before its own.
ghost use Rattle.std.specs.Prelude.{All, IsTrue};
ghost use Rattle.kept_edits.specs.Edits.{IsKeptEdit};

use bench_samples::{PLAIN, header_of};
use bench_types::{Call, CheckedSession, Config, Header, Items, Step};
use kept_edits::KeptEdit;
use kept_sessions::KeptSession;
use std::alloc::Global;
use std::process::Abort;
use std::test::Fail;

pub(crate) const A: u32 = 2;

pub(crate) const B: u32 = 3;

pub(crate) const DELAY: Call = Call::Delay(1);

pub(crate) const TICK: Step = Step::Tick;

pub(crate) const fn pass(units: u32) -> Step {
    Step::Pass { units }
}

pub(crate) const fn call(core: u32, task: u32, call: Call) -> Step {
    Step::Call { core, task, call }
}

pub(crate) const fn switch(core: u32) -> Step {
    Step::Switch { core }
}

pub(crate) fn steps() -> [Step; 10] {
    [
        pass(4),
        call(0, A, DELAY),
        pass(6),
        TICK,
        pass(4),
        call(0, A, DELAY),
        pass(2),
        call(0, B, DELAY),
        pass(4),
        TICK,
    ]
}

/// The session.
pub(crate) fn session(rt: &impl Abort, alloc: Global) -> Result<CheckedSession, Fail> {
    let config = Config {
        slicing: false,
        units: 10,
        ..PLAIN
    };
    let mut header = header_of(alloc, config, &[("A", 2, 1), ("B", 1, 1)])?;
    header.queues = Some(Items::new(Vec::new(alloc)));
    header.check()?;
    let steps = steps();
    let checked = steps.iter().all(|step| step.check(&header).is_ok());
    assert!(rt; checked);
    let made = CheckedSession::new(header, Vec::from_slice(alloc, &steps)?);
    assert!(rt; made.is_some());
    Ok(made.unwrap())
}

fn is_checked(header: &Header, edit: &KeptEdit) -> bool
    ensures { IsTrue result → IsKeptEdit header.now edit.now }
{
    match edit {
        KeptEdit::Plain(edit) => edit.check(header).is_ok(),
        KeptEdit::Work { .. } => true,
    }
}

// Whether each edit fits the header.
fn are_checked(header: &Header, edits: &[KeptEdit]) -> bool
    ensures { IsTrue result → All (IsKeptEdit header.now) edits.now }
{
    edits.iter().all(|edit| is_checked(header, edit))
}

/// Each edit fits the header, or the test fails.
pub(crate) fn need_checked(rt: &impl Abort, header: &Header, edits: &[KeptEdit])
    ensures { All (IsKeptEdit header.now) edits.now }
{
    assert!(rt; are_checked(header, edits));
}

/// The session with these edits.
pub(crate) fn edited(
    rt: &impl Abort,
    alloc: Global,
    edits: &[KeptEdit],
) -> Result<KeptSession, Fail> {
    let session = session(rt, alloc)?;
    need_checked(rt, session.header(), edits);
    Ok(KeptSession::make(alloc, session, Vec::from_slice(alloc, edits)?)?)
}
