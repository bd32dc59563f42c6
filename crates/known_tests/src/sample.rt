//! Sessions of two tasks, A and B, on 2 cores with 10 units in each tick, and up to where the runs
//! are known that edits make of them.
ghost use Rattle.std.specs.Prelude.{All, IsTrue};
ghost use Rattle.kept_edits.specs.Edits.{IsKeptEdit};

use bench_samples::{PLAIN, header_of};
use bench_types::{Call, CheckedSession, Config, Header, Items, Note, NotifyAction, Step};
use keeping::keep_run;
use kept_edits::{KeptEdit, plain_edits};
use kept_runs::{CallOrder, KnownLimit};
use kept_works::kept_works;
use known_limits::known_until;
use session_edits::EditedSession;
use settling::settle;
use smp_kernel::Meter;
use std::alloc::Global;
use std::process::Abort;
use std::test::Fail;

pub(crate) const A: u32 = 2;

pub(crate) const B: u32 = 3;

pub(crate) const DELAY: Call = Call::Delay(1);

/// A waits for a notification for a tick.
pub(crate) const TAKE: Step = Step::Call {
    core: 0,
    task: A,
    call: Call::NotifyTake {
        clear: true,
        ticks: 1,
        index: 0,
    },
};

/// A is notified.
pub(crate) const NOTIFY: Step = Step::Interrupt {
    core: 0,
    note: Note {
        task: A,
        action: NotifyAction::Increment,
        index: 0,
    },
};

pub(crate) const fn pass(units: u32) -> Step {
    Step::Pass { units }
}

pub(crate) const fn call(task: u32, call: Call) -> Step {
    Step::Call {
        core: 0,
        task,
        call,
    }
}

/// A session where A may run on core 0, and B on these cores.
pub(crate) fn session(
    rt: &impl Abort,
    alloc: Global,
    cores_of_b: u32,
    steps: &[Step],
) -> Result<CheckedSession, Fail> {
    let config = Config { units: 10, ..PLAIN };
    let mut header = header_of(alloc, config, &[("A", 2, 1), ("B", 1, cores_of_b)])?;
    header.queues = Some(Items::new(Vec::new(alloc)));
    header.check()?;
    let checked = steps.iter().all(|step| step.check(&header).is_ok());
    assert!(rt; checked);
    let made = CheckedSession::new(header, Vec::from_slice(alloc, steps)?);
    assert!(rt; made.is_some());
    Ok(made.unwrap())
}

fn is_checked(header: &Header, edit: &KeptEdit) -> bool
    ensures { IsTrue result → IsKeptEdit header.now edit.now }
{
    match edit {
        KeptEdit::Plain(edit) => edit.check(header).is_ok(),
        KeptEdit::Work { .. } => true,
    }
}

// Whether each edit fits the header.
fn are_checked(header: &Header, edits: &[KeptEdit]) -> bool
    ensures { IsTrue result → All (IsKeptEdit header.now) edits.now }
{
    edits.iter().all(|edit| is_checked(header, edit))
}

/// Up to where the run is known that the edits make of the session.
pub(crate) fn known(
    rt: &impl Abort,
    host: &HostRuntime,
    session: &CheckedSession,
    edits: &[KeptEdit],
) -> Result<Option<KnownLimit>, Fail> {
    assert!(rt; are_checked(session.header(), edits));
    known_after(host, session, edits)
}

fn known_after(
    host: &HostRuntime,
    session: &CheckedSession,
    edits: &[KeptEdit],
) -> Result<Option<KnownLimit>, Fail>
    requires { All (IsKeptEdit session.now.header) edits.now }
{
    let alloc = host.alloc();
    let order = CallOrder::Oldest;
    let mut meter = Meter::new(host);
    let plain = plain_edits(alloc, edits)?;
    let edited = EditedSession::make(alloc, session.copy(alloc)?, plain)?;
    let settled = settle(alloc, session, &mut meter)?;
    let works = kept_works(alloc, session, edits, &settled, &mut meter)?;
    let header = edited.edited().header();
    let kept = keep_run(
        alloc,
        order,
        header,
        works.unmade,
        works.outside,
        &mut meter,
    )?;
    Ok(known_until(alloc, order, session, edits, &settled, &kept, &mut meter)?)
}
