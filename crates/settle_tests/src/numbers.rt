//! The numbers of runs, and limits of them. Each was counted by hand.
use crate::settled::{TICK, call, session_of, switch};
use bench_samples::{PLAIN, header_of, low_and_high, three_tasks};
use bench_types::{
    Call, CheckedSession, Direction, Header, Items, Note, NotifyAction, QueueArgs, Step,
};
use report_figures::{
    Bound, figure_called, figures_of, law_of_names, push_name, push_told, subjects_of,
};
use run_numbers::{Condition, Subject};
use run_sources::{Source, make_run};
use session_reports::{CheckStatus, Checked, Wanted, check, figures_of_run};
use session_runs::Run;
use smp_kernel::Meter;
use std::alloc::Global;
use std::process::Abort;
use std::test::Fail;

/// A waits for two ticks, and is ready when the third comes, while B and C have the cores.
fn session(rt: &impl Abort, host: &HostRuntime) -> Result<CheckedSession, Fail> {
    let steps = [call(0, 2, Call::Delay(2)), switch(0), TICK, TICK, TICK];
    let header = three_tasks(host.alloc(), false)?;
    session_of(rt, header, Vec::from_slice(host.alloc(), &steps)?)
}

fn value(
    host: &HostRuntime,
    session: &CheckedSession,
    settled: bool,
    name: &str,
) -> Result<Option<u64>, Fail> {
    let alloc = host.alloc();
    let own = session.copy(alloc)?;
    let source = if settled {
        Source::Settled(own)
    } else {
        Source::Session(own)
    };
    let mut meter = Meter::new(host);
    let run = make_run(alloc, &source, &mut meter)?;
    let figures = figures_of_run(alloc, &mut meter, &run)?;
    let figure = figure_called(alloc, session.header(), figures.as_slice(), name)?;
    Ok(figure.map(|figure| figure.value))
}

fn check_values(
    rt: &impl Abort,
    host: &HostRuntime,
    settled: bool,
    wanted: &[(&str, Option<u64>)],
) -> Result<(), Fail> {
    let session = session(rt, host)?;
    for (name, number) in wanted {
        let found = value(host, &session, settled, name)?;
        assert_eq!(rt; found, *number, "{name}");
    }
    Ok(())
}

#[test]
fn numbers_of_runs(rt: HostRuntime) -> Result<(), Fail> {
    let as_it_stands = [
        ("A.blocked.delay", Some(2)),
        ("A.blocked.delay.longest", Some(2)),
        ("A.ready", Some(1)),
        ("A.ready.inverted", Some(1)),
        ("A.run", Some(0)),
        ("B.run.1", Some(3)),
        ("C.switches", Some(1)),
        ("A.top_priority", Some(2)),
        ("core.1.due", Some(1)),
        ("IDLE0.run", None),
        ("A.suspended", None),
    ];
    check_values(&rt, &rt, false, &as_it_stands)?;
    let settled = [
        ("A.ready", Some(0)),
        ("A.run", Some(1)),
        ("A.switches", Some(1)),
    ];
    check_values(&rt, &rt, true, &settled)
}

/// The same session with tasks whose names begin as those of numbers of a core and of the run.
fn session_of_reserved_names(rt: &impl Abort, host: &HostRuntime) -> Result<CheckedSession, Fail> {
    let steps = [call(0, 2, Call::Delay(2)), switch(0), TICK, TICK, TICK];
    let tasks = [("core.0", 2, 3), ("run", 1, 3), ("C", 1, 3)];
    let header = header_of(host.alloc(), PLAIN, &tasks)?;
    session_of(rt, header, Vec::from_slice(host.alloc(), &steps)?)
}

#[test]
fn numbers_of_reserved_names(rt: HostRuntime) -> Result<(), Fail> {
    let session = session_of_reserved_names(&rt, &rt)?;
    let wanted = [
        ("task.core.0.switches", Some(0)),
        ("core.0.switches", Some(1)),
        ("task.core.0.blocked.delay", Some(2)),
        ("core.0.blocked.delay", None),
        ("task.run.run.1", Some(3)),
        ("task.run.not_made", Some(0)),
        ("run.not_made", Some(0)),
        ("run.time", Some(3)),
        ("run.run.1", None),
        ("C.switches", Some(1)),
    ];
    for (name, number) in &wanted {
        let found = value(&rt, &session, false, name)?;
        assert_eq!(&rt; found, *number, "{name}");
    }
    Ok(())
}

/// Each number is found by its name.
#[test]
fn numbers_by_name(rt: HostRuntime) -> Result<(), Fail> {
    law_of_names();
    let alloc = rt.alloc();
    let session = session_of_reserved_names(&rt, &rt)?;
    let mut meter = Meter::new(&rt);
    let run = Run::of_session(alloc, session, &mut meter)?;
    let figures = figures_of_run(alloc, &mut meter, &run)?;
    let header = run.session().header();
    for figure in figures.as_slice() {
        let mut name = String::new(alloc);
        push_name(&mut name, header, figure.subject, figure.part)?;
        let found = figure_called(alloc, header, figures.as_slice(), name.as_str())?;
        assert_eq!(&rt; found, Some(*figure), "{name}");
    }
    Ok(())
}

#[test]
fn names_of_tasks_in_those_of_numbers(rt: HostRuntime) -> Result<(), Fail> {
    let told = [
        ("run", "task.run"),
        ("core.0", "task.core.0"),
        ("task.run", "task.task.run"),
        ("core", "core"),
        ("runs", "runs"),
    ];
    for (name, wanted) in &told {
        let mut text = String::new(rt.alloc());
        push_told(&mut text, name)?;
        assert_eq!(&rt; text.as_str(), *wanted);
    }
    Ok(())
}

const fn passes(queue: u32, direction: Direction) -> Step {
    Step::QueueInterrupt {
        core: 0,
        queue,
        direction,
    }
}

/// A waits at queue 0 for a message, and B until queue 1 has room: in vain first, since an
/// interrupt is faster, and then once more. The message for A comes before the sixth tick.
fn session_of_queues(rt: &impl Abort, host: &HostRuntime) -> Result<CheckedSession, Fail> {
    let steps = [
        TICK,
        call(0, 2, Call::QueueReceive { queue: 0, ticks: 5 }),
        switch(0),
        TICK,
        call(1, 3, Call::QueueSend { queue: 1, ticks: 3 }),
        switch(1),
        TICK,
        passes(1, Direction::Receive),
        TICK,
        passes(1, Direction::Send),
        switch(1),
        call(1, 3, Call::Finish),
        switch(1),
        TICK,
        passes(0, Direction::Send),
        TICK,
        switch(0),
        call(0, 2, Call::Finish),
        TICK,
    ];
    let queues = [
        QueueArgs {
            length: 1,
            messages: 0,
        },
        QueueArgs {
            length: 2,
            messages: 2,
        },
    ];
    let mut header = three_tasks(host.alloc(), false)?;
    header.queues = Some(Items::new(Vec::from_slice(host.alloc(), &queues)?));
    session_of(rt, header, Vec::from_slice(host.alloc(), &steps)?)
}

#[test]
fn numbers_of_queues(rt: HostRuntime) -> Result<(), Fail> {
    let session = session_of_queues(&rt, &rt)?;
    let wanted = [
        ("A.blocked.queue", 4),
        ("A.blocked.queue.0.receive", 4),
        ("A.blocked.queue.0.send", 0),
        ("B.blocked.queue", 2),
        ("B.blocked.queue.1.send", 2),
        ("B.blocked.queue.1.send.longest", 1),
        ("B.blocked.queue.1.receive", 0),
        ("queue.0.messages", 1),
        ("queue.0.empty", 6),
        ("queue.0.empty.longest", 5),
        ("queue.0.full", 1),
        ("queue.0.waits", 1),
        ("queue.1.messages", 2),
        ("queue.1.empty", 0),
        ("queue.1.full", 6),
        ("queue.1.full.longest", 3),
        ("queue.1.waits", 1),
        ("A.calls.queue.0.receive", 1),
        ("A.calls.queue.0.receive.total", 5),
        ("B.calls.queue.1.send", 1),
        ("B.calls.queue.1.send.longest", 5),
        ("C.preempted", 1),
        ("core.0.interrupts", 3),
        ("core.0.switches", 2),
        ("core.1.switches", 3),
        ("run.time", 7),
        ("run.steps", 19),
    ];
    for (name, number) in &wanted {
        let found = value(&rt, &session, false, name)?;
        assert_eq!(&rt; found, Some(*number), "{name}");
    }
    let subjects = subjects_of(rt.alloc(), session.header())?;
    assert_eq!(&rt; subjects.len(), 3 * (42 + 5 + 8) + 2 * 6 + 2 * 4 + 3);
    Ok(())
}

/// A, B and C, in a session that says that there are no queues.
fn without_queues(alloc: Global) -> Result<Header, Fail> {
    let mut header = three_tasks(alloc, false)?;
    header.queues = Some(Items::new(Vec::new(alloc)));
    Ok(header)
}

/// Such a session has no numbers of queues. Its tasks can be suspended.
#[test]
fn numbers_without_queues(rt: HostRuntime) -> Result<(), Fail> {
    let header = without_queues(rt.alloc())?;
    header.check()?;
    let subjects = subjects_of(rt.alloc(), &header)?;
    assert_eq!(&rt; subjects.len(), 3 * 42 + 2 * 6 + 3);
    let suspended = Subject::Time(Condition::Suspended { task: 2 });
    assert_eq!(&rt; subjects.as_slice().get(9).copied(), Some(suspended));
    Ok(())
}

/// A suspends B for three ticks, of which B still has core 1 at the first, and C for three while C
/// waits for a tick; then A suspends itself.
fn session_of_suspended(rt: &impl Abort, host: &HostRuntime) -> Result<CheckedSession, Fail> {
    let steps = [
        call(0, 2, Call::Suspend(3)),
        TICK,
        switch(1),
        TICK,
        call(1, 4, Call::Delay(3)),
        switch(1),
        call(0, 2, Call::Suspend(4)),
        TICK,
        call(0, 2, Call::Resume(3)),
        switch(1),
        TICK,
        call(0, 2, Call::Suspend(2)),
        TICK,
    ];
    let header = without_queues(host.alloc())?;
    session_of(rt, header, Vec::from_slice(host.alloc(), &steps)?)
}

#[test]
fn numbers_of_suspended_tasks(rt: HostRuntime) -> Result<(), Fail> {
    let session = session_of_suspended(&rt, &rt)?;
    let wanted = [
        ("A.run", 5),
        ("A.suspended", 1),
        ("B.run", 3),
        ("B.suspended", 3),
        ("B.suspended.longest", 3),
        ("B.blocked.delay", 0),
        ("C.run", 1),
        ("C.suspended", 3),
        ("C.blocked.delay", 0),
        ("core.0.due", 1),
    ];
    for (name, number) in &wanted {
        let found = value(&rt, &session, false, name)?;
        assert_eq!(&rt; found, Some(*number), "{name}");
    }
    Ok(())
}

const fn passes_by(units: u32) -> Step {
    Step::Pass { units }
}

/// A tick has 1000 units of time. A waits for one, in which 100 go by before its core switches and
/// 650 after that, and 40 go by before core 1 switches to it.
fn session_of_time(rt: &impl Abort, host: &HostRuntime) -> Result<CheckedSession, Fail> {
    let steps = [
        passes_by(250),
        call(0, 2, Call::Delay(1)),
        passes_by(100),
        switch(0),
        passes_by(650),
        TICK,
        passes_by(40),
        switch(1),
    ];
    let mut header = without_queues(host.alloc())?;
    header.config.units = 1000;
    session_of(rt, header, Vec::from_slice(host.alloc(), &steps)?)
}

#[test]
fn numbers_of_time(rt: HostRuntime) -> Result<(), Fail> {
    let session = session_of_time(&rt, &rt)?;
    let wanted = [
        ("A.run", 350),
        ("A.run.longest", 350),
        ("A.blocked.delay", 750),
        ("A.ready", 40),
        ("A.ready.inverted", 40),
        ("B.run.1", 1040),
        ("C.run.0", 690),
        ("core.0.due", 100),
        ("core.1.due", 40),
    ];
    for (name, number) in &wanted {
        let found = value(&rt, &session, false, name)?;
        assert_eq!(&rt; found, Some(*number), "{name}");
    }
    Ok(())
}

/// A works 200 of the 1000 units between two ticks, and is blocked as each tick comes.
fn session_of_a_driver(rt: &impl Abort, host: &HostRuntime) -> Result<CheckedSession, Fail> {
    let rest = call(0, 2, Call::Delay(1));
    let round = [passes_by(800), TICK, passes_by(200), rest];
    let mut steps = Vec::from_slice(host.alloc(), &[rest])?;
    for _ in 0..5 {
        steps.extend_from_slice(&round)?;
    }
    let mut header = without_queues(host.alloc())?;
    header.config.units = 1000;
    session_of(rt, header, steps)
}

/// So it has 20 in 100 of a core.
#[test]
fn numbers_of_a_driver(rt: HostRuntime) -> Result<(), Fail> {
    let session = session_of_a_driver(&rt, &rt)?;
    let wanted = [
        ("A.run", 1000),
        ("A.run.longest", 200),
        ("A.blocked.delay", 4000),
        ("A.blocked.delay.longest", 800),
        ("core.0.user", 5000),
        ("core.0.due", 0),
    ];
    for (name, number) in &wanted {
        let found = value(&rt, &session, true, name)?;
        assert_eq!(&rt; found, Some(*number), "{name}");
    }
    Ok(())
}

/// L has the mutex, for which H waits three ticks: two until L gives it, and one until core 0 has
/// switched to H. Meanwhile H loses the second of two notifications. Then its preemption is off for
/// two ticks, at the second of which core 0 holds the kernel, and L doesn't get the mutex.
fn session_of_calls(rt: &impl Abort, host: &HostRuntime) -> Result<CheckedSession, Fail> {
    let steps = [
        call(1, 2, Call::MutexTake { mutex: 0, ticks: 0 }),
        TICK,
        call(0, 3, Call::MutexTake { mutex: 0, ticks: 5 }),
        TICK,
        switch(0),
        TICK,
        notifies(3, NotifyAction::Set(7)),
        notifies(3, NotifyAction::SetNew(9)),
        call(1, 2, Call::MutexGive(0)),
        TICK,
        switch(0),
        switch(1),
        call(0, 3, Call::Finish),
        TICK,
        call(0, 3, Call::PreemptOff(3)),
        TICK,
        call(0, 3, Call::HoldOpen),
        TICK,
        call(0, 3, Call::HoldClose),
        call(0, 3, Call::PreemptOn(3)),
        call(1, 2, Call::MutexTake { mutex: 0, ticks: 0 }),
    ];
    let header = low_and_high(host.alloc())?;
    session_of(rt, header, Vec::from_slice(host.alloc(), &steps)?)
}

const fn notifies(task: u32, action: NotifyAction) -> Step {
    let note = Note {
        task,
        index: 0,
        action,
    };
    Step::Interrupt { core: 1, note }
}

#[test]
fn numbers_of_calls(rt: HostRuntime) -> Result<(), Fail> {
    let session = session_of_calls(&rt, &rt)?;
    let wanted = [
        ("H.blocked.mutex.0", 2),
        ("H.calls.mutex.0", 1),
        ("H.calls.mutex.0.total", 3),
        ("H.calls.mutex.0.longest", 3),
        ("H.calls.delay", 0),
        ("H.notifications.lost", 1),
        ("H.preemption_off", 2),
        ("H.preempted", 0),
        ("L.calls.mutex.0", 2),
        ("L.calls.mutex.0.total", 0),
        ("L.inherited", 2),
        ("core.0.held", 1),
        ("core.0.switches", 2),
        ("core.1.switches", 0),
        ("core.1.interrupts", 2),
        ("H.migrations", 0),
        ("H.ran_out", 0),
        ("H.unfinished", 0),
        ("mutex.0.wait", 3),
        ("mutex.0.waits", 1),
        ("mutex.0.refused", 1),
        ("run.time", 7),
        ("run.steps", 21),
        ("run.not_made", 0),
    ];
    for (name, number) in &wanted {
        let found = value(&rt, &session, false, name)?;
        assert_eq!(&rt; found, Some(*number), "{name}");
    }
    Ok(())
}

const fn until(core: u32, prev: u32, inc: u32) -> Step {
    call(core, 2, Call::DelayUntil { prev, inc })
}

/// A delays until tick 3, and has a core one tick later; then until tick 6, at tick 7, which is
/// late; then until tick 12. So it has three jobs, of which the third was asked for at tick 6.
pub(crate) fn session_of_jobs(rt: &impl Abort, host: &HostRuntime) -> Result<CheckedSession, Fail> {
    let steps = [
        TICK,
        until(0, 0, 3),
        switch(0),
        TICK,
        TICK,
        TICK,
        switch(1),
        call(1, 2, Call::Finish),
        TICK,
        TICK,
        TICK,
        until(1, 3, 3),
        switch(1),
        TICK,
        until(1, 6, 6),
    ];
    let header = three_tasks(host.alloc(), false)?;
    session_of(rt, header, Vec::from_slice(host.alloc(), &steps)?)
}

#[test]
fn numbers_of_jobs(rt: HostRuntime) -> Result<(), Fail> {
    let session = session_of_jobs(&rt, &rt)?;
    let wanted = [
        ("A.jobs", 3),
        ("A.response.total", 7),
        ("A.response.longest", 4),
        ("A.response.shortest", 1),
        ("A.latency.longest", 1),
        ("A.period.longest", 4),
        ("A.period.shortest", 4),
        ("A.late", 1),
        ("B.jobs", 1),
        ("B.response.longest", 8),
        ("B.response.shortest", 0),
        ("C.latency.longest", 1),
    ];
    for (name, number) in &wanted {
        let found = value(&rt, &session, false, name)?;
        assert_eq!(&rt; found, Some(*number), "{name}");
    }
    Ok(())
}

fn checked(rt: &impl Abort, host: &HostRuntime, name: &str, bound: Bound) -> Result<Checked, Fail> {
    let alloc = host.alloc();
    let session = session(rt, host)?;
    let name = String::from_str(alloc, name)?;
    let limits = [Wanted { name, bound }];
    let mut meter = Meter::new(host);
    let run = Run::of_session(alloc, session, &mut meter)?;
    Ok(check(alloc, &mut meter, &run, &limits)?)
}

#[test]
fn limits_of_a_run(rt: HostRuntime) -> Result<(), Fail> {
    let kept = checked(&rt, &rt, "A.blocked.delay", Bound::AtMost(2))?;
    assert_eq!(&rt; kept.status, CheckStatus::Kept);
    assert_eq!(&rt; kept.text.as_str(), "");
    let more = checked(&rt, &rt, "A.blocked.delay", Bound::AtMost(1))?;
    assert_eq!(&rt; more.status, CheckStatus::NotKept);
    assert_eq!(&rt;
        more.text.as_str(),
        "A.blocked.delay is 2, at most 1; the longest stretch begins at place 2\n"
    );
    let less = checked(&rt, &rt, "C.switches", Bound::AtLeast(2))?;
    assert_eq!(&rt; less.text.as_str(), "C.switches is 1, at least 2\n");
    let unknown = checked(&rt, &rt, "A.blocked", Bound::AtMost(1))?;
    assert_eq!(&rt; unknown.status, CheckStatus::Unknown);
    let printed = "no number is called A.blocked; these are:\nA.run\nA.run.longest\n";
    assert!(&rt; unknown.text.starts_with(printed));
    Ok(())
}

/// All that is measured of a session has a figure.
#[test]
fn figures_of_all_subjects(rt: HostRuntime) -> Result<(), Fail> {
    let header = three_tasks(rt.alloc(), false)?;
    let subjects = subjects_of(rt.alloc(), &header)?;
    let none = figures_of(rt.alloc(), &[])?;
    assert_eq!(&rt; none.len(), 0);
    assert_eq!(&rt; subjects.len(), 3 * 41 + 2 * 6 + 3);
    Ok(())
}
