//! Reports: tables and JSON. What is wanted is what `scripts/report.py` makes of the documents.
use crate::processes::{Wanted, check_program};
use crate::samples::{FIRST_RUN, NO_NINTH, SHARED_MUTEX};
use crate::words::args_of;
use std::alloc::AllocError;
use std::process::Abort;
use std::test::Fail;
use std::thread::Threads;

/// The numbers of `FIRST_RUN`.
const ONE_RUN: &str = "     value number
         1 A.blocked.delay
         1 A.blocked.delay.longest from place 2
         2 A.top_priority
         1 A.unfinished
         1 A.calls.delay
         1 A.calls.delay.total
         1 A.calls.delay.longest from place 2
         1 A.jobs
         1 B.run
         1 B.run.longest from place 2
         1 B.run.1
         1 B.run.1.longest from place 2
         1 B.top_priority
         1 B.jobs
         1 B.response.total
         1 B.response.longest from place 0
         1 C.run
         1 C.run.longest from place 2
         1 C.run.0
         1 C.run.0.longest from place 2
         1 C.switches
         1 C.top_priority
         1 C.jobs
         1 C.response.total
         1 C.response.longest from place 0
         1 core.0.user
         1 core.0.user.longest from place 2
         1 core.0.switches
         1 core.1.user
         1 core.1.user.longest from place 2
         1 run.time
         5 run.steps

    core 0     core 1        all load
      0.0%       0.0%       0.0% A
      0.0%     100.0%     100.0% B
    100.0%       0.0%     100.0% C
      0.0%       0.0%       0.0% idle
";

/// Those of the settled runs of `SHARED_MUTEX`, before its edits and after them.
const TWO_RUNS: &str = "    before      after     change number
         0          1         +1 control.run
         0          1         +1 control.run.longest
         0          1         +1 control.run.0
         0          1         +1 control.run.0.longest
         1          0         -1 control.blocked.mutex
         1          0         -1 control.blocked.mutex.longest
         1          0         -1 control.blocked.mutex.0
         1          0         -1 control.blocked.mutex.0.longest
         1          0         -1 control.switches
         3          3          0 control.top_priority
         1          1          0 control.calls.mutex.0
         1          0         -1 control.calls.mutex.0.total
         1          0         -1 control.calls.mutex.0.longest
         1          1          0 control.jobs
         1          1          0 control.response.total
         1          1          0 control.response.longest
         1          1          0 logger.run
         1          1          0 logger.run.longest
         1          1          0 logger.run.1
         1          1          0 logger.run.1.longest
         1          0         -1 logger.inheritances
         3          1         -2 logger.top_priority
         1          0         -1 logger.inherited
         1          0         -1 logger.inherited.longest
         1          1          0 logger.calls.mutex.0
         1          1          0 logger.jobs
         1          1          0 logger.response.total
         1          1          0 logger.response.longest
         0          1         +1 core.0.user
         0          1         +1 core.0.user.longest
         1          0         -1 core.0.idle
         1          0         -1 core.0.idle.longest
         2          0         -2 core.0.switches
         1          1          0 core.1.user
         1          1          0 core.1.user.longest
         1          1          0 mutex.0.held
         1          1          0 mutex.0.held.longest
         1          0         -1 mutex.0.wait
         1          0         -1 mutex.0.waits
         1          1          0 run.time
         8          6         -2 run.steps

    core 0     core 1        all load before
      0.0%       0.0%       0.0% control
      0.0%     100.0%     100.0% logger
    100.0%       0.0%     100.0% idle

    core 0     core 1        all load after
    100.0%       0.0%     100.0% control
      0.0%     100.0%     100.0% logger
      0.0%       0.0%       0.0% idle
";

/// A has a core, and a tick finds it there.
const ONE_TICK: &str = "\
    {\"format\": 1, \"cores\": 2, \"priorities\": 2, \"slicing\": false, \"tick\": 0, \"\
    mutexes\": 0, \"tasks\": [{\"name\": \"A\", \"priority\": 1, \"mask\": 3}], \"steps\
    \": [{\"do\": \"tick\"}]}";

/// All numbers of its settled run.
const OBJECT: &str = "\
    {\"places\":{\"A.response.longest\":0,\"A.run.0.longest\":0,\"A.run.longest\":0,\"core\
    .0.user.longest\":0,\"core.1.idle.longest\":0},\"settled\":true,\"values\":{\"A.blocke\
    d.delay\":0,\"A.blocked.delay.longest\":0,\"A.blocked.mutex\":0,\"A.blocked.mutex.held\
    _up\":0,\"A.blocked.mutex.held_up.longest\":0,\"A.blocked.mutex.longest\":0,\"A.blocke\
    d.notification\":0,\"A.blocked.notification.longest\":0,\"A.calls.delay\":0,\"A.calls.\
    delay.longest\":0,\"A.calls.delay.total\":0,\"A.calls.notification\":0,\"A.calls.notif\
    ication.longest\":0,\"A.calls.notification.total\":0,\"A.inheritances\":0,\"A.inherite\
    d\":0,\"A.inherited.longest\":0,\"A.jobs\":1,\"A.late\":0,\"A.latency.longest\":0,\"A.\
    migrations\":0,\"A.not_made\":0,\"A.notifications.lost\":0,\"A.period.longest\":0,\"A.\
    period.shortest\":0,\"A.preempted\":0,\"A.preemption_off\":0,\"A.preemption_off.longes\
    t\":0,\"A.ran_out\":0,\"A.ready\":0,\"A.ready.inverted\":0,\"A.ready.inverted.longest\
    \":0,\"A.ready.longest\":0,\"A.refused.E1\":0,\"A.refused.E2\":0,\"A.refused.E3\":0,\"\
    A.refused.E4\":0,\"A.refused.E5\":0,\"A.refused.E6\":0,\"A.refused.E7\":0,\"A.refused.\
    E8\":0,\"A.refused.E9\":0,\"A.response.longest\":1,\"A.response.shortest\":0,\"A.respo\
    nse.total\":1,\"A.run\":1,\"A.run.0\":1,\"A.run.0.longest\":1,\"A.run.1\":0,\"A.run.1.\
    longest\":0,\"A.run.longest\":1,\"A.switches\":0,\"A.timeouts\":0,\"A.top_priority\":1\
    ,\"A.unfinished\":0,\"core.0.due\":0,\"core.0.due.longest\":0,\"core.0.held\":0,\"core\
    .0.held.longest\":0,\"core.0.idle\":0,\"core.0.idle.longest\":0,\"core.0.interrupts\":\
    0,\"core.0.switches\":0,\"core.0.user\":1,\"core.0.user.longest\":1,\"core.1.due\":0,\
    \"core.1.due.longest\":0,\"core.1.held\":0,\"core.1.held.longest\":0,\"core.1.idle\":1\
    ,\"core.1.idle.longest\":1,\"core.1.interrupts\":0,\"core.1.switches\":0,\"core.1.user\
    \":0,\"core.1.user.longest\":0,\"run.not_made\":0,\"run.steps\":1,\"run.time\":1}}\n";

#[test]
fn reports(rt: HostRuntime) -> Result<(), Fail> {
    for (line, document, output, errors) in [
        ("smp_view report", FIRST_RUN, ONE_RUN, ""),
        ("smp_view report --settle", SHARED_MUTEX, TWO_RUNS, NO_NINTH),
        ("smp_view report --json --settle", ONE_TICK, OBJECT, ""),
    ] {
        check(&rt, &rt, line, document, output, errors)?;
    }
    Ok(())
}

/// What the program shows by the words of the line of the document on standard input.
fn check<R: Threads + Abort + Sync>(
    rt: &R,
    host: &HostRuntime,
    line: &str,
    document: &str,
    output: &str,
    errors: &str,
) -> Result<(), AllocError> {
    let words = Ok(args_of(host.alloc(), line)?);
    let wanted = Wanted {
        code: 0,
        output,
        errors,
    };
    check_program(rt, host, words, document, "", wanted);
    Ok(())
}
