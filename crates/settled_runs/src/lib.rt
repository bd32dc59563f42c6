//! Settled runs: what a target makes of a session's calls, ticks and interrupts, and the laws of
//! it. Each function does nothing: its contract is the laws, one a clause.
#![tactic(auto)]

ghost use Rattle.settled_runs.specs.SettleLaws.{ThereIsASettledRun, SettledRunIsOne, SettledRunIsSession, SettlingKeepsCalls, SettlingKeepsEvents, FewAreLeft, RefusalsAreAnswers, SettledRunIsAtRest, SettlingIsSettled, QuietWorkLessens, QuietWorkEnds, SwitchesComeFirst, FinishesComeNext, CallsComeLast};

mod waiting_call;

pub use waiting_call::WaitingCall;

/// Quiet work.
pub fn laws_of_quiet_work()
    // Each piece of it leaves less of it to do: a call less waits, or as many wait and a ready task
    // less has an unfinished call, or as many have one and the due cores weigh less.
    ensures quiet_work_lessens { QuietWorkLessens }
    // So it ends.
    ensures quiet_work_ends { QuietWorkEnds }
    // A switch comes first, of the least core that can switch.
    ensures switches_come_first { SwitchesComeFirst }
    // Then comes a `finish`, on the least core whose task can finish a call.
    ensures finishes_come_next { FinishesComeNext }
    // Then comes a waiting call, the first in the order of the session that can be made.
    ensures calls_come_last { CallsComeLast }
{}

/// The settled run of a session.
pub fn laws_of_settled_runs()
    // There is a settled run of each session, and one alone.
    ensures there_is_a_settled_run { ThereIsASettledRun }
    ensures settled_run_is_one { SettledRunIsOne }
    // Its steps are steps of a session of the header.
    ensures settled_run_is_session { SettledRunIsSession }
    // The calls of each task but `finish` are those of the run in their order, followed by those
    // that were not made.
    ensures settling_keeps_calls { SettlingKeepsCalls }
    // The ticks and the interrupts are those of the run, in their order.
    ensures settling_keeps_events { SettlingKeepsEvents }
    // No more calls were not made than the session has steps.
    ensures few_are_left { FewAreLeft }
    // No step of the run is refused but by E6 to E9.
    ensures refusals_are_answers { RefusalsAreAnswers }
    // After its last step no switch, no `finish` and no waiting call can be made.
    ensures settled_run_is_at_rest { SettledRunIsAtRest }
    // A settled run is that of its own steps, and all of its calls are made.
    ensures settling_is_settled { SettlingIsSettled }
{}
