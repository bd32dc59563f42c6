//! Runs that keep work: what a target makes of an edited session, where each call comes when its
//! task has worked for it as long as before the edits. Each function does nothing: its contract is
//! the laws, one a clause.
#![tactic(auto)]

ghost use Rattle.kept_runs.specs.KeptLaws.{BeginningsAreShorter, CallsAreWorkedFor, CallsComeAtOnce, KeptRefusalsAreAnswers, KeptRunIsOne, KeptRunIsSession, KeptRunIsSettled, KeptRunKeepsCalls, KeptRunKeepsOutside, KnownUntilComesFirst, ThereIsAKeptRun, UneditedRunIsKnown, UneditedRunIsSettled};
ghost use Rattle.kept_runs.specs.OrderLaws.{LeastCoreCallComesFirst, OldestCallComesFirst, OutsideComesLast};
ghost use Rattle.kept_runs.specs.WorkLaws.{PlainEditsChangeNoWork, WorkEditsChangeOneCall};

mod call_order;
mod clocks;
mod known_limit;
mod works;

pub use call_order::CallOrder;
pub use clocks::Clock;
pub use known_limit::{KnownLimit, LimitReason};
pub use works::{Outside, Unmade};

/// The run that keeps work.
pub fn laws_of_kept_runs()
    // Where a session and the edited one are sessions there is such a run, and one alone.
    ensures there_is_a_kept_run { ThereIsAKeptRun }
    ensures kept_run_is_one { KeptRunIsOne }
    // Steps of which each is the next one are no more than those of the run.
    ensures beginnings_are_shorter { BeginningsAreShorter }
    // Its steps are steps of a session of the edited header.
    ensures kept_run_is_session { KeptRunIsSession }
    // No step of it is refused but by E6 to E9.
    ensures kept_refusals_are_answers { KeptRefusalsAreAnswers }
    // The calls of each task but `finish` are those of the edited session in their order, followed
    // by those that were not made.
    ensures kept_run_keeps_calls { KeptRunKeepsCalls }
    // The ticks and the interrupts are those of the edited session, in their order and each at its
    // time.
    ensures kept_run_keeps_outside { KeptRunKeepsOutside }
    // Settling the run changes nothing.
    ensures kept_run_is_settled { KeptRunIsSettled }
    // Without edits it is the settled run, where the oldest call comes first, and all is known.
    ensures unedited_run_is_settled { UneditedRunIsSettled }
    ensures unedited_run_is_known { UneditedRunIsKnown }
    // It is known up to the first of all that limits that.
    ensures known_until_comes_first { KnownUntilComesFirst }
{}

/// How edits change works.
pub fn laws_of_work_edits()
    // Edits of the session alone change none.
    ensures plain_edits_change_no_work { PlainEditsChangeNoWork }
    // An edit of work changes that of the call at its place, and no other.
    ensures work_edits_change_one_call { WorkEditsChangeOneCall }
{}

/// When the run makes calls.
pub fn laws_of_kept_work()
    // A call is made when its task has worked for it.
    ensures calls_are_worked_for { CallsAreWorkedFor }
    // Each call is made at the first place that its work allows.
    ensures calls_come_at_once { CallsComeAtOnce }
    // Of several the oldest comes first, or that of the least core.
    ensures oldest_call_comes_first { OldestCallComesFirst }
    ensures least_core_call_comes_first { LeastCoreCallComesFirst }
    // Steps from outside come where no call does.
    ensures outside_comes_last { OutsideComesLast }
{}
