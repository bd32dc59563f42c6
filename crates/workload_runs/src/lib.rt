//! Runs of workloads: which step comes when, from what each task does and what comes from outside.
//! Each function does nothing: its contract is the laws, one a clause.
#![tactic(auto)]

ghost use Rattle.workload_runs.specs.Laws.{BeginningsAreInTime, EachRun, KernelsAreThoseOfSteps, NextCallsAreChecked, NextIsChecked, RunIsOne, StepsAreNext, ThereIsARun, TooLongIsLonger};
ghost use Rattle.workload_runs.specs.Properties.{CallsAreThoseOfPrograms, CallsComeAtOnce, FullTicksEnd, InterruptsAreOnTime, InterruptsComeAgain, InterruptsComeAtTheirTimes, LeastCoreCallsFirst, NoInterruptIsMissed, PassesEndWhereSomethingDoes, RunEndsBehindItsLastTick, RunIsSettled, StepsAreChecked, TicksAreOnTime};

/// The run of a workload: there is one, and one alone.
pub fn laws_of_workload_runs()
    // A workload has one run at most.
    ensures run_is_one { RunIsOne }
    // There is one, or it is too long for a session.
    ensures there_is_a_run { ThereIsARun }
    ensures too_long_is_longer { TooLongIsLonger }
    // At each of its places stands the next step, behind the last one none.
    ensures steps_are_next { StepsAreNext }
    // The kernel there is that of the steps before.
    ensures kernels_are_those_of_steps { KernelsAreThoseOfSteps }
    // Its steps are steps of a session of the header.
    ensures steps_are_checked { EachRun StepsAreChecked }
    ensures next_is_checked { NextIsChecked }
    ensures next_calls_are_checked { NextCallsAreChecked }
{}

/// What tasks do in the run of a workload.
pub fn laws_of_calls_of_programs()
    // Settling the run changes nothing.
    ensures run_is_settled { EachRun RunIsSettled }
    // Each call is the one that the program of its task has there, for the answers that came.
    ensures calls_are_those_of_programs { EachRun CallsAreThoseOfPrograms }
    // Each call is made at the first place that the work before it allows.
    ensures least_core_calls_first { EachRun LeastCoreCallsFirst }
    ensures calls_come_at_once { EachRun CallsComeAtOnce }
{}

/// When ticks, passes and interrupts come in the run of a workload.
pub fn laws_of_workload_times()
    // At each place the time is within the tick, and no interrupt is past.
    ensures beginnings_are_in_time { BeginningsAreInTime }
    // Each tick comes when its units of time have gone by.
    ensures ticks_are_on_time { EachRun TicksAreOnTime }
    ensures full_ticks_end { EachRun FullTicksEnd }
    // Each interrupt comes at its time, and none is missed.
    ensures interrupts_are_on_time { EachRun InterruptsAreOnTime }
    ensures no_interrupt_is_missed { EachRun NoInterruptIsMissed }
    // Its times are `at` and then each `every` units, as far as they are before the end.
    ensures interrupts_come_again { EachRun InterruptsComeAgain }
    ensures interrupts_come_at_their_times { EachRun InterruptsComeAtTheirTimes }
    // A pass ends where a tick or a work ends, or an interrupt comes, and nowhere else.
    ensures passes_end_where_something_does { EachRun PassesEndWhereSomethingDoes }
    // The run ends behind its last tick, when nothing is left to do.
    ensures run_ends_behind_its_last_tick { EachRun RunEndsBehindItsLastTick }
{}
