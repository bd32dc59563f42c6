//! The definitions give the values that were worked out by hand. Each function does nothing: its
//! contract is the laws, one a clause.
#![tactic(auto)]

ghost use Rattle.worked_examples.specs.ChangeExamples.{WorkedChanges};
ghost use Rattle.worked_examples.specs.Examples.{WorkedSessions, TimedSessions, EndlessWaits, EqualTables, AlikeTables};
ghost use Rattle.worked_examples.specs.HoldExamples.{WorkedHolds, WorkedUntils};
ghost use Rattle.worked_examples.specs.KeptExamples.{WorkedKeptRuns};
ghost use Rattle.worked_examples.specs.MeetingExamples.{WorkedOpenings, WorkedMeetings, WorkedCheckpoints};
ghost use Rattle.worked_examples.specs.MutexExamples.{WorkedMutexes};
ghost use Rattle.worked_examples.specs.NoteExamples.{WorkedNotes, WorkedWaits, WorkedTakes, WorkedClears, WorkedNotifies, WorkedCalls, WorkedIndexes};
ghost use Rattle.worked_examples.specs.QueueExamples.{WorkedQueues};
ghost use Rattle.worked_examples.specs.SeekExamples.{AskedCores, SoughtCores, WorkedChoices};
ghost use Rattle.worked_examples.specs.SetExamples.{WorkedPriorities, WorkedMasks, WorkedPreemption};
ghost use Rattle.worked_examples.specs.SettledExamples.{WorkedQuietWork};
ghost use Rattle.worked_examples.specs.SuspendExamples.{WorkedSuspensions};
ghost use Rattle.worked_examples.specs.TallyExamples.{WorkedTallies};

/// Whole sessions, worked out by hand.
pub fn examples_of_sessions()
    // The definitions give the worked sessions.
    ensures worked_sessions { WorkedSessions }
    // The definitions give the worked sessions with time slicing, where woken tasks seek a core.
    ensures timed_sessions { TimedSessions }
    // A task that waits without end is woken by no tick, and one that waits beside it is woken by
    // its tick.
    ensures endless_waits { EndlessWaits }
{}

/// Tables that are equal or not.
pub fn examples_of_equality()
    // Tables that differ in stamps and absolute times alone are equal; with another order in a
    // ready list they are not.
    ensures equal_tables { EqualTables }
    // Tables that differ in stamps and absolute times alone are alike; with another order of two
    // ready tasks of one priority, of two that wake together, or of two waiters of one priority
    // they are not.
    ensures alike_tables { AlikeTables }
{}

/// The core that is asked, the cores that are sought, and choices of tasks.
pub fn examples_of_seeking()
    // The search answers the core that was worked out by hand, in every tie of it too.
    ensures worked_searches { AskedCores }
    // Seeking asks nobody for a task that runs, and sets the flag that is the acting core's or
    // another's.
    ensures worked_seeks { SoughtCores }
    // The seek of a task that was woken or lost its core, and the ends of time slices, as they
    // were worked out by hand.
    ensures worked_choices { WorkedChoices }
{}

/// Priorities, core affinity masks and preemption that a call sets.
pub fn examples_of_priority_and_affinity()
    // Who is asked and sought a core after new priorities, as it was worked out by hand.
    ensures worked_priorities { WorkedPriorities }
    // Who is asked and sought a core after new masks, as it was worked out by hand.
    ensures worked_masks { WorkedMasks }
    // What turning preemption off and on does, as it was worked out by hand.
    ensures worked_preemption { WorkedPreemption }
{}

/// Changes of a control block.
pub fn examples_of_control_blocks()
    // The ready lists after settings of a priority in use, as they were worked out by hand.
    ensures { WorkedChanges }
{}

/// Notifications: values, states, waits and takes.
pub fn examples_of_notifications()
    // What each action makes of a value and a state, as it was worked out by hand.
    ensures worked_notes { WorkedNotes }
    // What waiting for a notification makes of a value and a state, as it was worked out by hand.
    ensures worked_waits { WorkedWaits }
    // What taking a notification value makes of it and of the state, as it was worked out by hand.
    ensures worked_takes { WorkedTakes }
    // What clearing a state or bits of a value does, as it was worked out by hand.
    ensures worked_clears { WorkedClears }
    // Who is woken by a notification and who waits on, as it was worked out by hand.
    ensures worked_notifies { WorkedNotifies }
    // The definitions give the worked sessions of tasks that notify, wait and take.
    ensures worked_calls { WorkedCalls }
    // Each index of a task is waited for and notified by itself.
    ensures worked_indexes { WorkedIndexes }
{}

/// Mutexes with priority inheritance.
pub fn examples_of_mutexes()
    // The definitions give the worked sessions of two tasks and two mutexes.
    ensures { WorkedMutexes }
{}

/// Queues: what a call, an interrupt and the end of a wait answer.
pub fn examples_of_queues()
    // The definitions give the worked sessions of two tasks and one queue.
    ensures { WorkedQueues }
{}

/// Suspended tasks: what is left of their waits, and what resumes them.
pub fn examples_of_suspending()
    // The definitions give the worked sessions of two tasks, one of which is suspended.
    ensures { WorkedSuspensions }
{}

/// Holds, and delays until a tick count.
pub fn examples_of_holds()
    // The definitions give the worked holds.
    ensures worked_holds { WorkedHolds }
    // The definitions give the worked delays until a tick count, at its wrap too.
    ensures worked_untils { WorkedUntils }
{}

/// Tallies of sessions.
pub fn examples_of_tallies()
    // The definitions give the tallies that were worked out by hand.
    ensures { WorkedTallies }
{}

/// Quiet work of settled runs.
pub fn examples_of_quiet_work()
    // The next of several pieces that can be made, as it was worked out by hand.
    ensures { WorkedQuietWork }
{}

/// Runs that keep work.
pub fn examples_of_kept_runs()
    // The definitions give the runs after edits that were worked out by hand.
    ensures { WorkedKeptRuns }
{}

/// Edits of sessions with checkpoints: which steps are replayed for them, and where the checkpoints
/// lie after them.
pub fn examples_of_meetings()
    // The definitions give the checkpoints at the opening that were worked out by hand.
    ensures worked_openings { WorkedOpenings }
    // The replay of an edit begins and ends where it was worked out by hand.
    ensures worked_meetings { WorkedMeetings }
    // The checkpoints after edits, as they were worked out by hand.
    ensures worked_checkpoints { WorkedCheckpoints }
{}
