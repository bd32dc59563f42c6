//! The laws of whole steps: a start and every step are the same over stamps and over lists, and
//! keep a table sound. Each function does nothing: its contract is the laws, one a clause.
#![tactic(auto)]

ghost use Rattle.step_laws.specs.HoldLaws.{BlocksWhereItWould, HolderKeepsItsCore};
ghost use Rattle.step_laws.specs.Laws.{StartIsSound, StartAsksNone, StepKeepsSound, StepSeatsItsCore, SwitchFindsTask, StartSimulates, StepSimulates, EqualStaysEqual, ReadySimulates, LookSimulates, ReadyAtEndSimulates, PickSimulates, SwitchSimulates, DelaySimulates, TickSimulates, WokenSimulates, BlockSimulates, BlockKeepsConsistent, CoresAreApart};

/// The start of a checked header.
pub fn laws_of_starts()
    // Every kernel that starts from a checked header has a sound table.
    ensures start_is_sound { StartIsSound }
    // The start sets no flag: no core is sought for the idle task that a core gives up.
    ensures start_asks_none { StartAsksNone }
    // What can be seen of a start is the start over lists.
    ensures start_simulates { StartSimulates }
{}

/// A step of a session.
pub fn laws_of_steps()
    // Every checked step keeps a sound table sound, so each core has one current task and no task
    // is on two cores.
    ensures step_keeps_sound { StepKeepsSound }
    // A core that switches always finds a task, since there are as many idle tasks as cores.
    ensures switch_finds_task { SwitchFindsTask }
    // A step leaves every core but its own the task that it runs.
    ensures step_seats_its_core { StepSeatsItsCore }
    // The reply of a step is the same over stamps and over lists, and what can be seen afterwards
    // is the step over lists.
    ensures step_simulates { StepSimulates }
    // Equal tables reply equally to every checked step, and stay equal.
    ensures equal_stays_equal { EqualStaysEqual }
{}

/// The words of the contracts above: each change of the orders of tasks is the same over stamps and
/// over lists.
pub fn laws_of_orders()
    // A task is among the ready tasks that are seen where its row is ready.
    ensures ready_simulates { ReadySimulates }
    // What the lists of a table show of a task, its ticks left among it, is what its row and its
    // wake say: none for a wait without end.
    ensures look_simulates { LookSimulates }
    // A new stamp is the end of the task's ready list.
    ensures ready_at_end_simulates { ReadyAtEndSimulates }
    // The first task of the ready lists that a core may select is the best of all.
    ensures pick_simulates { PickSimulates }
    // A switch over lists is the switch of the table.
    ensures switch_simulates { SwitchSimulates }
    // A wake so many ticks ahead is an entry with so many ticks left, after those of as many or
    // fewer; a wait without end is none.
    ensures delay_simulates { DelaySimulates }
    // A tick leaves one tick less to each wake, and those with none left are the tasks whose wake
    // is now.
    ensures tick_simulates { TickSimulates }
    // Tasks that are woken in turn, each with the seek of a core for it, are so over lists.
    ensures woken_simulates { WokenSimulates }
    // A call that blocks its task, for some ticks or without end, does so over lists.
    ensures block_simulates { BlockSimulates }
    // A sound table is sound when a call blocked its user task.
    ensures block_keeps_consistent { BlockKeepsConsistent }
    // Asking a core changes no order of tasks.
    ensures cores_are_apart { CoresAreApart }
{}

/// Holds of the kernel, and the calls that a core may not make while it holds it.
pub fn laws_of_holds()
    // A call that begins blocks its task just where it is refused in a hold of its core.
    ensures blocks_where_it_would { BlocksWhereItWould }
    // While a core holds the kernel, no step takes its task from it.
    ensures holder_keeps_its_core { HolderKeepsItsCore }
{}
