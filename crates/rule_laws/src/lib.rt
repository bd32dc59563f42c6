//! The laws of single rules: a rule over stamps is the same rule over lists, and it keeps a table
//! consistent. Each function does nothing: its contract is the laws, one a clause.
#![tactic(auto)]

ghost use Rattle.rule_laws.specs.CoresLaws.{ChangeIsApart, ChangeKeepsConsistent, InUseSimulates, InUseKeepsConsistent, AskOnCores, SeekOnCores, WakeOnCores, WaitOnCores, SuspendOnCores, SwitchOnCores, SlicesOnCores, InUseOnCores};
ghost use Rattle.rule_laws.specs.MutexLaws.{FirstWaiterSimulates, FirstWaiterIsServedFirst, DeadlineSimulates, ForgettingSimulates, InheritSimulates, InheritKeepsConsistent, TakeSimulates, TakeKeepsConsistent, FinishSimulates, FinishKeepsConsistent, GiveSimulates, GiveKeepsConsistent, LowerSimulates, LowerKeepsConsistent, InheritOnCores, LowerOnCores};
ghost use Rattle.rule_laws.specs.NoteLaws.{PlacesAreApart, NotifyLeavesOthers, NotifyWakesOnlyAWaiter, NotifySimulates, NotifyKeepsConsistent, NotesKeepOrders, NotesKeepConsistent};
ghost use Rattle.rule_laws.specs.QueueLaws.{QueueCallSimulates, QueueCallKeepsConsistent, QueueFinishSimulates, QueueFinishKeepsConsistent, QueueInterruptSimulates, QueueInterruptKeepsConsistent};
ghost use Rattle.rule_laws.specs.SeekLaws.{BestCoreIsAsked, SeekSimulates, WakeSimulates, AfterSwitchSimulates, SlicesAreSeen, AskKeepsConsistent, SeekKeepsConsistent, WakeKeepsConsistent, AfterSwitchKeepsConsistent, SlicesKeepConsistent};
ghost use Rattle.rule_laws.specs.SuspendLaws.{SuspensionIsSeen, SuspendSimulates, ResumeSimulates, ResumeInterruptSimulates, SuspendKeepsConsistent, ResumeKeepsConsistent, SuspendedIsSuspended, ResumedIsReady, OthersAreNotResumed, NotifyWakesNoSuspended, NoSuspendedIsDue, NoSuspendedIsServed};
ghost use Rattle.rule_laws.specs.SetLaws.{AskItsCoreSimulates, YieldsAfterPrioritySetSimulates, YieldsAfterAffinitySetSimulates, PrioritySetSimulates, AffinitySetSimulates, PreemptionOffSimulates, PreemptionOnSimulates, AskItsCoreKeepsConsistent, YieldsAfterPrioritySetKeepsConsistent, YieldsAfterAffinitySetKeepsConsistent, PrioritySetKeepsConsistent, AffinitySetKeepsConsistent, PreemptionOffKeepsConsistent, PreemptionOnKeepsConsistent};

/// Seeking a core for a task, waking one, switches and time slices. Each rule is the same over
/// stamps and over lists, and keeps a table consistent (FreeRTOS SMP, `prvYieldForTask`).
pub fn laws_of_seeking()
    // The core that is asked for a task is the best of those that give way to it, and none is
    // asked only where none does.
    ensures best_core_is_asked { BestCoreIsAsked }
    // Seeking a core changes no order of tasks, so it is the same over lists.
    ensures seek_simulates { SeekSimulates }
    // Waking a task, and seeking a core for it, is so over lists.
    ensures wake_simulates { WakeSimulates }
    // A switch, with the seek for the task that lost the core, is so over lists.
    ensures after_switch_simulates { AfterSwitchSimulates }
    // The cores that are asked as time slices end are the same over lists.
    ensures slices_simulate { SlicesAreSeen }
    // A sound table is sound when any core was asked.
    ensures ask_keeps_consistent { AskKeepsConsistent }
    // A sound table is sound when a core was sought for any task.
    ensures seek_keeps_consistent { SeekKeepsConsistent }
    // A sound table is sound when a task was woken and a core sought for it.
    ensures wake_keeps_consistent { WakeKeepsConsistent }
    // A sound table is sound after a switch and the seek for the task that lost the core.
    ensures after_switch_keeps_consistent { AfterSwitchKeepsConsistent }
    // A sound table is sound when cores were asked as time slices ended.
    ensures slices_keep_consistent { SlicesKeepConsistent }
{}

/// The calls that set a task's priority, core affinity mask and preemption, and who is asked then.
/// Each rule is the same over stamps and over lists, and keeps a table consistent.
pub fn laws_of_priority_and_affinity()
    // Asking the core of a task changes no order of tasks, so it is the same over lists.
    ensures ask_its_core_simulates { AskItsCoreSimulates }
    // Who is asked after a new base priority changes no order of tasks, so it is the same over
    // lists.
    ensures yields_after_priority_set_simulates { YieldsAfterPrioritySetSimulates }
    // Who is asked after a new mask changes no order of tasks, so it is the same over lists.
    ensures yields_after_affinity_set_simulates { YieldsAfterAffinitySetSimulates }
    // Setting a priority is so over lists.
    ensures priority_set_simulates { PrioritySetSimulates }
    // Setting a core affinity mask is so over lists.
    ensures affinity_set_simulates { AffinitySetSimulates }
    // Turning preemption off is so over lists.
    ensures preemption_off_simulates { PreemptionOffSimulates }
    // Turning preemption on is so over lists.
    ensures preemption_on_simulates { PreemptionOnSimulates }
    // A sound table is sound when the core of any task was asked.
    ensures ask_its_core_keeps_consistent { AskItsCoreKeepsConsistent }
    // A sound table is sound when a core was asked after a new base priority.
    ensures yields_after_priority_set_keeps_consistent { YieldsAfterPrioritySetKeepsConsistent }
    // A sound table is sound when a core was asked after a new mask.
    ensures yields_after_affinity_set_keeps_consistent { YieldsAfterAffinitySetKeepsConsistent }
    // A sound table is sound when a priority was set.
    ensures priority_set_keeps_consistent { PrioritySetKeepsConsistent }
    // A sound table is sound when a core affinity mask was set.
    ensures affinity_set_keeps_consistent { AffinitySetKeepsConsistent }
    // A sound table is sound when preemption was turned off.
    ensures preemption_off_keeps_consistent { PreemptionOffKeepsConsistent }
    // A sound table is sound when preemption was turned on.
    ensures preemption_on_keeps_consistent { PreemptionOnKeepsConsistent }
{}

/// Notifying a task at an index. No other notification changes, and the rule is the same over
/// stamps and over lists, and keeps a table consistent.
pub fn laws_of_notifications()
    // Two pairs of a task and an index stand in two places among the notifications.
    ensures places_are_apart { PlacesAreApart }
    // Notifying a task at an index leaves its notifications at other indices, and those of other
    // tasks, as they are.
    ensures notify_leaves_others { NotifyLeavesOthers }
    // It wakes nobody, and changes nothing but the notification, where the task does not wait at
    // that index.
    ensures notify_wakes_only_a_waiter { NotifyWakesOnlyAWaiter }
    // Notifying a task, and waking it where it waits for that, is so over lists.
    ensures notify_simulates { NotifySimulates }
    // A sound table is sound when a task was notified with a number of 32 bits.
    ensures notify_keeps_consistent { NotifyKeepsConsistent }
    // Notifications are seen as they are, and no order of tasks reads them.
    ensures notes_keep_orders { NotesKeepOrders }
    // A sound table is sound with other notifications, of which each task has as many as the
    // settings say, whose values are numbers of 32 bits.
    ensures notes_keep_consistent { NotesKeepConsistent }
{}

/// Mutexes and priority inheritance. Each rule is the same over stamps and over lists, and keeps a
/// table consistent.
pub fn laws_of_mutexes()
    // The first waiter of a mutex is so over lists.
    ensures first_waiter_simulates { FirstWaiterSimulates }
    // It is served before all others: it has the greatest waiting priority, and of those that have
    // it, it began to wait first.
    ensures first_waiter_is_served_first { FirstWaiterIsServedFirst }
    // The ticks that are left to a deadline are seen as they are.
    ensures deadline_simulates { DeadlineSimulates }
    // Forgetting a deadline is so over lists.
    ensures forgetting_simulates { ForgettingSimulates }
    // A holder that takes over a greater priority in use does so over lists.
    ensures inherit_simulates { InheritSimulates }
    // A sound table is sound when a holder took over a priority in use.
    ensures inherit_keeps_consistent { InheritKeepsConsistent }
    // Taking a mutex, with the inheritance that comes with waiting for it, is so over lists.
    ensures take_simulates { TakeSimulates }
    // A sound table is sound when a user task took a mutex, or waits for it.
    ensures take_keeps_consistent { TakeKeepsConsistent }
    // Finishing a call that has not returned is so over lists: with what it waited for, without
    // it, or by waiting again.
    ensures finish_simulates { FinishSimulates }
    // A sound table is sound when a user task finished its call.
    ensures finish_keeps_consistent { FinishKeepsConsistent }
    // Giving a mutex, which ends what its holder inherited and wakes its first waiter, is so over
    // lists.
    ensures give_simulates { GiveSimulates }
    // A sound table is sound when a task gave a mutex.
    ensures give_keeps_consistent { GiveKeepsConsistent }
    // Giving up an inherited priority in use, and who is asked after it, is so over lists.
    ensures lower_simulates { LowerSimulates }
    // A sound table is sound when a task gave up an inherited priority in use.
    ensures lower_keeps_consistent { LowerKeepsConsistent }
    // What inheriting does to the cores and ready lists depends on them alone.
    ensures inherit_on_cores { InheritOnCores }
    // What giving up an inherited priority does to the cores and ready lists depends on them
    // alone.
    ensures lower_on_cores { LowerOnCores }
{}

/// Queues and semaphores. Each rule is the same over stamps and over lists, and keeps a table
/// consistent.
pub fn laws_of_queues()
    // A call that sends or receives, at once or by waiting for it, is so over lists.
    ensures call_simulates { QueueCallSimulates }
    // A sound table is sound when a user task sent or received, or waits for it.
    ensures call_keeps_consistent { QueueCallKeepsConsistent }
    // Finishing such a call is so over lists: with a message that goes, without one, or by waiting
    // again.
    ensures finish_simulates { QueueFinishSimulates }
    // A sound table is sound when a user task finished such a call.
    ensures finish_keeps_consistent { QueueFinishKeepsConsistent }
    // An interrupt that sends or receives is so over lists.
    ensures interrupt_simulates { QueueInterruptSimulates }
    // A sound table is sound when an interrupt sent or received.
    ensures interrupt_keeps_consistent { QueueInterruptKeepsConsistent }
{}

/// Suspended tasks. Each rule is the same over stamps and over lists, and keeps a table consistent;
/// a suspended task is woken by a resume alone.
pub fn laws_of_suspending()
    // Whether a task is suspended is the same over lists.
    ensures suspension_is_seen { SuspensionIsSeen }
    // Suspending a task is so over lists.
    ensures suspend_simulates { SuspendSimulates }
    // Resuming a task is so over lists.
    ensures resume_simulates { ResumeSimulates }
    // An interrupt that resumes a task is so over lists.
    ensures interrupt_simulates { ResumeInterruptSimulates }
    // A sound table is sound when a user task was suspended.
    ensures suspend_keeps_consistent { SuspendKeepsConsistent }
    // A sound table is sound when a task was resumed.
    ensures resume_keeps_consistent { ResumeKeepsConsistent }
    // A task is suspended after the call that suspends it.
    ensures suspended_is_suspended { SuspendedIsSuspended }
    // A suspended task is ready after it was resumed.
    ensures resumed_is_ready { ResumedIsReady }
    // Where a task is resumed that is not suspended, nothing happens.
    ensures others_are_not_resumed { OthersAreNotResumed }
    // A notification of a suspended task wakes nobody.
    ensures notify_wakes_no_suspended { NotifyWakesNoSuspended }
    // No suspended task is woken by a tick.
    ensures no_suspended_is_due { NoSuspendedIsDue }
    // No suspended task is the first waiter of an event list.
    ensures no_suspended_is_served { NoSuspendedIsServed }
{}

/// Cores, control blocks and ready lists by themselves: what each rule does to them depends on them
/// alone.
pub fn laws_of_cores()
    // A change of the base priority, the mask or the preemption flag of a task changes no order of
    // tasks.
    ensures change_is_apart { ChangeIsApart }
    // A sound table is sound when a control block was changed to priorities below their number.
    ensures change_keeps_consistent { ChangeKeepsConsistent }
    // A new stamp for a ready task whose priority in use was set is, seen as lists, the end of the
    // list of that priority.
    ensures in_use_simulates { InUseSimulates }
    // A sound table is sound when a priority in use was set to one below their number.
    ensures in_use_keeps_consistent { InUseKeepsConsistent }
    // What asking a core does to the cores and ready lists that are seen of a table.
    ensures ask_on_cores { AskOnCores }
    // What seeking a core does to the cores and ready lists that are seen of a table.
    ensures seek_on_cores { SeekOnCores }
    // What waking a task does to the cores and ready lists depends on them alone.
    ensures wake_on_cores { WakeOnCores }
    // A task that begins to wait leaves the ready lists, and changes no core.
    ensures wait_on_cores { WaitOnCores }
    // A task that is suspended leaves the ready lists; that changes no core.
    ensures suspend_on_cores { SuspendOnCores }
    // What a switch, with the seek after it, does to the cores and ready lists depends on them
    // alone.
    ensures switch_on_cores { SwitchOnCores }
    // What the ends of time slices do to the cores and ready lists depends on them alone.
    ensures slices_on_cores { SlicesOnCores }
    // What setting a priority in use does to the cores and ready lists depends on them alone.
    ensures in_use_on_cores { InUseOnCores }
{}
