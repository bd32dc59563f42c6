//! What is known of programs and workloads that were checked.
ghost use Rattle.task_programs.specs.Laws.{CallsAreChecked, CheckedIsSound, NoneHasAFlaw, WakesGoOn};
ghost use Rattle.task_programs.specs.Walks.{WalksCome};

/// In a program without a flaw each instruction is accepted, and no walk goes on for ever without a
/// work or a call. It does nothing: its contract is the law.
pub fn laws_of_programs()
    ensures instructions { NoneHasAFlaw }
    ensures calls { CallsAreChecked }
    ensures wakes { WakesGoOn }
    ensures walks { WalksCome }
{}

/// A checked workload is within its limits, and has a program for each task. It does nothing: its
/// contract is the law.
pub fn laws_of_workloads()
    ensures { CheckedIsSound }
{}
