//! Command lines that were worked out by hand.
ghost use Rattle.view_commands.specs.CommandLines.{WorkedAdvice, WorkedChecks, WorkedHelp, WorkedKeptRuns, WorkedMistakes, WorkedSimulations, WorkedTraces, WorkedVersions, WorkedViews};

/// Command lines with what they ask for. It does nothing: its contract is the laws, one a clause.
pub fn examples_of_command_lines()
    // A trace is asked for, with the places, tasks, cores and file that were worked out by hand.
    ensures traces { WorkedTraces }
    // Another view is asked for.
    ensures views { WorkedViews }
    // Runs that keep work are asked for, or options name two ways to make runs, ties alone, or an
    // unknown order.
    ensures kept_runs { WorkedKeptRuns }
    // The run of a workload is asked for.
    ensures simulations { WorkedSimulations }
    // A check is asked for, or limits are missing.
    ensures checks { WorkedChecks }
    // Advice is asked for, or something of it is missing.
    ensures advice { WorkedAdvice }
    // Help is asked for.
    ensures helps { WorkedHelp }
    // The version is asked for.
    ensures versions { WorkedVersions }
    // Nothing that the program does is asked for.
    ensures mistakes { WorkedMistakes }
{}
