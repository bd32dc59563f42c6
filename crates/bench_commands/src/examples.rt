//! Command lines with what they ask for.
ghost use Rattle.bench_commands.specs.CommandLines.{WorkedHelp, WorkedMistakes, WorkedRecordings, WorkedRuns, WorkedTrials};

/// Command lines with what they ask for. It does nothing: its contract is the laws, one a clause.
#[tactic(auto, using(crate::proofs::CommandLines::runs, crate::proofs::CommandLines::trials, crate::proofs::CommandLines::recordings, crate::proofs::CommandLines::helps, crate::proofs::CommandLines::mistakes))]
pub fn examples_of_command_lines()
    // A replay is asked for, with the span and the tallies that were worked out by hand.
    ensures runs { WorkedRuns }
    // Trials of edits are asked for, with the span that was worked out by hand.
    ensures trials { WorkedTrials }
    // A recording is asked for.
    ensures recordings { WorkedRecordings }
    // Help is asked for.
    ensures helps { WorkedHelp }
    // Nothing that the program does is asked for.
    ensures mistakes { WorkedMistakes }
{}
