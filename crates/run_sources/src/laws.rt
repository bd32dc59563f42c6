//! The laws of sources. The function does nothing: its contract is the laws, one a clause.
ghost use Rattle.run_sources.specs.SourceLaws.{FaultsAreTrue, RunOfSourceIsOne, RunOfSourceIsSession, ThereIsARunOfSource, TooLongIsLonger};

/// The runs of sources.
pub fn laws_of_sources()
    // A source has one run at most.
    ensures run_is_one { RunOfSourceIsOne }
    // It has one that a session may have, or it is too long.
    ensures there_is_a_run { ThereIsARunOfSource }
    ensures too_long_is_longer { TooLongIsLonger }
    // The steps of the run are steps of a session of the source's header.
    ensures run_is_session { RunOfSourceIsSession }
    // A fault but that no memory is left says that the source is too long.
    ensures faults_are_true { FaultsAreTrue }
{}
