//! The run of a workload, as it is given.
use bench_types::CheckedSession;
use std::marker::Model;

/// The run of a workload.
#[derive(Debug, Drop)]
pub struct Simulated {
    /// The session that the run is.
    pub session: CheckedSession,
    /// Of each user task, in the order of the header, whether it is at the end of its program when
    /// the run ends.
    pub at_end: Vec<bool>,
}

impl Model for Simulated {
    ghost use Rattle.simulating.specs.Simulated.{SimulatedView};

    ghost Value = { SimulatedView };

    ghost view = { λ it. record { session = it.session; at_end = it.at_end.items } };
}
