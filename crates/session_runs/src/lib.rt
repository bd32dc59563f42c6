//! Runs: the steps of a session, each made once, and what they led to.
#![tactic(auto)]

mod making;
mod outcomes;
mod run;
mod walk;

pub use making::RunMaker;
pub use run::Run;
pub use walk::RunWalk;
