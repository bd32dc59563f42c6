//! The answers of a run's calls.
#![tactic(auto)]

mod answer;
mod run;

pub use answer::Answer;
pub use run::run_answers;
