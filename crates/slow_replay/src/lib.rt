//! A plain replay of the definitions, for tests: a flat table whose choices are searches, made step
//! by step.
#![tactic(auto)]

mod slow;

pub use slow::replay_slow;
