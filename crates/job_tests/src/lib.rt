//! Tests of what is counted of a task: its moves, its waits, its answers, and how long several
//! tasks wait.
//! There is nothing else here.
#![tactic(auto)]

#[cfg(test)]
mod counted;
#[cfg(test)]
mod histograms;
