//! Tests of workloads: their texts, and what reading them gives. There is nothing else here.
#![tactic(auto)]

#[cfg(test)]
mod edits;
#[cfg(test)]
mod faults;
#[cfg(test)]
mod notes;
#[cfg(test)]
mod programs;
#[cfg(test)]
mod runs;
#[cfg(test)]
mod texts;
