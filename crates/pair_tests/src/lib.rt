//! Tests of pairs of runs that keep work, and of what is told of refused edits of such runs. There
//! is nothing else here.
#![tactic(auto)]

#[cfg(test)]
mod kept;
#[cfg(test)]
mod notes;
