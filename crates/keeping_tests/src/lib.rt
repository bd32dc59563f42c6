//! Tests of runs that keep work. There is nothing else here.
#![tactic(auto)]

#[cfg(test)]
mod answers;
#[cfg(test)]
mod runs;
