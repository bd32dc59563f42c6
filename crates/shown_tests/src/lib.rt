//! Tests of what is told of runs that are shown. There is nothing else here.
#![tactic(auto)]

#[cfg(test)]
mod told;
