//! Tests of up to where runs that keep work are known. There is nothing else here.
#![tactic(auto)]

#[cfg(test)]
mod limits;
#[cfg(test)]
mod sample;
