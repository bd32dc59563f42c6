//! Tests of sessions with edits and of their runs that keep work. There is nothing else here.
#![tactic(auto)]

#[cfg(test)]
mod runs;
#[cfg(test)]
mod sample;
#[cfg(test)]
mod works;
