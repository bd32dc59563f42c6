//! Tests of settled runs, alone and beside each other, of the numbers of runs and of changes that
//! are ranked by them, of advice in words, of runs of sources, of loads and responses as bars, and
//! of why a kernel would refuse a step.
//! There is nothing else here.
#![tactic(auto)]

#[cfg(test)]
mod advice;
#[cfg(test)]
mod advised;
#[cfg(test)]
mod bars;
#[cfg(test)]
mod compared;
#[cfg(test)]
mod numbers;
#[cfg(test)]
mod progress;
#[cfg(test)]
mod settled;
#[cfg(test)]
mod sources;
#[cfg(test)]
mod too_long;
