//! Tests of the kernel and of the store, and of both against the plain replay over the definitions,
//! over worked sessions and random ones. There is nothing else here.
#![tactic(auto)]

#[cfg(test)]
mod checkpoints;
#[cfg(test)]
mod digest;
#[cfg(test)]
mod kernel;
#[cfg(test)]
mod largest;
#[cfg(test)]
mod no_results;
#[cfg(test)]
mod random;
#[cfg(test)]
mod replays;
#[cfg(test)]
mod reports;
#[cfg(test)]
mod samples;
#[cfg(test)]
mod segments;
#[cfg(test)]
mod shifts;
#[cfg(test)]
mod spans;
#[cfg(test)]
mod store_edits;
#[cfg(test)]
mod store_openings;
#[cfg(test)]
mod trials;
