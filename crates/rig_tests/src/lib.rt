//! Tests of the lock pair, of recordings, of rigs and of the scripts that their threads play. There
//! is nothing else here.
#![tactic(auto)]

#[cfg(test)]
mod alone;
#[cfg(test)]
mod checks;
#[cfg(test)]
mod errors;
#[cfg(test)]
mod faults;
#[cfg(test)]
mod locks;
#[cfg(test)]
mod many;
#[cfg(test)]
mod recording;
#[cfg(test)]
mod rigs;
#[cfg(test)]
mod scenes;
#[cfg(test)]
mod scripts;
#[cfg(test)]
mod stopped;
#[cfg(test)]
mod together;
