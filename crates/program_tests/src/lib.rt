//! Tests of the bench's commands over devices in memory, of edits that are tried side by side, of
//! what a run shows, and the examples of docs/LIBRARY.md. There is nothing else here.
#![tactic(auto)]

#[cfg(test)]
mod command_lines;
#[cfg(test)]
mod devices;
#[cfg(test)]
mod documents;
#[cfg(test)]
mod doubled;
#[cfg(test)]
mod examples;
#[cfg(test)]
mod faults;
#[cfg(test)]
mod help;
#[cfg(test)]
mod hints;
#[cfg(test)]
mod hostile;
#[cfg(test)]
mod processes;
#[cfg(test)]
mod rigs;
#[cfg(test)]
mod side_by_side;
#[cfg(test)]
mod sizes;
#[cfg(test)]
mod trials;
#[cfg(test)]
mod words;
