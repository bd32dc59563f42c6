//! Tests of what runs show, and of the commands that make it, over devices in memory.
//! There is nothing else here.
#![tactic(auto)]

#[cfg(test)]
mod checks;
#[cfg(test)]
mod command_lines;
#[cfg(test)]
mod devices;
#[cfg(test)]
mod doubled;
#[cfg(test)]
mod files;
#[cfg(test)]
mod help;
#[cfg(test)]
mod kept;
#[cfg(test)]
mod opened;
#[cfg(test)]
mod pages;
#[cfg(test)]
mod parts;
#[cfg(test)]
mod pictures;
#[cfg(test)]
mod processes;
#[cfg(test)]
mod progress;
#[cfg(test)]
mod reports;
#[cfg(test)]
mod samples;
#[cfg(test)]
mod settled;
#[cfg(test)]
mod sizes;
#[cfg(test)]
mod strict;
#[cfg(test)]
mod too_long;
#[cfg(test)]
mod traces;
#[cfg(test)]
mod views;
#[cfg(test)]
mod words;
#[cfg(test)]
mod workloads;
