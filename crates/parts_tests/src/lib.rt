//! Tests of crates each by itself: the kernel's parts, and types and texts of sessions. There is
//! nothing else here.
#![tactic(auto)]

#[cfg(test)]
mod expected;
#[cfg(test)]
mod parts;
#[cfg(test)]
mod texts;
