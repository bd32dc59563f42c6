//! Tests of checked sessions, of edits of them and of their runs.
//! There is nothing else here.
#![tactic(auto)]

#[cfg(test)]
mod checked;
#[cfg(test)]
mod edited;
#[cfg(test)]
mod kept;
#[cfg(test)]
mod runs;
