//! Advice: which changes of a source help a number of its run most, and what they cost others.
#![tactic(auto)]

mod advice;
mod basis;
mod costs;
mod entries;
mod laws;
mod question;
mod words;

pub use advice::advise;
pub use laws::law_of_advice;
pub use question::{AdviceStatus, Advised, Question};
