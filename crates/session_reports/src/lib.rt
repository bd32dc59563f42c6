//! Reports of runs: the figures of a run or of two, and whether they keep limits.
#![tactic(auto)]

mod figures;
mod limits;
mod report;

pub use figures::figures_of_run;
pub use limits::{CheckStatus, Checked, Wanted, check, unknown_text};
pub use report::{Form, report_of_run, report_of_runs};
