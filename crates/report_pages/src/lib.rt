//! The report of a run as HTML: its numbers, its loads as bars, and how long the responses of
//! each task are as bars.
#![tactic(auto)]

mod laws;
mod loads;
mod number;
mod report;
mod responses;
mod texts;

pub use laws::laws_of_reports;
pub use loads::push_load_bars;
pub use report::{RunFigures, push_run_report, push_runs_report};
pub use responses::push_response_bars;
