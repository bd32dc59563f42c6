//! Headers that tests share: of tasks that are given by numbers and names, and the usual ones.
#![tactic(auto)]

mod fault;
mod header;
mod usual;

pub use fault::SampleFault;
pub use header::{crowd, header_of, numbered_header};
pub use usual::{LARGEST, PLAIN, low_and_high, three_tasks};
