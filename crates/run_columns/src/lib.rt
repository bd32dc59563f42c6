//! The columns at which the places of two runs begin, by ticks or by time.
#![tactic(auto)]

mod slots;
mod times;

pub use slots::{RunColumns, tick_columns, time_columns};
pub use times::times_of;
