//! The numbers of a run as figures with names, in tables, as JSON, and against limits.
#![tactic(auto)]

mod figures;
mod laws;
mod limits;
mod names;
mod objects;
mod subjects;
mod table;

pub use figures::{Figure, Part, figures_of};
pub use laws::law_of_names;
pub use limits::{
    Bound, Limit, figure_called, is_kept, limits_text, push_names, push_unkept, push_value,
};
pub use names::{push_name, push_told};
pub use objects::{run_json, runs_json};
pub use subjects::subjects_of;
pub use table::{change_of, push_cell, push_name_at, run_table, runs_table, value_at};
