//! A run as a picture: one SVG, in which each core and each task has a band over the places.
#![tactic(auto)]

mod axis;
mod bar;
mod core_bands;
mod escape;
mod frame;
mod hindrance;
mod hindrance_words;
mod ink;
mod laws;
mod marks;
mod mutex_lines;
mod panel;
mod picture;
mod pose;
mod preemption;
mod queue_lines;
mod row_stretches;
mod run_looks;
mod shown;
mod signs;
mod stance;
mod stretch;
mod style;
mod task_bands;
mod task_names;
mod task_stretches;
mod time_row;
mod unknown;

pub use escape::{law_of_escapes, push_escaped, push_escaped_bytes};
pub use frame::Axis;
pub use hindrance::{Hindrance, Obstacle};
pub use laws::{
    law_of_bars, law_of_first_columns, law_of_hindrances, law_of_legends, law_of_queues,
    law_of_waits,
};
pub use picture::{Extent, MAX_PLACES, PlacedRun, TooLong, law_of_places, timeline, timelines};
pub use pose::Pose;
pub use run_looks::{Made, RunLooks};
pub use stance::Stance;
pub use stretch::{Stretch, StretchValue, stretches_of};
