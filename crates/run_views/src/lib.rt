//! A run that explains itself: what can be seen of a kernel at each place, and what each step
//! changed, in words.
#![tactic(auto)]

mod change;
mod change_words;
mod interest;
mod look;
mod place_texts;
mod places;
mod refused_steps;
mod reply_words;
mod same;
mod step_words;
mod trace_lines;
mod watch;

pub use change::{Change, CoreChange, MutexChange, NoteChange, QueueChange, TaskChange};
pub use change_words::{push_hold, push_standing};
pub use interest::Interest;
pub use look::{Look, Standing, TaskStatus};
pub use place_texts::trace_by_places;
pub use places::Places;
pub use refused_steps::{has_refused_step, is_refusal};
pub use reply_words::push_reply;
pub use same::is_same_cause;
pub use step_words::push_step;
pub use trace_lines::{due_text, trace};
