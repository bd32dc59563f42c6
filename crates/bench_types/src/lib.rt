//! What a session is made of: its settings and tasks, its steps, their replies, edits of it, and
//! the checks of their limits.
#![tactic(auto)]

mod cause;
mod code;
mod core_action;
mod edit;
mod entry;
mod fault;
mod flaw;
mod header;
mod items;
mod kernel_data;
mod limits;
mod mask;
mod name;
mod note;
mod reply;
mod session;
mod step;
mod step_flaw;
mod tally;

pub use cause::Cause;
pub use core_action::CoreAction;
pub use edit::{Edit, EditFault};
pub use entry::Entry;
pub use fault::Fault;
pub use flaw::HeaderFlaw;
pub use header::{Config, Header, QueueArgs, TaskArgs, copy_queues};
pub use items::Items;
pub use kernel_data::{
    CoreLook, Delayed, EventWait, Hold, QueueLook, Settings, TaskControl, TaskLook, Waiter,
};
pub use limits::{
    MAX_CORES, MAX_DEPTH, MAX_INPUT, MAX_MESSAGES, MAX_MUTEXES, MAX_NAME, MAX_NOTES,
    MAX_PRIORITIES, MAX_QUEUES, MAX_SPAN, MAX_STEPS, MAX_TAKES, MAX_TASKS, MAX_UNITS, MIN_CORES,
    laws_of_limits,
};
pub use mask::cores_of_mask;
pub use name::Name;
pub use note::{Note, NoteState, Notification, NotifyAction};
pub use reply::{Refusal, Reply, Row};
pub use session::CheckedSession;
pub use step::{BlockingCall, Call, Direction, Step, Unfinished};
pub use step_flaw::StepFlaw;
pub use tally::Tally;
