//! Sessions, their edits and the scripts of rigs, read from JSON texts, with the first fault and
//! its place.
#![tactic(auto)]

mod accepted;
mod action;
mod array;
mod bench;
mod call;
mod core_action;
mod detail;
mod edit;
mod fault;
mod format;
mod header;
mod kept_edit;
mod member;
mod names;
mod nearest;
mod node;
mod noted;
mod path;
mod rig;
mod session;
mod step;
mod unknown_name;

pub use accepted::item_fault;
pub use array::{ReadItem, each, list_at};
pub use bench::{Bench, read_bench, read_bench_noted, read_kept_bench_noted};
pub use call::{CallKind, call_at};
pub use detail::{BrokenRule, Detail, Expected, Found, Words};
pub use edit::read_edit;
pub use fault::{ReadFault, TextFault, Why};
pub use format::Format;
pub use header::{TaskShape, accepted as judged_header, settings_at};
pub use names::Names;
pub use nearest::{Shown, Stray};
pub use node::Node;
pub use noted::{DoubledMember, Noted};
pub use path::{Location, Path};
pub use rig::{RigScript, read_rig, read_rig_noted};
pub use session::{document, known_names, read_session};
pub use step::{Kind, step_of_core_at};
