//! A run as it is drawn.

use crate::frame::Frame;
use crate::run_looks::RunLooks;
use bench_types::{Header, Items};

/// A run as it is drawn.
#[derive(Drop)]
pub(crate) struct Panel<'a> {
    pub(crate) header: &'a Header,
    /// Where its places stand.
    pub(crate) frame: Frame,
    /// What is seen at them.
    pub(crate) run_looks: RunLooks,
    /// The time before each place of the run.
    pub(crate) times: Items<u64>,
    /// From which place on it is not known what tasks do.
    pub(crate) known: Option<u32>,
}
