//! A call that a settled run has not made.
use bench_types::Call;

/// A call that its task has not come to yet.
#[derive(Clone, Copy, Debug, PartialEq, Eq)]
pub struct WaitingCall {
    pub task: u32,
    pub call: Call,
}
