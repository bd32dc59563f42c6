//! What core threads pass before each action.

/// What the threads of cores pass before each action of their scripts, as a test that holds them up
/// until others have come.
pub trait Gate: Sync {
    /// Called by the thread of `core` before each action of its script, of which `done` came
    /// before (4294967295 stands for more too).
    fn pass(&self, core: u32, done: u32);
}
