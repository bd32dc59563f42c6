//! Holds of the kernel (`taskENTER_CRITICAL`, `taskEXIT_CRITICAL`).
ghost use Rattle.std.specs.Prelude.{◌≡◌, ◌≤◌, is_some};
ghost use Rattle.bench_types.specs.Limits.{max_depth};
ghost use Rattle.bench_model.specs.Holds.{is_held_by, is_held_elsewhere, depth_of, hold_opened, hold_closed};

use super::Scheduler;
use bench_types::Hold;

impl Scheduler {
    /// The open hold, if there is one.
    pub fn hold(&self) -> Option<Hold>
        ensures { result ≡ self.now.hold }
    {
        self.hold
    }

    pub(super) fn is_held(&self) -> bool
        ensures { result ≡ is_some self.now.hold }
    {
        self.hold.is_some()
    }

    pub(super) fn is_held_by(&self, core: u32) -> bool
        ensures { result ≡ is_held_by core self.now.hold }
    {
        matches!(self.hold, Some(hold) if hold.core == core)
    }

    pub(super) fn is_held_elsewhere(&self, core: u32) -> bool
        ensures { result ≡ is_held_elsewhere core self.now.hold }
    {
        matches!(self.hold, Some(hold) if hold.core != core)
    }

    // How many times over the kernel is held.
    pub(super) fn depth(&self) -> u32
        ensures { result ≡ depth_of self.now.hold }
    {
        self.hold.map_or(0, |hold| hold.depth)
    }

    // The core holds the kernel once more.
    #[tactic(auto, unfolding(bench_model::specs::Holds::hold_opened))]
    pub(super) fn open_hold(&mut self, core: u32)
        requires { depth_of self.old.hold ≤ max_depth }
        ensures { self.new ≡ hold_opened core self.old }
    {
        let depth = self.depth() + 1;
        self.hold = Some(Hold { core, depth });
    }

    // The core holds the kernel once less, and frees it with the last time.
    #[tactic(auto, unfolding(bench_model::specs::Holds::hold_closed))]
    pub(super) fn close_hold(&mut self, core: u32)
        ensures { self.new ≡ hold_closed core self.old }
    {
        let depth = self.depth().saturating_sub(1);
        self.hold = (depth > 0).then_some(Hold { core, depth });
    }
}
