//! The waits of a task so far.
ghost use Rattle.std.specs.Prelude.{◌≡◌, ◌<◌, ◌-◌, ◌^◌};
ghost use Rattle.task_jobs.specs.Works.{first_waits, is_by_tick_now, with_wake};

/// What a step is to the waits of a task.
#[derive(Clone, Copy, Debug, PartialEq, Eq)]
pub struct Wake {
    /// The task is ready after the step.
    pub ready: bool,
    /// The step is a tick.
    pub tick: bool,
    /// The step ends a wait of the task, which did not get what it waited for.
    pub in_vain: bool,
}

/// The waits of a task so far.
#[derive(Clone, Copy, Debug, PartialEq, Eq)]
pub struct Waits {
    /// The task is ready.
    pub ready: bool,
    /// A tick made it ready last.
    pub by_tick: bool,
    /// How many waits were over before the task was woken, and got nothing.
    pub run_out: u32,
}

impl Waits {
    /// Before any step, of a task that is ready or not.
    pub fn start(ready: bool) -> Self
        ensures { result ≡ first_waits ready }
    {
        Waits {
            ready,
            by_tick: false,
            run_out: 0,
        }
    }

    // Whether a tick made it ready last, with the step.
    fn is_by_tick(&self, wake: Wake) -> bool
        ensures { result ≡ is_by_tick_now wake self.now }
    {
        if !self.ready && wake.ready {
            wake.tick
        } else {
            self.by_tick
        }
    }

    /// With what a step is to them.
    pub fn with_wake(&self, wake: Wake) -> Self
        requires { self.now.run_out < 2 ^ 32 - 1 }
        ensures { result ≡ with_wake wake self.now }
    {
        Waits {
            ready: wake.ready,
            by_tick: self.is_by_tick(wake),
            run_out: self.run_out + u32::from(wake.in_vain && self.by_tick),
        }
    }
}
