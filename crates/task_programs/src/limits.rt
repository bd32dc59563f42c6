//! How large a workload may be.
ghost use Rattle.std.specs.Prelude.{◌≡◌};
ghost use Rattle.task_programs.specs.Limits.{max_items, max_nesting, max_ticks};

/// How many items the programs of a workload have at most, all together. Each work of a list counts
/// as one.
pub const MAX_ITEMS: usize = 100_000;

/// How many loops and calls with branches stand around an item at most.
pub const MAX_NESTING: usize = 16;

/// How many ticks a workload goes on for at most.
pub const MAX_TICKS: u32 = 1_000_000;

/// The limits of the code are those that contracts name. It does nothing: its contract is the law.
pub fn laws_of_workload_limits()
    ensures items { MAX_ITEMS ≡ max_items }
    ensures nesting { MAX_NESTING ≡ max_nesting }
    ensures ticks { MAX_TICKS ≡ max_ticks }
{}
