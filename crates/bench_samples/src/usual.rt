//! Settings and tasks that many tests use.
ghost use Rattle.std.specs.Prelude.{◌≡◌, IfOk, Ok};
ghost use Rattle.bench_types.specs.Header.{header_check};

use crate::{SampleFault, header_of, numbered_header};
use bench_types::{Config, Header, MAX_CORES, MAX_MUTEXES, MAX_NOTES, MAX_PRIORITIES};
use std::alloc::Global;

/// Two cores, 5 priorities, no time slices, no mutexes, one notification a task and one unit of
/// time a tick, from tick 0.
pub const PLAIN: Config = Config {
    cores: 2,
    priorities: 5,
    slicing: false,
    tick: 0,
    mutexes: 0,
    notes: 1,
    units: 1,
};

/// The most cores, priorities, mutexes and notifications a task, with time slices, from the last
/// tick.
pub const LARGEST: Config = Config {
    cores: MAX_CORES,
    priorities: MAX_PRIORITIES,
    slicing: true,
    tick: u32::MAX,
    mutexes: MAX_MUTEXES,
    notes: MAX_NOTES,
    units: 1,
};

/// Two cores and the tasks A, B and C on both, of the priorities 2, 1 and 1.
#[tactic(auto, unfolding(bench_types::specs::Flaw::header_flaw))]
pub fn three_tasks(alloc: Global, slicing: bool) -> Result<Header, SampleFault>
    ensures checked { IfOk result (λ header. header_check header ≡ Ok tt) }
    ensures config { IfOk result (λ header. header.config ≡ record PLAIN { slicing = slicing }) }
{
    let config = Config { slicing, ..PLAIN };
    header_of(alloc, config, &[("A", 2, 3), ("B", 1, 3), ("C", 1, 3)])
}

/// Two cores and two mutexes, and the tasks L and H on both cores, of the priorities 1 and 3.
#[tactic(auto, unfolding(bench_types::specs::Flaw::header_flaw))]
pub fn low_and_high(alloc: Global) -> Result<Header, SampleFault>
    ensures checked { IfOk result (λ header. header_check header ≡ Ok tt) }
    ensures config { IfOk result (λ header. header.config ≡ record PLAIN { mutexes = 2 }) }
{
    let config = Config {
        mutexes: 2,
        ..PLAIN
    };
    header_of(alloc, config, &[("L", 1, 3), ("H", 3, 3)])
}
