//! How much time a step takes.
ghost use Rattle.std.specs.Prelude.{◌≡◌};
ghost use Rattle.step_times.specs.Times.{time_of};

use bench_types::Step;

/// How many units of time the step takes where a tick has so many. By its own time stamps a
/// recording says how much time passes between two calls; a call itself takes none.
pub fn time_of(units: u32, step: &Step) -> u32
    ensures { result ≡ time_of units step.now }
{
    match *step {
        Step::Tick => u32::from(units == 1),
        Step::Pass { units: passed } if units != 1 => passed,
        _ => 0,
    }
}
