//! The parts of the rule of a delay until a tick count, computed.
ghost use Rattle.std.specs.Prelude.{◌≡◌};
ghost use Rattle.bench_model.specs.Until.{next_wake, is_ahead};

/// The tick count that lies so many ticks after the last wake.
pub fn next_wake(prev: u32, inc: u32) -> u32
    ensures { result ≡ next_wake prev inc }
{
    prev.wrapping_add(inc)
}

/// Whether the wake lies ahead of now, seen from the last wake (`xTaskDelayUntil`). All are tick
/// counts.
#[tactic(auto, unfolding(crate::specs::Until::is_ahead))]
pub fn is_ahead(now: u32, prev: u32, wake: u32) -> bool
    ensures { result ≡ is_ahead now prev wake }
{
    if now < prev {
        wake < prev && now < wake
    } else {
        wake < prev || now < wake
    }
}
