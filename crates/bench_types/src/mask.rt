//! Core affinity masks.
ghost use Rattle.std.specs.Prelude.{◌≡◌};
ghost use Rattle.bench_types.specs.Header.{cores_of_mask as cores_in};

/// The bits of a core affinity mask that mean one of so many cores. A mask has none for a core of
/// number 32 or more.
pub fn cores_of_mask(cores: u32, mask: u32) -> u32
    ensures { result ≡ cores_in cores mask }
{
    if cores < u32::BITS {
        mask % (1 << cores)
    } else {
        mask
    }
}
