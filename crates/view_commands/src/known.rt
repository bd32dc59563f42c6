//! Up to where a run that keeps work is known, as people are told.
ghost use Rattle.std.specs.Prelude.{◌≡◌, IfOk, string_bytes};
ghost use Rattle.view_commands.specs.Known.{known_text};

use bench_types::Header;
use kept_runs::KnownLimit;
use run_comparisons::push_known;
use std::alloc::{AllocError, Global};

/// Up to which place a run is known, and of which task it is not known what it does next; nothing
/// where all of the run is known.
pub(crate) fn known_text(
    alloc: Global,
    header: &Header,
    limit: Option<KnownLimit>,
) -> Result<String, AllocError>
    ensures { IfOk result (λ text. string_bytes text ≡ known_text header.now limit) }
{
    let mut text = String::new(alloc);
    if let Some(limit) = limit {
        push_known(&mut text, header, limit)?;
    }
    Ok(text)
}
