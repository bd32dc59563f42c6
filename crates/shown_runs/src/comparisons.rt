//! The run before the edits beside the run after them.
ghost use Rattle.std.specs.Prelude.{◌≡◌, IfOk, option_map, string_bytes};
ghost use Rattle.shown_runs.specs.Pages.{comparison_at};
ghost use Rattle.shown_runs.specs.Told.{comparison_of};

use crate::parts::{Course, Part, PartProgress};
use crate::shown::Shown;
use run_comparisons::{compare, compare_with_itself};
use run_views::Places;
use std::alloc::{AllocError, Global};

/// Both runs with all their rows. One run is compared with itself.
pub(crate) fn comparison_of<P: PartProgress>(
    course: &mut Course<P>,
    alloc: Global,
    shown: &Shown,
) -> Result<String, AllocError>
    ensures { IfOk result (λ text. string_bytes text ≡ comparison_of shown.now) }
{
    course.begin(Part::Comparing);
    match shown {
        Shown::One(run) => compare_with_itself(alloc, run, None),
        Shown::Two(pair) => compare(alloc, pair, None),
    }
}

/// Both runs with the rows at the places alone; nothing of one run.
pub(crate) fn comparison_at<P: PartProgress>(
    course: &mut Course<P>,
    alloc: Global,
    shown: &Shown,
    places: Places,
) -> Result<Option<Vec<u8>>, AllocError>
    ensures { IfOk result
        (λ part. option_map (λ words. words.items) part ≡ comparison_at places shown.now) }
{
    match shown {
        Shown::One(_) => Ok(None),
        Shown::Two(pair) => {
            course.begin(Part::Comparing);
            let text = compare(alloc, pair, Some(places))?;
            Ok(Some(text.into_bytes()))
        }
    }
}
