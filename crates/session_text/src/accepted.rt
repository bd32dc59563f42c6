//! What was read is judged: the first fault, at its place.
ghost use Rattle.std.specs.Prelude.{◌≡◌, option_map, All, OnOk};
ghost use Rattle.serde_json.specs.Find.{at};
ghost use Rattle.json_data.specs.View.{view};
ghost use Rattle.session_text.specs.Accepted.{item_accepted, item_fault, item_of, items_accepted};
ghost use Rattle.session_text.specs.Names.{user_names};
ghost use Rattle.session_text.specs.ReadingRules.{Gives, StopsAt};
ghost use Rattle.session_text.specs.Path.{item_path, path_of};

use crate::detail::Detail;
use crate::fault::{ReadFault, Why};
use crate::path::Location;
use bench_types::{Edit, Header, Step, StepFlaw};
use json_data::Item;
use kept_edits::KeptEdit;
use std::alloc::Global;

/// What can be found at fault under a header, or under what else it has to fit.
pub(crate) trait HasCheck<H> {
    ghost use Rattle.std.specs.Prelude.{◌≡◌, IfNone, Option};
    ghost use Rattle.bench_types.specs.declared.step_flaw.StepFlaw.{StepFlaw};

    ghost flaw_of: { H → Self → Option StepFlaw };

    ghost IsChecked: { H → Self → Type 0 };

    /// The first thing for which it is not accepted.
    fn judge(&self, header: &H) -> Option<StepFlaw>
        ensures value { result ≡ flaw_of header.now self.now }
        ensures checked { IfNone result (IsChecked header.now self.now) };
}

impl HasCheck<Header> for Step {
    ghost use Rattle.bench_types.specs.Step.{settings_of, IsCheckedStep};
    ghost use Rattle.bench_types.specs.StepFlaw.{step_flaw};

    ghost flaw_of = { λ header. step_flaw (settings_of header) };

    ghost IsChecked = { λ header. IsCheckedStep (settings_of header) };

    fn judge(&self, header: &Header) -> Option<StepFlaw> {
        self.flaw(header)
    }
}

impl HasCheck<Header> for Edit {
    ghost use Rattle.bench_types.specs.Edit.{IsCheckedEdit};
    ghost use Rattle.bench_types.specs.StepFlaw.{edit_flaw};

    ghost flaw_of = { edit_flaw };

    ghost IsChecked = { IsCheckedEdit };

    fn judge(&self, header: &Header) -> Option<StepFlaw> {
        self.flaw(header)
    }
}

impl HasCheck<Header> for KeptEdit {
    ghost use Rattle.kept_edits.specs.Edits.{IsKeptEdit};
    ghost use Rattle.session_text.specs.KeptEdit.{kept_flaw};

    ghost flaw_of = { kept_flaw };

    ghost IsChecked = { IsKeptEdit };

    fn judge(&self, header: &Header) -> Option<StepFlaw> {
        match self {
            KeptEdit::Plain(edit) => edit.flaw(header),
            KeptEdit::Work { .. } => None,
        }
    }
}

/// What has the header under which items are judged.
pub(crate) trait HasHeader {
    ghost use Rattle.std.specs.Prelude.{◌≡◌};
    ghost use Rattle.bench_types.specs.declared.header.Header.{Header};

    ghost header_of: { Self → Header };

    fn header(&self) -> &Header
        ensures { result.now ≡ header_of self.now };
}

impl HasHeader for Header {
    ghost header_of = { λ header. header };

    fn header(&self) -> &Header {
        self
    }
}

/// The fault of a flaw at the location, with what is at fault in the value there.
pub fn item_fault(
    alloc: Global,
    header: &Header,
    location: &Location<'_>,
    value: Option<&Item<'_, '_>>,
    flaw: StepFlaw,
) -> ReadFault
    ensures { StopsAt
        (item_fault (user_names header.now) (path_of location.now)
        (option_map (λ it. view it.now) value.entry) flaw) result }
{
    match Detail::of_flaw(alloc, header, value, flaw) {
        Ok(detail) => ReadFault::at(alloc, location, Why::Bench(flaw.fault()), detail),
        Err(_) => ReadFault::Memory,
    }
}

/// Where items were read: the location of their array, and its value.
#[derive(Drop)]
pub(crate) struct Source<'p, 'v> {
    pub(crate) alloc: Global,
    pub(crate) location: &'p Location<'p>,
    pub(crate) value: Option<Item<'p, 'v>>,
}

impl<'p, 'v> Source<'p, 'v> {
    /// The item of that index. The items before it are walked.
    pub(crate) fn item(&self, index: usize) -> Option<Item<'p, 'v>>
        ensures { option_map view result ≡ item_of index (option_map view self.now.value) }
    {
        match &self.value {
            Some(array) => item_at(array, index),
            None => None,
        }
    }

    fn fault(&self, header: &Header, index: usize, flaw: StepFlaw) -> ReadFault
        ensures { StopsAt
            (item_fault (user_names header.now) (item_path (path_of self.now.location.now) index)
            (item_of index (option_map view self.now.value)) flaw) result }
    {
        let location = Location::Item(self.location, index);
        let item = self.item(index);
        item_fault(self.alloc, header, &location, item.as_ref(), flaw)
    }
}

fn item_at<'p, 'v>(array: &Item<'p, 'v>, index: usize) -> Option<Item<'p, 'v>>
    ensures { option_map view result ≡ at index (view array.now) }
{
    let mut items = array.as_array()?;
    let mut left = index;
    loop {
        let item = items.next()?;
        if left == 0 {
            return Some(item);
        }
        left -= 1;
    }
}

/// The fault of the item of that index, if there is one.
fn item_accepted<H: HasHeader, T: HasCheck<H>>(
    source: &Source<'_, '_>,
    header: &H,
    index: usize,
    item: &T,
) -> Result<(), ReadFault>
    ensures reading { Gives (λ done. done) result
        (item_accepted (user_names (H.header_of header.now))
        (item_path (path_of source.now.location.now) index)
        (item_of index (option_map view source.now.value)) (T.flaw_of header.now item.now)) }
    ensures checked { OnOk result (T.IsChecked header.now item.now) }
{
    match item.judge(header) {
        None => Ok(()),
        Some(flaw) => Err(source.fault(header.header(), index, flaw)),
    }
}

/// The first fault of the items that were read there, if there is one.
pub(crate) fn items_accepted<H: HasHeader, T: HasCheck<H>>(
    source: &Source<'_, '_>,
    header: &H,
    items: &[T],
) -> Result<(), ReadFault>
    ensures reading { Gives (λ done. done) result
        (items_accepted (T.flaw_of header.now) (user_names (H.header_of header.now))
        (path_of source.now.location.now) (option_map view source.now.value) 0 items.now) }
    ensures checked { OnOk result (All (T.IsChecked header.now) items.now) }
{
    for (index, item) in items.iter().enumerate() {
        item_accepted(source, header, index, item)?;
    }
    Ok(())
}
