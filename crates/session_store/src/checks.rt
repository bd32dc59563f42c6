//! Whether a session may be opened, and an edit made.
ghost use Rattle.std.specs.Prelude.{◌≡◌, ◌≤◌, ◌^◌, ◌<◌, All, OnOk, List, length};
ghost use Rattle.bench_types.specs.Edit.{IsEditOfWords};
ghost use Rattle.bench_types.specs.Session.{IsSession};
ghost use Rattle.bench_types.specs.Step.{settings_of, IsCheckedStep};
ghost use Rattle.bench_types.specs.declared.step.Step.{Step};
ghost use Rattle.bench_model.specs.Edits.{accepted, has_place, has_room};
ghost use Rattle.session_store.specs.Opening.{open_check, steps_check};

use crate::OpenRefusal;
use crate::fault::Refused;
use bench_types::{Edit, EditFault, Header, MAX_SPAN, MAX_STEPS, Step};

fn has_place(count: u32, edit: &Edit) -> bool
    ensures { (steps : List Step) → length steps ≡ count → result ≡ has_place steps edit.now }
{
    match *edit {
        Edit::Insert { at, step: _ } => at <= count,
        Edit::Remove { at } | Edit::Replace { at, step: _ } => at < count,
        Edit::ChangeTask { .. } => true,
    }
}

fn has_room(count: u32, edit: &Edit) -> bool
    ensures { (steps : List Step) → length steps ≡ count → result ≡ has_room steps edit.now }
{
    match edit {
        Edit::Insert { .. } => count < MAX_STEPS,
        Edit::Remove { .. } | Edit::Replace { .. } | Edit::ChangeTask { .. } => true,
    }
}

/// The fault of the edit under the header, else J1, else J2, for a session of so many steps.
pub(crate) fn check_edit(header: &Header, count: u32, edit: &Edit) -> Result<(), EditFault>
    ensures value { (steps : List Step) → length steps ≡ count
        → result ≡ accepted (record { header = header.now; steps = steps }) edit.now }
    ensures words { OnOk result (IsEditOfWords edit.now) }
{
    edit.check(header)?;
    if !has_place(count, edit) {
        return Err(EditFault::NoPlace);
    }
    if !has_room(count, edit) {
        return Err(EditFault::TooLong);
    }
    Ok(())
}

fn check_steps(header: &Header, steps: &[Step]) -> Result<(), Refused>
    requires { length steps.now < 2 ^ 32 }
    ensures value { result ≡ steps_check (settings_of header.now) 0 steps.now }
    ensures checked { OnOk result (All (IsCheckedStep (settings_of header.now)) steps.now) }
{
    for (at, step) in steps.iter().enumerate() {
        if let Err(fault) = step.check(header) {
            return Err(Refused {
                why: OpenRefusal::Bench(fault),
                at: Some(at as u32),
            });
        }
    }
    Ok(())
}

/// F1, else J3, else J2, else the fault of the first step that has one.
pub(crate) fn check_opening(header: &Header, steps: &[Step], span: u32) -> Result<(), Refused>
    ensures value { result ≡ open_check header.now steps.now span }
    ensures session { OnOk result (IsSession (record { header = header.now; steps = steps.now })) }
{
    if let Err(fault) = header.check() {
        return Err(Refused {
            why: OpenRefusal::Bench(fault),
            at: None,
        });
    }
    if span < 1 || MAX_SPAN < span {
        return Err(Refused {
            why: OpenRefusal::BadSpan,
            at: None,
        });
    }
    if steps.len() > MAX_STEPS as usize {
        return Err(Refused {
            why: OpenRefusal::TooLong,
            at: None,
        });
    }
    check_steps(header, steps)
}
