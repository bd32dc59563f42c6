//! The name for which a step, an action or an edit has F3: it is no user task's.
ghost use Rattle.std.specs.Prelude.{◌≡◌, map, option_map, IfOk, Some};
ghost use Rattle.std.specs.List.{filter_map, find};
ghost use Rattle.json_data.specs.View.{view};
ghost use Rattle.bench_types.specs.declared.step_flaw.StepFlaw.TheVariants.{Task};
ghost use Rattle.session_text.specs.Names.{user_names};
ghost use Rattle.session_text.specs.UnknownName.{detail_of, is_unknown, naming_members, text_of, unknown_name};

use crate::detail::Detail;
use crate::names::user_names;
use crate::nearest::{Shown, known_nearest};
use bench_types::{Header, StepFlaw};
use json_data::Item;
use std::alloc::{AllocError, Global};

/// The members that name tasks, in the order in which their faults are tried.
const NAMING: [&str; 3] = ["by", "to", "task"];

impl Detail {
    /// What is known of the flaw of the step, action or edit that the value spells.
    pub(crate) fn of_flaw(
        alloc: Global,
        header: &Header,
        value: Option<&Item<'_, '_>>,
        flaw: StepFlaw,
    ) -> Result<Detail, AllocError>
        ensures { IfOk result (λ detail. detail
            ≡ detail_of (user_names header.now) (option_map (λ it. view it.now) value.entry) flaw) }
    {
        match (flaw, value) {
            (StepFlaw::Task(task), Some(value)) => no_task(alloc, header, value, task),
            _ => Ok(Detail::Step(flaw)),
        }
    }
}

/// The same of a value that names a task which is none.
fn no_task(
    alloc: Global,
    header: &Header,
    value: &Item<'_, '_>,
    task: u32,
) -> Result<Detail, AllocError>
    ensures { IfOk result (λ detail. detail
        ≡ detail_of (user_names header.now) (Some (view value.now)) (Task task)) }
{
    let names = user_names(alloc, header)?;
    match unknown_name(names.as_slice(), value) {
        Some(name) => Ok(Detail::NoTask {
            name: Shown::of(alloc, name)?,
            nearest: known_nearest(alloc, name, names.as_slice())?,
        }),
        None => Ok(Detail::Step(StepFlaw::Task(task))),
    }
}

/// The first name in the value that is none of the names.
fn unknown_name<'v>(names: &[&str], value: &Item<'_, 'v>) -> Option<&'v str>
    ensures { option_map (λ name. name.now) result
        ≡ unknown_name (map (λ name. name.now) names.now) (view value.now) }
{
    match value.get("step") {
        Some(step) => unknown_member(names, &step),
        None => unknown_member(names, value),
    }
}

/// The first text of a member that names a task which is none of the names.
fn unknown_member<'v>(names: &[&str], value: &Item<'_, 'v>) -> Option<&'v str>
    ensures { option_map (λ name. name.now) result
        ≡ find (is_unknown (map (λ name. name.now) names.now))
        (filter_map (text_of (view value.now)) naming_members) }
{
    for member in &NAMING {
        if let Some(name) = text_of(value, member) {
            if is_unknown(names, name) {
                return Some(name);
            }
        }
    }
    None
}

/// The text that is the member, if there is one.
fn text_of<'v>(value: &Item<'_, 'v>, name: &str) -> Option<&'v str>
    ensures { option_map (λ text. text.now) result ≡ text_of (view value.now) name.now }
{
    value.get(name)?.as_str()
}

/// Whether the name is none of the names.
fn is_unknown(names: &[&str], name: &str) -> bool
    ensures { result ≡ is_unknown (map (λ name. name.now) names.now) name.now }
{
    for other in names {
        if name == *other {
            return false;
        }
    }
    true
}
