//! Edits of a session, and for what they are not accepted.
ghost use Rattle.std.specs.Prelude.{◌≡◌, OnOk};
ghost use Rattle.bench_types.specs.Edit.{edit_check, IsCheckedEdit, IsEditOfWords};
ghost use Rattle.bench_types.specs.StepFlaw.{edit_flaw, check_of, numbers_flaw};

use crate::header::allows_core;
use crate::step::task_flaw;
use crate::step_flaw::check_of;
use crate::{Config, Fault, Header, Step, StepFlaw};
use thiserror::Error;

/// Why an edit of a session is not accepted, with the code that the texts give it.
#[derive(Clone, Copy, Debug, PartialEq, Eq, Hash, Error)]
pub enum EditFault {
    /// F1 to F5: the edit does not fit the header of the session.
    #[error(transparent)]
    Bench(Fault),
    /// J1: the session has no such place.
    #[error("the session has no such place")]
    NoPlace,
    /// J2: the session would have more than [`MAX_STEPS`](crate::MAX_STEPS) steps.
    #[error("the session would have too many steps")]
    TooLong,
}

impl From<Fault> for EditFault {
    ghost use Rattle.std.specs.Prelude.{◌≡◌};
    ghost use Rattle.bench_types.specs.declared.edit.EditFault.TheVariants.{Bench};

    ghost from_gives = { λ fault edit_fault. edit_fault ≡ Bench fault };

    fn from(fault: Fault) -> Self {
        EditFault::Bench(fault)
    }
}

/// A change of a session: of one of its steps, or of one task of its header.
///
/// A place `at` counts the steps before it, so that `Insert` at the number of steps appends.
#[derive(Clone, Copy, Debug, PartialEq, Eq, Hash)]
pub enum Edit {
    /// The step becomes step `at`, and those from there on move by one.
    Insert { at: u32, step: Step },
    /// Step `at` goes, and those after it move back by one.
    Remove { at: u32 },
    /// The step stands in place of step `at`.
    Replace { at: u32, step: Step },
    /// The user task is created with this priority and core affinity mask.
    ChangeTask { task: u32, priority: u32, mask: u32 },
}

impl Edit {
    /// The first thing for which the edit is not accepted: that of its step; of a changed task the
    /// task, then the priority, then the mask.
    #[tactic(auto, using(crate::proofs::StepFlaws::edit_check_of))]
    pub fn flaw(&self, header: &Header) -> Option<StepFlaw>
        ensures value { result ≡ edit_flaw header.now self.now }
        // There is one exactly where the check is a fault, and it is that fault.
        ensures law { edit_check header.now self.now ≡ check_of result }
        ensures words { IsEditOfWords self.now }
    {
        match *self {
            Edit::Insert { at: _at, step } | Edit::Replace { at: _at, step } => step.flaw(header),
            Edit::Remove { at: _at } => None,
            Edit::ChangeTask {
                task,
                priority,
                mask,
            } => task_flaw(task, header).or(numbers_flaw(&header.config, priority, mask)),
        }
    }

    /// The fault of the edit's step. Of a changed task F3 where it is no user task, else F1 where
    /// the priority is not below the number of priorities or the mask allows no core.
    ///
    /// Whether the session has the place `at` is not looked at.
    pub fn check(&self, header: &Header) -> Result<(), Fault>
        ensures value { result ≡ edit_check header.now self.now }
        ensures checked { OnOk result (IsCheckedEdit header.now self.now) }
    {
        check_of(self.flaw(header))
    }
}

// The first flaw of a task's new numbers.
fn numbers_flaw(config: &Config, priority: u32, mask: u32) -> Option<StepFlaw>
    ensures { result ≡ numbers_flaw config.now priority mask }
{
    let Config {
        cores,
        priorities,
        ..
    } = *config;
    if priorities <= priority {
        Some(StepFlaw::NewPriority {
            priority,
            priorities,
        })
    } else if allows_core(cores, mask) {
        None
    } else {
        Some(StepFlaw::NewMask { mask, cores })
    }
}
