//! What a core does next, and for what it is not accepted.
ghost use Rattle.std.specs.Prelude.{◌≡◌, OnOk};
ghost use Rattle.bench_types.specs.CoreAction.{core_action_check, IsCoreActionOfWords, IsCheckedCoreAction};
ghost use Rattle.bench_types.specs.Step.{settings_of};
ghost use Rattle.bench_types.specs.StepFlaw.{core_action_flaw, check_of};

use crate::step::{note_flaw, queue_flaw, resume_flaw};
use crate::step_flaw::check_of;
use crate::{Call, Direction, Fault, Header, Note, StepFlaw};

/// What a core does next, whichever task is its current one.
#[derive(Clone, Copy, Debug, PartialEq, Eq, Hash)]
pub enum CoreAction {
    /// A call of the core's current task.
    Call(Call),
    /// An interrupt of the core, whose handler notifies a task (`xTaskNotifyFromISR`).
    Interrupt(Note),
    /// An interrupt of the core, whose handler sends a message to the queue or receives one from it
    /// (`xQueueSendFromISR`, `xQueueReceiveFromISR`).
    QueueInterrupt { queue: u32, direction: Direction },
    /// An interrupt of the core, whose handler resumes a task (`xTaskResumeFromISR`).
    ResumeInterrupt { task: u32 },
    /// The tick interrupt (`xTaskIncrementTick`), which core 0 serves.
    Tick,
    /// The core switches to the task that it selects (`vTaskSwitchContext`).
    Switch,
}

impl CoreAction {
    /// The first thing for which the action is not accepted of the core.
    #[tactic(auto, using(crate::proofs::StepFlaws::core_action_check_of))]
    pub fn flaw(&self, core: u32, header: &Header) -> Option<StepFlaw>
        ensures value { result ≡ core_action_flaw (settings_of header.now) core self.now }
        // There is one exactly where the check is a fault, and it is that fault.
        ensures law { core_action_check (settings_of header.now) core self.now ≡ check_of result }
        ensures words { IsCoreActionOfWords self.now }
    {
        match *self {
            CoreAction::Call(call) => call.flaw(header),
            CoreAction::Interrupt(note) => note_flaw(note, header),
            CoreAction::QueueInterrupt { queue, .. } => queue_flaw(queue, header),
            CoreAction::ResumeInterrupt { task } => resume_flaw(task, header),
            CoreAction::Tick if core != 0 => Some(StepFlaw::TickCore(core)),
            CoreAction::Tick | CoreAction::Switch => None,
        }
    }

    /// F2 where a core other than 0 makes a tick, else the fault of the call, or for an interrupt
    /// F3 where the task that it is for is no user task, and then F5 where it has no such
    /// notification, or F4 where its queue is none.
    pub fn check(&self, core: u32, header: &Header) -> Result<(), Fault>
        ensures value { result ≡ core_action_check (settings_of header.now) core self.now }
        ensures checked { OnOk result (IsCheckedCoreAction (settings_of header.now) core self.now) }
    {
        check_of(self.flaw(core, header))
    }
}
