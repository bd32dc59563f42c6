//! A kernel that records its steps.
ghost use Rattle.std.specs.Prelude.{◌≡◌, ◌<◌, ◌≤◌, ◌+◌, ◌↔◌, length, option_map, is_some, false, [], Ok, Err, IsErr, IfOk, OnOk, OnErr};
ghost use Rattle.std.specs.Vec.{vec_capacity};
ghost use Rattle.bench_types.specs.CoreAction.{IsCheckedCoreAction};
ghost use Rattle.bench_types.specs.Header.{header_check};
ghost use Rattle.bench_types.specs.Step.{settings_of, note_check, queue_check, resume_check, IsNotifyActionOfWord, IsCheckedCall, IsCheckedStep};
ghost use Rattle.bench_model.specs.History.{is_kept_out, places_of, AreByCurrent, IsByCurrent, IsGrowthBy, IsLegal, IsNext};
ghost use Rattle.bench_model.specs.Holds.{depth_of, depth_by, is_held_by, is_held_elsewhere};
ghost use Rattle.history_laws.specs.SoundHistories.{IsSoundHistory};
ghost use Rattle.recordings.specs.Kept.{IsRecording};
ghost use Rattle.recordings.specs.RecordingView.{empty_recording, entry_of, table_of, hold_of, task_on, room_of, with_step, answer_to, answer_in_room, call_on, answer_to_call, act_on, answer_to_core_action, after_core_action};

use bench_types::{Call, CoreAction, Direction, Entry, Header, Note, Reply, Settings, Step};
use smp_kernel::{Kernel, Meter, StartFault};
use std::alloc::{AllocError, Global};
use std::marker::Model;
use thiserror::Error;

/// What a step that was recorded is answered.
#[derive(Clone, Copy, Debug, PartialEq, Eq, Hash)]
pub struct Answer {
    /// The index of its entry, the first at 0.
    pub place: u32,
    /// The kernel's reply, which may be that the step is refused.
    pub reply: Reply,
}

/// Why a step is not recorded, with the code that the texts give it.
#[derive(Clone, Copy, Debug, PartialEq, Eq, Hash, Error)]
pub enum RecordRefusal {
    /// G2: the current task of the core is an idle task, which makes no calls.
    #[error("an idle task runs on the core")]
    IdleHere,
    /// G1: there is no room for the step.
    #[error("the recording is full")]
    Full,
}

/// A kernel with the steps that were made on it, in their order, each with its core and its reply.
///
/// There is room for a limited number of entries. Each time that an open hold is open keeps one
/// place free, for the call that closes it: so it can always be closed.
#[derive(Debug, Drop)]
pub struct Recording {
    /// In a box, so that the recording is moved in two words.
    parts: Box<Parts>,
    limit: u32,
}

#[derive(Debug, Drop)]
struct Parts {
    header: Header,
    kernel: Kernel,
    meter: Meter,
    entries: Vec<Entry>,
}

impl Model for Recording {
    ghost use Rattle.std.specs.Prelude.{vec_capacity};
    ghost use Rattle.recordings.specs.RecordingView.{RecordingView};
    ghost use Rattle.recordings.specs.Kept.{IsRecording};

    ghost Value = { RecordingView };

    ghost view = { λ recording. record {
      header = recording.parts.value.header;
      entries = recording.parts.value.entries.items;
      limit = recording.limit;
    } };

    ghost invariant = { λ recording. IsRecording recording.parts.value.header
        recording.parts.value.entries.items recording.limit
        (vec_capacity recording.parts.value.entries) recording.parts.value.kernel };
}

// A copy of the header, and room for so many entries.
fn with_room(alloc: Global, header: &Header, limit: u32) -> Result<(Header, Vec<Entry>), AllocError>
    ensures header { IfOk result (λ made. made.0 ≡ header.now) }
    ensures empty { IfOk result (λ made. made.1.items ≡ []) }
    ensures room { IfOk result (λ made. limit ≤ vec_capacity made.1) }
{
    let header = header.copy(alloc)?;
    let entries = Vec::with_capacity(alloc, limit as usize)?;
    Ok((header, entries))
}

impl Parts {
    // The parts of a recording of no entries. A kernel is dear to drop, so one call follows.
    fn start(alloc: Global, meter: Meter, header: &Header, limit: u32) -> Result<Parts, StartFault>
        ensures bad_header { (result ≡ Err StartFault.BadHeader) ↔ IsErr (header_check header.now) }
        ensures header { IfOk result (λ parts. parts.header ≡ header.now) }
        ensures empty { IfOk result (λ parts. parts.entries.items ≡ []) }
        ensures kept { IfOk result (λ parts. IsRecording parts.header parts.entries.items limit
            (vec_capacity parts.entries) parts.kernel) }
    {
        let kernel = Kernel::start(alloc, header)?;
        match with_room(alloc, header, limit) {
            Ok((header, entries)) => Ok(Parts {
                header,
                kernel,
                meter,
                entries,
            }),
            Err(_) => Err(StartFault::NoMemory),
        }
    }
}

impl Recording {
    /// A recording of no entries, with room for `limit` of them. It takes all the memory that it
    /// will ever have, and counts the steps that are made on `meter`.
    ///
    /// A header at fault is refused with F1, and else only memory can be wanting.
    pub fn new(
        alloc: Global,
        meter: Meter,
        header: &Header,
        limit: u32,
    ) -> Result<Recording, StartFault>
        ensures bad_header { (result ≡ Err StartFault.BadHeader) ↔ IsErr (header_check header.now) }
        ensures empty { IfOk result (λ recording. recording ≡ empty_recording header.now limit) }
    {
        let parts = Parts::start(alloc, meter, header, limit)?;
        match Box::new(alloc, parts) {
            Ok(parts) => Ok(Recording { parts, limit }),
            Err(_) => Err(StartFault::NoMemory),
        }
    }

    /// Makes the step on the kernel and records it. It takes no memory.
    ///
    /// The step is checked, a call is made by the current task of its core, no hold keeps the step
    /// out, and there is room for it: [`Step::check`], [`Recording::running`],
    /// [`Recording::is_kept_out`], [`Recording::places`] and [`Recording::room`] tell.
    #[inline(always)]
    pub fn record(&mut self, step: Step) -> Answer
        requires checked { IsCheckedStep (settings_of self.old.header) step }
        requires current { IsByCurrent (table_of self.old).control step }
        requires unheld { is_kept_out (hold_of self.old) step ≡ false }
        requires room { places_of (hold_of self.old) step ≤ room_of self.old }
        ensures answer { result ≡ answer_to step self.old }
        ensures history { self.new ≡ with_step step self.old }
        ensures next { IsNext self.old.header self.old.entries (entry_of step self.old) }
    {
        let place = self.parts.entries.len() as u32;
        let parts = &mut *self.parts;
        let reply = parts.kernel.step(&mut parts.meter, &step);
        parts.entries.push_reserved(Entry {
            core: step.core(),
            step,
            reply,
        });
        Answer { place, reply }
    }

    // Makes the step and records it where there is room, else refuses it with G1.
    #[inline(always)]
    fn record_in_room(&mut self, step: Step) -> Result<Answer, RecordRefusal>
        requires checked { IsCheckedStep (settings_of self.old.header) step }
        requires current { IsByCurrent (table_of self.old).control step }
        requires unheld { is_kept_out (hold_of self.old) step ≡ false }
        ensures answer { result ≡ answer_in_room step self.old }
        ensures history { OnOk result (self.new ≡ with_step step self.old) }
        ensures unchanged { OnErr result (self.new ≡ self.old) }
    {
        if self.room() < self.places(&step) {
            return Err(RecordRefusal::Full);
        }
        Ok(self.record(step))
    }

    /// Makes a call of the core's current task and records it.
    ///
    /// It is refused with G2 where that is an idle task, else with G1 where there is no room for
    /// it: `HoldOpen` needs two places, a `HoldClose` of the core's own hold none, every other call
    /// one. A refused call changes nothing.
    #[inline(always)]
    pub fn call(&mut self, core: u32, call: Call) -> Result<Answer, RecordRefusal>
        requires core { core < self.old.header.config.cores }
        requires call { IsCheckedCall (settings_of self.old.header) call }
        requires unheld { is_held_elsewhere core (hold_of self.old) ≡ false }
        ensures answer { result ≡ answer_to_call core call self.old }
        ensures history { OnOk result (self.new ≡ with_step (call_on core call self.old) self.old) }
        ensures unchanged { OnErr result (self.new ≡ self.old) }
        ensures growth { IsGrowthBy core self.old.entries self.new.entries }
    {
        let task = self.running(core);
        if task < self.settings().cores {
            return Err(RecordRefusal::IdleHere);
        }
        self.record_in_room(Step::Call { core, task, call })
    }

    /// Interrupts the core, whose handler notifies a task (`xTaskNotifyFromISR`), and records it;
    /// G1 where there is no room for that, which changes nothing.
    #[inline(always)]
    pub fn interrupt(&mut self, core: u32, note: Note) -> Result<Answer, RecordRefusal>
        requires core { core < self.old.header.config.cores }
        requires note { note_check (settings_of self.old.header) note ≡ Ok tt }
        requires words { IsNotifyActionOfWord note.action }
        ensures answer { result ≡ answer_in_room (Step.Interrupt core note) self.old }
        ensures history { OnOk result (self.new ≡ with_step (Step.Interrupt core note) self.old) }
        ensures unchanged { OnErr result (self.new ≡ self.old) }
        ensures growth { IsGrowthBy core self.old.entries self.new.entries }
    {
        self.record_in_room(Step::Interrupt { core, note })
    }

    /// Interrupts the core, whose handler sends to the queue (`xQueueSendFromISR`,
    /// `xSemaphoreGiveFromISR`) or receives from it (`xQueueReceiveFromISR`), and records it; G1
    /// where there is no room for that, which changes nothing.
    #[inline(always)]
    pub fn interrupt_queue(
        &mut self,
        core: u32,
        queue: u32,
        direction: Direction,
    ) -> Result<Answer, RecordRefusal>
        requires core { core < self.old.header.config.cores }
        requires queue { queue_check (settings_of self.old.header) queue ≡ Ok tt }
        ensures answer { result
            ≡ answer_in_room (Step.QueueInterrupt core queue direction) self.old }
        ensures history { OnOk result
            (self.new ≡ with_step (Step.QueueInterrupt core queue direction) self.old) }
        ensures unchanged { OnErr result (self.new ≡ self.old) }
        ensures growth { IsGrowthBy core self.old.entries self.new.entries }
    {
        self.record_in_room(Step::QueueInterrupt {
            core,
            queue,
            direction,
        })
    }

    /// Interrupts the core, whose handler resumes the task (`xTaskResumeFromISR`), and records it;
    /// G1 where there is no room for that, which changes nothing.
    #[inline(always)]
    pub fn interrupt_resume(&mut self, core: u32, task: u32) -> Result<Answer, RecordRefusal>
        requires core { core < self.old.header.config.cores }
        requires task { resume_check (settings_of self.old.header) task ≡ Ok tt }
        ensures answer { result ≡ answer_in_room (Step.ResumeInterrupt core task) self.old }
        ensures history { OnOk result
            (self.new ≡ with_step (Step.ResumeInterrupt core task) self.old) }
        ensures unchanged { OnErr result (self.new ≡ self.old) }
        ensures growth { IsGrowthBy core self.old.entries self.new.entries }
    {
        self.record_in_room(Step::ResumeInterrupt { core, task })
    }

    /// Makes the tick interrupt, which core 0 serves (`xTaskIncrementTick`), and records it; G1
    /// where there is no room for that, which changes nothing.
    #[inline(always)]
    pub fn tick(&mut self) -> Result<Answer, RecordRefusal>
        ensures answer { result ≡ answer_in_room Step.Tick self.old }
        ensures history { OnOk result (self.new ≡ with_step Step.Tick self.old) }
        ensures unchanged { OnErr result (self.new ≡ self.old) }
        ensures growth { IsGrowthBy 0 self.old.entries self.new.entries }
    {
        self.record_in_room(Step::Tick)
    }

    /// Switches the core to the task that it selects (`vTaskSwitchContext`), and records it; G1
    /// where there is no room for that, which changes nothing.
    #[inline(always)]
    pub fn switch(&mut self, core: u32) -> Result<Answer, RecordRefusal>
        requires core { core < self.old.header.config.cores }
        requires unheld { is_some (hold_of self.old) ≡ false }
        ensures answer { result ≡ answer_in_room (Step.Switch core) self.old }
        ensures history { OnOk result (self.new ≡ with_step (Step.Switch core) self.old) }
        ensures unchanged { OnErr result (self.new ≡ self.old) }
        ensures growth { IsGrowthBy core self.old.entries self.new.entries }
    {
        self.record_in_room(Step::Switch { core })
    }

    /// Does what the core would do next, as [`Recording::call`], [`Recording::interrupt`],
    /// [`Recording::interrupt_queue`], [`Recording::interrupt_resume`], [`Recording::tick`] or
    /// [`Recording::switch`], with their refusals.
    #[inline(always)]
    pub fn perform(&mut self, core: u32, core_action: CoreAction) -> Result<Answer, RecordRefusal>
        requires core { core < self.old.header.config.cores }
        requires core_action { IsCheckedCoreAction (settings_of self.old.header) core core_action }
        requires unheld { is_kept_out (hold_of self.old) (act_on core core_action self.old)
            ≡ false }
        ensures answer { result ≡ answer_to_core_action core core_action self.old }
        ensures history { self.new ≡ after_core_action core core_action self.old }
        ensures growth { IsGrowthBy core self.old.entries self.new.entries }
    {
        match core_action {
            CoreAction::Call(call) => self.call(core, call),
            CoreAction::Interrupt(note) => self.interrupt(core, note),
            CoreAction::QueueInterrupt { queue, direction } => {
                self.interrupt_queue(core, queue, direction)
            }
            CoreAction::ResumeInterrupt { task } => self.interrupt_resume(core, task),
            CoreAction::Tick => self.tick(),
            CoreAction::Switch => self.switch(core),
        }
    }

    /// What was recorded, in its order.
    pub fn entries(&self) -> &[Entry]
        ensures entries { result.now ≡ self.now.entries }
        ensures legal { IsLegal self.now.header self.now.entries }
        ensures closable { length self.now.entries + depth_of (hold_of self.now)
            ≤ self.now.limit }
    {
        self.parts.entries.as_slice()
    }

    /// Ends the recording, and gives its header and what was recorded.
    pub fn into_parts(self) -> (Header, Vec<Entry>)
        ensures header { result.0 ≡ self.header }
        ensures passes { header_check self.header ≡ Ok tt }
        ensures entries { result.1.items ≡ self.entries }
        ensures legal { IsLegal self.header self.entries }
        ensures current { AreByCurrent self.header self.entries }
        ensures few { length self.entries ≤ self.limit }
    {
        let Parts {
            header,
            entries,
            ..
        } = Box::into_inner(self.parts);
        (header, entries)
    }

    /// The settings and tasks that the recording began with.
    pub fn header(&self) -> &Header
        ensures header { result.now ≡ self.now.header }
        ensures passes { header_check self.now.header ≡ Ok tt }
    {
        &self.parts.header
    }

    /// The settings that the kernel keeps of the header.
    pub fn settings(&self) -> Settings
        ensures { result ≡ settings_of self.now.header }
    {
        self.parts.kernel.settings()
    }

    /// How many entries there may be.
    pub fn limit(&self) -> u32
        ensures { result ≡ self.now.limit }
    {
        self.limit
    }

    /// How many more entries there is room for, without the places that an open hold keeps.
    pub fn room(&self) -> u32
        ensures { result ≡ room_of self.now }
    {
        self.limit - self.parts.entries.len() as u32 - self.depth()
    }

    /// How many times over the kernel is held (`uxCriticalNesting`); 0 where no hold is open.
    pub fn depth(&self) -> u32
        ensures depth { result ≡ depth_of (hold_of self.now) }
        ensures closable { length self.now.entries + result ≤ self.now.limit }
    {
        self.parts.kernel.hold().map_or(0, |hold| hold.1)
    }

    /// How many times over the core holds the kernel.
    pub fn depth_by(&self, core: u32) -> u32
        ensures depth { result ≡ depth_by core (hold_of self.now) }
        ensures none { result ≡ 0 → is_held_by core (hold_of self.now) ≡ false }
        ensures legal { IsLegal self.now.header self.now.entries }
        ensures sound { IsSoundHistory self.now.header self.now.entries }
    {
        match self.parts.kernel.hold() {
            Some((holder, depth)) if holder == core => depth,
            _ => 0,
        }
    }

    /// The core that holds the kernel, if there is one.
    pub fn holder(&self) -> Option<u32>
        ensures { result ≡ option_map (λ hold. hold.core) (hold_of self.now) }
    {
        self.parts.kernel.hold().map(|hold| hold.0)
    }

    /// How many places the step needs: to open a hold takes two, of which one is kept for the call
    /// that closes it, to close the core's own hold none, every other step one.
    pub fn places(&self, step: &Step) -> u32
        ensures { result ≡ places_of (hold_of self.now) step.now }
    {
        match *step {
            Step::Tick
            | Step::Switch { .. }
            | Step::Interrupt { .. }
            | Step::QueueInterrupt { .. }
            | Step::ResumeInterrupt { .. }
            | Step::Pass { .. } => 1,
            Step::Call { core, call, .. } => match call {
                Call::HoldOpen => 2,
                Call::HoldClose if self.holder() == Some(core) => 0,
                _ => 1,
            },
        }
    }

    /// Whether an open hold keeps the step out, so that the kernel would refuse it with E1.
    pub fn is_kept_out(&self, step: &Step) -> bool
        ensures { result ≡ is_kept_out (hold_of self.now) step.now }
    {
        match (*step, self.holder()) {
            (Step::Switch { .. }, holder) => holder.is_some(),
            (Step::Call { core, .. }, Some(holder)) => holder != core,
            (
                Step::Tick
                | Step::Interrupt { .. }
                | Step::QueueInterrupt { .. }
                | Step::ResumeInterrupt { .. }
                | Step::Pass { .. }
                | Step::Call { .. },
                _,
            ) => false,
        }
    }

    /// The current task of the core.
    pub fn running(&self, core: u32) -> u32
        requires { core < self.now.header.config.cores }
        ensures current { result ≡ task_on core self.now }
        ensures task { result < (settings_of self.now.header).tasks }
    {
        self.parts.kernel.running(core)
    }
}
