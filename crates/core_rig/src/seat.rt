//! A core's seat at a rig, and the calls that it makes.
ghost use Rattle.std.specs.Prelude.{◌≡◌, ◌≢◌, ◌<◌, length, map, All, IfOk, false, true};
ghost use Rattle.bench_types.specs.declared.core_action.CoreAction.TheVariants as core_actions;
ghost use Rattle.core_rig.specs.declared.fault.RigRefusal.TheVariants as refusals;
ghost use Rattle.core_rig.specs.CoreActions.{HasActed, IsAnswered, IsAnsweredAtOnce, IsRefused};
ghost use Rattle.core_rig.specs.Resting.{IsNew, core_view};
ghost use Rattle.core_rig.specs.Seats.{IsSameSeat, IsSeatOf, depth_at};
ghost use Rattle.core_rig.specs.Stretches.{is_by_task};

use crate::fault::RigRefusal;
use crate::rig::Rig;
use crate::stretch::{act_and_leave, enter, enter_task, leave_task};
use bench_types::{Call, CoreAction, Direction, Note};
use port_locks::{Seat, TryFault};
use recordings::{Answer, Recording};
use std::alloc::{AllocError, Global};
use std::marker::Model;
use std::sync::Wait;

/// A core's seat at a rig, which it is used with. Of the history it knows what it has seen, and its
/// own entries.
#[derive(Drop)]
pub struct CoreSeat {
    pub(crate) seat: Seat<Recording>,
    /// How many entries it made.
    pub(crate) made: u64,
    /// How many times over the core holds the kernel.
    pub(crate) depth: u32,
}

impl Model for CoreSeat {
    ghost use Rattle.core_rig.specs.Seats.{CoreView};
    ghost use Rattle.core_rig.specs.Resting.{IsResting, core_view};

    ghost Value = { CoreView };

    ghost view = { λ core. core_view core.seat };

    ghost invariant = { λ core. IsResting core.seat core.made core.depth };
}

impl CoreSeat {
    // The seats of a new rig.
    pub(crate) fn all(
        alloc: Global,
        inner: Vec<Seat<Recording>>,
    ) -> Result<Vec<CoreSeat>, AllocError>
        requires { All IsNew inner.items }
        ensures { IfOk result (λ seats. seats.items ≡ map core_view inner.items) }
    {
        let mut seats = Vec::new(alloc);
        for seat in inner {
            seats.push(CoreSeat {
                seat,
                made: 0,
                depth: 0,
            })?;
        }
        Ok(seats)
    }

    /// The core's number.
    pub fn core(&self) -> u32
        ensures { result ≡ self.now.core }
    {
        self.seat.number()
    }

    /// How many entries the core has seen.
    pub fn seen(&self) -> u64
        ensures { result ≡ length self.now.seen }
    {
        self.seat.seen()
    }

    /// How many entries the core made.
    pub fn made(&self) -> u64
        ensures { result ≡ length self.now.made }
    {
        self.made
    }

    /// How many times over the core holds the kernel (`uxCriticalNesting`); 0 where it doesn't.
    pub fn depth(&self) -> u32
        ensures { result ≡ depth_at self.now }
    {
        self.depth
    }

    /// Makes a call of the core's current task, and waits while another core calls the kernel or
    /// holds it.
    ///
    /// F3 to F5 where an argument is at fault, else G2 where the current task is an idle task, else
    /// G1 where there is no room for the call: to open a hold takes two places, to close one's own
    /// none, every other call one.
    pub fn call<R: Wait>(&mut self, rt: &R, rig: &Rig, call: Call) -> Result<Answer, RigRefusal>
        requires own { IsSeatOf rig.now self.old }
        ensures seat { IsSameSeat self.old self.new }
        ensures answered { IsAnswered (core_actions.Call call) self.old self.new result }
    {
        self.act_by_task(rt, rig, CoreAction::Call(call))
    }

    /// Switches the core to the task that it selects (`vTaskSwitchContext`), and waits while
    /// another core calls the kernel or holds it.
    ///
    /// G4 where the core holds the kernel, else G1 where there is no room.
    pub fn switch<R: Wait>(&mut self, rt: &R, rig: &Rig) -> Result<Answer, RigRefusal>
        requires own { IsSeatOf rig.now self.old }
        ensures seat { IsSameSeat self.old self.new }
        ensures holding { depth_at self.old ≢ 0
            → IsRefused refusals.Holding self.old self.new result }
        ensures acted { depth_at self.old ≡ 0
            → HasActed core_actions.Switch self.old self.new result }
    {
        if self.depth > 0 {
            return Err(RigRefusal::Holding);
        }
        self.act_by_task(rt, rig, CoreAction::Switch)
    }

    /// Interrupts the core, whose handler notifies a task (`xTaskNotifyFromISR`), and waits while
    /// another core calls the kernel, but not while it holds it.
    ///
    /// F3 where the task is no user task, else G1 where there is no room.
    pub fn interrupt<R: Wait>(
        &mut self,
        rt: &R,
        rig: &Rig,
        note: Note,
    ) -> Result<Answer, RigRefusal>
        requires own { IsSeatOf rig.now self.old }
        ensures seat { IsSameSeat self.old self.new }
        ensures answered { IsAnswered (core_actions.Interrupt note) self.old self.new result }
    {
        self.act_by_interrupt(rt, rig, CoreAction::Interrupt(note))
    }

    /// Makes the tick interrupt (`xTaskIncrementTick`), as [`CoreSeat::interrupt`] does its own.
    ///
    /// F2 of a core other than 0, else G1 where there is no room.
    pub fn tick<R: Wait>(&mut self, rt: &R, rig: &Rig) -> Result<Answer, RigRefusal>
        requires own { IsSeatOf rig.now self.old }
        ensures seat { IsSameSeat self.old self.new }
        ensures answered { IsAnswered core_actions.Tick self.old self.new result }
    {
        self.act_by_interrupt(rt, rig, CoreAction::Tick)
    }

    /// Interrupts the core, whose handler sends to the queue (`xQueueSendFromISR`,
    /// `xSemaphoreGiveFromISR`) or receives from it (`xQueueReceiveFromISR`), and waits as
    /// [`CoreSeat::interrupt`] does.
    ///
    /// F4 where there is no such queue, else G1 where there is no room.
    pub fn interrupt_queue<R: Wait>(
        &mut self,
        rt: &R,
        rig: &Rig,
        queue: u32,
        direction: Direction,
    ) -> Result<Answer, RigRefusal>
        requires own { IsSeatOf rig.now self.old }
        ensures seat { IsSameSeat self.old self.new }
        ensures answered { IsAnswered (core_actions.QueueInterrupt queue direction)
            self.old self.new result }
    {
        self.act_by_interrupt(rt, rig, CoreAction::QueueInterrupt { queue, direction })
    }

    /// Interrupts the core, whose handler resumes the task (`xTaskResumeFromISR`), and waits as
    /// [`CoreSeat::interrupt`] does.
    ///
    /// F3 where there is no such user task, F5 in a session without queues, else G1 where there is
    /// no room.
    pub fn interrupt_resume<R: Wait>(
        &mut self,
        rt: &R,
        rig: &Rig,
        task: u32,
    ) -> Result<Answer, RigRefusal>
        requires own { IsSeatOf rig.now self.old }
        ensures seat { IsSameSeat self.old self.new }
        ensures answered { IsAnswered (core_actions.ResumeInterrupt task) self.old self.new result }
    {
        self.act_by_interrupt(rt, rig, CoreAction::ResumeInterrupt { task })
    }

    /// Interrupts the core as [`CoreSeat::interrupt`] does, but never waits: G3 where another core
    /// was calling the kernel at the one moment when this one tried.
    ///
    /// F3 where the task is no user task, else G3, else G1 where there is no room.
    pub fn try_interrupt(&mut self, rig: &Rig, note: Note) -> Result<Answer, RigRefusal>
        requires own { IsSeatOf rig.now self.old }
        ensures seat { IsSameSeat self.old self.new }
        ensures answered { IsAnsweredAtOnce (core_actions.Interrupt note) self.old self.new result }
    {
        self.try_act(rig, CoreAction::Interrupt(note))
    }

    /// Interrupts the core as [`CoreSeat::interrupt_queue`] does, but never waits: G3 as
    /// [`CoreSeat::try_interrupt`].
    ///
    /// F4 where there is no such queue, else G3, else G1 where there is no room.
    pub fn try_interrupt_queue(
        &mut self,
        rig: &Rig,
        queue: u32,
        direction: Direction,
    ) -> Result<Answer, RigRefusal>
        requires own { IsSeatOf rig.now self.old }
        ensures seat { IsSameSeat self.old self.new }
        ensures answered { IsAnsweredAtOnce (core_actions.QueueInterrupt queue direction)
            self.old self.new result }
    {
        self.try_act(rig, CoreAction::QueueInterrupt { queue, direction })
    }

    /// Interrupts the core as [`CoreSeat::interrupt_resume`] does, but never waits: G3 as
    /// [`CoreSeat::try_interrupt`].
    ///
    /// F3 where there is no such user task, F5 in a session without queues, else G3, else G1 where
    /// there is no room.
    pub fn try_interrupt_resume(&mut self, rig: &Rig, task: u32) -> Result<Answer, RigRefusal>
        requires own { IsSeatOf rig.now self.old }
        ensures seat { IsSameSeat self.old self.new }
        ensures answered { IsAnsweredAtOnce (core_actions.ResumeInterrupt task)
            self.old self.new result }
    {
        self.try_act(rig, CoreAction::ResumeInterrupt { task })
    }

    // An interrupt of the core, or a tick, tried once.
    #[inline(always)]
    fn try_act(&mut self, rig: &Rig, core_action: CoreAction) -> Result<Answer, RigRefusal>
        requires own { IsSeatOf rig.now self.old }
        requires kind { is_by_task core_action ≡ false }
        ensures seat { IsSameSeat self.old self.new }
        ensures answered { IsAnsweredAtOnce core_action self.old self.new result }
    {
        // A copy goes out by reference, so that of the action itself it stays known which it is.
        let copy = core_action;
        copy.check(self.core(), &rig.header)
            .map_err(RigRefusal::Fault)?;
        match rig.pair.try_interrupt(&mut self.seat) {
            Ok(()) => {}
            Err(TryFault::Busy) => return Err(RigRefusal::Busy),
            Err(TryFault::Deep) => unreachable!(),
        }
        let stretch = act_and_leave(&rig.pair, &mut self.seat, self.made, core_action);
        self.made = stretch.made;
        self.depth = stretch.depth;
        stretch.answer
    }

    // An interrupt of the core, or a tick.
    #[inline(always)]
    fn act_by_interrupt<R: Wait>(
        &mut self,
        rt: &R,
        rig: &Rig,
        core_action: CoreAction,
    ) -> Result<Answer, RigRefusal>
        requires own { IsSeatOf rig.now self.old }
        requires kind { is_by_task core_action ≡ false }
        ensures seat { IsSameSeat self.old self.new }
        ensures answered { IsAnswered core_action self.old self.new result }
    {
        // A copy goes out by reference, so that of the action itself it stays known which it is.
        let copy = core_action;
        copy.check(self.core(), &rig.header)
            .map_err(RigRefusal::Fault)?;
        enter(rt, &rig.pair, &mut self.seat);
        let stretch = act_and_leave(&rig.pair, &mut self.seat, self.made, core_action);
        self.made = stretch.made;
        self.depth = stretch.depth;
        stretch.answer
    }

    // A call of the core's current task, or a switch while the core holds nothing. The core keeps
    // the task word by one take for as long as it holds the kernel.
    #[inline(always)]
    fn act_by_task<R: Wait>(
        &mut self,
        rt: &R,
        rig: &Rig,
        core_action: CoreAction,
    ) -> Result<Answer, RigRefusal>
        requires own { IsSeatOf rig.now self.old }
        requires kind { is_by_task core_action ≡ true }
        requires switch { core_action ≡ core_actions.Switch → depth_at self.old ≡ 0 }
        ensures seat { IsSameSeat self.old self.new }
        ensures answered { IsAnswered core_action self.old self.new result }
    {
        // A copy goes out by reference, so that of the action itself it stays known which it is.
        let copy = core_action;
        copy.check(self.core(), &rig.header)
            .map_err(RigRefusal::Fault)?;
        enter_task(rt, &rig.pair, &mut self.seat);
        enter(rt, &rig.pair, &mut self.seat);
        let stretch = act_and_leave(&rig.pair, &mut self.seat, self.made, core_action);
        leave_task(&rig.pair, &mut self.seat, self.depth > 0, stretch.depth > 0);
        self.made = stretch.made;
        self.depth = stretch.depth;
        stretch.answer
    }
}
