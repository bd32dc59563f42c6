//! The parts of a kernel, and the queue operations of its steps.
ghost use Rattle.std.specs.Prelude.{◌≡◌, ℕ, ◌+◌, ◌<◌, ◌≤◌, nat_lt, map, slice_get, [], true, false, IfOk, IfSome, Ok, Some, None, replicate};
ghost use Rattle.std.specs.Option.{option_map_or};
ghost use Rattle.bench_types.specs.Header.{header_check};
ghost use Rattle.bench_types.specs.Step.{call_check, queue_total, step_check, IsStepOfWords};
ghost use Rattle.bench_types.specs.Limits.{max_cores, max_depth};
ghost use Rattle.bench_types.specs.declared.step.Call.TheVariants.{Delay};
ghost use Rattle.bench_types.specs.declared.step.Step.TheVariants.{Tick, Switch, Interrupt, QueueInterrupt, ResumeInterrupt, Pass};
ghost use Rattle.bench_types.specs.declared.step.Step.TheVariants as steps;
ghost use Rattle.bench_types.specs.declared.step.Unfinished.TheVariants.{Made};
ghost use Rattle.list_orders.specs.Listings.{IsListing};
ghost use Rattle.list_orders.specs.Search.{numbers, placed, has};
ghost use Rattle.bench_model.specs.Control.{core_at, current, is_allowed, task_at};
ghost use Rattle.bench_model.specs.Holds.{depth_of};
ghost use Rattle.bench_model.specs.Refusals.{give_refusal};
ghost use Rattle.bench_model.specs.Start.{first_lists, unstarted, start_seen};
ghost use Rattle.bench_model.specs.State.{call_at, holder_at, yielded, blocked};
ghost use Rattle.bench_model.specs.Seek.{effective, wake, after_switch, sliced};
ghost use Rattle.bench_model.specs.Steps.{ticked, delayed_until, called, performed, after};
ghost use Rattle.bench_model.specs.Lists.{list_queues, is_ready, wakes_first, advance, due_tasks};
ghost use Rattle.bench_model.specs.Looks.{look_in, note_look};
ghost use Rattle.bench_model.specs.Tally.{is_current};
ghost use Rattle.tick_delay.specs.Parts.{is_delayed};
ghost use Rattle.smp_kernel.specs.Kernel.{wants_core, ready_list, HasCheckedCalls, IsSettled};

mod equal;
mod first;
mod holds;
mod mutexes;
mod notes;
mod queues;
mod raises;
mod refusals;
mod sets;
mod suspending;

use self::first::{first_orders, no_ends, no_waits};
use crate::deadlines::Deadlines;
use bench_types::{
    BlockingCall, Call, CoreLook, Direction, Header, Hold, Note, Notification, Reply, Settings,
    Step, TaskLook, Unfinished,
};
use mutex_inherit::Mutexes;
use notify_core::Notes;
use queue_core::Queues;
use ready_core::Cores;
use std::alloc::{AllocError, Global};
use std::marker::Model;
use tick_delay::Delays;

/// A kernel as far as it can be seen: its parts, and the queue operations of a step.
#[derive(Debug, Drop)]
pub struct Scheduler {
    settings: Settings,
    cores: Cores,
    /// Per task its unfinished call.
    calls: Vec<Option<Unfinished>>,
    notes: Notes,
    mutexes: Mutexes,
    queues: Queues,
    delays: Delays,
    deadlines: Deadlines,
    /// The open hold, if there is one.
    hold: Option<Hold>,
}

impl Model for Scheduler {
    ghost use Rattle.bench_model.specs.Lists.{View};
    ghost use Rattle.smp_kernel.specs.Kernel.{kernel_view, parts_of, IsKernelShape};

    ghost Value = { View };

    ghost view = { λ kernel. kernel_view
        (parts_of kernel.settings kernel.cores kernel.calls.items kernel.notes kernel.mutexes
        kernel.queues kernel.delays kernel.deadlines kernel.hold) };

    ghost invariant = { λ kernel. IsKernelShape
        (parts_of kernel.settings kernel.cores kernel.calls.items kernel.notes kernel.mutexes
        kernel.queues kernel.delays kernel.deadlines kernel.hold) };
}

impl Scheduler {
    /// The start: each core selects, core 0 first.
    #[tactic(auto, using(bench_types::proofs::Passes::checked_header))]
    pub fn start(alloc: Global, header: &Header) -> Result<Self, AllocError>
        requires { header_check header.now ≡ Ok tt }
        ensures { IfOk result (λ kernel. kernel ≡ start_seen header.now) }
    {
        let mut kernel = Self::unstarted(alloc, header)?;
        for core in 0..header.config.cores {
            kernel.switch(core);
        }
        Ok(kernel)
    }

    // Before any core has selected.
    #[tactic(auto, using(bench_types::proofs::Passes::checked_header))]
    fn unstarted(alloc: Global, header: &Header) -> Result<Self, AllocError>
        requires { header_check header.now ≡ Ok tt }
        ensures { IfOk result (λ kernel. kernel ≡ unstarted (first_lists header.now) header.now) }
    {
        let config = &header.config;
        let tasks = config.cores + header.tasks.as_slice().len() as u32;
        let settings = Settings {
            cores: config.cores,
            priorities: config.priorities,
            slicing: config.slicing,
            mutexes: config.mutexes,
            notes: config.notes,
            queues: header.queue_count(),
            units: config.units,
            tasks,
        };
        let (cores, mutexes) = first_orders(alloc, header, settings)?;
        let (calls, notes) = no_waits(alloc, tasks, config.notes)?;
        let queues = Queues::new(alloc, header)?;
        let (delays, deadlines) = no_ends(alloc, config.tick, tasks)?;
        Ok(Scheduler {
            settings,
            cores,
            calls,
            notes,
            mutexes,
            queues,
            delays,
            deadlines,
            hold: None,
        })
    }

    /// What the kernel started with.
    pub fn settings(&self) -> Settings
        ensures settings { result ≡ self.now.settings }
        ensures few { self.now.settings.cores ≤ max_cores }
    {
        self.settings
    }

    /// The current task of the core.
    pub fn running(&self, core: u32) -> u32
        requires { core < self.now.settings.cores }
        ensures current { result ≡ current self.now.control core }
        ensures task { result < self.now.settings.tasks }
    {
        self.cores.running(core)
    }

    /// The core's current task and its flags.
    pub fn core_look(&self, core: u32) -> CoreLook
        requires { core < self.now.settings.cores }
        ensures { result ≡ core_at self.now.control core }
    {
        self.cores.flags(core)
    }

    /// What can be seen of the task.
    #[tactic(auto, unfolding(bench_model::specs::Looks::look_in))]
    pub fn look(&self, task: u32) -> TaskLook
        requires { task < self.now.settings.tasks }
        ensures { result ≡ look_in self.now task }
    {
        TaskLook {
            in_use: self.cores.in_use(task),
            base: self.cores.base(task),
            mask: self.cores.mask(task),
            preempt: self.cores.preempt(task),
            ready: self.cores.ready(task),
            suspended: self.is_suspended(task),
            left: self.delays.left(task),
            held: self.mutexes.held(task),
            in_call: self.calls[task as usize].is_some(),
            value: self.notes.value(task, 0),
            state: self.notes.state(task, 0),
        }
    }

    /// The task's notification of the index.
    pub fn note_look(&self, task: u32, index: u32) -> Notification
        requires task { task < self.now.settings.tasks }
        requires index { index < self.now.settings.notes }
        ensures { result ≡ note_look self.now task index }
    {
        Notification {
            value: self.notes.value(task, index),
            state: self.notes.state(task, index),
        }
    }

    /// The priority in use of the task.
    pub fn in_use(&self, task: u32) -> u32
        requires { task < self.now.settings.tasks }
        ensures { result ≡ (task_at self.now.control task).in_use }
    {
        self.cores.in_use(task)
    }

    /// Whether the effective priority of one task is below that of the other.
    pub fn stands_below(&self, task: u32, other: u32) -> bool
        requires task { task < self.now.settings.tasks }
        requires other { other < self.now.settings.tasks }
        ensures { result
            ≡ nat_lt (effective self.now.control task) (effective self.now.control other) }
    {
        self.cores.stands_below(task, other)
    }

    /// Whether the task may run on the core.
    pub fn is_allowed(&self, core: u32, task: u32) -> bool
        requires core { core < self.now.settings.cores }
        requires task { task < self.now.settings.tasks }
        ensures { result ≡ is_allowed self.now.control core task }
    {
        self.cores.is_allowed(core, task)
    }

    /// Whether the task is the current one of a core.
    pub fn is_current(&self, task: u32) -> bool
        requires { task < self.now.settings.tasks }
        ensures { result ≡ is_current self.now.control task }
    {
        self.cores.is_current(task)
    }

    /// Whether the task is in a ready list.
    pub fn ready(&self, task: u32) -> bool
        requires { task < self.now.settings.tasks }
        ensures { result ≡ is_ready task self.now.orders }
    {
        self.cores.ready(task)
    }

    /// For each task whether it is ready and on no core.
    pub fn wants_core(&self) -> &[bool]
        ensures { result.now ≡ map (wants_core self.now) (numbers self.now.settings.tasks) }
    {
        self.cores.wants_core()
    }

    /// The first task of the ready list of the priority, if it has one. None is in it twice.
    pub fn first_ready(&self, priority: u32) -> Option<u32>
        requires { priority < self.now.settings.priorities }
        ensures first { result ≡ slice_get (ready_list self.now priority) 0 }
        ensures once { IsListing self.now.settings.tasks (ready_list self.now priority) }
        ensures task { IfSome result (λ task. task < self.now.settings.tasks) }
    {
        self.cores.first_ready(priority)
    }

    /// The task that stands right after this one, which is in a ready list; none where it is the
    /// last one.
    pub fn next_ready(&self, task: u32) -> Option<u32>
        requires task { task < self.now.settings.tasks }
        requires ready { is_ready task self.now.orders ≡ true }
        ensures next { (p k : ℕ) → p < self.now.settings.priorities
            → slice_get (ready_list self.now p) k ≡ Some task
            → result ≡ slice_get (ready_list self.now p) (k + 1) }
        ensures task { IfSome result (λ task. task < self.now.settings.tasks) }
    {
        self.cores.next_ready(task)
    }

    /// The task's unfinished call, if there is one.
    pub fn unfinished(&self, task: u32) -> Option<Unfinished>
        requires { task < self.now.settings.tasks }
        ensures { result ≡ call_at self.now.calls task }
    {
        self.calls[task as usize]
    }

    /// The task that holds the mutex, if there is one.
    pub fn holder(&self, mutex: u32) -> Option<u32>
        requires { mutex < self.now.settings.mutexes }
        ensures holder { result ≡ holder_at self.now.holders mutex }
        ensures task { IfSome result (λ holder. holder < self.now.settings.tasks) }
    {
        self.mutexes.holder(mutex)
    }

    /// The tick count, in ticks.
    pub fn tick_count(&self) -> u32
        ensures { result ≡ self.now.orders.tick }
    {
        self.delays.tick()
    }

    /// The step: its reply, and what it does. A refused step changes nothing.
    #[inline(always)]
    pub fn step(&mut self, step: &Step) -> Reply
        requires checked { step_check self.old.settings step.now ≡ Ok tt }
        requires settled { IsSettled self.old }
        ensures made { (result, self.new) ≡ after list_queues step.now self.old }
        ensures words { IsStepOfWords step.now }
    {
        match *step {
            Step::Tick => self.make_tick(),
            Step::Switch { core } => self.make_switch(core),
            Step::Call { core, task, call } => self.make_call(core, task, call),
            Step::Interrupt { core, note } => self.make_interrupt(core, note),
            Step::QueueInterrupt {
                core,
                queue,
                direction,
            } => self.make_queue_interrupt(core, queue, direction),
            Step::ResumeInterrupt { core, task } => self.make_resume_interrupt(core, task),
            Step::Pass { units } => self.make_pass(units),
        }
    }

    // A tick is never refused.
    #[inline(always)]
    #[tactic(auto, unfolding(bench_model::specs::Steps::after, bench_model::specs::Steps::performed, bench_model::specs::Refusals::refusal))]
    fn make_tick(&mut self) -> Reply
        requires { IsSettled self.old }
        ensures made { (result, self.new) ≡ after list_queues Tick self.old }
        ensures words { IsStepOfWords Tick }
    {
        self.tick();
        Reply::Done
    }

    // The core is asked to switch, which a core that holds the kernel keeps out.
    #[inline(always)]
    fn make_switch(&mut self, core: u32) -> Reply
        requires { core < self.old.settings.cores }
        ensures made { (result, self.new) ≡ after list_queues (Switch core) self.old }
        ensures words { IsStepOfWords (Switch core) }
    {
        match self.switch_refusal(core) {
            Some(why) => Reply::Refused(why),
            None => {
                self.switch(core);
                Reply::Done
            }
        }
    }

    // The task makes the call on the core.
    #[inline(always)]
    fn make_call(&mut self, core: u32, task: u32, call: Call) -> Reply
        requires checked { step_check self.old.settings (steps.Call core task call) ≡ Ok tt }
        requires settled { IsSettled self.old }
        ensures made { (result, self.new) ≡ after list_queues (steps.Call core task call) self.old }
        ensures words { IsStepOfWords (steps.Call core task call) }
    {
        match self.call_refusal(core, task, call) {
            Some(why) => Reply::Refused(why),
            None => self.call(core, task, call),
        }
    }

    // An interrupt is never refused.
    #[inline(always)]
    #[tactic(auto, unfolding(bench_model::specs::Steps::after, bench_model::specs::Steps::performed, bench_model::specs::Refusals::refusal))]
    fn make_interrupt(&mut self, core: u32, note: Note) -> Reply
        requires { step_check self.old.settings (Interrupt core note) ≡ Ok tt }
        ensures made { (result, self.new) ≡ after list_queues (Interrupt core note) self.old }
        ensures words { IsStepOfWords (Interrupt core note) }
    {
        self.interrupt(core, note)
    }

    // Nor is one that sends or receives.
    #[tactic(auto, unfolding(bench_model::specs::Steps::after, bench_model::specs::Steps::performed, bench_model::specs::Refusals::refusal))]
    fn make_queue_interrupt(&mut self, core: u32, queue: u32, direction: Direction) -> Reply
        requires { step_check self.old.settings (QueueInterrupt core queue direction) ≡ Ok tt }
        ensures made { (result, self.new)
            ≡ after list_queues (QueueInterrupt core queue direction) self.old }
        ensures words { IsStepOfWords (QueueInterrupt core queue direction) }
    {
        self.interrupt_queue(core, direction, queue)
    }

    // Nor is one that resumes a task.
    #[tactic(auto, unfolding(bench_model::specs::Steps::after, bench_model::specs::Steps::performed, bench_model::specs::Refusals::refusal))]
    fn make_resume_interrupt(&mut self, core: u32, task: u32) -> Reply
        requires { step_check self.old.settings (ResumeInterrupt core task) ≡ Ok tt }
        ensures made { (result, self.new) ≡ after list_queues (ResumeInterrupt core task) self.old }
        ensures words { IsStepOfWords (ResumeInterrupt core task) }
    {
        self.interrupt_resume(core, task)
    }

    // Nothing happens while time goes by.
    #[tactic(auto, unfolding(bench_model::specs::Steps::after, bench_model::specs::Steps::performed, bench_model::specs::Refusals::refusal))]
    fn make_pass(&self, _units: u32) -> Reply
        ensures made { (result, self.now) ≡ after list_queues (Pass _units) self.now }
        ensures words { IsStepOfWords (Pass _units) }
    {
        Reply::Done
    }

    // One tick more. Each task that has waited long enough then is woken, and then time slices end.
    fn tick(&mut self)
        requires { due_tasks self.old.orders.delayed ≡ [] }
        ensures { self.new ≡ ticked list_queues self.old }
    {
        self.advance();
        while let Some(task) = self.delays.pop_due() {
            self.wake(0, task);
        }
        self.slice();
    }

    // The tick count wraps, and each task that waits has one tick less left.
    fn advance(&mut self)
        requires { due_tasks self.old.orders.delayed ≡ [] }
        ensures { self.new ≡ record self.old { orders = advance self.old.orders } }
    {
        self.delays.advance();
        self.deadlines.age();
    }

    // The task waits no more, goes to the end of its ready list, and the acting core seeks a core
    // for it.
    fn wake(&mut self, acting: u32, task: u32)
        requires { task < self.old.settings.tasks }
        ensures { self.new ≡ wake list_queues acting task self.old }
    {
        self.cores.make_ready(acting, task);
        self.delays.cancel(task);
        self.mutexes.leave(task);
    }

    // The end of time slices.
    fn slice(&mut self)
        ensures { self.new ≡ sliced list_queues self.old }
    {
        self.cores.slice();
    }

    // The core runs the task that it selects, and another core is sought for the task that lost it.
    fn switch(&mut self, core: u32)
        requires { core < self.old.settings.cores }
        ensures { self.new ≡ after_switch list_queues core self.old }
    {
        self.cores.select(core);
    }

    // What a call that is not refused answers and does.
    #[inline(always)]
    #[tactic(auto, unfolding(bench_model::specs::Steps::called))]
    fn call(&mut self, core: u32, task: u32, call: Call) -> Reply
        requires core { core < self.old.settings.cores }
        requires task { task < self.old.settings.tasks }
        requires ready { has task self.old.orders.ready ≡ true }
        requires checked { call_check self.old.settings call ≡ Ok tt }
        requires own { give_refusal self.old.holders task call ≡ None }
        requires depth { depth_of self.old.hold ≤ max_depth }
        requires calls { HasCheckedCalls self.old }
        ensures { (result, self.new) ≡ called list_queues core task call self.old }
    {
        match call {
            Call::Yield => self.ask_itself(core),
            Call::PrioritySet { task, priority } => self.set_priority(core, task, priority),
            Call::AffinitySet { task, mask } => self.set_affinity(core, task, mask),
            Call::PreemptOff(task) => self.preempt_off(task),
            Call::PreemptOn(task) => self.preempt_on(core, task),
            Call::Suspend(task) => self.suspend(core, task),
            Call::Resume(task) => self.resume(core, task),
            Call::HoldOpen => self.open_hold(core),
            Call::HoldClose => self.close_hold(core),
            Call::Delay(ticks) => return self.delay(core, task, ticks),
            Call::DelayUntil { prev, inc } => return self.delay_until(core, task, prev, inc),
            Call::Notify(note) => return Reply::Flag(self.notify(core, note)),
            Call::NotifyWait {
                entry,
                exit,
                ticks,
                index,
            } => return self.wait(core, task, entry, exit, ticks, index),
            Call::NotifyTake {
                clear,
                ticks,
                index,
            } => return self.take(core, task, clear, ticks, index),
            Call::MutexTake { mutex, ticks } => return self.take_mutex(core, task, mutex, ticks),
            Call::MutexGive(mutex) => return self.give_mutex(core, task, mutex),
            Call::QueueSend { queue, ticks } => {
                return self.send_or_receive(core, task, Direction::Send, queue, ticks);
            }
            Call::QueueReceive { queue, ticks } => {
                return self.send_or_receive(core, task, Direction::Receive, queue, ticks);
            }
            Call::StateClear { task, index } => return self.clear_state(task, index),
            Call::ValueClear { task, bits, index } => return self.clear_value(task, bits, index),
            Call::Finish => return self.finish(core, task),
        }
        Reply::Done
    }

    // A delay of no ticks is a yield; any other blocks.
    #[tactic(auto, unfolding(bench_model::specs::Steps::called))]
    fn delay(&mut self, core: u32, task: u32, ticks: u32) -> Reply
        requires core { core < self.old.settings.cores }
        requires task { task < self.old.settings.tasks }
        requires ready { has task self.old.orders.ready ≡ true }
        ensures { (result, self.new) ≡ called list_queues core task (Delay ticks) self.old }
    {
        if ticks == 0 {
            self.ask_itself(core);
            return Reply::Done;
        }
        self.block(core, task, BlockingCall::Delay(ticks), Some(ticks));
        Reply::Blocked
    }

    // The task waits until its next wake, or where that has passed only asks its core to switch.
    #[tactic(auto, unfolding(bench_model::specs::Steps::delayed_until))]
    fn delay_until(&mut self, core: u32, task: u32, prev: u32, inc: u32) -> Reply
        requires core { core < self.old.settings.cores }
        requires task { task < self.old.settings.tasks }
        requires ready { has task self.old.orders.ready ≡ true }
        ensures { (result, self.new) ≡ delayed_until list_queues core task prev inc self.old }
    {
        let (delayed, wake) = self.delays.delay_until(task, prev, inc);
        self.cores.ask(core, core);
        if delayed {
            let call = BlockingCall::DelayUntil { prev, inc };
            self.cores.unready(task);
            self.calls[task as usize] = Some(Unfinished::Made(call));
            self.deadlines.set(task, None);
        }
        Reply::Until { delayed, wake }
    }

    // The core asks itself to switch.
    #[tactic(auto, unfolding(bench_model::specs::State::yielded))]
    fn ask_itself(&mut self, core: u32)
        requires { core < self.old.settings.cores }
        ensures { self.new ≡ yielded list_queues core self.old }
    {
        self.cores.ask(core, core);
    }

    // The task waits in its call, for so many ticks or without end, at no mutex, and its core asks
    // itself to switch.
    #[tactic(auto, unfolding(bench_model::specs::State::blocked, bench_model::specs::Lists::delay))]
    fn block(&mut self, core: u32, task: u32, call: BlockingCall, ticks: Option<u32>)
        requires core { core < self.old.settings.cores }
        requires task { task < self.old.settings.tasks }
        requires ready { has task self.old.orders.ready ≡ true }
        requires some { IfSome ticks (λ ticks. 0 < ticks) }
        ensures { self.new ≡ blocked list_queues core task (Made call) ticks None self.old }
    {
        self.cores.ask(core, core);
        self.cores.unready(task);
        self.calls[task as usize] = Some(Unfinished::Made(call));
        delay_for(&mut self.delays, task, ticks);
        self.deadlines.set(task, None);
    }
}

// The task waits for so many ticks; without end it has no place among the delays.
fn delay_for(delays: &mut Delays, task: u32, ticks: Option<u32>)
    requires task { task < delays.old.tasks }
    requires free { is_delayed task delays.old.delayed ≡ false }
    requires some { IfSome ticks (λ ticks. 0 < ticks) }
    ensures { delays.new ≡ record delays.old {
      delayed = option_map_or
          (λ left. placed wakes_first (record { task = task; left = left })
          delays.old.delayed) ticks delays.old.delayed;
    } }
{
    if let Some(ticks) = ticks {
        delays.delay(task, ticks);
    }
}
