//! The flat table of the rules as a program, searched whole at each step.
ghost use Rattle.std.specs.Prelude.{◌≡◌, ℕ, ◌<◌, ◌≤◌, ◌^◌, ◌+◌, ◌==◌, ◌&&◌, length, [], ◌++◌, map, replicate, option_map, slice_get, slice_set, All, Some, None, IfOk, IfSome, nat_le, Ok};
ghost use Rattle.bench_types.specs.Step.{call_check, step_check, settings_of, IsStepOfWords};
ghost use Rattle.bench_types.specs.Header.{header_check};
ghost use Rattle.bench_types.specs.declared.step.Call.TheVariants.{Delay};
ghost use Rattle.bench_model.specs.Control.{ask, is_elsewhere, is_allowed, may_select, is_due, current, run_on, running};
ghost use Rattle.bench_model.specs.declared.row.TaskState.TheVariants.{Blocked};
ghost use Rattle.bench_model.specs.Notes.{no_note};
ghost use Rattle.bench_model.specs.State.{queued, after_select, yielded, blocked};
ghost use Rattle.bench_model.specs.Seek.{wake, after_switch};
ghost use Rattle.bench_model.specs.Steps.{ticked, delayed_until, called, performed};
ghost use Rattle.bench_model.specs.Sound.{IsConsistent, IsSound, StepFits};
ghost use Rattle.bench_model.specs.Session.{step_of, outcome_at};
ghost use Rattle.bench_types.specs.Reply.{shown};
ghost use Rattle.bench_types.specs.Limits.{max_cores, max_notes, max_tasks};
ghost use Rattle.bench_model.specs.Table.{stamp_queues, advance, add_to_ready_list, ahead, is_ready, goes_before, pick, restamped, row_at, stamp_of, tasks_of, wakes_at};
ghost use Rattle.bench_model.specs.Waiters.{without_waiter};
ghost use Rattle.list_orders.specs.Search.{is_best, numbers};
ghost use Rattle.bench_model.specs.Start.{first_look, ready_row, idle_control, user_control, first_control, first_queue, first_queues, first_values, first_stamps, unstarted, start};
ghost use Rattle.slow_replay.specs.SlowDue.{first_due};

mod holds;
mod mutexes;
mod notes;
mod queues;
mod seek;
mod sets;
mod suspending;

use bench_model::until::{is_ahead, next_wake};
use bench_model::{TaskRow, TaskState};
use bench_types::{
    BlockingCall, Call, CoreLook, Header, Hold, NoteState, Notification, QueueArgs, QueueLook,
    Refusal, Reply, Row, Settings, Step, TaskArgs, TaskControl, Unfinished, Waiter, cores_of_mask,
};
use std::alloc::{AllocError, Global};
use std::marker::Model;
use std::ops::Range;

/// The flat table as it is defined: a row a task, stamps and absolute wakes, searched whole.
struct SlowTable {
    settings: Settings,
    cores: Vec<CoreLook>,
    tasks: Vec<TaskControl>,
    calls: Vec<Option<Unfinished>>,
    notes: Vec<Notification>,
    holders: Vec<Option<u32>>,
    queues: Vec<QueueLook>,
    hold: Option<Hold>,
    rows: Vec<TaskRow>,
    waiters: Vec<Waiter>,
    deadlines: Vec<Option<u128>>,
    /// Per task its list value; empty where the session has none.
    values: Vec<u32>,
    tick: u128,
    next: u128,
}

// Written out, so that whoever drops one has one call to prove, and not one for each list in it.
impl Drop for SlowTable {
    fn drop(self) {
        let SlowTable {
            settings: _,
            cores: _,
            tasks: _,
            calls: _,
            notes: _,
            holders: _,
            queues: _,
            hold: _,
            rows: _,
            waiters: _,
            deadlines: _,
            values: _,
            tick: _,
            next: _,
        } = self;
    }
}

impl Model for SlowTable {
    ghost use Rattle.bench_model.specs.Table.{Table};

    ghost Value = { Table };

    ghost use Rattle.slow_replay.specs.SlowTable.{IsFit};

    ghost view = { λ t. record {
      settings = t.settings;
      control = record { cores = t.cores.items; tasks = t.tasks.items };
      calls = t.calls.items;
      notes = t.notes.items;
      holders = t.holders.items;
      queues = t.queues.items;
      hold = t.hold;
      orders = record {
        rows = t.rows.items;
        waiters = t.waiters.items;
        deadlines = t.deadlines.items;
        values = t.values.items;
        tick = t.tick;
        next = t.next;
      };
    } };

    ghost invariant = { IsFit };
}

impl SlowTable {
    fn core_numbers(&self) -> Range<u32>
        ensures numbers { result ≡ record { start = 0; end = length self.now.control.cores } }
        ensures few { length self.now.control.cores ≤ max_cores }
        ensures settings { self.now.settings.cores ≡ length self.now.control.cores }
    {
        0..self.settings.cores
    }

    fn task_numbers(&self) -> Range<u32>
        ensures numbers { result ≡ record { start = 0; end = length self.now.orders.rows } }
        ensures settings { self.now.settings.tasks ≡ length self.now.orders.rows }
    {
        0..self.settings.tasks
    }

    fn is_ready(&self, task: u32) -> bool
        requires { task < length self.now.orders.rows }
        ensures { result ≡ is_ready task self.now.orders }
    {
        match self.rows[task as usize].standing {
            TaskState::Ready => true,
            TaskState::Blocked { .. } => false,
        }
    }

    fn runs_on(&self, core: u32, task: u32) -> bool
        requires { core < length self.now.control.cores }
        ensures { result ≡ (current self.now.control core == task) }
    {
        self.cores[core as usize].current == task
    }

    fn current(&self, core: u32) -> u32
        requires { core < length self.now.control.cores }
        ensures runs { result ≡ current self.now.control core }
        ensures task { result < length self.now.orders.rows }
    {
        self.cores[core as usize].current
    }

    fn is_elsewhere(&self, core: u32, task: u32) -> bool
        ensures { result ≡ is_elsewhere self.now.control core task }
    {
        self.core_numbers()
            .any(|other| other != core && self.runs_on(other, task))
    }

    fn is_allowed(&self, core: u32, task: u32) -> bool
        requires core { core < length self.now.control.cores }
        requires task { task < length self.now.orders.rows }
        ensures { result ≡ is_allowed self.now.control core task }
    {
        task < self.settings.cores || (self.tasks[task as usize].mask >> core) & 1 == 1
    }

    fn can_select(&self, core: u32, task: u32) -> bool
        requires core { core < length self.now.control.cores }
        requires task { task < length self.now.orders.rows }
        ensures { result
            ≡ (is_ready task self.now.orders && may_select self.now.control core task) }
    {
        self.is_ready(task) && self.is_allowed(core, task) && !self.is_elsewhere(core, task)
    }

    fn is_no_later(&self, one: u32, other: u32) -> bool
        requires one { one < length self.now.orders.rows }
        requires other { other < length self.now.orders.rows }
        ensures { result ≡ nat_le (stamp_of self.now.orders one) (stamp_of self.now.orders other) }
    {
        self.rows[one as usize].stamp <= self.rows[other as usize].stamp
    }

    fn goes_before(&self, one: u32, other: u32) -> bool
        requires one { one < length self.now.orders.rows }
        requires other { other < length self.now.orders.rows }
        ensures { result ≡ goes_before self.now.control self.now.orders one other }
    {
        let a = self.tasks[one as usize].in_use;
        let b = self.tasks[other as usize].in_use;
        b < a || (a == b && self.is_no_later(one, other))
    }

    // Whether the core may select the task and none that it may select goes before it.
    fn is_best(&self, core: u32, task: u32) -> bool
        requires core { core < length self.now.control.cores }
        requires task { task < length self.now.orders.rows }
        ensures { result
            ≡ is_best (λ i. is_ready i self.now.orders && may_select self.now.control core i)
            (goes_before self.now.control self.now.orders) (tasks_of self.now.orders) task }
    {
        self.can_select(core, task)
            && self.task_numbers().all(|other| !self.can_select(core, other)
                || self.goes_before(task, other))
    }

    fn pick(&self, core: u32) -> Option<u32>
        requires { core < length self.now.control.cores }
        ensures picked { result ≡ pick self.now.control core self.now.orders }
        ensures task { IfSome result (λ task. task < length self.now.orders.rows) }
    {
        self.task_numbers().find(|task| self.is_best(core, *task))
    }

    fn is_due_now(&self, task: u32) -> bool
        requires { task < length self.now.orders.rows }
        ensures { result ≡ wakes_at self.now.orders.tick (row_at self.now.orders task).standing }
    {
        match self.rows[task as usize].standing {
            TaskState::Ready | TaskState::Blocked { wake: None } => false,
            TaskState::Blocked { wake: Some(wake) } => wake == self.tick,
        }
    }

    // Whether the task is due and none that is due has a smaller stamp.
    fn is_first_due(&self, task: u32) -> bool
        requires { task < length self.now.orders.rows }
        ensures { result
            ≡ is_best (λ i. wakes_at self.now.orders.tick (row_at self.now.orders i).standing)
            (λ i j. nat_le (stamp_of self.now.orders i) (stamp_of self.now.orders j))
            (tasks_of self.now.orders) task }
    {
        self.is_due_now(task)
            && self.task_numbers().all(|other| !self.is_due_now(other)
                || self.is_no_later(task, other))
    }

    fn first_due(&self) -> Option<u32>
        ensures first { result ≡ first_due self.now.orders }
        ensures task { IfSome result (λ task. task < length self.now.orders.rows) }
    {
        self.task_numbers().find(|task| self.is_first_due(*task))
    }

    // The task waits in no event list any more.
    fn leave(&mut self, task: u32)
        ensures { self.new ≡ record self.old {
          orders = record self.old.orders {
            waiters = without_waiter task self.old.orders.waiters;
          };
        } }
    {
        forget(&mut self.waiters, task);
    }

    #[tactic(auto, unfolding(bench_model::specs::Table::add_to_ready_list))]
    fn add_to_ready_list(&mut self, task: u32)
        requires task { task < length self.old.orders.rows }
        requires room { self.old.orders.next + 1 < 2 ^ 128 }
        ensures made { self.new
            ≡ record self.old { orders = add_to_ready_list task self.old.orders } }
        ensures rows { length self.new.orders.rows ≡ length self.old.orders.rows }
        ensures stamps { self.new.orders.next ≡ self.old.orders.next + 1 }
        ensures tick { self.new.orders.tick ≡ self.old.orders.tick }
    {
        self.leave(task);
        self.rows[task as usize] = TaskRow {
            stamp: self.next,
            standing: TaskState::Ready,
        };
        self.next += 1;
    }

    #[tactic(auto, unfolding(bench_model::specs::State::yielded))]
    fn ask_itself(&mut self, core: u32)
        requires { core < length self.old.control.cores }
        ensures { self.new ≡ yielded stamp_queues core self.old }
    {
        self.cores[core as usize].pend = true;
    }

    fn run_on(&mut self, core: u32, task: u32)
        requires core { core < length self.old.control.cores }
        requires task { task < length self.old.orders.rows }
        ensures { self.new ≡ record self.old { control = run_on core task self.old.control } }
    {
        self.cores[core as usize] = CoreLook {
            current: task,
            pend: false,
            asked: false,
        };
    }

    // The core's task goes to the end of its ready list, where it is ready.
    fn queue(&mut self, core: u32)
        requires core { core < length self.old.control.cores }
        requires room { self.old.orders.next + 1 < 2 ^ 128 }
        ensures queued { self.new ≡ record self.old { orders = queued stamp_queues core self.old } }
        ensures rows { length self.new.orders.rows ≡ length self.old.orders.rows }
    {
        let left = self.current(core);
        if self.is_ready(left) {
            self.add_to_ready_list(left);
        }
    }

    #[tactic(auto, unfolding(bench_model::specs::State::after_select))]
    fn select(&mut self, core: u32)
        requires core { core < length self.old.control.cores }
        requires room { self.old.orders.next + 1 < 2 ^ 128 }
        ensures selected { self.new ≡ after_select stamp_queues core self.old }
        ensures rows { length self.new.orders.rows ≡ length self.old.orders.rows }
        ensures cores { length self.new.control.cores ≡ length self.old.control.cores }
    {
        let left = self.current(core);
        self.queue(core);
        let task = self.pick(core).unwrap_or(left);
        self.run_on(core, task);
    }

    #[tactic(auto, unfolding(bench_model::specs::Seek::after_switch))]
    fn switch(&mut self, core: u32)
        requires core { core < length self.old.control.cores }
        requires room { self.old.orders.next + 1 < 2 ^ 128 }
        ensures { self.new ≡ after_switch stamp_queues core self.old }
    {
        let loser = self.current(core);
        self.select(core);
        self.resettle(core, loser);
    }

    #[tactic(auto, unfolding(bench_model::specs::Seek::wake))]
    fn wake(&mut self, acting: u32, task: u32)
        requires task { task < length self.old.orders.rows }
        requires room { self.old.orders.next + 1 < 2 ^ 128 }
        ensures woken { self.new ≡ wake stamp_queues acting task self.old }
        ensures settings { self.new.settings ≡ self.old.settings }
    {
        self.add_to_ready_list(task);
        self.seek(acting, task, None);
    }

    #[tactic(auto, unfolding(bench_model::specs::Table::advance))]
    fn count_tick(&mut self)
        requires { self.old.orders.tick + 1 < 2 ^ 128 }
        ensures { self.new ≡ record self.old { orders = advance self.old.orders } }
    {
        self.tick += 1;
    }

    // Wakes the tasks that are due one by one, by core 0, and then ends time slices.
    fn advance(&mut self)
        requires sound { IsConsistent self.old }
        requires room { self.old.orders.next + length self.old.orders.rows < 2 ^ 128 }
        requires time { self.old.orders.tick + 1 < 2 ^ 128 }
        ensures { self.new ≡ ticked stamp_queues self.old }
    {
        self.count_tick();
        while let Some(task) = self.first_due() {
            self.wake(0, task);
        }
        self.slice();
    }

    // The tick count so many ticks from now.
    fn ahead(&self, ticks: Option<u32>) -> Option<u128>
        requires { self.now.orders.tick + 2 ^ 32 < 2 ^ 128 }
        ensures { result ≡ ahead self.now.orders ticks }
    {
        let tick = self.tick;
        ticks.map(|ticks| tick + u128::from(ticks))
    }

    // The task waits in its call until the tick count, in no event list so far.
    #[tactic(auto, unfolding(bench_model::specs::State::yielded))]
    fn stand(&mut self, core: u32, task: u32, call: Unfinished, wake: Option<u128>)
        requires core { core < length self.old.control.cores }
        requires task { task < length self.old.orders.rows }
        requires room { self.old.orders.next + 1 < 2 ^ 128 }
        ensures { self.new ≡ record self.old {
          control = ask core core self.old.control;
          calls = slice_set self.old.calls task (Some call);
          orders = restamped task (Blocked wake) self.old.orders;
        } }
    {
        self.rows[task as usize] = TaskRow {
            stamp: self.next,
            standing: TaskState::Blocked { wake },
        };
        self.next += 1;
        self.calls[task as usize] = Some(call);
        self.ask_itself(core);
    }

    #[tactic(auto, unfolding(bench_model::specs::State::blocked, bench_model::specs::Table::delay))]
    fn block(&mut self, core: u32, task: u32, call: Unfinished, ticks: Option<u32>)
        requires core { core < length self.old.control.cores }
        requires task { task < length self.old.orders.rows }
        requires room { self.old.orders.next + 1 < 2 ^ 128 }
        requires time { self.old.orders.tick + 2 ^ 32 < 2 ^ 128 }
        ensures { self.new ≡ blocked stamp_queues core task call ticks None self.old }
    {
        let wake = self.ahead(ticks);
        self.stand(core, task, call, wake);
        self.deadlines[task as usize] = None;
    }

    #[tactic(auto, unfolding(bench_model::specs::Steps::called))]
    fn delay(&mut self, core: u32, task: u32, ticks: u32) -> Reply
        requires core { core < length self.old.control.cores }
        requires task { task < length self.old.orders.rows }
        requires room { self.old.orders.next + 1 < 2 ^ 128 }
        requires time { self.old.orders.tick + 2 ^ 32 < 2 ^ 128 }
        ensures { (result, self.new) ≡ called stamp_queues core task (Delay ticks) self.old }
    {
        if ticks == 0 {
            self.ask_itself(core);
            return Reply::Done;
        }
        let call = Unfinished::Made(BlockingCall::Delay(ticks));
        self.block(core, task, call, Some(ticks));
        Reply::Blocked
    }

    #[tactic(auto, unfolding(bench_model::specs::Steps::delayed_until))]
    fn delay_until(&mut self, core: u32, task: u32, prev: u32, inc: u32) -> Reply
        requires core { core < length self.old.control.cores }
        requires task { task < length self.old.orders.rows }
        requires room { self.old.orders.next + 1 < 2 ^ 128 }
        requires time { self.old.orders.tick + 2 ^ 32 < 2 ^ 128 }
        ensures { (result, self.new) ≡ delayed_until stamp_queues core task prev inc self.old }
    {
        let now = self.tick_count();
        let wake = next_wake(prev, inc);
        let delayed = is_ahead(now, prev, wake);
        if delayed {
            let call = Unfinished::Made(BlockingCall::DelayUntil { prev, inc });
            self.block(core, task, call, Some(wake.wrapping_sub(now)));
        } else {
            self.ask_itself(core);
        }
        Reply::Until { delayed, wake }
    }

    #[tactic(auto, unfolding(bench_model::specs::Steps::called))]
    fn call(&mut self, alloc: Global, core: u32, task: u32, call: Call) -> Result<Reply, AllocError>
        requires sound { IsSound self.old }
        requires core { core < length self.old.control.cores }
        requires task { task < length self.old.orders.rows }
        requires checked { call_check self.old.settings call ≡ Ok tt }
        requires room { self.old.orders.next + 2 < 2 ^ 128 }
        requires time { self.old.orders.tick + 2 ^ 32 < 2 ^ 128 }
        ensures { IfOk result
            (λ reply. (reply, self.new) ≡ called stamp_queues core task call self.old) }
    {
        match call {
            Call::Yield => self.ask_itself(core),
            Call::PrioritySet { task, priority } => self.set_priority(core, task, priority),
            Call::AffinitySet { task, mask } => self.set_affinity(core, task, mask),
            Call::PreemptOff(task) => self.preempt_off(task),
            Call::PreemptOn(task) => self.preempt_on(core, task),
            Call::Suspend(task) => self.suspend(core, task),
            Call::Resume(task) => self.resume(core, task),
            Call::Delay(ticks) => return Ok(self.delay(core, task, ticks)),
            Call::DelayUntil { prev, inc } => return Ok(self.delay_until(core, task, prev, inc)),
            Call::Finish => return self.finish(alloc, core, task),
            Call::HoldOpen => self.open_hold(core),
            Call::HoldClose => self.close_hold(core),
            Call::Notify(note) => return Ok(Reply::Flag(self.notify(core, note))),
            Call::NotifyWait {
                entry,
                exit,
                ticks,
                index,
            } => return Ok(self.wait(core, task, entry, exit, ticks, index)),
            Call::NotifyTake {
                clear,
                ticks,
                index,
            } => return Ok(self.take_note(core, task, clear, ticks, index)),
            Call::StateClear { task, index } => return Ok(self.clear_state(task, index)),
            Call::ValueClear { task, bits, index } => {
                return Ok(self.clear_value(task, bits, index));
            }
            Call::MutexTake { mutex, ticks } => return self.take(alloc, core, task, mutex, ticks),
            Call::MutexGive(mutex) => return Ok(self.give(core, task, mutex)),
            Call::QueueSend { queue, ticks } => return self.send(alloc, core, task, queue, ticks),
            Call::QueueReceive { queue, ticks } => {
                return self.receive(alloc, core, task, queue, ticks);
            }
        }
        Ok(Reply::Done)
    }

    #[tactic(auto, unfolding(bench_model::specs::Steps::performed))]
    fn perform(&mut self, alloc: Global, step: &Step) -> Result<Reply, AllocError>
        requires sound { IsSound self.old }
        requires fits { StepFits self.old step.now }
        requires checked { step_check self.old.settings step.now ≡ Ok tt }
        requires room { self.old.orders.next + length self.old.orders.rows + 1 < 2 ^ 128 }
        requires time { self.old.orders.tick + 2 ^ 32 < 2 ^ 128 }
        ensures { IfOk result
            (λ reply. (reply, self.new) ≡ performed stamp_queues step.now self.old) }
    {
        match *step {
            Step::Tick => {
                self.advance();
                Ok(Reply::Done)
            }
            Step::Switch { core } => {
                self.switch(core);
                Ok(Reply::Done)
            }
            Step::Call { core, task, call } => self.call(alloc, core, task, call),
            Step::Interrupt { core, note } => Ok(self.interrupt(core, note)),
            Step::QueueInterrupt {
                core,
                queue,
                direction,
            } => Ok(self.interrupt_queue(core, direction, queue)),
            Step::ResumeInterrupt { core, task } => Ok(self.interrupt_resume(core, task)),
            Step::Pass { .. } => Ok(Reply::Done),
        }
    }

    #[tactic(auto, unfolding(bench_model::specs::Steps::after))]
    fn step(&mut self, alloc: Global, step: Step) -> Result<Reply, AllocError>
        requires sound { IsSound self.old }
        requires checked { step_check self.old.settings step ≡ Ok tt }
        requires room { self.old.orders.next + length self.old.orders.rows + 1 < 2 ^ 128 }
        requires time { self.old.orders.tick + 2 ^ 32 < 2 ^ 128 }
        ensures outcome { IfOk result (λ reply. (reply, self.new) ≡ step_of step self.old) }
        ensures words { IsStepOfWords step }
    {
        match self.refusal(&step) {
            Some(why) => Ok(Reply::Refused(why)),
            None => self.perform(alloc, &step),
        }
    }

    fn row(&self, alloc: Global) -> Result<Row, AllocError>
        ensures { IfOk result (λ row. row.items ≡ running self.now.control) }
    {
        self.cores.iter().map(|look| look.current).collect(alloc)
    }
}

fn first_look(core: u32) -> CoreLook
    ensures { result ≡ first_look core }
{
    CoreLook {
        current: core,
        pend: false,
        asked: false,
    }
}

fn ready_row(stamp: u32) -> TaskRow
    ensures { result ≡ ready_row stamp }
{
    TaskRow {
        stamp: u128::from(stamp),
        standing: TaskState::Ready,
    }
}

fn first_cores(alloc: Global, cores: u32) -> Result<Vec<CoreLook>, AllocError>
    ensures { IfOk result (λ looks. looks.items ≡ map first_look (numbers cores)) }
{
    (0..cores).map(first_look).collect(alloc)
}

fn first_rows(alloc: Global, cores: u32, users: u32) -> Result<Vec<TaskRow>, AllocError>
    requires { cores + users < 2 ^ 32 }
    ensures { IfOk result
        (λ rows. rows.items
        ≡ map (λ core. ready_row (users + core)) (numbers cores) ++ map ready_row (numbers users)) }
{
    let idle = (0..cores).map(|core| ready_row(users + core));
    idle.chain((0..users).map(ready_row)).collect(alloc)
}

fn no_calls(alloc: Global, tasks: u32) -> Result<Vec<Option<Unfinished>>, AllocError>
    ensures { IfOk result (λ calls. calls.items ≡ replicate tasks None) }
{
    let mut calls = Vec::new(alloc);
    for _task in 0..tasks {
        calls.push(None)?;
    }
    Ok(calls)
}

fn no_notes(alloc: Global, many: u32) -> Result<Vec<Notification>, AllocError>
    ensures { IfOk result (λ notes. notes.items ≡ replicate many no_note) }
{
    let note = Notification {
        value: 0,
        state: NoteState::NotWaiting,
    };
    vec![in alloc; note; many as usize]
}

fn no_holders(alloc: Global, mutexes: u32) -> Result<Vec<Option<u32>>, AllocError>
    ensures { IfOk result (λ holders. holders.items ≡ replicate mutexes None) }
{
    vec![in alloc; None; mutexes as usize]
}

fn first_queue(args: QueueArgs) -> QueueLook
    ensures { result ≡ first_queue args }
{
    QueueLook {
        length: args.length,
        messages: args.messages,
    }
}

fn first_queues(alloc: Global, header: &Header) -> Result<Vec<QueueLook>, AllocError>
    ensures { IfOk result (λ queues. queues.items ≡ first_queues header.now) }
{
    match &header.queues {
        None => Ok(Vec::new(alloc)),
        Some(queues) => {
            let args = queues.as_slice();
            args.iter().copied().map(first_queue).collect(alloc)
        }
    }
}

// None of the waiters is the task any more.
fn forget(waiters: &mut Vec<Waiter>, task: u32)
    ensures { waiters.new.items ≡ without_waiter task waiters.old.items }
{
    waiters.retain(|waiter| waiter.task != task);
}

fn no_waiters(alloc: Global) -> Vec<Waiter>
    ensures { result.items ≡ [] }
{
    Vec::new(alloc)
}

fn no_deadlines(alloc: Global, tasks: u32) -> Result<Vec<Option<u128>>, AllocError>
    ensures { IfOk result (λ deadlines. deadlines.items ≡ replicate tasks None) }
{
    vec![in alloc; None; tasks as usize]
}

fn idle_control(cores: u32) -> TaskControl
    requires { cores ≤ max_cores }
    ensures { result ≡ idle_control cores }
{
    TaskControl {
        base: 0,
        in_use: 0,
        mask: cores_of_mask(cores, u32::MAX),
        preempt: true,
    }
}

fn user_control(cores: u32, args: &TaskArgs) -> TaskControl
    requires { cores ≤ max_cores }
    ensures { result ≡ user_control cores args.now }
{
    TaskControl {
        base: args.priority,
        in_use: args.priority,
        mask: cores_of_mask(cores, args.mask),
        preempt: true,
    }
}

fn idle_controls(alloc: Global, cores: u32) -> Result<Vec<TaskControl>, AllocError>
    requires { cores ≤ max_cores }
    ensures { IfOk result (λ controls. controls.items ≡ replicate cores (idle_control cores)) }
{
    let mut controls = Vec::new(alloc);
    for _core in 0..cores {
        controls.push(idle_control(cores))?;
    }
    Ok(controls)
}

fn first_controls(alloc: Global, header: &Header) -> Result<Vec<TaskControl>, AllocError>
    requires { header.now.config.cores ≤ max_cores }
    ensures { IfOk result (λ controls. controls.items ≡ (first_control header.now).tasks) }
{
    let cores = header.config.cores;
    let mut controls = idle_controls(alloc, cores)?;
    for args in header.tasks.as_slice() {
        controls.push(user_control(cores, args))?;
    }
    Ok(controls)
}

// In a session with queues each task's list value is its base priority; in another there are none.
fn first_values(
    alloc: Global,
    header: &Header,
    tasks: &[TaskControl],
) -> Result<Vec<u32>, AllocError>
    requires { tasks.now ≡ (first_control header.now).tasks }
    ensures { IfOk result (λ values. values.items ≡ first_values header.now) }
{
    if header.queues.is_none() {
        return Ok(Vec::new(alloc));
    }
    tasks.iter().map(|block| block.base).collect(alloc)
}

fn settings_of(header: &Header) -> Settings
    requires few { header.now.config.cores + length header.now.tasks < 2 ^ 32 }
    requires passes { header_check header.now ≡ Ok tt }
    ensures { result ≡ settings_of header.now }
{
    let config = header.config;
    Settings {
        cores: config.cores,
        priorities: config.priorities,
        slicing: config.slicing,
        mutexes: config.mutexes,
        notes: config.notes,
        queues: header.queue_count(),
        units: config.units,
        tasks: config.cores + header.tasks.as_slice().len() as u32,
    }
}

#[tactic(auto, unfolding(bench_model::specs::Start::unstarted, bench_model::specs::Start::first_stamps))]
fn unstarted(alloc: Global, header: &Header) -> Result<SlowTable, AllocError>
    requires cores { header.now.config.cores ≤ max_cores }
    requires tasks { length header.now.tasks ≤ max_tasks }
    requires notes { header.now.config.notes ≤ max_notes }
    requires passes { header_check header.now ≡ Ok tt }
    ensures { IfOk result (λ table. table ≡ unstarted (first_stamps header.now) header.now) }
{
    let settings = settings_of(header);
    let users = settings.tasks - settings.cores;
    let cores = first_cores(alloc, settings.cores)?;
    let tasks = first_controls(alloc, header)?;
    let calls = no_calls(alloc, settings.tasks)?;
    let notes = no_notes(alloc, settings.tasks * settings.notes)?;
    let holders = no_holders(alloc, settings.mutexes)?;
    let queues = first_queues(alloc, header)?;
    let rows = first_rows(alloc, settings.cores, users)?;
    let waiters = no_waiters(alloc);
    let deadlines = no_deadlines(alloc, settings.tasks)?;
    let values = first_values(alloc, header, &tasks)?;
    Ok(SlowTable {
        settings,
        cores,
        tasks,
        calls,
        notes,
        holders,
        queues,
        hold: None,
        rows,
        waiters,
        deadlines,
        values,
        tick: u128::from(header.config.tick),
        next: u128::from(settings.tasks),
    })
}

#[tactic(auto, using(bench_types::proofs::Passes::checked_header))]
fn start(alloc: Global, header: &Header) -> Result<SlowTable, AllocError>
    requires { header_check header.now ≡ Ok tt }
    ensures { IfOk result (λ table. table ≡ start header.now) }
{
    let mut table = unstarted(alloc, header)?;
    for core in 0..header.config.cores {
        table.switch(core);
    }
    Ok(table)
}

/// Replays the steps on the flat table as it is defined, and gives per step its reply and the tasks
/// that run after it.
///
/// It searches the whole table at each step, so it serves to test faster kernels. It takes the
/// host's runtime, so that a crate that is handed none can't replay unnoticed.
#[tactic(auto, using(bench_types::proofs::Passes::checked_header))]
pub fn replay_slow(
    _rt: &HostRuntime,
    alloc: Global,
    header: &Header,
    steps: &[Step],
) -> Result<Vec<(Reply, Row)>, AllocError>
    requires header { header_check header.now ≡ Ok tt }
    requires steps { All (λ step. step_check (settings_of header.now) step ≡ Ok tt) steps.now }
    ensures { IfOk result (λ outcomes. (place : ℕ) →
        option_map shown (slice_get outcomes.items place) ≡ outcome_at header.now steps.now place) }
{
    // Once it is read, the proof knows that the tick count has 32 bits.
    let _start = header.config.tick;
    let mut table = start(alloc, header)?;
    let mut outcomes = Vec::with_capacity(alloc, steps.len())?;
    for step in steps {
        let reply = table.step(alloc, *step)?;
        let row = table.row(alloc)?;
        outcomes.push((reply, row))?;
    }
    Ok(outcomes)
}
