//! The step that comes next.
ghost use Rattle.std.specs.Prelude.{◌≡◌, ◌<◌, ◌+◌, ◌≤◌, Option, None, find, length, option_map, slice_get};
ghost use Rattle.bench_model.specs.Equal.{StandsFor};
ghost use Rattle.bench_model.specs.Table.{Table};
ghost use Rattle.task_programs.specs.declared.workload.Interrupt.{Interrupt as Arrival};
ghost use Rattle.workload_runs.specs.Rule.{call_of_user, call_on, full_tick, interrupt_step, least, next_step, pass_units, program_call, tick_end, time_step, works_left};
ghost use Rattle.simulating.specs.Simulations.{left_of, now_in, timely_on, waits_from, IsAt};

use crate::progress::{due_interrupt, is_working};
use crate::simulation::Simulation;
use bench_types::Step;
use settling::{is_timely, quiet_work};
use task_programs::{CheckedWorkload, Interrupt};

// The least of the bound and of the units until each interrupt comes.
fn least_wait(arrivals: &[Option<u64>], time: u64, bound: u64) -> u64
    ensures { result ≡ least bound (waits_from time arrivals.now) }
{
    let mut least = bound;
    for arrival in arrivals {
        least = match *arrival {
            Some(at) => least.min(at.saturating_sub(time)),
            None => least,
        };
    }
    least
}

// What the interrupt at the index does.
fn what_at(interrupts: &[Interrupt], index: usize) -> Option<Step>
    ensures { result
        ≡ option_map (λ (interrupt : Arrival). interrupt.what) (slice_get interrupts.now index) }
{
    match interrupts.get(index) {
        Some(interrupt) => Some(interrupt.what),
        None => None,
    }
}

impl Simulation {
    // The call that the user task makes next, on the core.
    fn call_of_user(&self, workload: &CheckedWorkload, core: u32, user: u32) -> Option<Step>
        requires here { IsAt workload.now self.now }
        requires tasks { self.now.kernel.settings.cores + length self.now.progress.courses.items
            ≡ self.now.kernel.settings.tasks }
        requires user { user < length self.now.progress.courses.items }
        ensures { result ≡ call_of_user workload.now (now_in workload.now self.now) core user }
    {
        let settings = self.kernel.settings();
        let task = settings.cores + user;
        let program = workload.programs()[user as usize].as_slice();
        match self.progress.courses[user as usize].next_call(program, task) {
            Some(call) => Some(Step::Call { core, task, call }),
            None => None,
        }
    }

    // The call that the current task of the core makes next; an idle task makes none.
    fn call_on(&self, workload: &CheckedWorkload, core: u32) -> Option<Step>
        requires here { IsAt workload.now self.now }
        requires core { core < self.now.kernel.settings.cores }
        ensures { result ≡ call_on workload.now (now_in workload.now self.now) core }
    {
        let task = self.kernel.running(core);
        let settings = self.kernel.settings();
        if settings.cores <= task {
            self.call_of_user(workload, core, task - settings.cores)
        } else {
            None
        }
    }

    // That call, where it is not refused with E1 to E5.
    fn timely_call(&self, workload: &CheckedWorkload, core: u32) -> Option<Step>
        requires here { IsAt workload.now self.now }
        requires core { core < self.now.kernel.settings.cores }
        ensures { result ≡ timely_on workload.now (now_in workload.now self.now) core }
    {
        let step = self.call_on(workload, core)?;
        if is_timely(&self.kernel, &step) {
            Some(step)
        } else {
            None
        }
    }

    // The first call that is not refused with E1 to E5, of the least core.
    fn program_call(&self, workload: &CheckedWorkload) -> Option<Step>
        requires { IsAt workload.now self.now }
        ensures { result ≡ program_call workload.now (now_in workload.now self.now) }
    {
        for core in 0..self.kernel.settings().cores {
            if let Some(step) = self.timely_call(workload, core) {
                return Some(step);
            }
        }
        None
    }

    // What the first interrupt does that is to come by now.
    fn interrupt_step(&self, workload: &CheckedWorkload) -> Option<Step>
        requires { IsAt workload.now self.now }
        ensures { result ≡ interrupt_step workload.now (now_in workload.now self.now) }
    {
        match due_interrupt(&self.progress.arrivals, self.progress.time) {
            Some(index) => what_at(workload.interrupts(), index),
            None => None,
        }
    }

    // The units of time from the start to the end of this tick.
    fn tick_end(&self, workload: &CheckedWorkload) -> u64
        requires { IsAt workload.now self.now }
        ensures { result ≡ tick_end workload.now (now_in workload.now self.now) }
    {
        (u64::from(self.progress.ticks) + 1) * u64::from(workload.header().config.units)
    }

    // The units that are left of the work of the user task, where it works.
    fn left_of(&self, user: u32) -> u32
        requires tasks { self.now.kernel.settings.cores + length self.now.progress.courses.items
            ≡ self.now.kernel.settings.tasks }
        requires user { user < length self.now.progress.courses.items }
        ensures { (table : Table) → StandsFor self.now.kernel table
            → result ≡ left_of table self.now.progress.courses.items user }
    {
        let settings = self.kernel.settings();
        if is_working(&self.kernel, settings.cores + user) {
            self.progress.courses[user as usize].left()
        } else {
            0
        }
    }

    // The least of the bound and of the units that are left of the works of user tasks.
    fn least_work(&self, workload: &CheckedWorkload, bound: u64) -> u64
        requires { IsAt workload.now self.now }
        ensures { result ≡ least bound (works_left (now_in workload.now self.now)) }
    {
        let settings = self.kernel.settings();
        let mut least = bound;
        for user in 0..settings.tasks - settings.cores {
            let left = u64::from(self.left_of(user));
            least = if left == 0 { least } else { least.min(left) };
        }
        least
    }

    // The units of time until something happens.
    fn pass_units(&self, workload: &CheckedWorkload) -> u64
        requires { IsAt workload.now self.now }
        ensures { result ≡ pass_units workload.now (now_in workload.now self.now) }
    {
        let left = self.tick_end(workload).saturating_sub(self.progress.time);
        let work = self.least_work(workload, left);
        least_wait(&self.progress.arrivals, self.progress.time, work)
    }

    // Time goes on: by a tick where it has one unit, else until something happens.
    fn time_step(&self, workload: &CheckedWorkload) -> Option<Step>
        requires { IsAt workload.now self.now }
        ensures { result ≡ time_step workload.now (now_in workload.now self.now) }
    {
        if self.progress.ticks >= workload.ticks() {
            return None;
        }
        if workload.header().config.units == 1 {
            return Some(Step::Tick);
        }
        let units = self.pass_units(workload) as u32;
        Some(Step::Pass { units })
    }

    // The tick whose units have gone by.
    fn full_tick(&self, workload: &CheckedWorkload) -> Option<Step>
        requires { IsAt workload.now self.now }
        ensures { result ≡ full_tick workload.now (now_in workload.now self.now) }
    {
        if self.tick_end(workload) <= self.progress.time {
            Some(Step::Tick)
        } else {
            None
        }
    }

    /// The step that comes next; none at the end of the run.
    #[tactic(auto, unfolding(workload_runs::specs::Rule::next_step))]
    pub(crate) fn next_step(&self, workload: &CheckedWorkload) -> Option<Step>
        requires { IsAt workload.now self.now }
        ensures { result ≡ next_step workload.now (now_in workload.now self.now) }
    {
        if let Some(step) = quiet_work(&self.kernel) {
            return Some(step);
        }
        if let Some(step) = self.full_tick(workload) {
            return Some(step);
        }
        if let Some(step) = self.program_call(workload) {
            return Some(step);
        }
        if let Some(step) = self.interrupt_step(workload) {
            return Some(step);
        }
        self.time_step(workload)
    }
}
