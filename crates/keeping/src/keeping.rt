//! How far a run was made.
ghost use Rattle.std.specs.Prelude.{◌≡◌, ◌<◌, ◌≤◌, ◌+◌, ◌-◌, ◌++◌, ◌∷◌, ◌^◌, [], ℕ, All, Err, IfOk, OnErr, OnOk, Some, true, filter_map, find, length, map, min};
ghost use Rattle.std.specs.Option.{option_or};
ghost use Rattle.bench_types.specs.Header.{IsCheckedHeader};
ghost use Rattle.bench_types.specs.Limits.{max_steps};
ghost use Rattle.bench_types.specs.Step.{settings_of};
ghost use Rattle.settled_runs.specs.Settled.{is_timely, on_its_core};
ghost use Rattle.settled_runs.specs.SettleLaws.{comes_from_outside};
ghost use Rattle.kept_runs.specs.Known.{end_limit, task_at_end};
ghost use Rattle.kept_runs.specs.Rule.{Progress, after, as_waiting, cut, due_calls, is_before_time, is_within_tick, next_step, outside_step};
ghost use Rattle.kept_runs.specs.Works.{is_pass};
ghost use Rattle.keeping.specs.Progress.{caller_of, is_joined, progress_at_start, takes_time, Holds, IsComing, IsGone, IsNextIn};
ghost use Rattle.keeping.specs.Works.{IsUnmade};

use crate::comings::Comings;
use crate::elapsing::elapse;
use crate::run::KeepFault;
use crate::works::Works;
use bench_types::{Call, Header, MAX_STEPS, Step};
use kept_runs::{CallOrder, KnownLimit, LimitReason, Outside, Unmade};
use session_runs::{Run, RunMaker};
use settled_runs::WaitingCall;
use settling::quiet_work;
use smp_kernel::Meter;
use std::alloc::{AllocError, Global};
use step_times::time_of;

/// The run as far as it was made.
#[derive(Drop)]
pub(crate) struct Keeping {
    pub(crate) run: RunMaker,
    /// Which call comes first of those that could come at one time.
    pub(crate) order: CallOrder,
    pub(crate) works: Works,
    pub(crate) outside: Comings,
    /// The last step was a pass.
    pub(crate) passed: bool,
}

// A tick, an interrupt or a pass.
fn comes_from_outside(step: &Step) -> bool
    ensures { result ≡ comes_from_outside step.now }
{
    matches!(
        step,
        Step::Tick
            | Step::Interrupt { .. }
            | Step::QueueInterrupt { .. }
            | Step::ResumeInterrupt { .. }
            | Step::Pass { .. }
    )
}

// The task that begins a call; a `finish` ends one.
fn caller(step: &Step) -> Option<u32>
    ensures { result ≡ caller_of step.now }
{
    match *step {
        Step::Call {
            call: Call::Finish,
            ..
        } => None,
        Step::Call { task, .. } => Some(task),
        _ => None,
    }
}

fn is_pass(step: &Step) -> bool
    ensures { result ≡ is_pass step.now }
{
    matches!(step, Step::Pass { .. })
}

// Whether the next step from outside takes time, or there is none.
fn takes_time(units: u32, next: Option<Outside>) -> bool
    ensures { result ≡ takes_time units next }
{
    match next {
        Some(next) => time_of(units, &next.step) != 0,
        None => true,
    }
}

// Whether the next step from outside is a tick of which the last unit went by right before it.
fn is_joined(next: Option<Outside>) -> bool
    ensures { result ≡ is_joined next }
{
    match next {
        Some(next) => next.joined,
        None => false,
    }
}

impl Keeping {
    /// Before the first step.
    pub(crate) fn start(
        alloc: Global,
        order: CallOrder,
        header: &Header,
        unmade: Vec<Unmade>,
        outside: Vec<Outside>,
    ) -> Result<Self, AllocError>
        requires header { IsCheckedHeader header.now }
        requires unmade { All (IsUnmade (settings_of header.now)) unmade.items }
        requires outside { All (IsComing (settings_of header.now)) outside.items }
        requires few { length unmade.items < 2 ^ 32 }
        ensures here { IfOk result
            (λ keeping. Holds keeping
            (progress_at_start order header.now unmade.items outside.items)) }
        ensures empty { IfOk result (λ keeping. keeping.run.steps ≡ []) }
        ensures header { IfOk result (λ keeping. keeping.run.header ≡ header.now) }
    {
        let run = RunMaker::start(alloc, header.copy(alloc)?)?;
        let tasks = run.kernel().settings().tasks;
        let works = Works::start(alloc, tasks, unmade)?;
        let outside = Comings {
            steps: outside,
            come: 0,
        };
        Ok(Keeping {
            run,
            order,
            works,
            outside,
            passed: false,
        })
    }

    // Whether a unit was the last one of a tick, which is next.
    fn is_within_tick(&self) -> bool
        requires { (now : Progress) × Holds self.now now }
        ensures { (now : Progress) → Holds self.now now → result ≡ is_within_tick now }
    {
        self.passed && is_joined(self.outside.next())
    }

    // Whether time goes by next: the next step from outside takes time, or there is none.
    fn is_before_time(&self) -> bool
        requires { (now : Progress) × Holds self.now now }
        ensures { (now : Progress) → Holds self.now now → result ≡ is_before_time now }
    {
        let units = self.run.kernel().settings().units;
        takes_time(units, self.outside.next())
    }

    // The first of the due calls that is not refused with E1 to E5.
    fn due_call(&self) -> Option<Step>
        requires { (now : Progress) × Holds self.now now }
        ensures { (now : Progress) → Holds self.now now
            → result ≡ find (is_timely now.table) (map (on_its_core now.table) (due_calls now)) }
    {
        if self.is_within_tick() {
            return None;
        }
        let timed = self.is_before_time();
        self.works.next_call(self.run.kernel(), self.order, timed)
    }

    // A pass ends where a task has worked for its call, or its end.
    fn cut(&self, step: Step) -> Step
        requires { (now : Progress) × Holds self.now now }
        ensures { (now : Progress) → Holds self.now now → result ≡ cut now step }
    {
        match step {
            Step::Pass { units } => {
                let units = self.works.least_left(self.run.kernel(), units);
                Step::Pass { units }
            }
            _ => step,
        }
    }

    // The next step from outside.
    fn outside_step(&self) -> Option<Step>
        requires { (now : Progress) × Holds self.now now }
        ensures { (now : Progress) → Holds self.now now → result ≡ outside_step now }
    {
        match self.outside.next() {
            Some(next) => Some(self.cut(next.step)),
            None => None,
        }
    }

    /// The step that comes next; none at the end of the run.
    pub(crate) fn next_step(&self) -> Option<Step>
        requires { (now : Progress) × Holds self.now now }
        ensures { (now : Progress) → Holds self.now now → result ≡ next_step now }
    {
        if let Some(step) = quiet_work(self.run.kernel()) {
            return Some(step);
        }
        if let Some(step) = self.due_call() {
            return Some(step);
        }
        self.outside_step()
    }

    // The first task that is at its end; none between a tick and its last unit.
    fn task_at_end(&self) -> Option<u32>
        requires { (now : Progress) × Holds self.now now }
        ensures { (now : Progress) → Holds self.now now → result ≡ task_at_end now }
    {
        if self.is_within_tick() {
            return None;
        }
        let timed = self.is_before_time();
        self.works.task_at_end(self.run.kernel(), timed)
    }

    // The limit where the step is next: it comes from outside though a task is at its end.
    fn end_limit(&self, step: &Step) -> Option<KnownLimit>
        requires { (now : Progress) × Holds self.now now }
        ensures { (now : Progress) → Holds self.now now → result
            ≡ end_limit (self.now.run.steps ++ step.now ∷ []) (length self.now.run.steps) now }
    {
        if !comes_from_outside(step) {
            return None;
        }
        let task = self.task_at_end()?;
        Some(KnownLimit {
            place: self.run.steps().len(),
            task,
            reason: LimitReason::End,
        })
    }

    /// The first limit by an end, where the step is next: the one before, or else that of the step.
    pub(crate) fn first_end(&self, before: Option<KnownLimit>, step: &Step) -> Option<KnownLimit>
        requires { (now : Progress) × Holds self.now now }
        ensures { (now : Progress) → Holds self.now now → result ≡ option_or before
            (end_limit (self.now.run.steps ++ step.now ∷ []) (length self.now.run.steps) now) }
    {
        match before {
            Some(limit) => Some(limit),
            None => self.end_limit(step),
        }
    }

    // A step from outside comes, which the kernel has not made yet.
    fn come(&mut self, step: &Step)
        requires next { IsNextIn self.old step.now }
        requires outside { comes_from_outside step.now ≡ true }
        ensures run { self.new.run ≡ self.old.run }
        ensures gone { (now : Progress) → Holds self.old now → next_step now ≡ Some step.now
            → IsGone step.now now self.new }
    {
        let kernel = self.run.kernel();
        let time = time_of(kernel.settings().units, step);
        elapse(kernel, time, &mut self.works.worked);
        self.outside.come(step);
    }

    // What a step changes beside the kernel, which has not made it yet.
    fn go_on(&mut self, step: &Step)
        requires { IsNextIn self.old step.now }
        ensures run { self.new.run ≡ self.old.run }
        ensures gone { (now : Progress) → Holds self.old now → next_step now ≡ Some step.now
            → IsGone step.now now self.new }
    {
        if comes_from_outside(step) {
            self.come(step);
        } else if let Some(task) = caller(step) {
            self.works.make_call(task);
        }
    }

    /// The step is the next one of the run.
    pub(crate) fn make(&mut self, step: Step, meter: &mut Meter) -> Result<(), KeepFault>
        requires { IsNextIn self.old step }
        ensures made { OnOk result ((now : Progress) → Holds self.old now
            → next_step now ≡ Some step → Holds self.new (after step now)) }
        ensures steps { OnOk result (self.new.run
            ≡ record self.old.run { steps = self.old.run.steps ++ step ∷ [] }) }
        ensures full { result ≡ Err KeepFault.TooManySteps
            → max_steps ≤ length self.old.run.steps }
        ensures counted { OnOk result (meter.new ≡ min (meter.old + 1) (2 ^ 64 - 1)) }
        ensures uncounted { OnErr result (meter.new ≡ meter.old) }
    {
        if self.run.steps().len() >= MAX_STEPS as usize {
            return Err(KeepFault::TooManySteps);
        }
        self.go_on(&step);
        self.passed = is_pass(&step);
        self.run.make(step, meter)?;
        Ok(())
    }

    /// The run, which is made to its end.
    pub(crate) fn finish(self, alloc: Global) -> Result<Run, AllocError>
        requires { (now : Progress) × Holds self now }
        ensures session { IfOk result (λ run. run.session ≡ self.run) }
        ensures left { IfOk result
            (λ run. (now : Progress) → Holds self now
            → filter_map as_waiting now.unmade ≡ run.left) }
    {
        let left = self.works.left(alloc)?;
        let Keeping { run, .. } = self;
        Ok(run.finish(left))
    }
}
