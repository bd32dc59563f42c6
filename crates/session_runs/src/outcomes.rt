//! What steps led to.
ghost use Rattle.std.specs.Prelude.{◌≡◌, ◌+◌, ◌-◌, ◌<◌, ◌≤◌, ◌^◌, ◌++◌, ◌∷◌, [], List, Ok, length, min, IfOk, OnOk};
ghost use Rattle.std.specs.Vec.{vec_capacity, vec_len};
ghost use Rattle.bench_types.specs.declared.header.Header.{Header};
ghost use Rattle.bench_types.specs.declared.step.Step.{Step};
ghost use Rattle.bench_types.specs.Step.{settings_of, step_check};
ghost use Rattle.bench_model.specs.Control.{running};
ghost use Rattle.bench_model.specs.Equal.{StandsFor};
ghost use Rattle.bench_model.specs.Lists.{View};
ghost use Rattle.bench_model.specs.Start.{start};
ghost use Rattle.session_runs.specs.Made.{IsMade, MayGoOn};

use bench_types::{Reply, Step};
use smp_kernel::{Kernel, Meter};
use std::alloc::{AllocError, Global};
use tallies::Tallies;

/// What a step led to.
#[derive(Clone, Copy, Debug)]
pub(crate) struct Outcome {
    pub(crate) reply: Reply,
    /// The current task of the core that made the step, after it: a step changes that of no other.
    pub(crate) current: u32,
}

/// What the steps from the start of a header led to.
#[derive(Debug)]
pub(crate) struct Outcomes {
    /// The tasks that run before the first step, core 0 first.
    pub(crate) first: Vec<u32>,
    /// What each step led to.
    pub(crate) each: Vec<Outcome>,
    /// How the tasks fared.
    pub(crate) tallies: Tallies,
}

// Written out, so that whoever drops one has one call to prove, and not one for each list in it.
impl Drop for Outcomes {
    fn drop(self) {
        let Outcomes {
            first: _,
            each: _,
            tallies: _,
        } = self;
    }
}

// The current tasks of the kernel, core 0 first.
fn first_row(alloc: Global, kernel: &Kernel) -> Result<Vec<u32>, AllocError>
    ensures { IfOk result (λ row. row.items ≡ running kernel.now.control) }
{
    let cores = kernel.settings().cores;
    let mut row = Vec::with_capacity(alloc, cores as usize)?;
    for core in 0..cores {
        row.push_reserved(kernel.running(core));
    }
    Ok(row)
}

impl Outcomes {
    /// Before any step of the kernel, with room for what so many lead to.
    pub(crate) fn begin(alloc: Global, kernel: &Kernel, room: usize) -> Result<Outcomes, AllocError>
        ensures made { IfOk result (λ outcomes. (header : Header)
            → StandsFor kernel.now (start header) → kernel.now.settings ≡ settings_of header
            → IsMade header [] kernel.now outcomes) }
        ensures len { IfOk result (λ outcomes. vec_len outcomes.each ≡ 0) }
        ensures room { IfOk result (λ outcomes. room ≤ vec_capacity outcomes.each) }
    {
        let first = first_row(alloc, kernel)?;
        let each = Vec::with_capacity(alloc, room)?;
        let tallies = Tallies::begin(alloc, kernel)?;
        Ok(Outcomes {
            first,
            each,
            tallies,
        })
    }

    /// Makes room for what one step more leads to.
    pub(crate) fn reserve_next(&mut self) -> Result<(), AllocError>
        ensures made { (header : Header) (steps : List Step) (kernel : View)
            → IsMade header steps kernel self.old → IsMade header steps kernel self.new }
        ensures room { OnOk result (vec_len self.new.each < vec_capacity self.new.each) }
    {
        self.each.reserve(1)
    }

    /// Makes the step on the kernel, and adds what it leads to. There is room for it.
    pub(crate) fn make_next(&mut self, kernel: &mut Kernel, step: &Step, meter: &mut Meter)
        requires way { MayGoOn kernel.old self.old }
        requires checked { step_check kernel.old.settings step.now ≡ Ok tt }
        requires room { vec_len self.old.each < vec_capacity self.old.each }
        ensures made { (header : Header) (steps : List Step)
            → IsMade header steps kernel.old self.old
            → IsMade header (steps ++ step.now ∷ []) kernel.new self.new }
        ensures len { vec_len self.new.each ≡ vec_len self.old.each + 1 }
        ensures room { vec_capacity self.new.each ≡ vec_capacity self.old.each }
        ensures settings { kernel.new.settings ≡ kernel.old.settings }
        ensures meter { meter.new ≡ min (meter.old + 1) (2 ^ 64 - 1) }
    {
        let reply = self.tallies.make_next(kernel, meter, step);
        let current = kernel.running(step.core());
        self.each.push_reserved(Outcome { reply, current });
    }
}
