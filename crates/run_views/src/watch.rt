//! A kernel that is looked at after each step.
ghost use Rattle.std.specs.Prelude.{◌≡◌, IfOk, OnOk, Ok};
ghost use Rattle.bench_types.specs.Step.{settings_of, step_check};
ghost use Rattle.bench_model.specs.Equal.{StandsFor};
ghost use Rattle.bench_model.specs.Session.{step_of};
ghost use Rattle.bench_model.specs.Start.{start};
ghost use Rattle.bench_model.specs.Table.{Table};
ghost use Rattle.run_views.specs.Changes.{changes, IsNumbered};
ghost use Rattle.run_views.specs.Looks.{look_of};
ghost use Rattle.run_views.specs.Trace.{Shows};

use crate::{Change, Look};
use bench_types::{Header, Items, Reply, Step};
use smp_kernel::{Kernel, Meter, StartFault};
use std::alloc::{AllocError, Global};

/// What was seen before a step, and what it did.
#[derive(Drop)]
pub(crate) struct Seen {
    pub(crate) before: Look,
    pub(crate) reply: Reply,
    pub(crate) changes: Items<Change>,
}

// All that changed in the kernel since this was seen of it.
fn changes_since(alloc: Global, before: &Look, kernel: &Kernel) -> Result<Vec<Change>, AllocError>
    requires { IsNumbered before.now }
    ensures { IfOk result (λ found. (table : Table) → StandsFor kernel.now table
        → found.items ≡ changes before.now (look_of table)) }
{
    let look = Look::of_kernel(alloc, kernel)?;
    before.changes_to(alloc, &look)
}

impl Seen {
    /// Makes the step, and looks at the kernel before it and after it.
    pub(crate) fn of_step(
        alloc: Global,
        meter: &mut Meter,
        kernel: &mut Kernel,
        step: &Step,
    ) -> Result<Seen, AllocError>
        requires { step_check kernel.old.settings step.now ≡ Ok tt }
        ensures before { IfOk result
            (λ seen. (table : Table) → StandsFor kernel.old table → seen.before ≡ look_of table) }
        ensures numbered { IfOk result (λ seen. IsNumbered seen.before) }
        ensures reply { IfOk result
            (λ seen. (table : Table) → StandsFor kernel.old table
            → seen.reply ≡ (step_of step.now table).0) }
        ensures changes { IfOk result
            (λ seen. (table : Table) → StandsFor kernel.old table
            → seen.changes ≡ changes (look_of table) (look_of (step_of step.now table).1)) }
        ensures state { OnOk result ((table : Table) → StandsFor kernel.old table
            → StandsFor kernel.new (step_of step.now table).1) }
        ensures settings { OnOk result (kernel.new.settings ≡ kernel.old.settings) }
    {
        let before = Look::of_kernel(alloc, kernel)?;
        let reply = kernel.step(meter, step);
        let changes = Items::new(changes_since(alloc, &before, kernel)?);
        Ok(Seen {
            before,
            reply,
            changes,
        })
    }
}

/// A kernel with what can be seen of it.
#[derive(Drop)]
pub(crate) struct Watch {
    pub(crate) kernel: Kernel,
    pub(crate) look: Look,
}

impl Watch {
    /// A kernel at the start of the header.
    pub(crate) fn start(alloc: Global, header: &Header) -> Result<Watch, StartFault>
        ensures started { IfOk result (λ watch. StandsFor watch.kernel (start header.now)) }
        ensures settings { IfOk result
            (λ watch. watch.kernel.settings ≡ settings_of header.now) }
        ensures shows { IfOk result (λ watch. Shows watch.kernel watch.look) }
    {
        let kernel = Kernel::start(alloc, header)?;
        let look = Look::of_kernel(alloc, &kernel)?;
        Ok(Watch { kernel, look })
    }

    /// Makes the step, and gives what was seen before, its reply, and all that it changed.
    pub(crate) fn step(
        &mut self,
        alloc: Global,
        meter: &mut Meter,
        step: &Step,
    ) -> Result<Seen, AllocError>
        requires checked { step_check self.old.kernel.settings step.now ≡ Ok tt }
        requires shows { Shows self.old.kernel self.old.look }
        ensures before { IfOk result (λ seen. seen.before ≡ self.old.look) }
        ensures reply { IfOk result
            (λ seen. (table : Table) → StandsFor self.old.kernel table
            → seen.reply ≡ (step_of step.now table).0) }
        ensures changes { IfOk result
            (λ seen. (table : Table) → StandsFor self.old.kernel table
            → seen.changes ≡ changes (look_of table) (look_of (step_of step.now table).1)) }
        ensures state { (table : Table) → StandsFor self.old.kernel table
            → StandsFor self.new.kernel (step_of step.now table).1 }
        ensures shows { OnOk result (Shows self.new.kernel self.new.look) }
        ensures settings { self.new.kernel.settings ≡ self.old.kernel.settings }
    {
        let reply = self.kernel.step(meter, step);
        let look = Look::of_kernel(alloc, &self.kernel)?;
        let changes = self.look.changes_to(alloc, &look)?;
        let before = std::mem::replace(&mut self.look, look);
        Ok(Seen {
            before,
            reply,
            changes: Items::new(changes),
        })
    }
}
