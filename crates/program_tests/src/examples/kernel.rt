//! A kernel is stepped by hand.
ghost use Rattle.std.specs.Prelude.{◌≡◌, ◌<◌, Ok};
ghost use Rattle.bench_types.specs.Step.{settings_of, step_check};
ghost use Rattle.bench_model.specs.Control.{current};
ghost use Rattle.bench_model.specs.Equal.{StandsFor};
ghost use Rattle.bench_model.specs.Looks.{note_look};
ghost use Rattle.bench_model.specs.Session.{step_of};
ghost use Rattle.bench_model.specs.Table.{Table};

use crate::examples::texts::{SESSION, session_of};
use bench_types::{Header, Reply, Step};
use smp_kernel::{Kernel, Meter};
use std::process::Abort;
use std::test::Fail;

/// Makes a step: the reply and the state are those of the rule.
fn stepped(kernel: &mut Kernel, meter: &mut Meter, step: &Step) -> Reply
    requires { step_check kernel.old.settings step.now ≡ Ok tt }
    ensures reply { (table : Table) → StandsFor kernel.old table
        → result ≡ (step_of step.now table).0 }
    ensures state { (table : Table) → StandsFor kernel.old table
        → StandsFor kernel.new (step_of step.now table).1 }
    ensures settings { kernel.new.settings ≡ kernel.old.settings }
{
    kernel.step(meter, step)
}

/// The task that runs on the core.
fn running(kernel: &Kernel, core: u32) -> u32
    requires { core < kernel.now.settings.cores }
    ensures { (table : Table) → StandsFor kernel.now table → result ≡ current table.control core }
{
    kernel.running(core)
}

/// The task's notification value at the index.
fn note_value(kernel: &Kernel, task: u32, index: u32) -> u32
    requires task { task < kernel.now.settings.tasks }
    requires index { index < kernel.now.settings.notes }
    ensures { (table : Table) → StandsFor kernel.now table
        → result ≡ (note_look table task index).value }
{
    let (value, _state) = kernel.note_look(task, index);
    value
}

fn check_steps(
    rt: &impl Abort,
    kernel: &mut Kernel,
    meter: &mut Meter,
    header: &Header,
    steps: &[Step],
)
    requires { kernel.old.settings ≡ settings_of header.now }
{
    for step in steps {
        assert_eq!(rt; step.check(header), Ok(()));
        let reply = stepped(kernel, meter, step);
        assert!(rt; !matches!(reply, Reply::Refused(_)));
    }
}

#[test]
fn a_kernel_is_stepped(rt: HostRuntime) -> Result<(), Fail> {
    let (header, steps) = session_of(rt.alloc(), SESSION)?;
    let mut kernel = Kernel::start(rt.alloc(), &header)?;
    let mut meter = Meter::new(&rt);
    check_steps(&rt, &mut kernel, &mut meter, &header, steps.as_slice());
    assert_eq!(rt; meter.count(), 4);
    let settings = kernel.settings();
    assert!(rt; settings.cores == 2 && settings.tasks == 4 && settings.notes == 1);
    // The idle tasks are 0 and 1, A is 2.
    assert_eq!(rt; running(&kernel, 0), 2);
    // Nobody notified it at index 0, the only one.
    assert_eq!(rt; note_value(&kernel, 2, 0), 0);
    Ok(())
}
