//! A run as far as a picture shows it.
ghost use Rattle.std.specs.Prelude.{◌≡◌, ◌++◌, ◌+◌, ◌<◌, ◌^◌, All, IfOk, OnOk, length};
ghost use Rattle.bench_types.specs.Step.{IsCheckedStep};
ghost use Rattle.bench_model.specs.Equal.{StandsFor};
ghost use Rattle.bench_model.specs.Start.{start};
ghost use Rattle.bench_model.specs.Table.{Table};
ghost use Rattle.run_views.specs.Looks.{look_of};
ghost use Rattle.run_pictures.specs.RunLooks.{run_looks, where_shown, IsSeenRun};

use bench_types::{CheckedSession, Header, Items, Reply, Step};
use run_views::{Look, Places};
use smp_kernel::{Kernel, Meter};
use std::alloc::{AllocError, Global};

/// A step that was made.
#[derive(Clone, Copy, Debug, PartialEq, Eq)]
pub struct Made {
    pub step: Step,
    pub reply: Reply,
}

/// A run as far as a picture shows it.
#[derive(Debug, Drop)]
pub struct RunLooks {
    /// What can be seen at each place that is shown.
    pub looks: Items<Look>,
    /// The steps that are made at these places, with their replies.
    pub made: Items<Made>,
}

impl RunLooks {
    /// The looks and steps of the session.
    #[tactic(auto, unfolding(crate::specs::RunLooks::run_looks))]
    pub fn of_run(
        alloc: Global,
        meter: &mut Meter,
        places: Places,
        session: &CheckedSession,
    ) -> Result<RunLooks, AllocError>
        ensures { IfOk result
            (λ made. made ≡ run_looks places session.now.header session.now.steps) }
    {
        let header = session.header();
        let steps = session.steps();
        let Ok(mut kernel) = Kernel::start(alloc, header) else {
            return Err(AllocError);
        };
        let mut looks = Vec::new(alloc);
        let mut made = Vec::new(alloc);
        push_run(
            alloc,
            meter,
            places,
            header,
            &mut kernel,
            steps,
            &mut looks,
            &mut made,
        )?;
        Ok(RunLooks {
            looks: Items::new(looks),
            made: Items::new(made),
        })
    }
}

// What can be seen of the kernel, where the place is shown.
fn push_look(
    alloc: Global,
    looks: &mut Vec<Look>,
    places: Places,
    place: u32,
    kernel: &Kernel,
) -> Result<(), AllocError>
    ensures { OnOk result ((table : Table) → StandsFor kernel.now table
        → looks.new.items ≡ looks.old.items ++ where_shown places place (look_of table)) }
{
    if places.shows(place) {
        looks.push(Look::of_kernel(alloc, kernel)?)?;
    }
    Ok(())
}

// The step, where the place at which it is made is shown.
fn push_made(made: &mut Vec<Made>, places: Places, place: u32, step: Made) -> Result<(), AllocError>
    ensures { OnOk result
        (made.new.items ≡ made.old.items ++ where_shown places place step) }
{
    if !places.shows(place) {
        return Ok(());
    }
    made.push(step)?;
    Ok(())
}

// Makes the steps from the start of the header on.
fn push_run(
    alloc: Global,
    meter: &mut Meter,
    places: Places,
    header: &Header,
    kernel: &mut Kernel,
    steps: &[Step],
    looks: &mut Vec<Look>,
    made: &mut Vec<Made>,
) -> Result<(), AllocError>
    requires checked { All (IsCheckedStep kernel.old.settings) steps.now }
    requires started { StandsFor kernel.old (start header.now) }
    requires few { length steps.now + 1 < 2 ^ 32 }
    ensures { OnOk result
        (IsSeenRun places header.now steps.now looks.old.items looks.new.items made.old.items
        made.new.items) }
{
    for (place, step) in steps.iter().enumerate() {
        push_look(alloc, looks, places, place as u32, kernel)?;
        let reply = kernel.step(meter, step);
        push_made(made, places, place as u32, Made { step: *step, reply })?;
    }
    push_look(alloc, looks, places, steps.len() as u32, kernel)?;
    Ok(())
}
