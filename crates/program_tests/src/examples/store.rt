//! A store is opened, edited and asked.
ghost use Rattle.std.specs.Prelude.{◌≡◌, string_bytes, IfOk};
ghost use Rattle.bench_model.specs.Tally.{tallies};
ghost use Rattle.tallies.specs.Lines.{tally_lines};

use crate::examples::texts::{SESSION, session_of};
use bench_types::{Edit, Refusal, Reply};
use session_store::Store;
use smp_kernel::Meter;
use std::alloc::{AllocError, Global};
use std::process::Abort;
use std::test::Fail;

/// Opens a store of the session, which replays it, with a checkpoint every two steps.
fn opened(rt: &HostRuntime, meter: &mut Meter) -> Result<Store, Fail> {
    let (header, steps) = session_of(rt.alloc(), SESSION)?;
    Ok(Store::open(rt.alloc(), header, steps, 2, meter)?)
}

/// The tasks that run at the place, core 0 first.
fn check_row(
    rt: &impl Abort,
    alloc: Global,
    store: &Store,
    place: u32,
    tasks: &[u32],
) -> Result<(), AllocError> {
    match store.row(alloc, place)? {
        Some(row) => assert_eq!(rt; row.as_slice(), tasks),
        None => assert!(rt; false),
    }
    Ok(())
}

#[test]
fn a_store_is_edited(rt: HostRuntime) -> Result<(), Fail> {
    let mut meter = Meter::new(&rt);
    let mut store = opened(&rt, &mut meter)?;
    check_row(&rt, rt.alloc(), &store, 4, &[2, 3])?;
    // Without the tick A still waits, so its core is not due, and the idle task runs on.
    let outcome = store.apply(rt.alloc(), Edit::Remove { at: 2 }, &mut meter)?;
    assert_eq!(rt; (outcome.from, outcome.met, outcome.replayed), (2, 3, 1));
    assert_eq!(rt; store.reply(2), Some(Reply::Refused(Refusal::NotDue)));
    check_row(&rt, rt.alloc(), &store, 3, &[0, 3])?;
    Ok(())
}

/// How each task fared over the whole session as it stands now, a line each.
fn report(alloc: Global, store: &Store) -> Result<String, AllocError>
    ensures { let session = store.now.session in IfOk result
        (λ text. string_bytes text
        ≡ tally_lines session.header 0 (tallies session.header session.steps)) }
{
    store.tallies(alloc)?.text(alloc, store.header())
}

/// The idle task of core 0 ran while A waited, and that of core 1 found no core.
const REPORT: &str = "\
task IDLE0 run 1 0 wait 0 inverted 0 in 1 displaced 0 timeouts 0 top 0
task IDLE1 run 0 0 wait 1 inverted 0 in 0 displaced 0 timeouts 0 top 0
task A run 0 0 wait 0 inverted 0 in 1 displaced 0 timeouts 0 top 2
task B run 0 1 wait 0 inverted 0 in 0 displaced 0 timeouts 0 top 1
";

#[test]
fn a_store_tells_how_tasks_fared(rt: HostRuntime) -> Result<(), Fail> {
    let mut meter = Meter::new(&rt);
    let store = opened(&rt, &mut meter)?;
    let text = report(rt.alloc(), &store)?;
    assert_eq!(rt; text.as_str(), REPORT);
    Ok(())
}
