//! The picture of one run, or of two.
ghost use Rattle.std.specs.Prelude.{◌≡◌, ◌≤◌, [], IfOk, None, decimal, length};
ghost use Rattle.bench_types.specs.Limits.{max_steps};
ghost use Rattle.run_comparisons.specs.declared.columns.Side.TheVariants.{Before, After};
ghost use Rattle.run_comparisons.specs.Pairs.{left_lines};
ghost use Rattle.run_pictures.specs.Limits.{max_places};
ghost use Rattle.program_io.specs.Outputs.{noted};
ghost use Rattle.shown_runs.specs.Pictures.{answer_output, columns_by, drawn_in, most_places, picture_of, picture_of_pair, picture_of_run, picture_of_runs, refused_long, row_columns};

use crate::ask::Making;
use crate::parts::{Course, Part, PartProgress};
use crate::shown::Shown;
use crate::traces::with_left;
use bench_types::{CheckedSession, Items, Step};
use program_io::Output;
use run_columns::{RunColumns, tick_columns, time_columns};
use run_comparisons::{RunPair, Side, columns_of, push_left_lines};
use run_pictures::{Axis, Extent, PlacedRun, TooLong, timeline, timelines};
use run_views::Places;
use smp_kernel::Meter;
use std::alloc::{AllocError, Global};

/// The number of places that texts tell is the limit. It does nothing: its contract is the law.
pub fn law_of_texts()
    ensures { most_places ≡ decimal max_places }
{}

fn refused_long(alloc: Global, count: u64) -> Result<Output, AllocError>
    ensures { IfOk result (λ shown. shown ≡ refused_long count) }
{
    let mut text = String::new(alloc);
    write!(text, "refused range of {count} places")?;
    text.push_str(", and a picture shows at most ")?;
    text.push_str("4000")?;
    text.push_str(": name fewer by --from and --to\n")?;
    Ok(Output::refusal(alloc, text.into_bytes()))
}

// A picture, or that it would show too many places.
fn answer_output(alloc: Global, answer: Result<String, TooLong>) -> Result<Output, AllocError>
    ensures { IfOk result (λ shown. shown ≡ answer_output answer) }
{
    match answer {
        Ok(picture) => Ok(Output::fine(alloc, picture.into_bytes())),
        Err(why) => refused_long(alloc, why.places),
    }
}

// Where the places of two runs stand: in these columns, or by the ticks or the time of both.
fn columns_by(
    alloc: Global,
    extent: Extent,
    units: u32,
    columns: RunColumns,
    before: &[Step],
    after: &[Step],
) -> Result<RunColumns, AllocError>
    requires before { length before.now ≤ max_steps }
    requires after { length after.now ≤ max_steps }
    ensures before { IfOk result (λ made. made.before
        ≡ columns_by extent.axis extent.places units columns.before before.now after.now
        before.now) }
    ensures after { IfOk result (λ made. made.after
        ≡ columns_by extent.axis extent.places units columns.after before.now after.now
        after.now) }
{
    match extent.axis {
        Axis::Places => Ok(columns),
        Axis::Ticks => tick_columns(alloc, before, after),
        Axis::Time => {
            let Places { from, to } = extent.places;
            time_columns(alloc, units, from, to, before, after)
        }
    }
}

// No columns: places stand at their numbers.
fn no_columns(alloc: Global) -> RunColumns
    ensures before { result.before ≡ [] }
    ensures after { result.after ≡ [] }
{
    RunColumns {
        before: Items::new(Vec::new(alloc)),
        after: Items::new(Vec::new(alloc)),
    }
}

// Where the places of the runs stand by their numbers or by the rows.
fn row_columns(alloc: Global, making: Making, pair: &RunPair) -> Result<RunColumns, AllocError>
    ensures before { IfOk result
        (λ columns. columns.before ≡ row_columns making Before pair.now.rows) }
    ensures after { IfOk result
        (λ columns. columns.after ≡ row_columns making After pair.now.rows) }
{
    match making {
        Making::AsWritten => Ok(no_columns(alloc)),
        Making::Settled | Making::Simulated | Making::Kept => Ok(RunColumns {
            before: Items::new(columns_of(alloc, Side::Before, pair.rows())?),
            after: Items::new(columns_of(alloc, Side::After, pair.rows())?),
        }),
    }
}

// Where the places of the runs of two sessions stand.
fn session_columns(
    alloc: Global,
    extent: Extent,
    columns: RunColumns,
    before: &CheckedSession,
    after: &CheckedSession,
) -> Result<RunColumns, AllocError>
    ensures before { IfOk result (λ made. made.before
        ≡ (drawn_in extent columns.before None before.now after.now before.now).columns) }
    ensures after { IfOk result (λ made. made.after
        ≡ (drawn_in extent columns.after None before.now after.now after.now).columns) }
{
    let units = before.header().config.units;
    columns_by(alloc, extent, units, columns, before.steps(), after.steps())
}

// The picture of a run, which stands by itself.
fn picture_of_run(
    alloc: Global,
    meter: &mut Meter,
    session: &CheckedSession,
    extent: Extent,
) -> Result<Output, AllocError>
    ensures { IfOk result (λ shown. shown ≡ picture_of_run extent session.now) }
{
    let columns = session_columns(alloc, extent, no_columns(alloc), session, session)?;
    let run = PlacedRun {
        session,
        columns: columns.before.as_slice(),
        known: None,
    };
    let answer = timeline(alloc, meter, extent, &run)?;
    answer_output(alloc, answer)
}

// The runs of two sessions, one below the other, by their places in these columns. The second is
// known up to a place.
fn picture_of_sessions(
    alloc: Global,
    meter: &mut Meter,
    extent: Extent,
    placed: RunColumns,
    known: Option<u32>,
    before: &CheckedSession,
    after: &CheckedSession,
) -> Result<Output, AllocError>
    ensures { IfOk result (λ shown. shown
        ≡ picture_of_runs extent
        (drawn_in extent placed.before None before.now after.now before.now)
        (drawn_in extent placed.after known before.now after.now after.now)) }
{
    let columns = session_columns(alloc, extent, placed, before, after)?;
    let upper = PlacedRun {
        session: before,
        columns: columns.before.as_slice(),
        known: None,
    };
    let lower = PlacedRun {
        session: after,
        columns: columns.after.as_slice(),
        known,
    };
    let answer = timelines(alloc, meter, extent, &upper, &lower)?;
    answer_output(alloc, answer)
}

// The two runs, one below the other.
fn picture_of_pair(
    alloc: Global,
    meter: &mut Meter,
    making: Making,
    pair: &RunPair,
    extent: Extent,
) -> Result<Output, AllocError>
    ensures { IfOk result (λ shown. shown ≡ picture_of_pair making extent pair.now) }
{
    let (before, after) = (pair.before().session(), pair.after().session());
    let placed = row_columns(alloc, making, pair)?;
    let known = pair.known_place();
    picture_of_sessions(alloc, meter, extent, placed, known, before, after)
}

// The picture, and the calls of both runs that were not made, unless it is a refusal.
fn noted_pair(alloc: Global, pair: &RunPair, picture: Output) -> Result<Output, AllocError>
    ensures { IfOk result
        (λ printed. printed ≡ noted picture (left_lines pair.now.before pair.now.after)) }
{
    let mut note = String::new(alloc);
    push_left_lines(&mut note, pair.before(), pair.after())?;
    Ok(picture.noted(note.into_bytes()))
}

/// The picture of the run, or of both runs, and the calls that were not made.
pub(crate) fn picture_of<P: PartProgress>(
    course: &mut Course<P>,
    alloc: Global,
    meter: &mut Meter,
    shown: &Shown,
    making: Making,
    extent: Extent,
) -> Result<Output, AllocError>
    ensures { IfOk result (λ printed. printed ≡ picture_of making extent shown.now) }
{
    course.begin(Part::Drawing);
    match shown {
        Shown::One(run) => {
            let picture = picture_of_run(alloc, meter, run.session(), extent)?;
            with_left(alloc, run, picture)
        }
        Shown::Two(pair) => {
            let picture = picture_of_pair(alloc, meter, making, pair, extent)?;
            noted_pair(alloc, pair, picture)
        }
    }
}
