//! The picture of a run, or of two runs one above the other.
ghost use Rattle.std.specs.Prelude.{◌≡◌, ℕ, ◌++◌, ◌+◌, ◌*◌, ◌<◌, ◌≤◌, ◌^◌, IfOk, OnOk, flat_map, length, map, min, string_bytes};
ghost use Rattle.list_orders.specs.Search.{numbers};
ghost use Rattle.bench_types.specs.Limits.{max_cores, max_queues, max_tasks};
ghost use Rattle.bench_types.specs.Session.{IsCheckedSession};
ghost use Rattle.run_pictures.specs.CoreBands.{core_row};
ghost use Rattle.run_pictures.specs.Frame.{column_of};
ghost use Rattle.run_pictures.specs.Limits.{max_places};
ghost use Rattle.run_pictures.specs.Drawn.{drawn};
ghost use Rattle.run_pictures.specs.Picture.{bands_text, both_text, core_rows, count_of, count_of_both, drawn_run, drawn_runs, end_of, frame_of, headed_text, heading_text, height_text, least_width, least_text, left_of, legend_text, marks_text, mutexes_down, opening_text, panel_height, panel_text, picture_text, pictures_text, queues_down, run_height, shown_at, size_text, task_rows, tasks_down, time_text, unknown_text, width_of, width_text, Answers};
ghost use Rattle.run_pictures.specs.QueueLines.{queues_of};
ghost use Rattle.run_pictures.specs.Shown.{shown, IsNumbered};
ghost use Rattle.run_pictures.specs.Theorem.{IsTiled};

use crate::axis::{push_axis, push_rules};
use crate::core_bands::push_core_row;
use crate::frame::{
    Axis, CORE_ROW, Frame, MUTEX_ROW, QUEUE_ROW, Scale, TASK_ROW, column_of, scale_for,
};
use crate::marks::push_steps;
use crate::mutex_lines::{push_taken_rows, taken_mutexes};
use crate::panel::Panel;
use crate::pose::detail_for;
use crate::queue_lines::{changed_queues, push_changed_rows};
use crate::row_stretches::all_row_stretches;
use crate::run_looks::RunLooks;
use crate::signs::{Sign, legend_height, push_entries, signs_of, signs_of_both};
use crate::style::{OPENING, STYLE};
use crate::task_bands::push_task_row;
use crate::time_row::{push_time_row, time_height};
use crate::unknown::{push_pale, unknown_in};
use bench_types::{CheckedSession, Header, Items};
use run_columns::times_of;
use run_views::{Look, Places};
use smp_kernel::Meter;
use std::alloc::{AllocError, Global};

/// How many places a picture shows at most.
pub const MAX_PLACES: u64 = 4000;

/// The limit of the code is that which contracts name. It does nothing: its contract is the law.
pub fn law_of_places()
    ensures { MAX_PLACES ≡ max_places }
{}

/// What a picture shows of a run, and by which axis.
#[derive(Clone, Copy, Debug, PartialEq, Eq)]
pub struct Extent {
    pub places: Places,
    pub axis: Axis,
}

/// A picture would show so many places.
#[derive(Clone, Copy, Debug, PartialEq, Eq)]
pub struct TooLong {
    pub places: u64,
}

// How far below the top of a run the rows of its tasks begin.
fn tasks_down(header: &Header) -> u64
    requires { header.now.config.cores ≤ max_cores }
    ensures value { result ≡ tasks_down header.now }
    ensures few { result < 2 ^ 20 }
{
    44 + CORE_ROW * u64::from(header.config.cores)
}

fn mutexes_down(header: &Header) -> u64
    requires cores { header.now.config.cores ≤ max_cores }
    requires tasks { length header.now.tasks ≤ max_tasks }
    ensures value { result ≡ mutexes_down header.now }
    ensures few { result < 2 ^ 30 }
{
    tasks_down(header) + TASK_ROW * header.tasks.as_slice().len() as u64
}

fn queues_down(alloc: Global, header: &Header, looks: &[Look]) -> Result<u64, AllocError>
    requires cores { header.now.config.cores ≤ max_cores }
    requires tasks { length header.now.tasks ≤ max_tasks }
    ensures value { IfOk result (λ down. down ≡ queues_down header.now looks.now) }
    ensures few { IfOk result (λ down. down < 2 ^ 37) }
{
    let mutexes = taken_mutexes(alloc, header, looks)?;
    Ok(mutexes_down(header) + MUTEX_ROW * mutexes.len() as u64)
}

fn panel_height(alloc: Global, header: &Header, looks: &[Look]) -> Result<u64, AllocError>
    requires cores { header.now.config.cores ≤ max_cores }
    requires tasks { length header.now.tasks ≤ max_tasks }
    requires queues { queues_of header.now ≤ max_queues }
    ensures value { IfOk result (λ height. height ≡ panel_height header.now looks.now) }
    ensures few { IfOk result (λ height. height + 120 < 2 ^ 38) }
{
    let queues = changed_queues(alloc, header, looks)?;
    Ok(queues_down(alloc, header, looks)? + QUEUE_ROW * queues.len() as u64)
}

fn run_height(alloc: Global, header: &Header, looks: &[Look]) -> Result<u64, AllocError>
    requires cores { header.now.config.cores ≤ max_cores }
    requires tasks { length header.now.tasks ≤ max_tasks }
    requires queues { queues_of header.now ≤ max_queues }
    ensures value { IfOk result (λ height. height ≡ run_height header.now looks.now) }
    ensures few { IfOk result (λ height. height + 80 < 2 ^ 38) }
{
    Ok(time_height(header) + panel_height(alloc, header, looks)?)
}

fn width_of(scale: Scale, count: u64) -> u64
    requires { count ≤ 2 ^ 32 }
    ensures { result ≡ width_of scale count }
{
    (200 + scale.pixels(count)).max(860)
}

fn least_width(width: u64) -> u64
    requires { width < 2 ^ 40 }
    ensures { result ≡ least_width width }
{
    width * 3 / 4
}

#[tactic(auto, unfolding(crate::specs::Picture::least_text))]
fn push_least(text: &mut String, least: u64) -> Result<(), AllocError>
    ensures { OnOk result (string_bytes text.new ≡ string_bytes text.old ++ least_text least) }
{
    write!(
        text,
        " width='100%' style='min-width:{least}px;height:auto'"
    )
}

#[tactic(auto, unfolding(crate::specs::Picture::width_text))]
fn push_width(text: &mut String, width: u64) -> Result<(), AllocError>
    ensures { OnOk result (string_bytes text.new ≡ string_bytes text.old ++ width_text width) }
{
    write!(text, " viewBox='0 0 {width}")
}

#[tactic(auto, unfolding(crate::specs::Picture::height_text))]
fn push_height(text: &mut String, height: u64) -> Result<(), AllocError>
    ensures { OnOk result (string_bytes text.new ≡ string_bytes text.old ++ height_text height) }
{
    write!(text, " {height}'>\n")
}

#[tactic(auto, unfolding(crate::specs::Picture::size_text))]
fn push_size(text: &mut String, width: u64, height: u64) -> Result<(), AllocError>
    requires { width < 2 ^ 40 }
    ensures { OnOk result
        (string_bytes text.new ≡ string_bytes text.old ++ size_text width height) }
{
    push_least(text, least_width(width))?;
    push_width(text, width)?;
    push_height(text, height)
}

#[tactic(auto, unfolding(crate::specs::Picture::opening_text))]
fn push_opening(text: &mut String, width: u64, height: u64) -> Result<(), AllocError>
    requires { width < 2 ^ 40 }
    ensures { OnOk result
        (string_bytes text.new ≡ string_bytes text.old ++ opening_text width height) }
{
    text.push_str(OPENING)?;
    push_size(text, width, height)?;
    text.push_str(STYLE)
}

#[tactic(auto, unfolding(crate::specs::Picture::legend_text))]
fn push_legend(text: &mut String, y: u64, signs: &[Sign]) -> Result<(), AllocError>
    requires y { y < 2 ^ 40 }
    requires few { length signs.now < 2 ^ 32 }
    ensures { OnOk result
        (string_bytes text.new ≡ string_bytes text.old ++ legend_text y signs.now) }
{
    push_entries(text, y, signs)?;
    text.push_str("</svg>\n")
}

fn push_heading(text: &mut String, y: u64, heading: &str) -> Result<(), AllocError>
    ensures { OnOk result
        (string_bytes text.new ≡ string_bytes text.old ++ heading_text y heading.now) }
{
    write!(text, "<text class='k' x='8' y='{y}'>{heading}</text>\n")
}

fn push_cores(
    alloc: Global,
    text: &mut String,
    header: &Header,
    frame: &Frame,
    y: u64,
    looks: &[Look],
) -> Result<(), AllocError>
    requires y { y < 2 ^ 39 }
    requires few { frame.now.first + length looks.now ≤ 2 ^ 32 }
    ensures { OnOk result
        (string_bytes text.new
        ≡ string_bytes text.old ++ core_rows header.now frame.now y looks.now) }
{
    for core in 0..header.config.cores {
        push_core_row(
            alloc,
            text,
            header,
            frame,
            y + CORE_ROW * core as u64,
            looks,
            core,
        )?;
    }
    Ok(())
}

// The rows of the user tasks.
fn push_tasks(
    alloc: Global,
    text: &mut String,
    header: &Header,
    frame: &Frame,
    y: u64,
    looks: &[Look],
) -> Result<(), AllocError>
    requires y { y < 2 ^ 39 }
    requires few { frame.now.first + length looks.now ≤ 2 ^ 32 }
    requires looks { length looks.now < 2 ^ 32 }
    requires cores { header.now.config.cores ≤ max_cores }
    requires tasks { length header.now.tasks ≤ max_tasks }
    ensures { OnOk result
        (string_bytes text.new
        ≡ string_bytes text.old ++ task_rows header.now frame.now y looks.now) }
{
    let cores = header.config.cores;
    let detail = detail_for(alloc, header, frame.first, looks)?;
    let rows = all_row_stretches(alloc, header, frame.first, looks)?;
    for user in 0..header.tasks.as_slice().len() as u32 {
        let below = y + TASK_ROW * user as u64;
        push_task_row(
            alloc,
            text,
            header,
            frame,
            below,
            looks,
            detail,
            cores + user,
            &rows[user as usize],
        )?;
    }
    Ok(())
}

// The rows of one run but that of time, from the top on.
#[tactic(auto, unfolding(crate::specs::Picture::bands_text))]
fn push_bands(
    alloc: Global,
    text: &mut String,
    panel: &Panel<'_>,
    top: u64,
) -> Result<(), AllocError>
    requires top { top < 2 ^ 38 }
    requires numbered { IsNumbered (shown panel.now) }
    ensures { OnOk result
        (string_bytes text.new ≡ string_bytes text.old ++ bands_text (shown panel.now) top) }
{
    let header = panel.header;
    let frame = &panel.frame;
    let looks = panel.run_looks.looks.as_slice();
    push_axis(alloc, text, frame, top, looks)?;
    push_cores(alloc, text, header, frame, top + 36, looks)?;
    let tasks = top + tasks_down(header);
    push_tasks(alloc, text, header, frame, tasks, looks)?;
    let down = top + mutexes_down(header);
    push_taken_rows(alloc, text, header, frame, down, looks)?;
    let low = top + queues_down(alloc, header, looks)?;
    push_changed_rows(alloc, text, header, frame, low, looks)
}

// What the steps of one run are, and where its ticks begin.
#[tactic(auto, unfolding(crate::specs::Picture::marks_text))]
fn push_marks(
    alloc: Global,
    text: &mut String,
    panel: &Panel<'_>,
    top: u64,
) -> Result<(), AllocError>
    requires top { top < 2 ^ 38 }
    requires numbered { IsNumbered (shown panel.now) }
    ensures { OnOk result
        (string_bytes text.new ≡ string_bytes text.old ++ marks_text (shown panel.now) top) }
{
    let header = panel.header;
    let frame = &panel.frame;
    let looks = panel.run_looks.looks.as_slice();
    push_steps(
        alloc,
        text,
        header,
        frame,
        top,
        panel.run_looks.made.as_slice(),
        looks.len() as u32,
    )?;
    let bottom = top + panel_height(alloc, header, looks)?;
    push_rules(alloc, text, frame, top, bottom, looks)
}

// The row of time, from the top on.
#[tactic(auto, unfolding(crate::specs::Picture::time_text))]
fn push_time(
    alloc: Global,
    text: &mut String,
    panel: &Panel<'_>,
    top: u64,
) -> Result<(), AllocError>
    requires top { top < 2 ^ 38 }
    requires numbered { IsNumbered (shown panel.now) }
    ensures { OnOk result
        (string_bytes text.new ≡ string_bytes text.old ++ time_text (shown panel.now) top) }
{
    push_time_row(
        alloc,
        text,
        panel.header,
        &panel.frame,
        top,
        panel.times.as_slice(),
        panel.run_looks.looks.as_slice().len() as u32,
    )
}

// Where it is not known what its tasks do, over all its rows.
#[tactic(auto, unfolding(crate::specs::Picture::unknown_text))]
fn push_unknown(
    alloc: Global,
    text: &mut String,
    panel: &Panel<'_>,
    top: u64,
) -> Result<(), AllocError>
    requires numbered { IsNumbered (shown panel.now) }
    ensures { OnOk result
        (string_bytes text.new ≡ string_bytes text.old ++ unknown_text (shown panel.now) top) }
{
    match unknown_in(panel) {
        Some(place) => {
            let looks = panel.run_looks.looks.as_slice();
            let height = run_height(alloc, panel.header, looks)?;
            push_pale(text, &panel.frame, looks.len() as u32, place, top, height)
        }
        None => Ok(()),
    }
}

// One run, from the top on.
#[tactic(auto, unfolding(crate::specs::Picture::panel_text))]
fn push_panel(
    alloc: Global,
    text: &mut String,
    panel: &Panel<'_>,
    top: u64,
) -> Result<(), AllocError>
    requires top { top + 28 < 2 ^ 38 }
    requires numbered { IsNumbered (shown panel.now) }
    ensures { OnOk result
        (string_bytes text.new ≡ string_bytes text.old ++ panel_text (shown panel.now) top) }
{
    push_time(alloc, text, panel, top)?;
    let below = top + time_height(panel.header);
    push_bands(alloc, text, panel, below)?;
    push_marks(alloc, text, panel, below)?;
    push_unknown(alloc, text, panel, top)
}

// The picture of a run that is so many columns wide.
#[tactic(auto, unfolding(crate::specs::Picture::drawn_run))]
fn draw_panel(alloc: Global, panel: &Panel<'_>, count: u64) -> Result<String, AllocError>
    requires numbered { IsNumbered (shown panel.now) }
    requires count { count ≤ 2 ^ 32 }
    ensures { IfOk result (λ text. string_bytes text ≡ drawn_run count (shown panel.now)) }
{
    let height = run_height(alloc, panel.header, panel.run_looks.looks.as_slice())?;
    let signs = signs_of(alloc, panel)?;
    let width = width_of(panel.frame.scale, count);
    let mut text = String::new(alloc);
    push_opening(&mut text, width, height + legend_height(signs.len()) + 20)?;
    push_panel(alloc, &mut text, panel, 4)?;
    push_legend(&mut text, height + 16, signs.as_slice())?;
    Ok(text)
}

/// A session whose run is drawn, and the columns at which its places begin. A place for which there
/// is none stands at the column of its number.
#[derive(Clone, Copy)]
pub struct PlacedRun<'a> {
    pub session: &'a CheckedSession,
    pub columns: &'a [u32],
    /// From which place on it is not known what tasks do; none where all of it is known.
    pub known: Option<u32>,
}

fn first_of(places: Places, run: &PlacedRun<'_>) -> u64
    ensures value { result ≡ column_of run.now.columns.now places.from }
    ensures few { result ≤ 2 ^ 32 }
{
    column_of(run.columns, u64::from(places.from))
}

fn left_of(places: Places, before: &PlacedRun<'_>, after: &PlacedRun<'_>) -> u64
    ensures { result ≡ left_of places (drawn before.now) (drawn after.now) }
{
    first_of(places, before).min(first_of(places, after))
}

fn end_of(places: Places, run: &PlacedRun<'_>) -> u64
    ensures value { result ≡ end_of places (drawn run.now) }
    ensures few { result ≤ 2 ^ 32 }
    ensures checked { IsCheckedSession run.now.session.now }
{
    let last = u64::from(places.to).min(run.session.steps().len() as u64);
    column_of(run.columns, last + 1)
}

fn count_of(places: Places, run: &PlacedRun<'_>) -> u64
    ensures value { result ≡ count_of places (drawn run.now) }
    ensures few { result ≤ 2 ^ 32 }
    ensures checked { IsCheckedSession run.now.session.now }
{
    end_of(places, run).saturating_sub(first_of(places, run))
}

fn count_of_both(places: Places, before: &PlacedRun<'_>, after: &PlacedRun<'_>) -> u64
    ensures value { result ≡ count_of_both places (drawn before.now) (drawn after.now) }
    ensures few { result ≤ 2 ^ 32 }
    ensures before { IsCheckedSession before.now.session.now }
    ensures after { IsCheckedSession after.now.session.now }
{
    let end = end_of(places, before).max(end_of(places, after));
    end.saturating_sub(left_of(places, before, after))
}

fn frame_of(
    alloc: Global,
    places: Places,
    axis: Axis,
    scale: Scale,
    left: u64,
    run: &PlacedRun<'_>,
) -> Result<Frame, AllocError>
    ensures { IfOk result (λ frame. frame ≡ frame_of places axis scale left (drawn run.now)) }
{
    let mut columns = Vec::with_capacity(alloc, run.columns.len())?;
    columns.extend_from_slice(run.columns)?;
    Ok(Frame {
        first: places.from,
        scale,
        left,
        columns: Items::new(columns),
        axis,
    })
}

// The run as it is drawn at these places.
fn panel_of<'a>(
    alloc: Global,
    meter: &mut Meter,
    places: Places,
    axis: Axis,
    scale: Scale,
    left: u64,
    run: &PlacedRun<'a>,
) -> Result<Panel<'a>, AllocError>
    ensures panel { IfOk result
        (λ panel. shown panel ≡ shown_at places axis scale left (drawn run.now)) }
    ensures numbered { IfOk result (λ panel. IsNumbered (shown panel)) }
{
    let frame = frame_of(alloc, places, axis, scale, left, run)?;
    let run_looks = RunLooks::of_run(alloc, meter, places, run.session)?;
    let header = run.session.header();
    let times = times_of(alloc, header.config.units, run.session.steps())?;
    Ok(Panel {
        header,
        frame,
        run_looks,
        times: Items::new(times),
        known: run.known,
    })
}

#[tactic(auto, unfolding(crate::specs::Picture::picture_text))]
fn draw_run(
    alloc: Global,
    meter: &mut Meter,
    places: Places,
    axis: Axis,
    run: &PlacedRun<'_>,
    count: u64,
) -> Result<String, AllocError>
    requires count { count ≡ count_of places (drawn run.now) }
    requires few { count ≤ 2 ^ 32 }
    ensures { IfOk result (λ text. string_bytes text ≡ picture_text places axis (drawn run.now)) }
{
    let left = first_of(places, run);
    let panel = panel_of(alloc, meter, places, axis, scale_for(count), left, run)?;
    draw_panel(alloc, &panel, count)
}

/// The picture of a checked session's run, at the places that are shown. `TooLong` where more
/// columns are shown than `MAX_PLACES`.
pub fn timeline(
    alloc: Global,
    meter: &mut Meter,
    extent: Extent,
    run: &PlacedRun<'_>,
) -> Result<Result<String, TooLong>, AllocError>
    ensures picture { IfOk result (Answers (count_of extent.places (drawn run.now))
        (picture_text extent.places extent.axis (drawn run.now))) }
    // The stretches that are drawn tile what the replay has.
    ensures tiled { IsTiled extent.places run.now.session.now.header run.now.session.now.steps }
{
    let Extent { places, axis } = extent;
    let count = count_of(places, run);
    if count > MAX_PLACES {
        return Ok(Err(TooLong { places: count }));
    }
    let text = draw_run(alloc, meter, places, axis, run, count)?;
    Ok(Ok(text))
}

// A run below its heading.
#[tactic(auto, unfolding(crate::specs::Picture::headed_text))]
fn push_headed(
    alloc: Global,
    text: &mut String,
    top: u64,
    heading: &str,
    panel: &Panel<'_>,
) -> Result<(), AllocError>
    requires top { top + 46 < 2 ^ 38 }
    requires numbered { IsNumbered (shown panel.now) }
    ensures { OnOk result
        (string_bytes text.new
        ≡ string_bytes text.old ++ headed_text top heading.now (shown panel.now)) }
{
    push_heading(text, top + 12, heading)?;
    push_panel(alloc, text, panel, top + 18)
}

// The two runs, the one above the other.
#[tactic(auto, unfolding(crate::specs::Picture::both_text))]
fn push_both(
    alloc: Global,
    text: &mut String,
    before: &Panel<'_>,
    after: &Panel<'_>,
    height: u64,
) -> Result<(), AllocError>
    requires before { IsNumbered (shown before.now) }
    requires after { IsNumbered (shown after.now) }
    requires height { height + 78 < 2 ^ 38 }
    ensures { OnOk result
        (string_bytes text.new
        ≡ string_bytes text.old ++ both_text (shown before.now) (shown after.now) height) }
{
    push_headed(alloc, text, 4, "before the edits", before)?;
    push_headed(alloc, text, height + 32, "after the edits", after)
}

// The picture of two runs that are so many columns wide.
#[tactic(auto, unfolding(crate::specs::Picture::drawn_runs))]
fn draw_panels(
    alloc: Global,
    before: &Panel<'_>,
    after: &Panel<'_>,
    count: u64,
) -> Result<String, AllocError>
    requires before { IsNumbered (shown before.now) }
    requires after { IsNumbered (shown after.now) }
    requires count { count ≤ 2 ^ 32 }
    ensures { IfOk result
        (λ text. string_bytes text ≡ drawn_runs count (shown before.now) (shown after.now)) }
{
    let height = run_height(alloc, before.header, before.run_looks.looks.as_slice())?;
    let lower = run_height(alloc, after.header, after.run_looks.looks.as_slice())?;
    let whole = height + lower;
    let signs = signs_of_both(alloc, before, after)?;
    let width = width_of(before.frame.scale, count);
    let mut text = String::new(alloc);
    push_opening(&mut text, width, whole + legend_height(signs.len()) + 66)?;
    push_both(alloc, &mut text, before, after, height)?;
    push_legend(&mut text, whole + 62, signs.as_slice())?;
    Ok(text)
}

#[tactic(auto, unfolding(crate::specs::Picture::pictures_text))]
fn draw_runs(
    alloc: Global,
    meter: &mut Meter,
    places: Places,
    axis: Axis,
    before: &PlacedRun<'_>,
    after: &PlacedRun<'_>,
    count: u64,
) -> Result<String, AllocError>
    requires count { count ≡ count_of_both places (drawn before.now) (drawn after.now) }
    requires few { count ≤ 2 ^ 32 }
    ensures { IfOk result
        (λ text. string_bytes text
        ≡ pictures_text places axis (drawn before.now) (drawn after.now)) }
{
    let scale = scale_for(count);
    let left = left_of(places, before, after);
    let upper = panel_of(alloc, meter, places, axis, scale, left, before)?;
    let lower = panel_of(alloc, meter, places, axis, scale, left, after)?;
    draw_panels(alloc, &upper, &lower, count)
}

/// The picture of two runs, the one above the other on one axis: before edits and after them.
/// Places that begin at one column stand below one another. `TooLong` where more columns are shown
/// than `MAX_PLACES`.
pub fn timelines(
    alloc: Global,
    meter: &mut Meter,
    extent: Extent,
    before: &PlacedRun<'_>,
    after: &PlacedRun<'_>,
) -> Result<Result<String, TooLong>, AllocError>
    ensures picture { IfOk result
        (Answers (count_of_both extent.places (drawn before.now) (drawn after.now))
        (pictures_text extent.places extent.axis (drawn before.now) (drawn after.now))) }
    // The stretches that are drawn tile what each replay has.
    ensures tiled { IsTiled extent.places before.now.session.now.header before.now.session.now.steps
        × IsTiled extent.places after.now.session.now.header after.now.session.now.steps }
{
    let Extent { places, axis } = extent;
    let count = count_of_both(places, before, after);
    if count > MAX_PLACES {
        return Ok(Err(TooLong { places: count }));
    }
    let text = draw_runs(alloc, meter, places, axis, before, after, count)?;
    Ok(Ok(text))
}
