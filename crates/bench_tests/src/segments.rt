//! The calls of segments, each once: a session in two segments, the second of which begins after
//! the first tick.
ghost use Rattle.std.specs.Prelude.{◌≡◌, ◌≤◌, ◌+◌, ◌++◌, ◌∷◌, [], All, IsTrue, IfOk, OnOk, length};
ghost use Rattle.bench_types.specs.Limits.{max_cores, max_steps};
ghost use Rattle.bench_types.specs.Step.{settings_of, IsCheckedStep};
ghost use Rattle.segment_laws.specs.Segments.{all_steps};
ghost use Rattle.smp_kernel.specs.Kernel.{StandsForSome};
ghost use Rattle.session_segments.specs.Replaying.{HasSettings};

use crate::samples::{
    A_DELAYS, SWITCH_0, SWITCH_1, assert_at, assert_is, assert_same, assert_text, three_tasks,
};
use bench_types::{Header, MAX_CORES, Reply, Settings, Step};
use session_segments::{Segment, Segments, advance};
use smp_kernel::{Kernel, Meter};
use std::alloc::{AllocError, Global};
use std::process::Abort;
use std::test::Fail;

/// A leaves its core for two ticks.
const STEPS: [Step; 8] = [
    A_DELAYS,
    SWITCH_0,
    Step::Tick,
    SWITCH_0,
    SWITCH_1,
    Step::Tick,
    SWITCH_0,
    SWITCH_1,
];

/// Of the last five steps.
const TALLIES: &str = "\
task IDLE0 run 0 0 wait 1 inverted 0 in 0 displaced 0 timeouts 0 top 0
task IDLE1 run 0 0 wait 1 inverted 0 in 0 displaced 0 timeouts 0 top 0
task A run 0 0 wait 0 inverted 0 in 1 displaced 0 timeouts 0 top 2
task B run 0 1 wait 0 inverted 0 in 0 displaced 0 timeouts 0 top 1
task C run 1 0 wait 0 inverted 0 in 1 displaced 0 timeouts 0 top 1
";

fn is_checked(header: &Header, step: &Step) -> bool
    ensures { IsTrue result → IsCheckedStep (settings_of header.now) step.now }
{
    step.check(header).is_ok()
}

fn are_checked(header: &Header, steps: &[Step]) -> bool
    ensures { IsTrue result → All (IsCheckedStep (settings_of header.now)) steps.now }
{
    steps.iter().all(|step| is_checked(header, step))
}

/// Each step may stand under the header, or the test fails.
fn need_checked(rt: &impl Abort, header: &Header, steps: &[Step])
    ensures { All (IsCheckedStep (settings_of header.now)) steps.now }
{
    assert!(rt; are_checked(header, steps));
}

/// A kernel at the start of the header.
fn started(rt: &impl Abort, alloc: Global, header: &Header) -> Result<Kernel, Fail>
    ensures stands { IfOk result StandsForSome }
    ensures settings { IfOk result (λ kernel. kernel.settings ≡ settings_of header.now) }
    ensures few { IfOk result (λ kernel. kernel.settings.cores ≤ max_cores) }
{
    let kernel = Kernel::start(alloc, header)?;
    assert!(rt; kernel.settings().cores <= MAX_CORES);
    Ok(kernel)
}

/// Replays the steps into one segment more.
fn push_segment(
    alloc: Global,
    kernel: &mut Kernel,
    segments: &mut Vec<Segment>,
    steps: &[Step],
    meter: &mut Meter,
) -> Result<(), AllocError>
    requires stands { StandsForSome kernel.old }
    requires few { kernel.old.settings.cores ≤ max_cores }
    requires steps { All (IsCheckedStep kernel.old.settings) steps.now }
    requires few_steps { length steps.now ≤ max_steps }
    ensures segment { OnOk result
        (segments.new.items
        ≡ segments.old.items ++ record { kernel = kernel.old; steps = steps.now } ∷ []) }
    ensures stands { OnOk result (StandsForSome kernel.new) }
    ensures settings { kernel.new.settings ≡ kernel.old.settings }
{
    let segment = Segment::replay(alloc, kernel, steps, meter)?;
    segments.push(segment)?;
    Ok(())
}

/// Both parts of a session, a segment each.
fn two_segments(
    alloc: Global,
    kernel: &mut Kernel,
    first: &[Step],
    second: &[Step],
    meter: &mut Meter,
) -> Result<Vec<Segment>, AllocError>
    requires stands { StandsForSome kernel.old }
    requires few { kernel.old.settings.cores ≤ max_cores }
    requires first { All (IsCheckedStep kernel.old.settings) first.now }
    requires second { All (IsCheckedStep kernel.old.settings) second.now }
    requires short { length first.now + length second.now ≤ 8 }
    ensures two { IfOk result (λ segments. length segments.items ≡ 2) }
    ensures short { IfOk result (λ segments. length (all_steps segments.items) ≤ 8) }
{
    let mut segments = Vec::with_capacity(alloc, 2)?;
    push_segment(alloc, kernel, &mut segments, first, meter)?;
    push_segment(alloc, kernel, &mut segments, second, meter)?;
    Ok(segments)
}

/// The steps in two segments: three of them, and then five.
fn in_two(rt: &impl Abort, host: &HostRuntime, header: &Header) -> Result<Vec<Segment>, Fail>
    ensures two { IfOk result (λ segments. length segments.items ≡ 2) }
    ensures short { IfOk result (λ segments. length (all_steps segments.items) ≤ 8) }
{
    let (first, second) = STEPS.split_at(3);
    need_checked(rt, header, first);
    need_checked(rt, header, second);
    let (mut kernel, mut meter) = (started(rt, host.alloc(), header)?, Meter::new(host));
    let segments = two_segments(host.alloc(), &mut kernel, first, second, &mut meter)?;
    assert_same(rt, "steps", &meter.count(), &8);
    Ok(segments)
}

#[test]
fn a_segment_shows_its_steps(rt: HostRuntime) -> Result<(), Fail> {
    check_second(&rt, &rt, &three_tasks(rt.alloc(), 2, true)?)
}

fn check_second(rt: &impl Abort, host: &HostRuntime, header: &Header) -> Result<(), Fail> {
    let segments = in_two(rt, host, header)?;
    check_segment(rt, host, header, &segments[1])
}

fn check_segment(
    rt: &impl Abort,
    host: &HostRuntime,
    header: &Header,
    segment: &Segment,
) -> Result<(), Fail> {
    check_shown(rt, host.alloc(), segment)?;
    check_running(rt, segment);
    check_tallies(rt, host.alloc(), header, segment)?;
    check_states(rt, host, header, segment)
}

const REPLIES: [(u32, Option<Reply>); 3] = [
    (0, Some(Reply::Done)),
    (4, Some(Reply::Done)),
    (5, None),
];

/// The tick count of the segment's kernel.
fn tick_of(alloc: Global, segment: &Segment) -> Result<u32, Fail> {
    let kernel = segment.copy_kernel(alloc)?;
    Ok(kernel.tick())
}

fn check_shown(rt: &impl Abort, alloc: Global, segment: &Segment) -> Result<(), Fail> {
    assert_same(rt, "tick", &tick_of(alloc, segment)?, &1);
    assert_same(rt, "steps", &segment.steps(), &&STEPS[3..]);
    for (index, reply) in &REPLIES {
        assert_at(rt, "step", *index, &segment.reply(*index), reply);
    }
    Ok(())
}

/// After so many steps, on which core, which task runs.
const RUNNING: [(u32, u32, Option<u32>); 6] = [
    (0, 0, Some(4)),
    (0, 1, Some(3)),
    (4, 0, Some(2)),
    (5, 1, Some(4)),
    (6, 0, None),
    (0, 2, None),
];

fn check_running(rt: &impl Abort, segment: &Segment) {
    for (count, core, task) in &RUNNING {
        let shown = (*core, segment.running(*count, *core));
        assert_at(rt, "core after steps", *count, &shown, &(*core, *task));
    }
}

fn check_tallies(
    rt: &impl Abort,
    alloc: Global,
    header: &Header,
    segment: &Segment,
) -> Result<(), Fail> {
    assert_text(rt, &segment.tallies().text(alloc, header)?, TALLIES);
    Ok(())
}

fn check_states(
    rt: &impl Abort,
    host: &HostRuntime,
    header: &Header,
    segment: &Segment,
) -> Result<(), Fail> {
    let kernel = advanced(rt, host, header)?;
    assert_same(rt, "ticks to it", &segment.ticks_to(&kernel), &Some(0));
    check_after(rt, host, segment)
}

/// A kernel after the first segment.
fn advanced(rt: &impl Abort, host: &HostRuntime, header: &Header) -> Result<Kernel, Fail> {
    need_checked(rt, header, &STEPS[..3]);
    let (mut kernel, mut meter) = (started(rt, host.alloc(), header)?, Meter::new(host));
    advance(&mut kernel, &STEPS[..3], &mut meter);
    assert_same(rt, "steps", &meter.count(), &3);
    Ok(kernel)
}

fn check_after(rt: &impl Abort, host: &HostRuntime, segment: &Segment) -> Result<(), Fail> {
    let mut meter = Meter::new(host);
    assert!(rt; 3 <= segment.steps().len());
    let kernel = segment.kernel_after(host.alloc(), 3, &mut meter)?;
    assert_same(
        rt,
        "tick and steps",
        &(kernel.tick(), meter.count()),
        &(2, 3),
    );
    assert_same(rt, "ticks to another", &segment.ticks_to(&kernel), &None);
    Ok(())
}

#[test]
fn a_segment_is_replayed_again(rt: HostRuntime) -> Result<(), Fail> {
    check_again(&rt, &rt, &three_tasks(rt.alloc(), 2, true)?)
}

fn check_again(rt: &impl Abort, host: &HostRuntime, header: &Header) -> Result<(), Fail> {
    let (kernel, steps) = (&mut started(rt, host.alloc(), header)?, &STEPS[..3]);
    need_checked(rt, header, steps);
    check_twice(rt, host.alloc(), kernel, steps, &mut Meter::new(host))
}

/// The segment begins where the steps came to once, and ends where they come to twice.
fn check_twice(
    rt: &impl Abort,
    alloc: Global,
    kernel: &mut Kernel,
    steps: &[Step],
    meter: &mut Meter,
) -> Result<(), Fail>
    requires stands { StandsForSome kernel.old }
    requires few { kernel.old.settings.cores ≤ max_cores }
    requires steps { All (IsCheckedStep kernel.old.settings) steps.now }
    requires few_steps { length steps.now ≤ max_steps }
{
    let mut segment: Segment = Segment::replay(alloc, kernel, steps, meter)?;
    assert!(rt; segment.settings() == kernel.settings());
    segment.replay_in_place(kernel, meter);
    let ticks = (tick_of(alloc, &segment)?, kernel.tick());
    assert_same(rt, "ticks", &ticks, &(1, 2));
    assert_same(rt, "steps", &meter.count(), &6);
    assert_same(rt, "steps", &segment.steps(), &steps);
    Ok(())
}

fn has_settings(segment: &Segment, settings: Settings) -> bool
    ensures { IsTrue result → HasSettings settings segment.now }
{
    segment.settings() == settings
}

fn have_settings(segments: &[Segment], settings: Settings) -> bool
    ensures { IsTrue result → All (HasSettings settings) segments.now }
{
    segments
        .iter()
        .all(|segment| has_settings(segment, settings))
}

#[test]
fn segments_are_replayed_in_place(rt: HostRuntime) -> Result<(), Fail> {
    check_in_place(&rt, &rt, &three_tasks(rt.alloc(), 2, true)?)
}

fn check_in_place(rt: &impl Abort, host: &HostRuntime, header: &Header) -> Result<(), Fail> {
    let segments = &mut Segments::new(host.alloc(), in_two(rt, host, header)?)?;
    check_met(rt, host, header, segments)?;
    check_later(rt, host, header, segments)
}

/// From the start there is nothing to replay.
fn check_met(
    rt: &impl Abort,
    host: &HostRuntime,
    header: &Header,
    segments: &mut Segments,
) -> Result<(), Fail> {
    let kernel = &mut started(rt, host.alloc(), header)?;
    check_replay(rt, segments, kernel, &mut Meter::new(host), (0, 0));
    Ok(())
}

/// From one tick later all is replayed.
fn check_later(
    rt: &impl Abort,
    host: &HostRuntime,
    header: &Header,
    segments: &mut Segments,
) -> Result<(), Fail> {
    let kernel = &mut advanced(rt, host, header)?;
    check_replay(rt, segments, kernel, &mut Meter::new(host), (2, 8));
    let first = &segments.as_slice()[0];
    let ticks = (tick_of(host.alloc(), first)?, kernel.tick());
    assert_same(rt, "ticks", &ticks, &(1, 3));
    Ok(())
}

/// Replays all segments: up to which, and how many steps.
fn check_replay(
    rt: &impl Abort,
    segments: &mut Segments,
    kernel: &mut Kernel,
    meter: &mut Meter,
    wanted: (usize, u64),
) {
    assert!(rt; have_settings(segments.as_slice(), kernel.settings()));
    let end = segments.replay_from(0, kernel, meter);
    assert_same(rt, "segment and steps", &(end, meter.count()), &wanted);
}

#[test]
fn segments_are_found_and_replaced(rt: HostRuntime) -> Result<(), Fail> {
    check_replaced(&rt, &rt, &three_tasks(rt.alloc(), 2, true)?)
}

fn check_replaced(rt: &impl Abort, host: &HostRuntime, header: &Header) -> Result<(), Fail> {
    let mut segments = Segments::new(host.alloc(), in_two(rt, host, header)?)?;
    check_places(rt, &segments);
    replace_all(&mut segments, in_two(rt, host, header)?)?;
    check_places(rt, &segments);
    Ok(())
}

/// Each place, the segment that it lies in, and where that begins.
const PLACES: [(u32, usize, u32); 4] = [(0, 0, 0), (2, 0, 0), (3, 1, 3), (100, 1, 3)];

fn check_places(rt: &impl Abort, segments: &Segments) {
    let checkpoints = (
        segments.checkpoint(0),
        segments.checkpoint(1),
        segments.checkpoint(2),
    );
    assert_same(
        rt,
        "segments",
        &(segments.len(), segments.as_slice().len()),
        &(2, 2),
    );
    assert_same(rt, "checkpoints", &checkpoints, &(Some(0), Some(3), None));
    for (place, index, from) in &PLACES {
        assert_at(
            rt,
            "place",
            *place,
            &segments.locate(*place),
            &(*index, *from),
        );
    }
}

fn replace_all(segments: &mut Segments, made: Vec<Segment>) -> Result<(), AllocError>
    requires two { length made.items ≡ 2 }
    requires short { length (all_steps made.items) ≤ 8 }
    ensures { OnOk result (segments.new ≡ made.items) }
{
    let count = segments.len();
    segments.replace(0, count, made)
}
