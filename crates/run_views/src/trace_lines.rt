//! The lines of a trace.
ghost use Rattle.std.specs.Prelude.{◌≡◌, ◌++◌, ◌+◌, ◌<◌, ◌^◌, All, IfOk, OnOk, flat_map, length, string_bytes};
ghost use Rattle.bench_types.specs.Step.{IsCheckedStep};
ghost use Rattle.bench_model.specs.Equal.{StandsFor};
ghost use Rattle.bench_model.specs.Start.{start};
ghost use Rattle.run_views.specs.Trace.{change_line, core_part, cores_part, due_text, hold_part, place_line, place_part, step_lines, step_part, printed_part, trace_text, IsPrinted, Shows};

use crate::change_words::{push_change, push_hold};
use crate::reply_words::push_reply;
use crate::step_words::push_step;
use crate::watch::{Seen, Watch};
use crate::{Change, Interest, Look, Places};
use bench_types::{CheckedSession, CoreLook, Header, Hold, Reply, Step};
use smp_kernel::Meter;
use std::alloc::{AllocError, Global};

/// By whom a core was asked to switch, if it is to switch.
pub fn due_text(pend: bool, asked: bool) -> &'static str
    ensures { result.now ≡ due_text pend asked }
{
    match (pend, asked) {
        (true, true) => ", due by pend and asked",
        (true, false) => ", due by pend",
        (false, true) => ", due by asked",
        (false, false) => "",
    }
}

fn push_core(
    text: &mut String,
    header: &Header,
    core: u32,
    look: CoreLook,
) -> Result<(), AllocError>
    ensures { OnOk result
        (string_bytes text.new ≡ string_bytes text.old ++ core_part header.now core look) }
{
    write!(text, "; core {core} ")?;
    header.push_name(text, look.current)?;
    text.push_str(due_text(look.pend, look.asked))
}

fn push_cores(text: &mut String, header: &Header, cores: &[CoreLook]) -> Result<(), AllocError>
    requires { length cores.now < 2 ^ 32 }
    ensures { OnOk result
        (string_bytes text.new ≡ string_bytes text.old ++ cores_part header.now 0 cores.now) }
{
    for (core, look) in cores.iter().enumerate() {
        push_core(text, header, core as u32, *look)?;
    }
    Ok(())
}

fn push_open_hold(text: &mut String, hold: Option<Hold>) -> Result<(), AllocError>
    ensures { OnOk result (string_bytes text.new ≡ string_bytes text.old ++ hold_part hold) }
{
    match hold {
        None => Ok(()),
        Some(hold) => {
            text.push_str("; held by ")?;
            push_hold(text, hold)
        }
    }
}

#[tactic(auto, unfolding(crate::specs::Trace::place_line))]
pub(crate) fn push_place_line(
    text: &mut String,
    header: &Header,
    place: u32,
    look: &Look,
) -> Result<(), AllocError>
    requires { length look.now.cores < 2 ^ 32 }
    ensures { OnOk result
        (string_bytes text.new ≡ string_bytes text.old ++ place_line header.now place look.now) }
{
    write!(text, "place {place}, tick {}", look.tick)?;
    push_cores(text, header, look.cores.as_slice())?;
    push_open_hold(text, look.hold)?;
    text.push_str("\n")
}

// The line of a place that is to be shown.
#[tactic(auto, unfolding(crate::specs::Trace::place_part))]
fn push_place(
    text: &mut String,
    places: Places,
    header: &Header,
    place: u32,
    look: &Look,
) -> Result<(), AllocError>
    requires { length look.now.cores < 2 ^ 32 }
    ensures { OnOk result
        (string_bytes text.new
        ≡ string_bytes text.old ++ place_part places header.now place look.now) }
{
    if places.shows(place) {
        push_place_line(text, header, place, look)?;
    }
    Ok(())
}

fn push_change_line(text: &mut String, header: &Header, change: Change) -> Result<(), AllocError>
    ensures { OnOk result
        (string_bytes text.new ≡ string_bytes text.old ++ change_line header.now change) }
{
    text.push_str("  ")?;
    push_change(text, header, change)?;
    text.push_str("\n")
}

fn push_changes(text: &mut String, header: &Header, changes: &[Change]) -> Result<(), AllocError>
    ensures { OnOk result
        (string_bytes text.new
        ≡ string_bytes text.old ++ flat_map (change_line header.now) changes.now) }
{
    for change in changes {
        push_change_line(text, header, *change)?;
    }
    Ok(())
}

#[tactic(auto, unfolding(crate::specs::Trace::step_lines))]
fn push_step_lines(
    text: &mut String,
    header: &Header,
    place: u32,
    step: Step,
    reply: Reply,
    changes: &[Change],
) -> Result<(), AllocError>
    ensures { OnOk result
        (string_bytes text.new
        ≡ string_bytes text.old ++ step_lines header.now place step reply changes.now) }
{
    write!(text, "step {place}: ")?;
    push_step(text, header, step)?;
    text.push_str("\n  ")?;
    push_reply(text, header, step, reply)?;
    text.push_str("\n")?;
    push_changes(text, header, changes)
}

// The lines of a step between two places that are to be shown.
#[tactic(auto, unfolding(crate::specs::Trace::step_part))]
pub(crate) fn push_printed_step(
    text: &mut String,
    places: Places,
    header: &Header,
    place: u32,
    step: Step,
    reply: Reply,
    changes: &[Change],
) -> Result<(), AllocError>
    requires { place + 1 < 2 ^ 32 }
    ensures { OnOk result
        (string_bytes text.new
        ≡ string_bytes text.old ++ step_part places header.now place step reply changes.now) }
{
    if places.shows(place) && places.shows(place + 1) {
        push_step_lines(text, header, place, step, reply, changes)?;
    }
    Ok(())
}

// The lines of a place and of the step that is made there, where the step is one that is told.
#[tactic(auto, unfolding(crate::specs::Trace::printed_part))]
fn push_printed(
    text: &mut String,
    places: Places,
    interest: &Interest,
    header: &Header,
    place: u32,
    step: Step,
    seen: &Seen,
) -> Result<(), AllocError>
    requires cores { length seen.now.before.cores < 2 ^ 32 }
    requires place { place + 1 < 2 ^ 32 }
    ensures { OnOk result
        (string_bytes text.new
        ≡ string_bytes text.old
        ++ printed_part places interest.now header.now place seen.now.before step seen.now.reply
        seen.now.changes) }
{
    let changes = seen.changes.as_slice();
    if interest.tells(step, changes) {
        push_place(text, places, header, place, &seen.before)?;
        push_printed_step(text, places, header, place, step, seen.reply, changes)?;
    }
    Ok(())
}

// Makes the steps, and tells those that are told.
fn push_steps(
    alloc: Global,
    meter: &mut Meter,
    text: &mut String,
    places: Places,
    interest: &Interest,
    header: &Header,
    watch: &mut Watch,
    steps: &[Step],
) -> Result<(), AllocError>
    requires checked { All (IsCheckedStep watch.old.kernel.settings) steps.now }
    requires shows { Shows watch.old.kernel watch.old.look }
    requires few { length steps.now + 1 < 2 ^ 32 }
    ensures printed { OnOk result
        (IsPrinted places interest.now header.now watch.old.kernel watch.new.kernel steps.now
        (string_bytes text.old) (string_bytes text.new)) }
    ensures shows { OnOk result (Shows watch.new.kernel watch.new.look) }
{
    for (place, step) in steps.iter().enumerate() {
        let seen = watch.step(alloc, meter, step)?;
        push_printed(text, places, interest, header, place as u32, *step, &seen)?;
    }
    Ok(())
}

fn push_trace(
    alloc: Global,
    meter: &mut Meter,
    text: &mut String,
    places: Places,
    interest: &Interest,
    header: &Header,
    watch: &mut Watch,
    steps: &[Step],
) -> Result<(), AllocError>
    requires checked { All (IsCheckedStep watch.old.kernel.settings) steps.now }
    requires shows { Shows watch.old.kernel watch.old.look }
    requires started { StandsFor watch.old.kernel (start header.now) }
    requires few { length steps.now + 1 < 2 ^ 32 }
    ensures { OnOk result
        (string_bytes text.new
        ≡ string_bytes text.old ++ trace_text places interest.now header.now steps.now) }
{
    push_steps(alloc, meter, text, places, interest, header, watch, steps)?;
    push_place(text, places, header, steps.len() as u32, &watch.look)?;
    Ok(())
}

// A watch is dear to drop, so one call follows where one is made.
fn printed(
    alloc: Global,
    meter: &mut Meter,
    places: Places,
    interest: &Interest,
    header: &Header,
    watch: &mut Watch,
    steps: &[Step],
) -> Result<String, AllocError>
    requires checked { All (IsCheckedStep watch.old.kernel.settings) steps.now }
    requires shows { Shows watch.old.kernel watch.old.look }
    requires started { StandsFor watch.old.kernel (start header.now) }
    requires few { length steps.now + 1 < 2 ^ 32 }
    ensures { IfOk result
        (λ text. string_bytes text ≡ trace_text places interest.now header.now steps.now) }
{
    let mut text = String::new(alloc);
    push_trace(
        alloc, meter, &mut text, places, interest, header, watch, steps,
    )?;
    Ok(text)
}

/// The run of a checked session, told place by place and step by step: at each place the tick count
/// and the cores, of each step its words, its reply and all that it changed. A step of no interest
/// is left out, and the line of the place before it.
pub fn trace(
    alloc: Global,
    meter: &mut Meter,
    places: Places,
    interest: &Interest,
    session: &CheckedSession,
) -> Result<String, AllocError>
    ensures { IfOk result
        (λ text. string_bytes text
        ≡ trace_text places interest.now session.now.header session.now.steps) }
{
    let header = session.header();
    let steps = session.steps();
    match Watch::start(alloc, header) {
        Ok(mut watch) => printed(alloc, meter, places, interest, header, &mut watch, steps),
        Err(_) => Err(AllocError),
    }
}
