//! What a trace tells of each place.
ghost use Rattle.std.specs.Prelude.{◌≡◌, [], ◌∷◌, ◌++◌, ◌+◌, ◌<◌, ◌≤◌, ◌^◌, All, IfOk, Ok, OnOk, flat_map, length, map, string_bytes};
ghost use Rattle.bench_types.specs.Step.{step_check, IsCheckedStep};
ghost use Rattle.bench_model.specs.Equal.{StandsFor};
ghost use Rattle.bench_model.specs.Session.{step_of};
ghost use Rattle.bench_model.specs.Start.{start};
ghost use Rattle.bench_model.specs.Table.{Table};
ghost use Rattle.run_views.specs.Looks.{look_of};
ghost use Rattle.run_views.specs.PlaceTexts.{everything, place_texts, shown_text, text_at};
ghost use Rattle.run_views.specs.Trace.{place_line, step_part, trace_text};

use crate::trace_lines::{push_place_line, push_printed_step};
use crate::watch::Seen;
use crate::{Look, Places};
use bench_types::{CheckedSession, Header, Step};
use smp_kernel::{Kernel, Meter};
use std::alloc::{AllocError, Global};

// What is told of a place at which a step is made.
fn text_of_step(
    alloc: Global,
    places: Places,
    header: &Header,
    place: u32,
    step: Step,
    seen: &Seen,
) -> Result<String, AllocError>
    requires cores { length seen.now.before.cores < 2 ^ 32 }
    requires place { place + 1 < 2 ^ 32 }
    ensures { IfOk result
        (λ text. string_bytes text
        ≡ place_line header.now place seen.now.before
        ++ step_part places header.now place step seen.now.reply seen.now.changes) }
{
    let mut text = String::new(alloc);
    let changes = seen.changes.as_slice();
    push_place_line(&mut text, header, place, &seen.before)?;
    push_printed_step(&mut text, places, header, place, step, seen.reply, changes)?;
    Ok(text)
}

// Makes the step at a place that is shown, and tells it.
fn push_shown_step(
    alloc: Global,
    meter: &mut Meter,
    texts: &mut Vec<String>,
    places: Places,
    header: &Header,
    kernel: &mut Kernel,
    place: u32,
    step: Step,
) -> Result<(), AllocError>
    requires checked { step_check kernel.old.settings step ≡ Ok tt }
    requires place { place + 1 < 2 ^ 32 }
    ensures texts { OnOk result ((table : Table) → StandsFor kernel.old table
        → map string_bytes texts.new.items
        ≡ map string_bytes texts.old.items ++ text_at places header.now place table step ∷ []) }
    ensures state { OnOk result ((table : Table) → StandsFor kernel.old table
        → StandsFor kernel.new (step_of step table).1) }
    ensures settings { OnOk result (kernel.new.settings ≡ kernel.old.settings) }
{
    let seen = Seen::of_step(alloc, meter, kernel, &step)?;
    let text = text_of_step(alloc, places, header, place, step, &seen)?;
    texts.push(text)?;
    Ok(())
}

// Makes the step, and tells it where its place is shown: only there the kernel is looked at.
fn push_step_text(
    alloc: Global,
    meter: &mut Meter,
    texts: &mut Vec<String>,
    places: Places,
    header: &Header,
    kernel: &mut Kernel,
    place: u32,
    step: Step,
) -> Result<(), AllocError>
    requires checked { step_check kernel.old.settings step ≡ Ok tt }
    requires place { place + 1 < 2 ^ 32 }
    ensures texts { OnOk result ((table : Table) → StandsFor kernel.old table
        → map string_bytes texts.new.items
        ≡ map string_bytes texts.old.items
        ++ shown_text places place (text_at places header.now place table step)) }
    ensures state { OnOk result ((table : Table) → StandsFor kernel.old table
        → StandsFor kernel.new (step_of step table).1) }
    ensures settings { OnOk result (kernel.new.settings ≡ kernel.old.settings) }
{
    if places.shows(place) {
        return push_shown_step(alloc, meter, texts, places, header, kernel, place, step);
    }
    kernel.step(meter, &step);
    Ok(())
}

// What is told of a place at which no step is made.
fn text_of_end(
    alloc: Global,
    header: &Header,
    place: u32,
    kernel: &Kernel,
) -> Result<String, AllocError>
    ensures { IfOk result (λ text. (table : Table) → StandsFor kernel.now table
        → string_bytes text ≡ place_line header.now place (look_of table)) }
{
    let mut text = String::new(alloc);
    let look = Look::of_kernel(alloc, kernel)?;
    push_place_line(&mut text, header, place, &look)?;
    Ok(text)
}

// What is told of the end, where it is shown.
fn push_end_text(
    alloc: Global,
    texts: &mut Vec<String>,
    places: Places,
    header: &Header,
    place: u32,
    kernel: &Kernel,
) -> Result<(), AllocError>
    ensures { OnOk result ((table : Table) → StandsFor kernel.now table
        → map string_bytes texts.new.items
        ≡ map string_bytes texts.old.items
        ++ shown_text places place (place_line header.now place (look_of table))) }
{
    if places.shows(place) {
        texts.push(text_of_end(alloc, header, place, kernel)?)?;
    }
    Ok(())
}

// Makes the steps from the start of the header on.
fn push_texts(
    alloc: Global,
    meter: &mut Meter,
    texts: &mut Vec<String>,
    places: Places,
    header: &Header,
    kernel: &mut Kernel,
    steps: &[Step],
) -> Result<(), AllocError>
    requires checked { All (IsCheckedStep kernel.old.settings) steps.now }
    requires started { StandsFor kernel.old (start header.now) }
    requires few { length steps.now + 1 < 2 ^ 32 }
    ensures { OnOk result
        (map string_bytes texts.new.items
        ≡ map string_bytes texts.old.items ++ place_texts places header.now steps.now) }
{
    for (place, step) in steps.iter().enumerate() {
        let place = place as u32;
        push_step_text(alloc, meter, texts, places, header, kernel, place, *step)?;
    }
    push_end_text(alloc, texts, places, header, steps.len() as u32, kernel)?;
    Ok(())
}

// A kernel is dear to drop, so one call follows where one is made.
fn texts_of(
    alloc: Global,
    meter: &mut Meter,
    places: Places,
    header: &Header,
    kernel: &mut Kernel,
    steps: &[Step],
) -> Result<Vec<String>, AllocError>
    requires checked { All (IsCheckedStep kernel.old.settings) steps.now }
    requires started { StandsFor kernel.old (start header.now) }
    requires few { length steps.now + 1 < 2 ^ 32 }
    ensures { IfOk result
        (λ texts. map string_bytes texts.items ≡ place_texts places header.now steps.now) }
{
    let mut texts = Vec::new(alloc);
    push_texts(alloc, meter, &mut texts, places, header, kernel, steps)?;
    Ok(texts)
}

/// What a trace of a checked session's run tells of each place that is shown: its line, and the
/// lines of the step that is made there, where the next place is shown too.
pub fn trace_by_places(
    alloc: Global,
    meter: &mut Meter,
    places: Places,
    session: &CheckedSession,
) -> Result<Vec<String>, AllocError>
    ensures texts { IfOk result
        (λ texts. map string_bytes texts.items
        ≡ place_texts places session.now.header session.now.steps) }
    ensures numbered { IfOk result (λ texts. places.from + length texts.items ≤ 2 ^ 32) }
    // One after another they are the whole trace of these places.
    ensures whole { IfOk result
        (λ texts. flat_map string_bytes texts.items
        ≡ trace_text places everything session.now.header session.now.steps) }
{
    let header = session.header();
    let steps = session.steps();
    match Kernel::start(alloc, header) {
        Ok(mut kernel) => texts_of(alloc, meter, places, header, &mut kernel, steps),
        Err(_) => Err(AllocError),
    }
}
