//! The bands of the cores: the current task of each, where the core is due to switch, and where it
//! holds the kernel.
ghost use Rattle.std.specs.Prelude.{◌≡◌, ◌++◌, ◌+◌, ◌<◌, ◌≤◌, ◌^◌, IfOk, OnOk, flat_map, length, map, string_bytes};
ghost use Rattle.run_pictures.specs.CoreBands.{core_row, core_words, current_bar, due_bar, hold_bar};
ghost use Rattle.run_pictures.specs.TaskStretches.{core_in, current_in, current_stretches, due_in, due_stretches, hold_in, hold_stretches};

use crate::bar::{Bar, Letters, push_bar, push_label, push_name, push_over};
use crate::frame::Frame;
use crate::ink::{Ink, task_ink};
use crate::shown::Due;
use crate::stretch::{Stretch, stretches_of};
use bench_types::{CoreLook, Header, Hold};
use run_views::{Look, due_text, push_hold};
use std::alloc::{AllocError, Global};

/// What a look shows of a core.
pub(crate) fn core_in(look: &Look, core: usize) -> CoreLook
    ensures { result ≡ core_in core look.now }
{
    match look.cores.as_slice().get(core) {
        Some(core) => *core,
        None => CoreLook {
            current: 0,
            pend: false,
            asked: false,
        },
    }
}

fn hold_in(look: &Look, core: u32) -> Option<Hold>
    ensures { result ≡ hold_in core look.now }
{
    match look.hold {
        Some(hold) if hold.core == core => Some(hold),
        _ => None,
    }
}

fn currents(alloc: Global, looks: &[Look], core: u32) -> Result<Vec<u32>, AllocError>
    ensures { IfOk result (λ values. values.items ≡ map (current_in core) looks.now) }
{
    looks
        .iter()
        .map(|look| core_in(look, core as usize).current)
        .collect(alloc)
}

fn due_in(look: &Look, core: u32) -> Due
    ensures { result ≡ due_in core look.now }
{
    let CoreLook { pend, asked, .. } = core_in(look, core as usize);
    Due { pend, asked }
}

fn dues(alloc: Global, looks: &[Look], core: u32) -> Result<Vec<Due>, AllocError>
    ensures { IfOk result (λ values. values.items ≡ map (due_in core) looks.now) }
{
    looks.iter().map(|look| due_in(look, core)).collect(alloc)
}

fn holds(alloc: Global, looks: &[Look], core: u32) -> Result<Vec<Option<Hold>>, AllocError>
    ensures { IfOk result (λ values. values.items ≡ map (hold_in core) looks.now) }
{
    looks.iter().map(|look| hold_in(look, core)).collect(alloc)
}

// The stretches of the core's current tasks.
#[tactic(auto, unfolding(crate::specs::TaskStretches::current_stretches))]
fn current_stretches(
    alloc: Global,
    first: u32,
    looks: &[Look],
    core: u32,
) -> Result<Vec<Stretch<u32>>, AllocError>
    requires { first + length looks.now ≤ 2 ^ 32 }
    ensures { IfOk result (λ stretches. stretches.items ≡ current_stretches first looks.now core) }
{
    let values = currents(alloc, looks, core)?;
    stretches_of(alloc, first, values)
}

#[tactic(auto, unfolding(crate::specs::TaskStretches::due_stretches))]
fn due_stretches(
    alloc: Global,
    first: u32,
    looks: &[Look],
    core: u32,
) -> Result<Vec<Stretch<Due>>, AllocError>
    requires { first + length looks.now ≤ 2 ^ 32 }
    ensures { IfOk result (λ stretches. stretches.items ≡ due_stretches first looks.now core) }
{
    let values = dues(alloc, looks, core)?;
    stretches_of(alloc, first, values)
}

#[tactic(auto, unfolding(crate::specs::TaskStretches::hold_stretches))]
fn hold_stretches(
    alloc: Global,
    first: u32,
    looks: &[Look],
    core: u32,
) -> Result<Vec<Stretch<Option<Hold>>>, AllocError>
    requires { first + length looks.now ≤ 2 ^ 32 }
    ensures { IfOk result (λ stretches. stretches.items ≡ hold_stretches first looks.now core) }
{
    let values = holds(alloc, looks, core)?;
    stretches_of(alloc, first, values)
}

fn push_core_words(
    words: &mut String,
    header: &Header,
    core: u32,
    stretch: Stretch<u32>,
) -> Result<(), AllocError>
    ensures { OnOk result
        (string_bytes words.new ≡ string_bytes words.old ++ core_words header.now core stretch) }
{
    push_over(words, stretch.first, stretch.last)?;
    write!(words, "core {core} ")?;
    header.push_name(words, stretch.value)
}

// A stretch of one current task.
#[tactic(auto, unfolding(crate::specs::CoreBands::current_bar))]
fn push_current(
    alloc: Global,
    text: &mut String,
    header: &Header,
    frame: &Frame,
    y: u64,
    core: u32,
    stretch: Stretch<u32>,
) -> Result<(), AllocError>
    requires { y < 2 ^ 40 }
    ensures { OnOk result
        (string_bytes text.new
        ≡ string_bytes text.old ++ current_bar header.now frame.now y core stretch) }
{
    let mut words = String::new(alloc);
    push_core_words(&mut words, header, core, stretch)?;
    let bar = Bar {
        ink: task_ink(header.config.cores, stretch.value),
        first: stretch.first,
        last: stretch.last,
        y: y + 10,
        height: 24,
    };
    push_bar(text, frame, bar, words.as_str())?;
    let mut name = String::new(alloc);
    header.push_name(&mut name, stretch.value)?;
    push_label(
        text,
        frame,
        Letters::Dark,
        stretch.first,
        stretch.last,
        y + 27,
        name.as_str(),
    )
}

// A stretch at which the core is due to switch.
#[tactic(auto, unfolding(crate::specs::CoreBands::due_bar))]
fn push_due(
    alloc: Global,
    text: &mut String,
    frame: &Frame,
    y: u64,
    core: u32,
    stretch: Stretch<Due>,
) -> Result<(), AllocError>
    requires { y < 2 ^ 40 }
    ensures { OnOk result
        (string_bytes text.new ≡ string_bytes text.old ++ due_bar frame.now y core stretch) }
{
    let Due { pend, asked } = stretch.value;
    if !pend && !asked {
        return Ok(());
    }
    let mut words = String::new(alloc);
    push_over(&mut words, stretch.first, stretch.last)?;
    write!(words, "core {core}")?;
    words.push_str(due_text(pend, asked))?;
    let bar = Bar {
        ink: Ink::Due,
        first: stretch.first,
        last: stretch.last,
        y: y + 10,
        height: 4,
    };
    push_bar(text, frame, bar, words.as_str())
}

// A stretch at which the core holds the kernel.
#[tactic(auto, unfolding(crate::specs::CoreBands::hold_bar))]
fn push_held(
    alloc: Global,
    text: &mut String,
    frame: &Frame,
    y: u64,
    stretch: Stretch<Option<Hold>>,
) -> Result<(), AllocError>
    requires { y < 2 ^ 40 }
    ensures { OnOk result
        (string_bytes text.new ≡ string_bytes text.old ++ hold_bar frame.now y stretch) }
{
    let Some(hold) = stretch.value else {
        return Ok(());
    };
    let mut words = String::new(alloc);
    push_over(&mut words, stretch.first, stretch.last)?;
    words.push_str("held by ")?;
    push_hold(&mut words, hold)?;
    let bar = Bar {
        ink: Ink::Held,
        first: stretch.first,
        last: stretch.last,
        y: y + 30,
        height: 4,
    };
    push_bar(text, frame, bar, words.as_str())
}

fn push_currents(
    alloc: Global,
    text: &mut String,
    header: &Header,
    frame: &Frame,
    y: u64,
    core: u32,
    stretches: &[Stretch<u32>],
) -> Result<(), AllocError>
    requires { y < 2 ^ 40 }
    ensures { OnOk result
        (string_bytes text.new
        ≡ string_bytes text.old
        ++ flat_map (current_bar header.now frame.now y core) stretches.now) }
{
    for stretch in stretches {
        push_current(alloc, text, header, frame, y, core, *stretch)?;
    }
    Ok(())
}

fn push_dues(
    alloc: Global,
    text: &mut String,
    frame: &Frame,
    y: u64,
    core: u32,
    stretches: &[Stretch<Due>],
) -> Result<(), AllocError>
    requires { y < 2 ^ 40 }
    ensures { OnOk result
        (string_bytes text.new
        ≡ string_bytes text.old ++ flat_map (due_bar frame.now y core) stretches.now) }
{
    for stretch in stretches {
        push_due(alloc, text, frame, y, core, *stretch)?;
    }
    Ok(())
}

fn push_holds(
    alloc: Global,
    text: &mut String,
    frame: &Frame,
    y: u64,
    stretches: &[Stretch<Option<Hold>>],
) -> Result<(), AllocError>
    requires { y < 2 ^ 40 }
    ensures { OnOk result
        (string_bytes text.new
        ≡ string_bytes text.old ++ flat_map (hold_bar frame.now y) stretches.now) }
{
    for stretch in stretches {
        push_held(alloc, text, frame, y, *stretch)?;
    }
    Ok(())
}

/// Writes the row of a core.
#[tactic(auto, unfolding(crate::specs::CoreBands::core_row))]
pub(crate) fn push_core_row(
    alloc: Global,
    text: &mut String,
    header: &Header,
    frame: &Frame,
    y: u64,
    looks: &[Look],
    core: u32,
) -> Result<(), AllocError>
    requires y { y < 2 ^ 40 }
    requires few { frame.now.first + length looks.now ≤ 2 ^ 32 }
    ensures { OnOk result
        (string_bytes text.new
        ≡ string_bytes text.old ++ core_row header.now frame.now y looks.now core) }
{
    let mut name = String::new(alloc);
    write!(name, "core {core}")?;
    push_name(text, y + 27, name.as_str())?;
    let currents = current_stretches(alloc, frame.first, looks, core)?;
    push_currents(alloc, text, header, frame, y, core, currents.as_slice())?;
    let dues = due_stretches(alloc, frame.first, looks, core)?;
    push_dues(alloc, text, frame, y, core, dues.as_slice())?;
    let holds = hold_stretches(alloc, frame.first, looks, core)?;
    push_holds(alloc, text, frame, y, holds.as_slice())
}
