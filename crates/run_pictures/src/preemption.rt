//! Where the preemption of a task is off.
ghost use Rattle.std.specs.Prelude.{◌≡◌, ◌++◌, OnOk, flat_map, string_bytes};
ghost use Rattle.run_pictures.specs.Preemption.{off_bar};

use crate::bar::{Bar, push_bar, push_over};
use crate::frame::Frame;
use crate::ink::Ink;
use crate::stretch::Stretch;
use bench_types::Header;
use std::alloc::{AllocError, Global};

// A stretch at which the task has its preemption off.
#[tactic(auto, unfolding(crate::specs::Preemption::off_bar))]
fn push_off(
    alloc: Global,
    text: &mut String,
    header: &Header,
    frame: &Frame,
    y: u64,
    task: u32,
    stretch: Stretch<bool>,
) -> Result<(), AllocError>
    ensures { OnOk result
        (string_bytes text.new
        ≡ string_bytes text.old ++ off_bar header.now frame.now y task stretch) }
{
    if stretch.value {
        return Ok(());
    }
    let mut words = String::new(alloc);
    push_over(&mut words, stretch.first, stretch.last)?;
    header.push_name(&mut words, task)?;
    words.push_str(" preemption off")?;
    let bar = Bar {
        ink: Ink::Off,
        first: stretch.first,
        last: stretch.last,
        y,
        height: 3,
    };
    push_bar(text, frame, bar, words.as_str())
}

/// Writes where the task has its preemption off, in its row.
pub(crate) fn push_offs(
    alloc: Global,
    text: &mut String,
    header: &Header,
    frame: &Frame,
    y: u64,
    task: u32,
    stretches: &[Stretch<bool>],
) -> Result<(), AllocError>
    ensures { OnOk result
        (string_bytes text.new
        ≡ string_bytes text.old ++ flat_map (off_bar header.now frame.now y task) stretches.now) }
{
    for stretch in stretches {
        push_off(alloc, text, header, frame, y, task, *stretch)?;
    }
    Ok(())
}
