//! The axis: the places by their numbers, and the tick count at each.
ghost use Rattle.std.specs.Prelude.{◌≡◌, ◌++◌, ◌+◌, ◌<◌, ◌≤◌, ◌^◌, IfOk, OnOk, flat_map, length, map, string_bytes};
ghost use Rattle.list_orders.specs.Search.{numbers};
ghost use Rattle.run_pictures.specs.Axis.{axis_row, is_numbered, place_label, tick_bar, tick_rule, tick_rules};
ghost use Rattle.run_pictures.specs.TaskStretches.{tick_in, tick_stretches};

use crate::bar::{Bar, Letters, fits, push_bar, push_label, push_name, push_over};
use crate::frame::{Axis, Frame};
use crate::ink::tick_ink;
use crate::stretch::{Stretch, stretches_of};
use run_views::Look;
use std::alloc::{AllocError, Global};

fn tick_in(look: &Look) -> u32
    ensures { result ≡ tick_in look.now }
{
    look.tick
}

fn ticks(alloc: Global, looks: &[Look]) -> Result<Vec<u32>, AllocError>
    ensures { IfOk result (λ values. values.items ≡ map tick_in looks.now) }
{
    let mut values = Vec::with_capacity(alloc, looks.len())?;
    for look in looks {
        values.push(tick_in(look))?;
    }
    Ok(values)
}

#[tactic(auto, unfolding(crate::specs::TaskStretches::tick_stretches))]
fn tick_stretches(
    alloc: Global,
    first: u32,
    looks: &[Look],
) -> Result<Vec<Stretch<u32>>, AllocError>
    requires { first + length looks.now ≤ 2 ^ 32 }
    ensures { IfOk result (λ stretches. stretches.items ≡ tick_stretches first looks.now) }
{
    let values = ticks(alloc, looks)?;
    stretches_of(alloc, first, values)
}

// Whether a number of the place is written: by time, where it fits into the columns of the place;
// else, where the place is one of so many.
fn is_numbered(frame: &Frame, place: u32, words: &str) -> bool
    ensures { result ≡ is_numbered frame.now.axis frame.now place words.now }
{
    match frame.axis {
        Axis::Places | Axis::Ticks => place % frame.scale.every() == 0,
        Axis::Time => {
            let width = frame.width_between(place, place);
            fits(Letters::Small, width, words.len())
        }
    }
}

/// A number of a place, where that is one of those that are numbered.
#[tactic(auto, unfolding(crate::specs::Axis::place_label))]
pub(crate) fn push_number(
    alloc: Global,
    text: &mut String,
    frame: &Frame,
    y: u64,
    place: u32,
    number: u64,
) -> Result<(), AllocError>
    ensures { OnOk result
        (string_bytes text.new ≡ string_bytes text.old ++ place_label frame.now y place number) }
{
    let mut words = String::new(alloc);
    write!(words, "{number}")?;
    if is_numbered(frame, place, words.as_str()) {
        let x = frame.x_of(place) + 2;
        write!(text, "<text class='s' x='{x}' y='{y}'>{number}</text>\n")?;
    }
    Ok(())
}

fn push_places(
    alloc: Global,
    text: &mut String,
    frame: &Frame,
    y: u64,
    count: u32,
) -> Result<(), AllocError>
    requires { frame.now.first + count ≤ 2 ^ 32 }
    ensures { OnOk result
        (string_bytes text.new
        ≡ string_bytes text.old
        ++ flat_map (λ k. place_label frame.now y (frame.now.first + k) (frame.now.first + k))
        (numbers count)) }
{
    for k in 0..count {
        let place = frame.first + k;
        push_number(alloc, text, frame, y, place, u64::from(place))?;
    }
    Ok(())
}

// A stretch of one tick count, with its number.
#[tactic(auto, unfolding(crate::specs::Axis::tick_bar))]
fn push_tick(
    alloc: Global,
    text: &mut String,
    frame: &Frame,
    y: u64,
    stretch: Stretch<u32>,
) -> Result<(), AllocError>
    requires { y < 2 ^ 40 }
    ensures { OnOk result
        (string_bytes text.new ≡ string_bytes text.old ++ tick_bar frame.now y stretch) }
{
    let mut words = String::new(alloc);
    push_over(&mut words, stretch.first, stretch.last)?;
    write!(words, "tick {}", stretch.value)?;
    let bar = Bar {
        ink: tick_ink(stretch.value),
        first: stretch.first,
        last: stretch.last,
        y,
        height: 14,
    };
    push_bar(text, frame, bar, words.as_str())?;
    let mut number = String::new(alloc);
    write!(number, "{}", stretch.value)?;
    push_label(
        text,
        frame,
        Letters::Dark,
        stretch.first,
        stretch.last,
        y + 11,
        number.as_str(),
    )
}

fn push_ticks(
    alloc: Global,
    text: &mut String,
    frame: &Frame,
    y: u64,
    stretches: &[Stretch<u32>],
) -> Result<(), AllocError>
    requires { y < 2 ^ 40 }
    ensures { OnOk result
        (string_bytes text.new
        ≡ string_bytes text.old ++ flat_map (tick_bar frame.now y) stretches.now) }
{
    for stretch in stretches {
        push_tick(alloc, text, frame, y, *stretch)?;
    }
    Ok(())
}

// A thin line through all rows, where a tick begins.
#[tactic(auto, unfolding(crate::specs::Axis::tick_rule))]
fn push_rule(
    text: &mut String,
    frame: &Frame,
    top: u64,
    bottom: u64,
    stretch: Stretch<u32>,
) -> Result<(), AllocError>
    ensures { OnOk result
        (string_bytes text.new ≡ string_bytes text.old ++ tick_rule frame.now top bottom stretch) }
{
    let x = frame.x_of(stretch.first);
    write!(text, "<path class='g' d='M{x} {top}V{bottom}'/>\n")
}

fn push_rules_of(
    text: &mut String,
    frame: &Frame,
    top: u64,
    bottom: u64,
    stretches: &[Stretch<u32>],
) -> Result<(), AllocError>
    ensures { OnOk result
        (string_bytes text.new
        ≡ string_bytes text.old ++ flat_map (tick_rule frame.now top bottom) stretches.now) }
{
    for stretch in stretches {
        push_rule(text, frame, top, bottom, *stretch)?;
    }
    Ok(())
}

/// Rules each tick, where the columns stand for ticks or for time.
#[tactic(auto, unfolding(crate::specs::Axis::tick_rules))]
pub(crate) fn push_rules(
    alloc: Global,
    text: &mut String,
    frame: &Frame,
    top: u64,
    bottom: u64,
    looks: &[Look],
) -> Result<(), AllocError>
    requires { frame.now.first + length looks.now ≤ 2 ^ 32 }
    ensures { OnOk result
        (string_bytes text.new
        ≡ string_bytes text.old ++ tick_rules frame.now top bottom looks.now) }
{
    match frame.axis {
        Axis::Places => Ok(()),
        Axis::Ticks | Axis::Time => {
            let stretches = tick_stretches(alloc, frame.first, looks)?;
            push_rules_of(text, frame, top, bottom, stretches.as_slice())
        }
    }
}

/// Writes the axis.
#[tactic(auto, unfolding(crate::specs::Axis::axis_row))]
pub(crate) fn push_axis(
    alloc: Global,
    text: &mut String,
    frame: &Frame,
    y: u64,
    looks: &[Look],
) -> Result<(), AllocError>
    requires y { y < 2 ^ 39 }
    requires few { frame.now.first + length looks.now ≤ 2 ^ 32 }
    requires some { length looks.now < 2 ^ 32 }
    ensures { OnOk result
        (string_bytes text.new ≡ string_bytes text.old ++ axis_row frame.now y looks.now) }
{
    push_name(text, y + 11, "place")?;
    push_places(alloc, text, frame, y + 11, looks.len() as u32)?;
    push_name(text, y + 27, "tick")?;
    let stretches = tick_stretches(alloc, frame.first, looks)?;
    push_ticks(alloc, text, frame, y + 16, stretches.as_slice())
}
