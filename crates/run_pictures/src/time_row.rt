//! The row that tells the time before places, where a tick has more than one unit.
ghost use Rattle.std.specs.Prelude.{◌≡◌, ◌++◌, ◌+◌, ◌<◌, ◌≤◌, ◌^◌, OnOk, slice_index_or, string_bytes};
ghost use Rattle.run_pictures.specs.TimeRow.{time_height, time_labels, time_name, time_row, units_words};

use crate::axis::push_number;
use crate::frame::Frame;
use bench_types::Header;
use std::alloc::{AllocError, Global};

/// How many pixels the row takes from top to bottom.
pub(crate) fn time_height(header: &Header) -> u64
    ensures value { result ≡ time_height header.now }
    ensures few { result ≤ 28 }
{
    match header.config.units {
        1 => 0,
        _ => 28,
    }
}

#[tactic(auto, unfolding(crate::specs::TimeRow::units_words))]
fn push_units_words(text: &mut String, units: u32) -> Result<(), AllocError>
    ensures { OnOk result (string_bytes text.new ≡ string_bytes text.old ++ units_words units) }
{
    write!(text, "{units} a tick</tspan></text>\n")
}

#[tactic(auto, unfolding(crate::specs::TimeRow::time_name))]
fn push_time_name(text: &mut String, y: u64, units: u32) -> Result<(), AllocError>
    ensures { OnOk result
        (string_bytes text.new ≡ string_bytes text.old ++ time_name y units) }
{
    write!(
        text,
        "<text x='8' y='{y}'>time in units, <tspan x='8' dy='13'>"
    )?;
    push_units_words(text, units)
}

fn time_at(times: &[u64], place: u32) -> u64
    ensures { result ≡ slice_index_or times.now place 0 }
{
    match times.get(place as usize) {
        Some(time) => *time,
        None => 0,
    }
}

fn push_times(
    alloc: Global,
    text: &mut String,
    frame: &Frame,
    y: u64,
    times: &[u64],
    count: u32,
) -> Result<(), AllocError>
    requires { frame.now.first + count ≤ 2 ^ 32 }
    ensures { OnOk result
        (string_bytes text.new
        ≡ string_bytes text.old ++ time_labels frame.now y times.now count) }
{
    for k in 0..count {
        let place = frame.first + k;
        push_number(alloc, text, frame, y, place, time_at(times, place))?;
    }
    Ok(())
}

/// Writes the row, where a tick has more than one unit.
#[tactic(auto, unfolding(crate::specs::TimeRow::time_row))]
pub(crate) fn push_time_row(
    alloc: Global,
    text: &mut String,
    header: &Header,
    frame: &Frame,
    y: u64,
    times: &[u64],
    count: u32,
) -> Result<(), AllocError>
    requires y { y + 24 < 2 ^ 64 }
    requires few { frame.now.first + count ≤ 2 ^ 32 }
    ensures { OnOk result
        (string_bytes text.new
        ≡ string_bytes text.old ++ time_row header.now frame.now y times.now count) }
{
    match header.config.units {
        1 => Ok(()),
        units => {
            push_time_name(text, y + 11, units)?;
            push_times(alloc, text, frame, y + 24, times, count)
        }
    }
}
