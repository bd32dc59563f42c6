//! The places at which a run is not known, drawn paler than the others.
ghost use Rattle.std.specs.Prelude.{◌≡◌, ◌++◌, ◌+◌, ◌≤◌, ◌^◌, OnOk, string_bytes};
ghost use Rattle.run_pictures.specs.Shown.{shown, IsNumbered};
ghost use Rattle.run_pictures.specs.Unknown.{edge_from, edge_text, is_pale, pale_from, pale_parts, pale_text, unknown_in, unknown_title, veil_corner, veil_size, veil_text, veil_told};

use crate::frame::Frame;
use crate::panel::Panel;
use crate::style::UNKNOWN_STYLE;
use std::alloc::AllocError;

// The first place that is pale, where a run is not known from that place on.
fn pale_from(frame: &Frame, place: u32) -> u32
    ensures { result ≡ pale_from frame.now place }
{
    place.max(frame.first)
}

// Whether one of so many places that are shown is pale then.
fn is_pale(frame: &Frame, count: u32, place: u32) -> bool
    ensures { result ≡ is_pale frame.now count place }
{
    u64::from(pale_from(frame, place)) < u64::from(frame.first) + u64::from(count)
}

/// From which place on the run is not known, where that makes a place that is shown pale.
pub(crate) fn unknown_in(panel: &Panel<'_>) -> Option<u32>
    requires { IsNumbered (shown panel.now) }
    ensures { result ≡ unknown_in (shown panel.now) }
{
    let count = panel.run_looks.looks.as_slice().len() as u32;
    match panel.known {
        Some(place) if is_pale(&panel.frame, count, place) => Some(place),
        _ => None,
    }
}

#[tactic(auto, unfolding(crate::specs::Unknown::unknown_title))]
fn push_title(text: &mut String, place: u32) -> Result<(), AllocError>
    ensures { OnOk result (string_bytes text.new ≡ string_bytes text.old ++ unknown_title place) }
{
    write!(text, "<title>not known from place {place} on</title>")
}

// As wide as the places from the one to the other.
#[tactic(auto, unfolding(crate::specs::Unknown::veil_size))]
fn push_veil_size(
    text: &mut String,
    frame: &Frame,
    from: u32,
    last: u32,
    height: u64,
) -> Result<(), AllocError>
    ensures { OnOk result
        (string_bytes text.new ≡ string_bytes text.old ++ veil_size frame.now from last height) }
{
    let width = frame.width_between(from, last);
    write!(text, " width='{width}' height='{height}'/>")
}

// So far from the left and from the top.
#[tactic(auto, unfolding(crate::specs::Unknown::veil_corner))]
fn push_veil_corner(text: &mut String, x: u64, top: u64) -> Result<(), AllocError>
    ensures { OnOk result (string_bytes text.new ≡ string_bytes text.old ++ veil_corner x top) }
{
    write!(text, "<rect class='b f' x='{x}' y='{top}'")
}

// The ground over the bars of the places from the one to the other.
#[tactic(auto, unfolding(crate::specs::Unknown::veil_text))]
fn push_veil(
    text: &mut String,
    frame: &Frame,
    from: u32,
    last: u32,
    top: u64,
    height: u64,
) -> Result<(), AllocError>
    ensures { OnOk result
        (string_bytes text.new
        ≡ string_bytes text.old ++ veil_text frame.now from last top height) }
{
    push_veil_corner(text, frame.x_of(from), top)?;
    push_veil_size(text, frame, from, last, height)
}

// A dashed line through all rows, where the place begins.
#[tactic(auto, unfolding(crate::specs::Unknown::edge_text))]
fn push_edge(
    text: &mut String,
    frame: &Frame,
    place: u32,
    top: u64,
    height: u64,
) -> Result<(), AllocError>
    ensures { OnOk result
        (string_bytes text.new ≡ string_bytes text.old ++ edge_text frame.now place top height) }
{
    let x = frame.x_of(place);
    write!(text, "<path class='y' d='M{x} {top}v{height}'/>")
}

// The line, unless the place lies before the first one that is shown.
fn push_edge_from(
    text: &mut String,
    frame: &Frame,
    place: u32,
    top: u64,
    height: u64,
) -> Result<(), AllocError>
    ensures { OnOk result
        (string_bytes text.new ≡ string_bytes text.old ++ edge_from frame.now place top height) }
{
    if frame.first <= place {
        push_edge(text, frame, place, top, height)?;
    }
    Ok(())
}

// What is told on hover, and the ground over those of so many places from which on the run is not
// known.
#[tactic(auto, unfolding(crate::specs::Unknown::veil_told))]
fn push_veil_told(
    text: &mut String,
    frame: &Frame,
    count: u32,
    place: u32,
    top: u64,
    height: u64,
) -> Result<(), AllocError>
    requires { frame.now.first + count ≤ 2 ^ 32 }
    ensures { OnOk result
        (string_bytes text.new
        ≡ string_bytes text.old ++ veil_told frame.now count place top height) }
{
    push_title(text, place)?;
    let last = frame.first + count.saturating_sub(1);
    push_veil(text, frame, pale_from(frame, place), last, top, height)
}

// The same, and the line.
#[tactic(auto, unfolding(crate::specs::Unknown::pale_parts))]
fn push_pale_parts(
    text: &mut String,
    frame: &Frame,
    count: u32,
    place: u32,
    top: u64,
    height: u64,
) -> Result<(), AllocError>
    requires { frame.now.first + count ≤ 2 ^ 32 }
    ensures { OnOk result
        (string_bytes text.new
        ≡ string_bytes text.old ++ pale_parts frame.now count place top height) }
{
    push_veil_told(text, frame, count, place, top, height)?;
    push_edge_from(text, frame, place, top, height)
}

/// Makes those of so many places pale from which on the run is not known, over so many pixels below
/// the top.
#[tactic(auto, unfolding(crate::specs::Unknown::pale_text))]
pub(crate) fn push_pale(
    text: &mut String,
    frame: &Frame,
    count: u32,
    place: u32,
    top: u64,
    height: u64,
) -> Result<(), AllocError>
    requires { frame.now.first + count ≤ 2 ^ 32 }
    ensures { OnOk result
        (string_bytes text.new
        ≡ string_bytes text.old ++ pale_text frame.now count place top height) }
{
    text.push_str(UNKNOWN_STYLE)?;
    text.push_str("<g>")?;
    push_pale_parts(text, frame, count, place, top, height)?;
    text.push_str("</g>\n")
}
