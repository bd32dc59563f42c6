//! How deep values nest, and which numbers are read.
ghost use Rattle.std.specs.Prelude.{◌≡◌, ◌<◌, ◌^◌, ◌==◌, true, false, map, is_some, length, option_and_then, slice_index, IfSome, Some};
ghost use Rattle.fast_float.specs.Text.{minus};
ghost use Rattle.json.specs.Tape.{node_token};
ghost use Rattle.serde_json.specs.Data.{unsigned};
ghost use Rattle.serde_json.specs.Read.{max_depth, number_from, number_of};
ghost use Rattle.serde_json.specs.Find.{as_u64};
ghost use Rattle.json_data.specs.Reading.{are_in_range, left_after};

use fast_float::Numeral;
use json::Node;

/// How deep arrays and objects nest at most, as in serde_json.
const MAX_DEPTH: usize = 127;

/// Whether serde_json reads what a JSON text holds: arrays and objects nest no deeper than it
/// allows, and no number is too large for it.
pub(crate) fn are_in_range(nodes: &[Node<'_>]) -> bool
    ensures { result ≡ are_in_range max_depth (map node_token nodes.now) }
{
    let mut left = MAX_DEPTH;
    for node in nodes {
        match left_after(left, node) {
            Some(now) => left = now,
            None => return false,
        }
    }
    true
}

/// How many arrays and objects may still open after the node.
fn left_after(left: usize, node: &Node<'_>) -> Option<usize>
    requires { left < 2 ^ 63 }
    ensures { result ≡ left_after left (node_token node.now) }
{
    match node {
        Node::Object(_) | Node::Array(_) => left.checked_sub(1),
        Node::EndObject | Node::EndArray => Some(left + 1),
        Node::Number(text) => is_in_range(text).then_some(left),
        _ => Some(left),
    }
}

/// The number that one digit writes, where the text is that; most numbers of sessions are.
#[inline(always)]
fn one_digit(bytes: &[u8]) -> Option<u64>
    ensures { IfSome result (λ value. number_of bytes.now ≡ Some (unsigned value)) }
{
    if bytes.len() != 1 {
        return None;
    }
    match bytes[0] {
        digit @ b'0'..=b'9' => Some((digit - b'0') as u64),
        _ => None,
    }
}

/// Whether the number that the text writes is one to serde_json.
#[tactic(auto, unfolding(serde_json::specs::Read::number_of))]
fn is_in_range(text: &str) -> bool
    ensures { result ≡ is_some (number_of text.now) }
{
    let bytes = text.as_bytes();
    if one_digit(bytes).is_some() {
        true
    } else if has_minus(bytes) {
        is_negative_in_range(&Numeral::scan(&bytes[1..]))
    } else {
        is_positive_in_range(&Numeral::scan(bytes))
    }
}

/// The whole number from 0 on that the text writes, where it has 64 bits and neither point nor
/// exponent.
#[tactic(auto, unfolding(serde_json::specs::Read::number_of))]
pub(crate) fn whole_number(text: &str) -> Option<u64>
    ensures { result ≡ option_and_then as_u64 (number_of text.now) }
{
    let bytes = text.as_bytes();
    match one_digit(bytes) {
        Some(number) => Some(number),
        None if has_minus(bytes) => None,
        None => Numeral::scan(bytes).to_u64(),
    }
}

fn has_minus(bytes: &[u8]) -> bool
    ensures value { result ≡ (slice_index bytes.now 0 == minus) }
    ensures len { result ≡ true → 0 < length bytes.now }
{
    !bytes.is_empty() && bytes[0] == b'-'
}

fn is_positive_in_range(numeral: &Numeral<'_>) -> bool
    ensures { result ≡ is_some (number_from false numeral.now) }
{
    numeral.to_u64().is_some() || numeral.to_float::<f64>(false).is_finite()
}

fn is_negative_in_range(numeral: &Numeral<'_>) -> bool
    ensures { result ≡ is_some (number_from true numeral.now) }
{
    match numeral.to_i64(true) {
        Some(number) if number < 0 => true,
        _ => numeral.to_float::<f64>(true).is_finite(),
    }
}
