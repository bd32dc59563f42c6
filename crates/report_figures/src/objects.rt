//! Figures as JSON.
ghost use Rattle.std.specs.Prelude.{◌≡◌, ◌++◌, IfOk, OnOk, codes, false, fold, length, pos, string_bytes};
ghost use Rattle.list_orders.specs.Search.{numbers};
ghost use Rattle.serde_json.specs.View.{members_view, view};
ghost use Rattle.serde_json.specs.Written.{compact_text, has_float};
ghost use Rattle.report_figures.specs.Objects.{change_at, changes_data, figures_data, pair_data, places_data, run_data, run_json, run_object, run_object_in, runs_json, runs_object, runs_object_in, signed, values_data, with_change, with_place, with_value};

use crate::figures::{Figure, Part};
use crate::names::push_name;
use crate::table::{push_name_at, value_at};
use bench_types::Header;
use serde_json::{Map, Value, json, put};
use std::alloc::{AllocError, Global};

/// One run as a JSON text without spaces, and a line feed: the value of each figure, the place of
/// each longest stretch, and whether the run was settled.
#[tactic(auto, unfolding(crate::specs::Objects::run_json))]
pub fn run_json(
    alloc: Global,
    header: &Header,
    figures: &[Figure],
    settled: bool,
) -> Result<String, AllocError>
    ensures { IfOk result (λ text. string_bytes text ≡ run_json header.now figures.now settled) }
{
    let value = run_value(alloc, header, figures, settled)?;
    line_of(alloc, &value)
}

/// Two runs that have figures of the same names as a JSON text without spaces, and a line feed:
/// the figures of each, what the second has more, and whether the runs were settled.
#[tactic(auto, unfolding(crate::specs::Objects::runs_json))]
pub fn runs_json(
    alloc: Global,
    header: &Header,
    before: &[Figure],
    after: &[Figure],
    settled: bool,
) -> Result<String, AllocError>
    ensures { IfOk result
        (λ text. string_bytes text ≡ runs_json header.now before.now after.now settled) }
{
    let value = runs_value(alloc, header, before, after, settled)?;
    line_of(alloc, &value)
}

// The text of a value, and a line feed.
fn line_of(alloc: Global, value: &Value) -> Result<String, AllocError>
    requires { has_float (view value.now) ≡ false }
    ensures { IfOk result
        (λ text. string_bytes text ≡ compact_text (view value.now) ++ codes "\n") }
{
    let mut text = value.to_string(alloc)?;
    text.push_str("\n")?;
    Ok(text)
}

fn run_value(
    alloc: Global,
    header: &Header,
    figures: &[Figure],
    settled: bool,
) -> Result<Value, AllocError>
    ensures { IfOk result (λ value. view value ≡ run_data header.now figures.now settled) }
{
    let places = places_value(alloc, header, figures)?;
    let values = values_value(alloc, header, figures)?;
    match header.config.units {
        1 => run_object(alloc, places, settled, values),
        units => run_object_in(alloc, units, places, settled, values),
    }
}

fn run_object(
    alloc: Global,
    places: Value,
    settled: bool,
    values: Value,
) -> Result<Value, AllocError>
    ensures { IfOk result
        (λ value. view value ≡ run_object (view places) settled (view values)) }
{
    json!(in alloc; {"places": places, "settled": settled, "values": values})
}

fn run_object_in(
    alloc: Global,
    units: u32,
    places: Value,
    settled: bool,
    values: Value,
) -> Result<Value, AllocError>
    ensures { IfOk result
        (λ value. view value ≡ run_object_in units (view places) settled (view values)) }
{
    json!(in alloc; {"places": places, "settled": settled, "units": units, "values": values})
}

fn runs_value(
    alloc: Global,
    header: &Header,
    before: &[Figure],
    after: &[Figure],
    settled: bool,
) -> Result<Value, AllocError>
    ensures { IfOk result
        (λ value. view value ≡ pair_data header.now before.now after.now settled) }
{
    let second = figures_value(alloc, header, after)?;
    let first = figures_value(alloc, header, before)?;
    let changes = changes_value(alloc, header, before, after)?;
    match header.config.units {
        1 => runs_object(alloc, second, first, changes, settled),
        units => runs_object_in(alloc, units, second, first, changes, settled),
    }
}

fn runs_object(
    alloc: Global,
    after: Value,
    before: Value,
    change: Value,
    settled: bool,
) -> Result<Value, AllocError>
    ensures { IfOk result
        (λ value. view value ≡ runs_object (view after) (view before) (view change) settled) }
{
    json!(in alloc; {"after": after, "before": before, "change": change, "settled": settled})
}

fn runs_object_in(
    alloc: Global,
    units: u32,
    after: Value,
    before: Value,
    change: Value,
    settled: bool,
) -> Result<Value, AllocError>
    ensures { IfOk result
        (λ value. view value
        ≡ runs_object_in units (view after) (view before) (view change) settled) }
{
    json!(in alloc; {
        "after": after,
        "before": before,
        "change": change,
        "settled": settled,
        "units": units
    })
}

fn figures_value(alloc: Global, header: &Header, figures: &[Figure]) -> Result<Value, AllocError>
    ensures { IfOk result (λ value. view value ≡ figures_data header.now figures.now) }
{
    let places = places_value(alloc, header, figures)?;
    let values = values_value(alloc, header, figures)?;
    json!(in alloc; {"places": places, "values": values})
}

fn values_value(alloc: Global, header: &Header, figures: &[Figure]) -> Result<Value, AllocError>
    ensures { IfOk result (λ value. view value ≡ values_data header.now figures.now) }
{
    let mut object = Map::new(alloc);
    for figure in figures {
        put_value(&mut object, alloc, header, *figure)?;
    }
    Ok(Value::Object(object))
}

fn put_value(
    object: &mut Map<String, Value>,
    alloc: Global,
    header: &Header,
    figure: Figure,
) -> Result<(), AllocError>
    ensures { OnOk result (members_view object.new.entries
        ≡ with_value header.now (members_view object.old.entries) figure) }
{
    let mut name = String::new(alloc);
    push_name(&mut name, header, figure.subject, figure.part)?;
    put(object, alloc, name.as_str(), Value::from(figure.value))
}

fn places_value(alloc: Global, header: &Header, figures: &[Figure]) -> Result<Value, AllocError>
    ensures { IfOk result (λ value. view value ≡ places_data header.now figures.now) }
{
    let mut object = Map::new(alloc);
    for figure in figures {
        put_place(&mut object, alloc, header, *figure)?;
    }
    Ok(Value::Object(object))
}

fn put_place(
    object: &mut Map<String, Value>,
    alloc: Global,
    header: &Header,
    figure: Figure,
) -> Result<(), AllocError>
    ensures { OnOk result (members_view object.new.entries
        ≡ with_place header.now (members_view object.old.entries) figure) }
{
    match (figure.part, figure.from) {
        (Part::Longest, Some(place)) => {
            let mut name = String::new(alloc);
            push_name(&mut name, header, figure.subject, figure.part)?;
            put(object, alloc, name.as_str(), Value::from(place))
        }
        _ => Ok(()),
    }
}

fn changes_value(
    alloc: Global,
    header: &Header,
    before: &[Figure],
    after: &[Figure],
) -> Result<Value, AllocError>
    ensures { IfOk result
        (λ value. view value ≡ changes_data header.now before.now after.now) }
{
    let mut object = Map::new(alloc);
    for index in 0..before.len() {
        put_change(&mut object, alloc, header, before, after, index)?;
    }
    Ok(Value::Object(object))
}

fn put_change(
    object: &mut Map<String, Value>,
    alloc: Global,
    header: &Header,
    before: &[Figure],
    after: &[Figure],
    index: usize,
) -> Result<(), AllocError>
    ensures { OnOk result (members_view object.new.entries
        ≡ with_change header.now before.now after.now (members_view object.old.entries) index) }
{
    let mut name = String::new(alloc);
    push_name_at(&mut name, header, before, index)?;
    put(
        object,
        alloc,
        name.as_str(),
        Value::from(change_at(before, after, index)),
    )
}

// The value, or the greatest one that has a sign.
fn signed(value: u64) -> i64
    ensures { result ≡ pos (signed value) }
{
    value.min(i64::MAX as u64) as i64
}

// What the second run has more, less than 0 where it has less.
fn change_at(before: &[Figure], after: &[Figure], index: usize) -> i64
    ensures { result ≡ change_at before.now after.now index }
{
    signed(value_at(after, index)) - signed(value_at(before, index))
}
