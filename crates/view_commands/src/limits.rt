//! Limits as a command line writes them: NAME=N.
ghost use Rattle.std.specs.Prelude.{◌≡◌, ◌++◌, ◌==◌, ◌&&◌, IfOk, OnOk, false, flat_map, if◌then◌else◌, length, option_map};
ghost use Rattle.report_figures.specs.declared.limits.Bound.TheVariants.{AtLeast, AtMost};
ghost use Rattle.std.specs.List.{list_all};
ghost use Rattle.view_commands.specs.Options.{is_limit, limit_parts, limits_from, number_behind};

use report_figures::Bound;
use session_reports::Wanted;
use std::alloc::{AllocError, Global};

// The name with the number that the digits write.
fn numbered<'a>(name: &'a str, digits: &str) -> Option<(&'a str, u64)>
    ensures { option_map (λ parts. (parts.0.now, parts.1)) result
        ≡ number_behind (name.now, digits.now) }
{
    match digits.parse::<u64>() {
        Ok(number) => Some((name, number)),
        Err(_) => None,
    }
}

// The name and the number of a limit.
fn limit_parts(text: &str) -> Option<(&str, u64)>
    ensures { option_map (λ parts. (parts.0.now, parts.1)) result ≡ limit_parts text.now }
{
    match text.rsplit_once('=') {
        Some((name, digits)) => numbered(name, digits),
        None => None,
    }
}

fn is_limit(text: &str) -> bool
    ensures { result ≡ is_limit text.now }
{
    limit_parts(text).is_some()
}

fn all_limits(texts: &[&str]) -> bool
    ensures { result ≡ list_all (λ text. is_limit text.now) texts.now }
{
    texts.iter().all(|text| is_limit(text))
}

/// Whether there are some, and each is written as a limit.
pub(crate) fn are_limits(most: &[&str], least: &[&str]) -> bool
    ensures { result
        ≡ (if length most.now == 0 && length least.now == 0 then false
        else (list_all (λ text. is_limit text.now) most.now
        && list_all (λ text. is_limit text.now) least.now)) }
{
    if most.len() == 0 && least.len() == 0 {
        return false;
    }
    all_limits(most) && all_limits(least)
}

// Adds that the value of this name may be at most so much.
fn push_most(alloc: Global, limits: &mut Vec<Wanted>, text: &str) -> Result<(), AllocError>
    ensures { OnOk result
        (limits.new.items ≡ limits.old.items ++ limits_from AtMost text.now) }
{
    if let Some((name, number)) = limit_parts(text) {
        limits.push(Wanted {
            name: String::from_str(alloc, name)?,
            bound: Bound::AtMost(number),
        })?;
    }
    Ok(())
}

// That it may be at least so much.
fn push_least(alloc: Global, limits: &mut Vec<Wanted>, text: &str) -> Result<(), AllocError>
    ensures { OnOk result
        (limits.new.items ≡ limits.old.items ++ limits_from AtLeast text.now) }
{
    if let Some((name, number)) = limit_parts(text) {
        limits.push(Wanted {
            name: String::from_str(alloc, name)?,
            bound: Bound::AtLeast(number),
        })?;
    }
    Ok(())
}

fn greatest_values(alloc: Global, texts: &[&str]) -> Result<Vec<Wanted>, AllocError>
    ensures { IfOk result
        (λ limits. limits.items
        ≡ flat_map (λ text. limits_from AtMost text.now) texts.now) }
{
    let mut limits = Vec::new(alloc);
    for text in texts {
        push_most(alloc, &mut limits, text)?;
    }
    Ok(limits)
}

/// The greatest values, then the least ones.
pub(crate) fn limits_in(
    alloc: Global,
    most: &[&str],
    least: &[&str],
) -> Result<Vec<Wanted>, AllocError>
    ensures { IfOk result
        (λ limits. limits.items
        ≡ flat_map (λ text. limits_from AtMost text.now) most.now
        ++ flat_map (λ text. limits_from AtLeast text.now) least.now) }
{
    let mut limits = greatest_values(alloc, most)?;
    for text in least {
        push_least(alloc, &mut limits, text)?;
    }
    Ok(limits)
}
