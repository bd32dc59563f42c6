//! The words for a member that stands twice in an object.
ghost use Rattle.std.specs.Prelude.{◌≡◌, ◌++◌, IfOk, OnOk, string_bytes};
ghost use Rattle.text_locations.specs.Quoted.{doubled_line, location_words, twice_words};

use crate::location::TextLocation;
use crate::quoted::{MAX_QUOTED, push_quoted};
use std::alloc::{AllocError, Global};

/// What people are told of a member that stands twice, a line: its name, and where it stands again.
pub fn doubled_line(
    alloc: Global,
    name: &str,
    location: Option<TextLocation>,
) -> Result<String, AllocError>
    ensures { IfOk result (λ line. string_bytes line ≡ doubled_line name.now location) }
{
    let mut line = String::new(alloc);
    push_twice(&mut line, name)?;
    push_location(&mut line, location)?;
    line.push_str("\n")?;
    Ok(line)
}

fn push_twice(line: &mut String, name: &str) -> Result<(), AllocError>
    ensures { OnOk result (string_bytes line.new ≡ string_bytes line.old ++ twice_words name.now) }
{
    if name.len() > MAX_QUOTED {
        return line.push_str("a member with a long name stands twice, and the last one counts");
    }
    line.push_str("the member \"")?;
    push_quoted(line, name)?;
    line.push_str("\" stands twice, and the last one counts")
}

fn push_location(line: &mut String, location: Option<TextLocation>) -> Result<(), AllocError>
    ensures { OnOk result
        (string_bytes line.new ≡ string_bytes line.old ++ location_words location) }
{
    match location {
        Some(location) => {
            let line_number = location.line;
            let column = location.column;
            write!(line, ": line {line_number}, column {column}")
        }
        None => Ok(()),
    }
}
