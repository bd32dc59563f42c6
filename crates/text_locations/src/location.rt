//! A location in a text, by its line and its column.
ghost use Rattle.std.specs.Prelude.{◌≡◌, ◌≤◌, length};
ghost use Rattle.text_locations.specs.Location.{location_after, location_at};

/// A location in a text. Lines and columns count from 1, and a column counts bytes.
#[derive(Clone, Copy, Debug, PartialEq, Eq)]
pub struct TextLocation {
    pub line: usize,
    pub column: usize,
}

/// The location of the byte at that offset.
pub(crate) fn location_at(text: &[u8], offset: usize) -> TextLocation
    requires { offset ≤ length text.now }
    ensures { result ≡ location_at text.now offset }
{
    location_after(&text[..offset])
}

fn location_after(before: &[u8]) -> TextLocation
    ensures { result ≡ location_after before.now }
{
    let mut location = TextLocation { line: 1, column: 1 };
    for byte in before {
        if *byte == b'\n' {
            location.line += 1;
            location.column = 1;
        } else {
            location.column += 1;
        }
    }
    location
}
