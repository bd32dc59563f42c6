//! A name that an input gave, as people are told of it.
ghost use Rattle.std.specs.Prelude.{◌≡◌, ◌++◌, ◌∷◌, [], map, OnOk, string_bytes};
ghost use Rattle.text_locations.specs.Quoted.{quoted_byte};

use std::alloc::AllocError;

/// The longest name that is told, in bytes.
pub(crate) const MAX_QUOTED: usize = 64;

/// The name by its printable ASCII; each other byte is `?`.
pub(crate) fn push_quoted(text: &mut String, name: &str) -> Result<(), AllocError>
    ensures { OnOk result
        (string_bytes text.new ≡ string_bytes text.old ++ map quoted_byte name.now) }
{
    for byte in name.as_bytes() {
        push_byte(text, *byte)?;
    }
    Ok(())
}

fn push_byte(text: &mut String, byte: u8) -> Result<(), AllocError>
    ensures { OnOk result (string_bytes text.new ≡ string_bytes text.old ++ quoted_byte byte ∷ []) }
{
    if byte >= b' ' && byte <= b'~' {
        text.push(byte as char)
    } else {
        text.push('?')
    }
}
