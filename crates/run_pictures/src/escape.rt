//! Words as text of XML.
ghost use Rattle.std.specs.Prelude.{◌≡◌, ◌++◌, ℕ, List, OnOk, flat_map, string_bytes, true};
ghost use Rattle.std.specs.List.{list_all};
ghost use Rattle.run_pictures.specs.Escape.{escaped, is_no_mark};

use std::alloc::AllocError;

fn push_byte(text: &mut String, byte: u8) -> Result<(), AllocError>
    ensures { OnOk result (string_bytes text.new ≡ string_bytes text.old ++ escaped byte) }
{
    match byte {
        b'&' => text.push_str("&amp;"),
        b'<' => text.push_str("&lt;"),
        b'>' => text.push_str("&gt;"),
        b'"' => text.push_str("&quot;"),
        b'\'' => text.push_str("&#39;"),
        _ if byte < 128 => text.push(byte as char),
        _ => text.push_str("?"),
    }
}

/// Writes the bytes of words, each as XML has it.
pub fn push_escaped_bytes(text: &mut String, words: &[u8]) -> Result<(), AllocError>
    ensures { OnOk result
        (string_bytes text.new ≡ string_bytes text.old ++ flat_map escaped words.now) }
{
    for byte in words {
        push_byte(text, *byte)?;
    }
    Ok(())
}

/// Writes the words, each byte as XML has it.
pub fn push_escaped(text: &mut String, words: &str) -> Result<(), AllocError>
    ensures { OnOk result
        (string_bytes text.new ≡ string_bytes text.old ++ flat_map escaped words.now) }
{
    push_escaped_bytes(text, words.as_bytes())
}

/// No word ends an element or begins one. It does nothing: its contract is the law.
pub fn law_of_escapes()
    ensures { (words : List ℕ) → list_all is_no_mark (flat_map escaped words) ≡ true }
{}
