//! Names of tasks.
ghost use Rattle.std.specs.Prelude.{◌≡◌, IsTrue, Ok, Err, if◌then◌else◌, length};
ghost use Rattle.std.specs.List.{list_all};
ghost use Rattle.bench_types.specs.Limits.{max_name};
ghost use Rattle.bench_types.specs.Name.{is_name, is_name_byte, is_within};

use crate::{Fault, MAX_NAME};
use arrayvec::ArrayString;
use std::marker::Model;

/// The name of a user task: 1 to [`MAX_NAME`] bytes, each from `!` to `~`, that do not begin with
/// `IDLE`, as those of the idle tasks do.
#[derive(Debug, Drop)]
pub struct Name {
    text: ArrayString<MAX_NAME>,
}

impl Model for Name {
    ghost use Rattle.std.specs.Prelude.{List, ℕ, IsTrue};

    ghost Value = { List ℕ };

    ghost use Rattle.bench_types.specs.Name.{is_name};

    ghost view = { λ name. name.text.bytes };

    ghost invariant = { λ name. IsTrue (is_name name.text.bytes) };
}

impl Name {
    /// The name that the text spells, or F1 where it spells none.
    pub fn new(text: &str) -> Result<Self, Fault>
        ensures { result ≡ (if is_name text.now then Ok text.now else Err Fault.BadHeader) }
    {
        if !spells_name(text.as_bytes()) {
            return Err(Fault::BadHeader);
        }
        match ArrayString::from(text) {
            Ok(text) => Ok(Name { text }),
            Err(_) => unreachable!(),
        }
    }

    /// The name as text.
    pub fn as_str(&self) -> &str
        ensures text { result.now ≡ self.now }
        ensures name { IsTrue (is_name result.now) }
    {
        self.text.as_str()
    }

    /// A second value of the same name.
    pub fn copy(&self) -> Self
        ensures { result ≡ self.now }
    {
        Name { text: self.text }
    }
}

impl PartialEq for Name {
    ghost use Rattle.std.specs.Prelude.{bytes_eq};
    ghost use Rattle.std.specs.Cmp.{partial_equiv_from_equiv};
    ghost use Rattle.std.specs.Cmp.Lexicographic.{nat_list_eq_equiv};

    ghost eq = { bytes_eq };

    ghost laws = { partial_equiv_from_equiv nat_list_eq_equiv };

    fn eq(&self, other: &Self) -> bool {
        self.as_str() == other.as_str()
    }
}

impl Eq for Name {
    ghost use Rattle.std.specs.Cmp.Lexicographic.{nat_list_eq_equiv};

    ghost laws = { nat_list_eq_equiv };
}

pub(crate) fn spells_name(bytes: &[u8]) -> bool
    ensures { result ≡ is_name bytes.now }
{
    has_name_length(bytes) && is_printable(bytes) && !bytes.starts_with(b"IDLE")
}

fn has_name_length(bytes: &[u8]) -> bool
    ensures { result ≡ is_within 1 max_name (length bytes.now) }
{
    1 <= bytes.len() && bytes.len() <= MAX_NAME
}

fn is_printable(bytes: &[u8]) -> bool
    ensures { result ≡ list_all is_name_byte bytes.now }
{
    bytes.iter().all(|byte| b'!' <= *byte && *byte <= b'~')
}
