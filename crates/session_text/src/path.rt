//! The path of a value in a document.
ghost use Rattle.std.specs.Prelude.{◌≡◌, [], IfOk, string_bytes};
ghost use Rattle.session_text.specs.Path.{path_of, path_text};

use std::alloc::{AllocError, Global};
use std::marker::Model;

/// The location of a fault as a text, such as `steps[3].core`.
#[derive(Debug, Drop)]
pub struct Path {
    text: Option<String>,
}

impl Model for Path {
    ghost use Rattle.std.specs.Prelude.{List, ℕ};
    ghost use Rattle.session_text.specs.Path.{bytes_of};

    ghost Value = { List ℕ };

    ghost view = { λ path. bytes_of path.text };
}

impl Path {
    /// The empty text, which takes no memory.
    pub fn empty() -> Self
        ensures { result ≡ [] }
    {
        Path { text: None }
    }

    /// The members and indices down to the location, as `steps[3].core`, or `top` for the outermost
    /// value; empty where the fault has no location.
    pub fn as_str(&self) -> &str
        ensures { result.now ≡ self.now }
    {
        match &self.text {
            Some(text) => text.as_str(),
            None => "",
        }
    }
}

/// A value's location in a document, as a chain on the stack that reaches up to the top.
///
/// It is made into a text at a fault alone.
#[derive(Clone, Copy)]
pub enum Location<'a> {
    Top,
    Member(&'a Location<'a>, &'a str),
    Item(&'a Location<'a>, usize),
}

impl Location<'_> {
    /// The text that a fault at this location carries.
    pub fn to_path(&self, alloc: Global) -> Result<Path, AllocError>
        ensures { IfOk result (λ path. path ≡ path_text (path_of self.now)) }
    {
        let mut text = self.spell(alloc)?;
        if text.is_empty() {
            text.push_str("top")?;
        }
        Ok(Path { text: Some(text) })
    }

    fn spell(&self, alloc: Global) -> Result<String, AllocError>
        ensures { IfOk result (λ text. string_bytes text ≡ path_of self.now) }
    {
        match self {
            Location::Top => Ok(String::new(alloc)),
            Location::Member(parent, name) => {
                let mut text = parent.spell(alloc)?;
                if !text.is_empty() {
                    text.push_str(".")?;
                }
                text.push_str(name)?;
                Ok(text)
            }
            Location::Item(parent, index) => {
                let mut text = parent.spell(alloc)?;
                write!(text, "[{index}]")?;
                Ok(text)
            }
        }
    }
}
