//! Documents, each with its first member that stands twice.
ghost use Rattle.std.specs.Prelude.{◌≡◌, IfOk};
ghost use Rattle.json_data.specs.Doubled.{first_doubled};
ghost use Rattle.json_data.specs.View.{tokens_view};
ghost use Rattle.session_text.specs.Noted.{doubled_view};

use json_data::Document;
use std::alloc::{AllocError, Global};

/// A document that was read, and its first member that stands twice, where there is one.
#[derive(Debug, Drop)]
pub struct Noted<T> {
    pub document: T,
    pub doubled: Option<DoubledMember>,
}

/// A member whose name an earlier member of its object has too.
#[derive(Debug, Drop)]
pub struct DoubledMember {
    pub name: String,
    /// The index of the token of its name, among the tokens of the text: each bracket, key, string,
    /// number and word is one.
    pub token: usize,
}

/// The first member of the document that stands twice.
pub(crate) fn doubled_member(
    alloc: Global,
    document: &Document<'_>,
) -> Result<Option<DoubledMember>, AllocError>
    ensures { IfOk result
        (λ member. doubled_view member ≡ first_doubled (tokens_view document.now)) }
{
    match document.doubled(alloc)? {
        Some(doubled) => {
            let name = String::from_str(alloc, doubled.name)?;
            Ok(Some(DoubledMember {
                name,
                token: doubled.token,
            }))
        }
        None => Ok(None),
    }
}
