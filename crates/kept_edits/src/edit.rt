//! Edits of a session whose run keeps work.
ghost use Rattle.std.specs.Prelude.{◌≡◌, IfOk};
ghost use Rattle.kept_edits.specs.Edits.{plain_edit, plain_edits};

use bench_types::Edit;
use std::alloc::{AllocError, Global};

/// How many units more, or fewer, a task works for a call.
#[derive(Clone, Copy, Debug, PartialEq, Eq, Hash)]
pub enum WorkChange {
    More(u32),
    /// But not fewer than none.
    Fewer(u32),
}

/// An edit of a session whose run keeps work.
#[derive(Clone, Copy, Debug, PartialEq, Eq, Hash)]
pub enum KeptEdit {
    /// An edit of the session.
    Plain(Edit),
    /// A change of the work of the call at this index of the list.
    Work { at: u32, change: WorkChange },
}

impl KeptEdit {
    /// The edit of the session, where it is one.
    pub fn plain(&self) -> Option<Edit>
        ensures { result ≡ plain_edit self.now }
    {
        match *self {
            KeptEdit::Plain(edit) => Some(edit),
            KeptEdit::Work { .. } => None,
        }
    }
}

/// The edits of the session, in their order.
pub fn plain_edits(alloc: Global, edits: &[KeptEdit]) -> Result<Vec<Edit>, AllocError>
    ensures { IfOk result (λ plain. plain.items ≡ plain_edits edits.now) }
{
    let mut plain = Vec::new(alloc);
    for edit in edits {
        if let Some(own) = edit.plain() {
            plain.push(own)?;
        }
    }
    Ok(plain)
}
