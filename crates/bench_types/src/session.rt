//! A session that was checked.
ghost use Rattle.std.specs.Prelude.{◌≡◌, ◌<◌, IfNone, IfOk, IfSome, length};
ghost use Rattle.bench_types.specs.Limits.{max_steps};
ghost use Rattle.bench_types.specs.Session.{IsCheckedSession, IsSession};

use crate::{Header, MAX_STEPS, Step};
use std::alloc::{AllocError, Global};
use std::marker::Model;

/// A header and steps that were checked, of which there are no more than a session may have.
#[derive(Debug, Drop)]
pub struct CheckedSession {
    header: Header,
    steps: Vec<Step>,
}

impl Model for CheckedSession {
    ghost use Rattle.bench_types.specs.Session.{IsCheckedSession, Session};

    ghost Value = { Session };

    ghost view = { λ it. record { header = it.header; steps = it.steps.items } };

    ghost invariant = { λ it.
        IsCheckedSession (record { header = it.header; steps = it.steps.items }) };
}

impl CheckedSession {
    /// The session of a header and steps that were checked; none where it has more steps than
    /// [`MAX_STEPS`].
    pub fn new(header: Header, steps: Vec<Step>) -> Option<CheckedSession>
        requires { IsSession (record { header = header; steps = steps.items }) }
        ensures session { IfSome result
            (λ session. session ≡ record { header = header; steps = steps.items }) }
        ensures long { IfNone result (max_steps < length steps.items) }
    {
        if steps.len() > MAX_STEPS as usize {
            return None;
        }
        Some(CheckedSession { header, steps })
    }

    /// What the session starts from.
    pub fn header(&self) -> &Header
        ensures header { result.now ≡ self.now.header }
        ensures checked { IsCheckedSession self.now }
    {
        &self.header
    }

    /// What is done in it.
    pub fn steps(&self) -> &[Step]
        ensures steps { result.now ≡ self.now.steps }
        ensures checked { IsCheckedSession self.now }
    {
        self.steps.as_slice()
    }

    /// A second value of the same session.
    pub fn copy(&self, alloc: Global) -> Result<CheckedSession, AllocError>
        ensures { IfOk result (λ copy. copy ≡ self.now) }
    {
        Ok(CheckedSession {
            header: self.header.copy(alloc)?,
            steps: Vec::from_slice(alloc, self.steps.as_slice())?,
        })
    }

    /// The header and the steps, for one who goes on with them.
    pub fn into_parts(self) -> (Header, Vec<Step>)
        ensures header { result.0 ≡ self.header }
        ensures steps { result.1.items ≡ self.steps }
        ensures checked { IsCheckedSession self }
    {
        let CheckedSession { header, steps } = self;
        (header, steps)
    }
}
