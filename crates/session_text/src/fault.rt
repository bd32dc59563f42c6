//! Why a text is not read, and where.
ghost use Rattle.std.specs.Prelude.{◌≡◌, []};
ghost use Rattle.session_text.specs.declared.detail.Detail.TheVariants as detail;
ghost use Rattle.session_text.specs.declared.fault.ReadFault.TheVariants.{Memory};
ghost use Rattle.session_text.specs.Accepted.{header_fault};
ghost use Rattle.session_text.specs.ReadingRules.{known, StopsAt};
ghost use Rattle.session_text.specs.Path.{path_of, path_text};
ghost use Rattle.session_text.specs.Session.{fault_of};

use crate::detail::Detail;
use crate::path::{Location, Path};
use bench_types::{Fault, HeaderFlaw};
use json_data::Refused;
use std::alloc::{AllocError, AllocFailed, Global};
use std::error::Error as StdError;
use std::fmt;
use thiserror::Error;

/// Why a text was not read, with the code that the output gives it.
#[derive(Clone, Copy, Debug, PartialEq, Eq, Hash, Error)]
pub enum Why {
    /// H1: the bytes are no JSON text.
    #[error("the text is no JSON")]
    NotJson,
    /// H2: a member is missing, ill-typed or unknown.
    #[error("a member is missing, of another type or unknown")]
    BadShape,
    /// F1 to F5: the header, a step or an edit is at fault.
    #[error(transparent)]
    Bench(Fault),
    /// Memory ran out. Nothing is said of the text.
    #[error("out of memory")]
    NoMemory,
}

/// The first fault of a text, and where it is.
#[derive(Debug, Drop)]
pub struct TextFault {
    pub why: Why,
    /// Empty for H1, for F1 of the header, and where memory ran out.
    pub path: Path,
    /// Said of H2, and of F1 to F5.
    pub detail: Detail,
}

impl fmt::Display for TextFault {
    fn fmt<W: fmt::Write>(&self, f: &mut fmt::Formatter<W>) -> fmt::Result {
        match self.path.as_str() {
            "" => write!(f, "{}", self.why),
            path => write!(f, "{path}: {}", self.why),
        }
    }
}

impl StdError for TextFault {}

/// What ends a reading early.
#[derive(Debug, Drop)]
pub enum ReadFault {
    Memory,
    /// It lies on the heap, so that what a reading gives is small.
    Fault(Box<TextFault>),
}

impl ReadFault {
    /// The fault, or that no memory is left for it.
    #[cold]
    pub fn of(alloc: Global, fault: TextFault) -> ReadFault
        ensures { StopsAt fault result }
    {
        match Box::new(alloc, fault) {
            Ok(fault) => ReadFault::Fault(fault),
            Err(_) => ReadFault::Memory,
        }
    }

    /// The fault at the location, or that no memory is left for its path.
    #[cold]
    pub fn at(alloc: Global, location: &Location<'_>, why: Why, detail: Detail) -> ReadFault
        ensures { StopsAt
            (record { why = why; path = path_text (path_of location.now); detail = detail })
            result }
    {
        match location.to_path(alloc) {
            Ok(path) => ReadFault::of(alloc, TextFault { why, path, detail }),
            Err(_) => ReadFault::Memory,
        }
    }

    /// F1 of the header of the session at the location, or that no memory is left for that path.
    #[cold]
    pub fn of_header(alloc: Global, session: &Location<'_>, flaw: HeaderFlaw) -> ReadFault
        ensures { StopsAt (header_fault (path_of session.now) flaw) result }
    {
        match session.to_path(alloc) {
            Ok(session) => {
                let fault = TextFault {
                    why: Why::Bench(Fault::BadHeader),
                    path: Path::empty(),
                    detail: Detail::Header { flaw, session },
                };
                ReadFault::of(alloc, fault)
            }
            Err(_) => ReadFault::Memory,
        }
    }
}

impl TextFault {
    // What is told at no place of the text, and with no more words.
    fn of_text(why: Why) -> TextFault
        ensures { result ≡ record { why = why; path = []; detail = detail.None } }
    {
        TextFault {
            why,
            path: Path::empty(),
            detail: Detail::None,
        }
    }

    /// What is told where there is no document.
    pub(crate) fn of_refused(refused: Refused) -> TextFault
        ensures { result ≡ fault_of refused }
    {
        match refused {
            Refused::NotJson => TextFault::of_text(Why::NotJson),
            Refused::NoMemory => TextFault::of_text(Why::NoMemory),
        }
    }
}

impl From<ReadFault> for TextFault {
    ghost from_gives = { λ stop fault. fault ≡ known stop };

    fn from(stop: ReadFault) -> TextFault {
        match stop {
            ReadFault::Memory => TextFault::of_text(Why::NoMemory),
            ReadFault::Fault(fault) => Box::into_inner(fault),
        }
    }
}

impl From<AllocError> for ReadFault {
    ghost from_gives = { λ _ stop. stop ≡ Memory };

    fn from(_refused: AllocError) -> ReadFault {
        ReadFault::Memory
    }
}

impl<T: Drop> From<AllocFailed<T>> for ReadFault {
    ghost from_gives = { λ _ stop. stop ≡ Memory };

    fn from(_refused: AllocFailed<T>) -> ReadFault {
        ReadFault::Memory
    }
}
