//! Words of a command line.
use std::alloc::{AllocError, Global};
use std::env::Args;

/// The words of the line, as the system hands them over.
pub(crate) fn args_of(alloc: Global, line: &str) -> Result<Args, AllocError> {
    let mut words = Vec::new(alloc);
    for word in line.split(' ') {
        words.push(String::from_str(alloc, word)?)?;
    }
    Ok(words.into_iter())
}
