//! A device that has room for what is written, and what is expected of it.
use std::fmt::Debug;
use std::io::{self, Write};
use std::process::Abort;

const MAX_OUTPUT: usize = 4096;

/// What was made is what was wanted. Tests call this, since each `assert_eq!` is dear to prove
/// where it stands.
pub(crate) fn expect_same<T>(rt: &impl Abort, what: &str, made: T, wanted: T)
where
    T: Copy + Debug + PartialEq,
{
    assert_eq!(rt; made, wanted, "{what}");
}

/// It is so.
pub(crate) fn expect(rt: &impl Abort, what: &str, is_so: bool) {
    assert!(rt; is_so, "{what}");
}

/// Takes so many bytes at a write, and has room for so many. It asks for no memory, and counts how
/// often it is flushed.
#[derive(Drop)]
pub(crate) struct Sink {
    bytes: [u8; MAX_OUTPUT],
    count: usize,
    piece: usize,
    room: usize,
    // How a write fails where there is no room; or it takes no byte.
    failure: Option<io::ErrorKind>,
    pub(crate) flushes: usize,
}

impl Sink {
    /// Where there is no room a write fails like this, or it takes no byte.
    pub(crate) fn new(piece: usize, room: usize, failure: Option<io::ErrorKind>) -> Self {
        Sink {
            bytes: [0; MAX_OUTPUT],
            count: 0,
            piece,
            room: room.min(MAX_OUTPUT),
            failure,
            flushes: 0,
        }
    }

    /// Takes as much as there is, at once.
    pub(crate) fn wide() -> Self {
        Sink::new(MAX_OUTPUT, MAX_OUTPUT, None)
    }

    pub(crate) fn taken(&self) -> &[u8] {
        &self.bytes[..self.count.min(MAX_OUTPUT)]
    }

    /// It took this text and no more.
    pub(crate) fn expect(&self, rt: &impl Abort, wanted: &str) {
        assert_eq!(rt; self.taken(), wanted.as_bytes());
    }
}

impl Write for Sink {
    fn write(&mut self, buf: &[u8]) -> io::Result<usize> {
        let start = self.count.min(self.room.min(MAX_OUTPUT));
        let count = buf
            .len()
            .min(self.piece)
            .min(self.room.min(MAX_OUTPUT) - start);
        if count == 0 {
            if let Some(kind) = self.failure {
                return Err(io::Error::from(kind));
            }
        }
        self.bytes[start..start + count].copy_from_slice(&buf[..count]);
        self.count = start + count;
        Ok(count)
    }

    fn flush(&mut self) -> io::Result<()> {
        self.flushes = self.flushes.saturating_add(1);
        Ok(())
    }
}
