//! Readers and writers that count what failed, and keep why the last write did.
ghost use Rattle.std.specs.Prelude.{◌≡◌, ◌+◌, ◌-◌, ◌^◌, min, length, is_ok, refl, Some, None};
ghost use Rattle.std.specs.Io.{ReadsAtMost, WritesAtMost};
ghost use Rattle.std.specs.Io.KnownBytes.{Keeps, ReadConsumes, WriteAppends};
ghost use Rattle.program_io.specs.Device.{DeviceState, device, failures_after, later_fault, one_more, took_some, write_fault, written_device};

use crate::writing::{WriteFault, fault_of};
use std::io;
use std::io::{Read, Write};

/// A reader that counts the reads that failed.
pub trait CountedRead: Read {
    // What is seen of it: what reads will give, where that is known, and how many reads failed.
    ghost seen: { Self → DeviceState };

    /// How many reads failed, at most `u64::MAX`.
    fn failures(&self) -> u64
        ensures { result ≡ (seen self.now).failures };

    /// One read of the device, which is counted where it fails, interrupted ones too.
    fn read_counted(&mut self, buf: &mut [u8]) -> io::Result<usize>
        ensures bound { ReadsAtMost result buf.new }
        ensures bytes { ReadConsumes (seen self.old).bytes (seen self.new).bytes result buf.new }
        ensures count { (seen self.new).failures
            ≡ failures_after (is_ok result) (seen self.old).failures };

    // The bytes are those of any reader.
    ghost is_seen: { (it : Self) → (seen it).bytes ≡ Self.remaining it };
}

/// A writer that counts the writes that failed. A write that took no byte is one.
pub trait CountedWrite: Write {
    // What is seen of it: what it holds, where that is known, how many writes failed, and why the
    // last of them did.
    ghost seen: { Self → DeviceState };

    /// How many writes failed, at most `u64::MAX`.
    fn failures(&self) -> u64
        ensures { result ≡ (seen self.now).failures };

    /// One write to the device, which is counted where it fails, interrupted ones too.
    fn write_counted(&mut self, buf: &[u8]) -> io::Result<usize>
        ensures bound { WritesAtMost result buf.now }
        ensures bytes { WriteAppends (seen self.old).bytes (seen self.new).bytes result buf.now }
        ensures count { (seen self.new).failures
            ≡ failures_after (took_some result) (seen self.old).failures }
        ensures fault { (seen self.new).fault
            ≡ later_fault (write_fault result) (seen self.old).fault };

    // The bytes are those of any writer.
    ghost is_seen: { (it : Self) → (seen it).bytes ≡ Self.contents it };
}

/// A device with its count of failures, at first 0, and why the last write that failed did.
#[derive(Drop)]
pub struct Counted<D> {
    pub(crate) device: D,
    failures: u64,
    fault: Option<WriteFault>,
}

impl<D> Counted<D> {
    /// The device, of which no read or write has failed.
    pub fn new(device: D) -> Self
        ensures device { result.device ≡ device }
        ensures failures { result.failures ≡ 0 }
        ensures fault { result.fault ≡ None }
    {
        Counted {
            device,
            failures: 0,
            fault: None,
        }
    }

    /// How many reads and writes of the device failed, at most `u64::MAX`.
    pub fn count(&self) -> u64
        ensures { result ≡ self.now.failures }
    {
        self.failures
    }

    // One more write failed, and why.
    fn note(&mut self, fault: WriteFault)
        ensures device { self.new.device ≡ self.old.device }
        ensures count { self.new.failures ≡ one_more self.old.failures }
        ensures fault { self.new.fault ≡ Some fault }
    {
        self.failures = self.failures.saturating_add(1);
        self.fault = Some(fault);
    }
}

impl<D: Read> Read for Counted<D> {
    ghost remaining = { λ device. D.remaining device.device };

    fn read(&mut self, buf: &mut [u8]) -> io::Result<usize>
        ensures bound { ReadsAtMost result buf.new }
        ensures bytes { ReadConsumes (D.remaining self.old.device)
            (D.remaining self.new.device) result buf.new }
        ensures count { self.new.failures ≡ failures_after (is_ok result) self.old.failures }
    {
        self.read_counted(buf)
    }
}

impl<D: Read> CountedRead for Counted<D> {
    ghost seen = { λ it. device (D.remaining it.device) it.failures };

    ghost is_seen = { λ it. refl };

    fn failures(&self) -> u64 {
        self.count()
    }

    fn read_counted(&mut self, buf: &mut [u8]) -> io::Result<usize> {
        let result = self.device.read(buf);
        if result.is_err() {
            self.failures = self.failures.saturating_add(1);
        }
        result
    }
}

impl<D: Write> Write for Counted<D> {
    ghost contents = { λ device. D.contents device.device };

    fn write(&mut self, buf: &[u8]) -> io::Result<usize>
        ensures bound { WritesAtMost result buf.now }
        ensures bytes { WriteAppends (D.contents self.old.device)
            (D.contents self.new.device) result buf.now }
        ensures count { self.new.failures ≡ failures_after (took_some result) self.old.failures }
        ensures fault { self.new.fault ≡ later_fault (write_fault result) self.old.fault }
    {
        self.write_counted(buf)
    }

    // It is the device's own, and no write: what is counted stays.
    fn flush(&mut self) -> io::Result<()>
        ensures bytes { Keeps (D.contents self.old.device) (D.contents self.new.device) }
        ensures count { self.new.failures ≡ self.old.failures }
        ensures fault { self.new.fault ≡ self.old.fault }
    {
        self.device.flush()
    }
}

impl<D: Write> CountedWrite for Counted<D> {
    ghost seen = { λ it. written_device (D.contents it.device) it.failures it.fault };

    ghost is_seen = { λ it. refl };

    fn failures(&self) -> u64 {
        self.count()
    }

    fn write_counted(&mut self, buf: &[u8]) -> io::Result<usize> {
        match self.device.write(buf) {
            Ok(count) => {
                if count == 0 {
                    self.note(WriteFault::Failed);
                    return Ok(0);
                }
                Ok(count)
            }
            Err(error) => {
                self.note(fault_of(&error));
                Err(error)
            }
        }
    }
}
