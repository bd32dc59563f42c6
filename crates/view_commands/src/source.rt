//! Where documents are read from.
ghost use Rattle.std.specs.Prelude.{◌≡◌, ℕ, List, Option, None, IfOk, OnErr, OnOk, is_ok, refl};
ghost use Rattle.std.specs.Io.{ReadsAtMost};
ghost use Rattle.std.specs.Io.KnownBytes.{ReadConsumes};
ghost use Rattle.program_io.specs.Device.{device, failures_after};
ghost use Rattle.view_commands.specs.Source.{remaining_of};

use program_io::CountedRead;
use std::fs::File;
use std::io;
use std::io::Read;

/// Standard input, or a file that is read in its place.
pub trait Source: CountedRead {
    // What the file of each name holds, where that is known.
    ghost file: { Self → List ℕ → Option (List ℕ) };

    /// From here on the file of this name is read, from its first byte on. Where it can't be
    /// opened, which is counted as a read that failed, all stays as it was.
    fn open(&mut self, name: &str) -> io::Result<()>
        ensures ok { OnOk result ((Self.seen self.new).bytes ≡ file self.old name.now) }
        ensures err { OnErr result ((Self.seen self.new).bytes ≡ (Self.seen self.old).bytes) }
        ensures count { (Self.seen self.new).failures
            ≡ failures_after (is_ok result) (Self.seen self.old).failures };
}

/// Where files are opened, each by its name.
pub trait Folder {
    type File: Read + Drop;

    // What the file of each name holds, where that is known.
    ghost held: { Self → List ℕ → Option (List ℕ) };

    /// The file of this name, to be read from its first byte on.
    fn open_file(&self, name: &str) -> io::Result<Self::File>
        ensures { IfOk result
            (λ file. Self.File.remaining file ≡ held self.now name.now) };
}

// What the system's files hold, no contract says.
impl Folder for HostRuntime {
    type File = File;

    ghost held = { λ _ _. None };

    fn open_file(&self, name: &str) -> io::Result<File> {
        File::open(self, name)
    }
}

/// What is read.
#[derive(Drop)]
enum Device<S, F> {
    Standard(S),
    Named(F),
}

impl<S: Read, F: Read> Read for Device<S, F> {
    ghost remaining = { remaining_of S.remaining F.remaining };

    fn read(&mut self, buf: &mut [u8]) -> io::Result<usize> {
        match self {
            Device::Standard(input) => input.read(buf),
            Device::Named(file) => file.read(buf),
        }
    }
}

/// Standard input, or a file of a folder that is read in its place.
#[derive(Drop)]
pub struct DocumentSource<'a, S, D: Folder> {
    folder: &'a D,
    device: Device<S, D::File>,
    failures: u64,
}

impl<'a, S: Read + Drop, D: Folder> DocumentSource<'a, S, D> {
    /// Standard input, of which no read has failed, and where files are opened.
    pub fn new(standard: S, folder: &'a D) -> Self
        ensures folder { result.folder.now ≡ folder.now }
        ensures remaining { remaining_of S.remaining D.File.remaining result.device
            ≡ S.remaining standard }
        ensures failures { result.failures ≡ 0 }
    {
        DocumentSource {
            folder,
            device: Device::Standard(standard),
            failures: 0,
        }
    }

    // How many reads failed.
    fn count(&self) -> u64
        ensures { result ≡ self.now.failures }
    {
        self.failures
    }
}

impl<S: Read + Drop, D: Folder> Read for DocumentSource<'_, S, D> {
    ghost remaining = { λ source. remaining_of S.remaining D.File.remaining source.device };

    fn read(&mut self, buf: &mut [u8]) -> io::Result<usize>
        ensures bound { ReadsAtMost result buf.new }
        ensures bytes { ReadConsumes
            (remaining_of S.remaining D.File.remaining self.old.device)
            (remaining_of S.remaining D.File.remaining self.new.device) result buf.new }
        ensures count { self.new.failures ≡ failures_after (is_ok result) self.old.failures }
    {
        self.read_counted(buf)
    }
}

impl<S: Read + Drop, D: Folder> CountedRead for DocumentSource<'_, S, D> {
    ghost seen = { λ it. device (remaining_of S.remaining D.File.remaining it.device) it.failures };

    ghost is_seen = { λ it. refl };

    fn failures(&self) -> u64 {
        self.count()
    }

    fn read_counted(&mut self, buf: &mut [u8]) -> io::Result<usize> {
        let result = self.device.read(buf);
        if result.is_err() {
            self.failures = self.failures.saturating_add(1);
        }
        result
    }
}

impl<S: Read + Drop, D: Folder> Source for DocumentSource<'_, S, D> {
    ghost file = { λ source. D.held source.folder.now };

    fn open(&mut self, name: &str) -> io::Result<()> {
        match self.folder.open_file(name) {
            Ok(file) => {
                self.device = Device::Named(file);
                Ok(())
            }
            Err(error) => {
                self.failures = self.failures.saturating_add(1);
                Err(error)
            }
        }
    }
}
