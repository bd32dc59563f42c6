//! Documents in files.
ghost use Rattle.std.specs.Prelude.{Some};

use crate::samples::{NO_NINTH, SHARED_MUTEX};
use crate::views::KEPT;
use program_io::Counted;
use ranked_changes::Silent;
use shown_runs::Ask;
use std::alloc::AllocError;
use std::io;
use std::io::ErrorKind;
use std::process::Abort;
use std::test::Fail;
use std::thread::Threads;
use view_commands::{
    Command, DocumentSource, Documents, FileName, Folder, Job, Request, SessionRuns, carry_out,
};

/// A folder with one file.
#[derive(Drop)]
pub(crate) struct Shelf<'a> {
    pub(crate) name: &'a str,
    pub(crate) text: &'a [u8],
}

impl<'a> Folder for Shelf<'a> {
    type File = &'a [u8];

    ghost held = { λ shelf _. Some shelf.text.now };

    fn open_file(&self, name: &str) -> io::Result<&'a [u8]> {
        if name != self.name {
            return Err(io::Error::from(ErrorKind::NotFound));
        }
        Ok(self.text)
    }
}

#[test]
fn a_file_that_is_named(rt: HostRuntime) -> Result<(), Fail> {
    expect(&rt, &rt, None, 0, NO_NINTH, KEPT)?;
    expect(&rt, &rt, Some("run.json"), 0, NO_NINTH, KEPT)?;
    expect(
        &rt,
        &rt,
        Some("other.json"),
        3,
        "fault open other.json\n",
        "",
    )?;
    Ok(())
}

// What comes of the session of a document, which stands in the file `run.json` where one is named,
// and else on standard input.
fn expect<R: Threads + Abort + Sync>(
    rt: &R,
    host: &HostRuntime,
    name: Option<&str>,
    code: u8,
    message: &str,
    wanted: &str,
) -> Result<(), AllocError> {
    let document = SHARED_MUTEX.as_bytes();
    let (standard, text) = if name.is_none() {
        (document, "".as_bytes())
    } else {
        ("".as_bytes(), document)
    };
    let shelf = Shelf {
        name: "run.json",
        text,
    };
    let mut reader = DocumentSource::new(standard, &shelf);
    let mut shown = Vec::new(host.alloc());
    let mut writer = Counted::new(&mut shown);
    let job = Job {
        command: Command::Show(Ask::Session),
        sessions: SessionRuns::AsWritten,
        documents: Documents::All,
        strict: false,
    };
    let request = Request::Show(job, file_named(host, name)?);
    let progress = &mut Silent;
    let alloc = host.alloc();
    let ending = carry_out(rt, host, progress, alloc, request, &mut reader, &mut writer);
    assert_eq!(rt; ending.code(), code);
    assert!(rt; ending.message() == message.as_bytes());
    assert!(rt; shown.as_slice() == wanted.as_bytes());
    Ok(())
}

fn file_named(host: &HostRuntime, name: Option<&str>) -> Result<Option<FileName>, AllocError> {
    let Some(name) = name else {
        return Ok(None);
    };
    let text = String::from_str(host.alloc(), name)?;
    Ok(Some(FileName { text }))
}
