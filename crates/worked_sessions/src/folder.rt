//! The files of a folder.
use crate::check::check_text;
use std::alloc::{AllocError, Global};
use std::io::{self, ErrorKind};
use std::sync::Wait;
use std::thread::Threads;
use std::{env, fs};

/// Checks the blocks of each file of the folder that the command line names.
///
/// Files are taken in the order of their names. A folder without any is refused.
pub(crate) fn check_folder<R: Threads + Wait + Sync>(rt: &R, host: &HostRuntime) -> io::Result<()> {
    match env::args(host)?.nth(1) {
        Some(folder) => check_files(rt, host, folder.as_str(), &names_in(host, folder.as_str())?),
        None => Err(io::Error::from(ErrorKind::InvalidInput)),
    }
}

fn check_files<R: Threads + Wait + Sync>(
    rt: &R,
    host: &HostRuntime,
    folder: &str,
    names: &[String],
) -> io::Result<()> {
    if names.is_empty() {
        return Err(io::Error::from(ErrorKind::NotFound));
    }
    for name in names {
        check_file(rt, host, folder, name.as_str())?;
    }
    Ok(())
}

fn check_file<R: Threads + Wait + Sync>(
    rt: &R,
    host: &HostRuntime,
    folder: &str,
    name: &str,
) -> io::Result<()> {
    let text = text_of(host, folder, name)?;
    check_text(rt, host, name, text.as_str())
}

fn text_of(rt: &HostRuntime, folder: &str, name: &str) -> io::Result<String> {
    let path = format!(in rt.alloc(); "{folder}/{name}")?;
    fs::read_to_string(rt, path.as_str())
}

fn names_in(rt: &HostRuntime, folder: &str) -> io::Result<Vec<String>> {
    let mut names = Vec::new(rt.alloc());
    for entry in fs::read_dir(rt, folder)? {
        push_name(rt.alloc(), &mut names, entry?.file_name())?;
    }
    names.sort_unstable();
    Ok(names)
}

fn push_name(alloc: Global, names: &mut Vec<String>, name: &str) -> Result<(), AllocError> {
    names.push(String::from_str(alloc, name)?)?;
    Ok(())
}
