//! Makes each call that takes memory, and looks at what is left where a growth of it was refused.
//!
//! Without input each call is made once. Else the input is the name of a call and a number: so many
//! blocks of memory are taken first, so that `rt try --fail-alloc N` refuses one growth of the call
//! after another (`scripts/refuse-memory.sh`).
#![tactic(auto)]

mod call;
mod call_result;
mod commands;
mod kernels;
mod rigs;
mod stores;
mod texts;
mod trials;
mod worked;

use call::{ALL, Call};
use std::io::{self, ErrorKind, Read};
use std::sync::Wait;
use std::thread::Threads;

/// A name, a space, a number and a line feed are no longer.
const MAX_INPUT: usize = 32;

fn main(rt: HostRuntime) -> io::Result<()> {
    let mut input = [0; MAX_INPUT];
    let count = rt.stdin().read(&mut input)?;
    let text = std::str::from_utf8(&input[..count.min(MAX_INPUT)]).unwrap_or("?");
    match text.trim() {
        "" => make_all(&rt, &rt),
        request => make_one(&rt, &rt, request),
    }
}

fn make_all<R: Threads + Wait + Sync>(rt: &R, host: &HostRuntime) -> io::Result<()> {
    for call in &ALL {
        println!(host; "{}: {}", call.name(), call.make(rt, host))?;
    }
    Ok(())
}

fn make_one<R: Threads + Wait + Sync>(rt: &R, host: &HostRuntime, request: &str) -> io::Result<()> {
    let Some((call, blocks)) = parsed(request) else {
        return Err(io::Error::from(ErrorKind::InvalidInput));
    };
    println!(host; "{}: {}", call.name(), call.make_after(rt, host, blocks))
}

/// The call and the number of blocks.
fn parsed(request: &str) -> Option<(Call, u32)> {
    let (name, number) = request.split_once(' ')?;
    let call = ALL.iter().copied().find(|call| call.name() == name)?;
    Some((call, number.parse().ok()?))
}
