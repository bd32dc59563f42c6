//! The calls that take memory, by name.
use crate::call_result::{CallResult, Printed};
use crate::{commands, kernels, rigs, stores, texts, trials};
use std::alloc::{AllocError, Global};
use std::sync::Wait;
use std::thread::Threads;

/// A call that takes memory.
#[derive(Clone, Copy, Debug, PartialEq, Eq)]
pub(crate) enum Call {
    Start,
    Copy,
    Open,
    Apply,
    Results,
    Trial,
    State,
    Row,
    Tallies,
    TryAll,
    LockPair,
    Rig,
    Steps,
    ReadSession,
    ReadBench,
    ReadEdit,
    ReadRig,
    ReadNoJson,
    WriteSession,
    Run,
    RunEdited,
    Record,
}

/// All of them.
pub(crate) const ALL: [Call; 22] = [
    Call::Start,
    Call::Copy,
    Call::Open,
    Call::Apply,
    Call::Results,
    Call::Trial,
    Call::State,
    Call::Row,
    Call::Tallies,
    Call::TryAll,
    Call::LockPair,
    Call::Rig,
    Call::Steps,
    Call::ReadSession,
    Call::ReadBench,
    Call::ReadEdit,
    Call::ReadRig,
    Call::ReadNoJson,
    Call::WriteSession,
    Call::Run,
    Call::RunEdited,
    Call::Record,
];

impl Call {
    /// The name by which the input asks for it.
    pub(crate) fn name(self) -> &'static str {
        match self {
            Call::Start => "Kernel::start",
            Call::Copy => "Kernel::copy",
            Call::Open => "Store::open",
            Call::Apply => "Store::apply",
            Call::Results => "Store::traced",
            Call::Trial => "Store::trial",
            Call::State => "Store::state",
            Call::Row => "Store::row",
            Call::Tallies => "Store::tallies",
            Call::TryAll => "try_all",
            Call::LockPair => "LockPair::new",
            Call::Rig => "Rig::new",
            Call::Steps => "Recorded::steps",
            Call::ReadSession => "read_session",
            Call::ReadBench => "read_bench",
            Call::ReadEdit => "read_edit",
            Call::ReadRig => "read_rig",
            Call::ReadNoJson => "read-no-json",
            Call::WriteSession => "write_session",
            Call::Run => "run",
            Call::RunEdited => "run-edited",
            Call::Record => "record",
        }
    }

    /// Makes it, and says what came of it.
    pub(crate) fn make<R: Threads + Wait + Sync>(self, rt: &R, host: &HostRuntime) -> Printed {
        Printed(self.call_result(rt, host))
    }

    /// Makes it once so many blocks of memory were taken.
    pub(crate) fn make_after<R: Threads + Wait + Sync>(
        self,
        rt: &R,
        host: &HostRuntime,
        blocks: u32,
    ) -> Printed {
        match take_blocks(host.alloc(), blocks) {
            Ok(()) => self.make(rt, host),
            Err(AllocError) => Printed(None),
        }
    }

    fn call_result<R: Threads + Wait + Sync>(
        self,
        rt: &R,
        host: &HostRuntime,
    ) -> Option<CallResult> {
        match self {
            Call::Start => kernels::start(host),
            Call::Copy => kernels::copy(host),
            Call::Open => stores::open(host),
            Call::Apply => stores::apply(host),
            Call::Results => stores::with_results(host),
            Call::Trial => trials::trial(host),
            Call::State => stores::state(host),
            Call::Row => stores::row(host),
            Call::Tallies => stores::tallies(host),
            Call::TryAll => trials::all(rt, host),
            Call::LockPair => rigs::lock_pair(host),
            Call::Rig => rigs::rig(host),
            Call::Steps => rigs::steps(host),
            Call::ReadSession => Some(texts::session(host.alloc())),
            Call::ReadBench => Some(texts::bench(host.alloc())),
            Call::ReadEdit => texts::edit(host.alloc()),
            Call::ReadRig => Some(texts::rig(host.alloc())),
            Call::ReadNoJson => Some(texts::no_json(host.alloc())),
            Call::WriteSession => texts::written(host.alloc()),
            Call::Run => Some(commands::plain(rt, host)),
            Call::RunEdited => Some(commands::edited(rt, host)),
            Call::Record => Some(commands::recorded(rt, host)),
        }
    }
}

/// Takes so many blocks of memory, one after another, and gives each back.
fn take_blocks(alloc: Global, blocks: u32) -> Result<(), AllocError> {
    for _ in 0..blocks {
        Vec::<u64>::with_capacity(alloc, 1)?;
    }
    Ok(())
}
