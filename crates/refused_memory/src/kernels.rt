//! Calls of a kernel.
use crate::call_result::CallResult;
use crate::worked::header;
use bench_types::Header;
use smp_kernel::{Kernel, StartFault};
use std::alloc::Global;

/// A kernel at the start of the worked session.
fn started(alloc: Global) -> Option<Kernel> {
    let header = header(alloc)?;
    Kernel::start(alloc, &header).ok()
}

/// Whether A runs on core 0 and B on core 1.
fn is_at_start(kernel: &Kernel) -> bool {
    kernel.settings().cores == 2 && kernel.running(0) == 2 && kernel.running(1) == 3
}

pub(crate) fn start(rt: &HostRuntime) -> Option<CallResult> {
    let header = header(rt.alloc())?;
    Some(match Kernel::start(rt.alloc(), &header) {
        Ok(kernel) => CallResult::answered(is_at_start(&kernel)),
        Err(fault) => {
            let is_want = fault == StartFault::NoMemory;
            CallResult::refused(is_want && starts(rt.alloc(), &header))
        }
    })
}

fn starts(alloc: Global, header: &Header) -> bool {
    match Kernel::start(alloc, header) {
        Ok(kernel) => is_at_start(&kernel),
        Err(_) => false,
    }
}

pub(crate) fn copy(rt: &HostRuntime) -> Option<CallResult> {
    let kernel = started(rt.alloc())?;
    copy_beside_twin(rt.alloc(), &kernel)
}

// A kernel is dear to drop, so each of the two is made where one call follows.
fn copy_beside_twin(alloc: Global, kernel: &Kernel) -> Option<CallResult> {
    let twin = started(alloc)?;
    Some(copied(alloc, kernel, &twin))
}

fn copied(alloc: Global, kernel: &Kernel, twin: &Kernel) -> CallResult {
    match kernel.copy(alloc) {
        Ok(copy) => CallResult::answered(kernel.same(&copy)),
        Err(_) => CallResult::refused(kernel.same(twin) && copies(alloc, kernel)),
    }
}

fn copies(alloc: Global, kernel: &Kernel) -> bool {
    match kernel.copy(alloc) {
        Ok(copy) => kernel.same(&copy),
        Err(_) => false,
    }
}
