//! Texts of workloads.
use std::alloc::{AllocError, Global};

/// The settings of a workload of two cores, one mutex and one queue.
const SETTINGS: &str =
    "{\"format\":3,\"cores\":2,\"priorities\":5,\"slicing\":true,\"tick\":0,\"mutexes\":1,\"notes\":2,\"queues\":[{\"length\":3,\"messages\":0}],\"units\":1000,";

/// The second task, which does nothing.
const IDLER: &str = "{\"name\":\"idler\",\"priority\":1,\"mask\":3}";

/// A workload with the items as the program of its first task, these interrupts and so many ticks.
pub(crate) fn workload(
    alloc: Global,
    items: &str,
    interrupts: &str,
    ticks: &str,
) -> Result<String, AllocError> {
    format!(in alloc;
        "{SETTINGS}\"tasks\":[{{\"name\":\"control\",\"priority\":3,\"mask\":3,\"program\":[{items}]}},{IDLER}],\"interrupts\":[{interrupts}],\"ticks\":{ticks}}}"
    )
}

/// A work in so many loops, one in another.
pub(crate) fn nested(alloc: Global, loops: usize) -> Result<String, AllocError> {
    let mut text = String::new(alloc);
    for _ in 0..loops {
        text.push_str("{\"repeat\":1,\"of\":[")?;
    }
    text.push_str("{\"work\":1}")?;
    for _ in 0..loops {
        text.push_str("]}")?;
    }
    Ok(text)
}
