//! What a run is made of: a session as its steps stand, one that is settled, a workload, or a
//! session with edits whose run keeps work.
#![tactic(auto)]

mod fault;
mod laws;
mod making;
mod source;

pub use fault::RunFault;
pub use laws::laws_of_sources;
pub use making::make_run;
pub use source::Source;
