//! A value for lock pairs: a recording of interrupts.
ghost use Rattle.std.specs.Prelude.{◌≡◌, [], IfOk};
ghost use Rattle.bench_model.specs.History.{IsGrowthBy};
ghost use Rattle.port_locks.specs.Holds.{hold_after};

use bench_samples::{LARGEST, header_of};
use bench_types::{CoreAction, MAX_CORES, Note, NotifyAction};
use port_locks::Kept;
use recordings::Recording;
use smp_kernel::Meter;
use std::marker::Model;
use std::process::Abort;
use std::test::Fail;

/// A notification of the only user task of a kernel of the most cores.
const NOTE: Note = Note {
    task: MAX_CORES,
    action: NotifyAction::Increment,
    index: 0,
};

#[derive(Drop)]
pub struct Log {
    recording: Recording,
}

impl Model for Log {
    ghost use Rattle.recordings.specs.RecordingView.{RecordingView};

    ghost Value = { RecordingView };

    ghost view = { λ log. log.recording };
}

impl Kept for Log {
    ghost use Rattle.rig_tests.specs.Use.{terms_of};

    ghost terms = { terms_of };

    ghost list = { λ log. log.entries };

    fn entries(&self) -> u64 {
        self.recording.entries().len() as u64
    }

    fn holder(&self) -> Option<u32> {
        self.recording.holder()
    }
}

impl Log {
    /// A log of no entries, with room for `limit` of them.
    pub fn new(rt: &HostRuntime, limit: u32) -> Result<Log, Fail>
        ensures { IfOk result (λ log. log.entries ≡ []) }
    {
        let header = header_of(rt.alloc(), LARGEST, &[("A", 1, u32::MAX)])?;
        let recording = Recording::new(rt.alloc(), Meter::new(rt), &header, limit)?;
        Ok(Log { recording })
    }

    /// Records an interrupt of the core.
    pub fn interrupt(&mut self, rt: &impl Abort, core: u32)
        ensures header { self.new.header ≡ self.old.header }
        ensures limit { self.new.limit ≡ self.old.limit }
        ensures growth { IsGrowthBy core self.old.entries self.new.entries }
        ensures hold { hold_after self.old.header self.new.entries
            ≡ hold_after self.old.header self.old.entries }
    {
        assert!(rt; core < self.recording.settings().cores);
        let Ok(()) = CoreAction::Interrupt(NOTE).check(core, self.recording.header()) else {
            panic!(rt; "the interrupt is at fault");
        };
        assert!(rt; self.recording.holder().is_none());
        assert!(rt; self.recording.interrupt(core, NOTE).is_ok());
        assert!(rt; self.recording.holder().is_none());
    }

    /// How many of its entries are the core's.
    pub fn made_by(&self, core: u32) -> usize {
        let entries = self.recording.entries();
        entries.iter().filter(|entry| entry.core == core).count()
    }
}
