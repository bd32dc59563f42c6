//! A value that a lock pair keeps.
ghost use Rattle.std.specs.Prelude.{◌≡◌, length};
ghost use Rattle.bench_model.specs.History.{IsLegal};
ghost use Rattle.port_locks.specs.Holds.{holder_after};

/// A value that a lock pair keeps: a history, as far as it was recorded.
pub trait Kept: Drop {
    ghost use Rattle.std.specs.Prelude.{List};
    ghost use Rattle.bench_types.specs.declared.entry.Entry.{Entry};
    ghost use Rattle.port_locks.specs.declared.view.Terms.{Terms};

    // The header that it started from, and how many entries it takes.
    ghost terms: { Self → Terms };

    ghost list: { Self → List Entry };

    /// How many entries it has.
    fn entries(&self) -> u64
        ensures count { result ≡ length (list self.now) }
        ensures legal { IsLegal (terms self.now).header (list self.now) };

    /// The core whose hold is open.
    fn holder(&self) -> Option<u32>
        ensures { result ≡ holder_after (terms self.now).header (list self.now) };
}
