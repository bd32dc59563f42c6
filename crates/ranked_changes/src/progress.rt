//! How far long work is.
ghost use Rattle.std.specs.Prelude.{◌≡◌, ℕ};

/// Is told how far long work is.
pub trait Progress {
    // What is done where it is told that so many parts of all are done.
    ghost tells: { Self → ℕ → ℕ → Self → Type 0 };

    /// So many parts of all are done.
    fn tell(&mut self, done: usize, all: usize)
        ensures { tells self.old done all self.new };
}

/// Is told how far long work is, and does nothing with it.
#[derive(Clone, Copy, Debug, PartialEq, Eq)]
pub struct Silent;

impl Progress for Silent {
    ghost tells = { λ old done all new. new ≡ old };

    fn tell(&mut self, _done: usize, _all: usize) {}
}
