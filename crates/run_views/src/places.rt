//! Which places are shown.
ghost use Rattle.std.specs.Prelude.{◌≡◌};
ghost use Rattle.run_views.specs.Trace.{shows};

/// Which places of a session are shown, and with them the steps between them.
#[derive(Clone, Copy, Debug, PartialEq, Eq)]
pub struct Places {
    /// The first place that is shown.
    pub from: u32,
    /// The last place that is shown.
    pub to: u32,
}

impl Places {
    /// Whether the place is shown.
    pub fn shows(self, place: u32) -> bool
        ensures { result ≡ shows self place }
    {
        self.from <= place && place <= self.to
    }
}
