//! Where the places stand in a picture. Lengths are in pixels.
ghost use Rattle.std.specs.Prelude.{◌≡◌, ◌<◌, ◌^◌, ◌*◌, ◌≤◌};
ghost use Rattle.run_pictures.specs.Frame.{column_of, every, pixels, scale_for, width_between, x_of};

use bench_types::Items;

/// How far below the row of one core that of the next stands.
pub(crate) const CORE_ROW: u64 = 38;

/// How far below the row of one task that of the next stands.
pub(crate) const TASK_ROW: u64 = 36;

/// How far below the row of one mutex that of the next stands.
pub(crate) const MUTEX_ROW: u64 = 18;

/// How far below the row of one queue that of the next stands.
pub(crate) const QUEUE_ROW: u64 = 18;

/// What the columns of a picture stand for.
#[derive(Clone, Copy, Debug, PartialEq, Eq)]
pub enum Axis {
    /// Places, one after another.
    Places,
    /// Ticks, each with as many columns as it needs, and ruled.
    Ticks,
    /// Time, in columns of equal time, wider where more places stand in it; ticks are ruled.
    Time,
}

/// How wide a column is drawn.
#[derive(Clone, Copy, Debug, PartialEq, Eq)]
pub(crate) enum Scale {
    Broad,
    Widest,
    Wide,
    Middle,
    Narrow,
    Narrowest,
}

/// Where the places of a run stand.
#[derive(Debug, Drop)]
pub(crate) struct Frame {
    /// The first place that is shown.
    pub(crate) first: u32,
    pub(crate) scale: Scale,
    /// The first column that is shown.
    pub(crate) left: u64,
    /// The column at which each place begins.
    pub(crate) columns: Items<u32>,
    pub(crate) axis: Axis,
}

/// The scale at which so many columns are drawn.
pub(crate) fn scale_for(columns: u64) -> Scale
    ensures { result ≡ scale_for columns }
{
    if columns <= 8 {
        Scale::Broad
    } else if columns <= 20 {
        Scale::Widest
    } else if columns <= 60 {
        Scale::Wide
    } else if columns <= 150 {
        Scale::Middle
    } else if columns <= 600 {
        Scale::Narrow
    } else {
        Scale::Narrowest
    }
}

impl Scale {
    /// The width of so many columns.
    pub(crate) fn pixels(self, columns: u64) -> u64
        requires { columns ≤ 2 ^ 32 }
        ensures value { result ≡ pixels self columns }
        ensures few { result ≤ 80 * 2 ^ 32 }
    {
        match self {
            Scale::Broad => 80 * columns,
            Scale::Widest => 40 * columns,
            Scale::Wide => 24 * columns,
            Scale::Middle => 12 * columns,
            Scale::Narrow => 6 * columns,
            Scale::Narrowest => 2 * columns,
        }
    }

    /// From one place that is numbered to the next.
    pub(crate) fn every(self) -> u32
        ensures value { result ≡ every self }
        ensures some { 1 ≤ result }
    {
        match self {
            Scale::Broad | Scale::Widest => 1,
            Scale::Wide => 2,
            Scale::Middle => 5,
            Scale::Narrow => 10,
            Scale::Narrowest => 50,
        }
    }
}

/// The column at which the place begins: its own number, where none is given.
pub(crate) fn column_of(columns: &[u32], place: u64) -> u64
    requires { place ≤ 2 ^ 32 }
    ensures value { result ≡ column_of columns.now place }
    ensures few { result ≤ 2 ^ 32 }
{
    match columns.get(place as usize) {
        Some(column) => u64::from(*column),
        None => place,
    }
}

impl Frame {
    /// Where the place begins.
    #[tactic(auto, unfolding(crate::specs::Frame::x_of))]
    pub(crate) fn x_of(&self, place: u32) -> u64
        ensures value { result ≡ x_of self.now place }
        ensures few { result < 2 ^ 40 }
    {
        let column = column_of(self.columns.as_slice(), u64::from(place));
        150 + self.scale.pixels(column.saturating_sub(self.left))
    }

    /// From where the one place begins to where the other ends.
    #[tactic(auto, unfolding(crate::specs::Frame::width_between))]
    pub(crate) fn width_between(&self, first: u32, last: u32) -> u64
        ensures value { result ≡ width_between self.now first last }
        ensures few { result < 2 ^ 40 }
    {
        let start = column_of(self.columns.as_slice(), u64::from(first));
        let end = column_of(self.columns.as_slice(), u64::from(last) + 1);
        self.scale.pixels(end.saturating_sub(start))
    }
}
