//! The laws of what a picture shows. Each function does nothing: its contract is the laws.
ghost use Rattle.run_pictures.specs.BarLaws.{RunIsLaidOut, RunsAreLaidOut};
ghost use Rattle.run_pictures.specs.BarTexts.{BarsAreDrawn};
ghost use Rattle.run_pictures.specs.ColumnLaws.{PicturesBeginAtLesser};
ghost use Rattle.run_pictures.specs.HindranceLaws.{HindrancesAreSo};
ghost use Rattle.run_pictures.specs.LegendLaws.{LegendIsOfRun, LegendIsOfRuns};
ghost use Rattle.run_pictures.specs.QueueLaws.{QueueRowsAreSo};
ghost use Rattle.run_pictures.specs.WaitLaws.{BlockedCallsStay, WaitsAreUnfinished};

/// A ready task that is on no core is hindered by something at each core, and is told what: it is
/// so, and nothing else is.
pub fn law_of_hindrances()
    ensures { HindrancesAreSo }
{}

/// A picture of two runs begins at the lesser of the columns at which its first place begins in
/// them. A run that lacks the place counts by the number of the place.
pub fn law_of_first_columns()
    ensures { PicturesBeginAtLesser }
{}

/// The bars that are told of are those that are drawn. In the picture of a run, and of two runs,
/// whose columns climb, each stands in its row and between the first column and the end of the
/// last, and no two of one kind in a row stand over one another.
pub fn law_of_bars()
    ensures drawn { BarsAreDrawn }
    ensures one { RunIsLaidOut }
    ensures both { RunsAreLaidOut }
{}

/// A sign stands in the legend just where a bar of such an ink, or such a mark, is drawn, and that
/// of what is not known where a place that is shown is not.
pub fn law_of_legends()
    ensures one { LegendIsOfRun }
    ensures both { LegendIsOfRuns }
{}

/// At each place that a bar in the row of a queue covers, the queue has as many messages as the bar
/// stands for, and at each place that is shown at which it has some, one of these bars covers the
/// place.
pub fn law_of_queues()
    ensures { QueueRowsAreSo }
{}

/// At each place of a checked session a blocked task has an unfinished call, and is told to wait
/// for what that call waits for. So it is until it is ready: the call is the same at the next
/// place.
pub fn law_of_waits()
    ensures told { WaitsAreUnfinished }
    ensures stays { BlockedCallsStay }
{}
