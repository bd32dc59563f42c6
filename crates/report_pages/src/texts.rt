//! What is the same in all reports. A bar is an element `meter`.

/// The numbers open.
pub(crate) const NUMBERS: &str = "<pre>";

/// They end.
pub(crate) const NUMBERS_END: &str = "</pre>
";

/// A table opens, before its title.
pub(crate) const TABLE: &str = "<table class='bars'>
<caption>";

/// Behind the title of a table of loads, before the heads of its columns.
pub(crate) const HEADS: &str = "</caption>
<tr>";

/// Before the number of a core, and behind it.
pub(crate) const CORE: &str = "<th scope='col'>core ";

pub(crate) const CORE_END: &str = "</th>";

/// Behind the heads of the cores.
pub(crate) const HEADS_END: &str = "<th scope='col'>all</th><td></td></tr>
";

/// A line opens.
pub(crate) const LOAD: &str = "<tr>";

/// Before the tenths of a percent that a bar shows, and behind them.
pub(crate) const CELL: &str = "<td><meter max='1000' value='";

pub(crate) const CELL_BAR: &str = "'></meter> ";

/// Before the tenth of a number in percent, and behind it.
pub(crate) const POINT: &str = ".";

pub(crate) const CELL_END: &str = "%</td>";

/// Before the number of all cores together, and behind it.
pub(crate) const ALL: &str = "<td>";

pub(crate) const ALL_END: &str = "%</td><th scope='row'>";

/// The line of a load ends.
pub(crate) const LOAD_END: &str = "</th></tr>
";

/// A table ends.
pub(crate) const TABLE_END: &str = "</table>
";

/// Behind the name of a task in the title of its table of answers.
pub(crate) const COLON: &str = ": ";

/// Before the number of its jobs, and behind it.
pub(crate) const JOBS: &str = ", jobs that ended: ";

pub(crate) const JOBS_END: &str = "</caption>
";

/// The titles of the tables of two runs.
pub(crate) const RESPONSE_BEFORE: &str = "response before";

pub(crate) const RESPONSE_AFTER: &str = "response after";

/// Before the least time of an interval, before its greatest, and behind that.
pub(crate) const INTERVAL: &str = "<tr><th scope='row'>";

pub(crate) const TO: &str = " to ";

pub(crate) const INTERVAL_END: &str = "</th><td><meter max='";

/// Before the count that a bar shows, before that which is read, and behind it.
pub(crate) const COUNT: &str = "' value='";

pub(crate) const COUNT_BAR: &str = "'></meter> ";

pub(crate) const COUNT_END: &str = "</td></tr>
";
