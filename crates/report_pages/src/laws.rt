//! The laws of what stands in a report. The function does nothing: its contract is the laws.
ghost use Rattle.std.specs.Prelude.{◌≡◌, true};
ghost use Rattle.std.specs.List.{list_all};
ghost use Rattle.run_pages.specs.Marks.{stays_here};
ghost use Rattle.report_pages.specs.Marks.{report_texts, PageIsPlain, RunIsPlain, RunsArePlain};

/// A report has no mark of HTML but in the texts that are the same in all reports, and these lead
/// nowhere else.
pub fn laws_of_reports()
    ensures run { RunIsPlain }
    ensures runs { RunsArePlain }
    // So a page with such a report has no mark of HTML but in its picture and in the texts that are
    // the same in all pages and reports.
    ensures page { PageIsPlain }
    ensures links { list_all stays_here report_texts ≡ true }
{}
