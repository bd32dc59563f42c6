//! The laws of figures. Each function does nothing: its contract is the law.
ghost use Rattle.report_figures.specs.NameLaws.{NamesAreDifferent};

/// The figures of a run have names that are all different.
pub fn law_of_names()
    ensures { NamesAreDifferent }
{}
