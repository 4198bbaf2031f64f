//! Laws over the definitions.
ghost use Rattle.cov_steps.specs.Laws.{RunsCount, CountsDetermineRuns, SumsCount, SumsCommute, SumsAssociate};

/// The runs of a report have the innermost count at each offset of its root.
pub fn runs_of_a_report()
    ensures { RunsCount }
{}

/// Runs are determined by their counts.
pub fn counts_determine_runs()
    ensures { CountsDetermineRuns }
{}

/// A sum has the sum of the counts at each offset, and neither the order of adding nor its grouping matters.
pub fn sums()
    ensures count { SumsCount }
    ensures commute { SumsCommute }
    ensures associate { SumsAssociate }
{}
