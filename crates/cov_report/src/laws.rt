//! Worked examples of the definitions, and a law of them.
ghost use Rattle.cov_report.specs.Examples.{MappedFile, WithoutLengths, RefusedMap, DirectFile, AbsentFile, NoText, SharedPath};
ghost use Rattle.cov_report.specs.First.{FirstsAreEnough};

/// What the definitions give on worked examples.
pub fn worked_examples()
    ensures mapped_file { MappedFile }
    ensures without_lengths { WithoutLengths }
    ensures refused_map { RefusedMap }
    ensures direct_file { DirectFile }
    ensures absent_file { AbsentFile }
    ensures no_text { NoText }
    ensures shared_path { SharedPath }
{}

/// Entries that have the same first entry of each url come to the same report.
pub fn firsts_are_enough()
    ensures { FirstsAreEnough }
{}
