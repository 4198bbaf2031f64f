//! What the definitions say of worked examples.
ghost use Rattle.istanbul_rules.specs.Examples.{LinesOfALoop, FileOfALoop, ReachOfNext, OtherComments, IgnoredFile, MappedFile};

/// What the definitions give on worked examples.
pub fn worked_examples()
    ensures line_counts { LinesOfALoop }
    ensures ignored_lines { ReachOfNext }
    ensures comments { OtherComments }
    ensures direct_file { FileOfALoop }
    ensures ignored_file { IgnoredFile }
    ensures mapped_file { MappedFile }
{}
