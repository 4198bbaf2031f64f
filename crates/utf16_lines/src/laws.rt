//! Laws over the definitions, and a worked example of them.
ghost use Rattle.utf16_lines.specs.Cutting.{LinesEndAtLineEnds, OneWayToCut};
ghost use Rattle.utf16_lines.specs.Laws.{OffsetComesBack, SpotComesBack};
ghost use Rattle.utf16_lines.specs.Examples.{EmojiAndLineEnd};

/// What the definitions give on a worked example.
pub fn worked_examples()
    ensures { EmojiAndLineEnd }
{}

/// The lines of a text are what its line ends make of its units, and they make nothing else of them.
pub fn cut_at_line_ends()
    ensures cut { LinesEndAtLineEnds }
    ensures one_way { OneWayToCut }
{}

/// An offset within a line comes back from its spot, and a spot of the table from its offset.
pub fn coming_back()
    ensures offset { OffsetComesBack }
    ensures spot { SpotComesBack }
{}
