//! Mappings: the segments of each generated line.
ghost use Rattle.std.specs.Prelude.{◌≡◌};

use crate::Segment;
use cov_text::Items;
use std::marker::Model;

/// The segments of each generated line: one line at least, and no number past 2^31 - 1. Contracts see the list of
/// lines.
#[derive(Debug, Drop)]
pub struct Mappings {
    lines: Items<Items<Segment>>,
}

impl Model for Mappings {
    ghost use Rattle.std.specs.Prelude.{List};
    ghost use Rattle.vlq_mappings.specs.declared.Segment.{Segment};
    ghost use Rattle.vlq_mappings.specs.Kept.{AreMappings};

    ghost Value = { List (List Segment) };

    ghost view = { λ m. m.lines };

    ghost invariant = { λ m. AreMappings m.lines };
}

impl Mappings {
    ghost use Rattle.vlq_mappings.specs.Kept.{AreMappings};

    /// Mappings of these lines.
    pub fn new(lines: Items<Items<Segment>>) -> Mappings
        requires { AreMappings lines }
        ensures { result ≡ lines }
    {
        Mappings { lines }
    }

    /// The segments of each generated line.
    pub fn lines(&self) -> &[Items<Segment>]
        ensures value { result.now ≡ self.now }
        ensures kept { AreMappings self.now }
    {
        self.lines.as_slice()
    }
}
