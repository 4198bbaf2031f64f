//! What the definitions give on worked examples.
ghost use Rattle.vlq_mappings.specs.Examples.{ReadsAndFaults, WritesShortest, EmptyPieces};

/// What the definitions of reading and writing give on worked examples.
pub fn worked_examples()
    ensures read { ReadsAndFaults }
    ensures written { WritesShortest }
    ensures pieces { EmptyPieces }
{}
