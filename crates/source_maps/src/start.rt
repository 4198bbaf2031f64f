//! Where a section of an index map begins.

/// A spot of the generated text, line and column from 0.
#[derive(Clone, Copy, Debug, PartialEq, Eq)]
pub struct Start {
    pub line: u32,
    pub column: u32,
}
