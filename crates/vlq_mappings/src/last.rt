//! The last number of each kind.

/// The number of each kind in the last segment that has one. The column is of the line, the others of the text.
#[derive(Clone, Copy, Debug)]
pub(crate) struct Last {
    pub(crate) column: u32,
    pub(crate) source: u32,
    pub(crate) line: u32,
    pub(crate) original: u32,
    pub(crate) name: u32,
}

pub(crate) const START: Last = Last {
    column: 0,
    source: 0,
    line: 0,
    original: 0,
    name: 0,
};
