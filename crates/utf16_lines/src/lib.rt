//! Lines and columns of a text in UTF-16 code units, the unit in which V8 counts offsets.
//!
//! A line ends at LF or at CR LF. Unlike in ECMAScript's own grammar, a CR alone, U+2028 and U+2029 end none.
#![tactic(auto)]

mod laws;
mod scan;
mod table;

use cov_text::Items;
pub use laws::{coming_back, cut_at_line_ends, worked_examples};
use std::marker::Model;

/// A place in a text, as editors and reports speak of it.
#[derive(Clone, Copy, Debug, PartialEq, Eq)]
pub struct Spot {
    /// The line, from 0.
    pub line: u32,
    /// How many UTF-16 code units into the line, from 0; the line's length at its end.
    pub column: u32,
}

/// The UTF-16 code units of a line, from `start` up to but without `end`. Its line end is not among them.
#[derive(Clone, Copy, Debug, PartialEq, Eq)]
pub struct Span {
    /// The first unit of the line.
    pub start: u32,
    /// The unit behind its last one.
    pub end: u32,
}

/// Where the lines of a text lie. Contracts see it as its spans and the number of the text's UTF-16 code units.
#[derive(Debug, Drop)]
pub struct LineTable {
    spans: Items<Span>,
    units: u32,
}

impl Model for LineTable {
    ghost use Rattle.utf16_lines.specs.Table.{Table, IsTable};

    ghost Value = { Table };

    ghost view = { λ t. record { spans = t.spans; units = t.units } };

    ghost invariant = { λ t. IsTable t.spans t.units };
}

/// Why lengths make no table.
#[derive(Clone, Copy, Debug, PartialEq, Eq)]
pub enum LengthFault {
    /// The units would pass 4,294,967,294, so that the number of lines might be no `u32`.
    TooLong,
    /// There was no memory for the table.
    NoMemory,
}
