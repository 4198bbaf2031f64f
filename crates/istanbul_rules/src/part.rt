//! What one script gives to a file.
ghost use Rattle.std.specs.Prelude.{◌≡◌, IfOk};
ghost use Rattle.istanbul_rules.specs.Parts as parts;

use crate::counting::direct_lines;
use crate::locating::{branches_of, functions_of};
use crate::remapped::Remapped;
use cov_model::{FunctionReport, Range};
use cov_text::{Items, Text};
use istanbul_json::Loc;
use source_maps::SourceMap;
use std::alloc::{AllocError, Global};
use utf16_lines::LineTable;

/// A part of the file that was counted by itself.
#[derive(Clone, Copy, Debug, PartialEq, Eq)]
pub struct PartBranch {
    /// Where it stands.
    pub loc: Loc,
    /// How often it ran.
    pub count: u64,
}

/// A function of the file that has a name.
#[derive(Clone, Debug, PartialEq, Eq, Drop)]
pub struct PartFunction {
    /// The name, which isn't empty.
    pub name: Text,
    /// Where it stands.
    pub loc: Loc,
    /// How often it was called.
    pub count: u64,
}

/// What one script gives to a file: the count of each line, where it has one, its branches and its functions.
#[derive(Debug, Drop)]
pub struct Part {
    /// One place per line of the file's table.
    pub lines: Items<Option<u64>>,
    /// The branches, function by function and in the order of their ranges.
    pub branches: Items<PartBranch>,
    /// The functions, in the order of the script's.
    pub functions: Items<PartFunction>,
}

/// What a script gives to the file that it is itself, whose lines are those of the table.
///
/// The ranges in order are those of the functions, one function behind the other. A line's count is that of the last of
/// them that goes over the whole line, and 1 where none does. A range's location goes from the spot of its start to that
/// of its end, where an offset past the units counts as the units; where the table has no line there is none. Each range
/// of a function whose flag is true and that has a location is a branch, each function that has a name and whose root
/// has a location a function.
///
/// Takes time by the lines and the ranges, times a logarithm. The only error is want of memory.
pub fn direct_part(
    alloc: Global,
    table: &LineTable,
    functions: &[FunctionReport],
) -> Result<Part, AllocError>
    ensures { IfOk result (λ part. part ≡ parts.direct_part table.now functions.now) }
{
    let ranges = ranges_of(alloc, functions)?;
    let lines = direct_lines(alloc, table, ranges.as_slice())?;
    let branches = branches_of(alloc, table, functions)?;
    let functions = functions_of(alloc, table, functions)?;
    Ok(Part {
        lines,
        branches,
        functions,
    })
}

/// What a script gives to a source of its map. `table` is that of the source's text, `generated` that of the script's.
///
/// The count at a generated offset is that of the last range in order that contains it, and 1 where none does. A line of
/// the source has the greatest count at its anchors, and none where it has no anchor. A range's location goes from its
/// original span's first spot to the end of the line of its last, columns cut to their line's length; there is none
/// where the range has no original span, where that is in another source, or where one of the two lines isn't in the
/// table. Branches and functions are those of a direct part with this location.
///
/// Takes time by the lines, the segments and the ranges, times a logarithm: who asks for several sources of one map makes
/// a `Remapped` once. The only error is want of memory.
pub fn mapped_part(
    alloc: Global,
    table: &LineTable,
    generated: &LineTable,
    map: &SourceMap,
    source: u32,
    functions: &[FunctionReport],
) -> Result<Part, AllocError>
    ensures { IfOk result (λ part. part ≡ parts.mapped_part table.now generated.now map.now.segments source functions.now) }
{
    let remapped = Remapped::of(alloc, generated, map, functions)?;
    remapped.part(alloc, table, source)
}

/// The ranges of the functions, one function behind the other.
pub(crate) fn ranges_of(
    alloc: Global,
    functions: &[FunctionReport],
) -> Result<Items<Range>, AllocError>
    ensures { IfOk result (λ ranges. ranges ≡ parts.ranges_in_order functions.now) }
{
    let mut ranges = Items::new(alloc);
    for function in functions {
        ranges.extend_from_slice(function.ranges.as_slice())?;
    }
    Ok(ranges)
}
