//! What one script gives to each source of its map.
ghost use Rattle.std.specs.Prelude.{◌≡◌, ◌++◌, List, filter_map, IfOk, OnOk};
ghost use Rattle.cov_model.specs.declared.report.Range.{Range};
ghost use Rattle.source_remap.specs.Groups.{AreBySource};
ghost use Rattle.istanbul_rules.specs.Parts as parts;
ghost use Rattle.istanbul_rules.specs.Remapped as remap;

use crate::counting::{counts_at, landing_offsets, mapped_lines};
use crate::locating::loc_in_source;
use crate::part::{Part, PartBranch, PartFunction, ranges_of};
use cov_model::{FunctionReport, Range};
use cov_text::{Items, Text};
use source_maps::SourceMap;
use source_remap::{
    BySource, Landing, OriginalSpan, anchors_of, landings_by_source, original_span,
};
use std::alloc::{AllocError, Global};
use std::marker::Model;
use utf16_lines::LineTable;

/// The original span of a generated range, and the range's count.
#[derive(Clone, Copy, Debug, PartialEq, Eq)]
pub struct CountedSpan {
    /// Where the range comes from.
    pub span: OriginalSpan,
    /// How often it ran.
    pub count: u64,
}

/// A function that has a name, with the original span and the count of its root.
#[derive(Debug, Drop)]
pub struct NamedSpan {
    /// The name, which isn't empty.
    pub name: Text,
    /// The root.
    pub root: CountedSpan,
}

/// A script with a map, its segments and its ranges grouped by the sources that they come from, so that what it gives to
/// one of them takes no walk over what comes from the others. Contracts see the generated lines, the map's segments and
/// the functions that it was made of.
#[derive(Drop)]
pub struct Remapped<'a> {
    generated: &'a LineTable,
    map: &'a SourceMap,
    functions: &'a [FunctionReport],
    landings: BySource<Landing>,
    offsets: Vec<u32>,
    counts: Vec<u64>,
    branches: BySource<CountedSpan>,
    named: BySource<NamedSpan>,
}

impl<'a> Model for Remapped<'a> {
    ghost use Rattle.istanbul_rules.specs.Remapped.{MappedCode, AreGrouped, AreCounted};

    ghost Value = { MappedCode };

    ghost view = { λ r. record { generated = r.generated.now; segments = r.map.now.segments; functions = r.functions.now } };

    ghost invariant = { λ r. AreGrouped r.generated.now r.map.now.segments r.functions.now r.landings r.branches r.named
        × AreCounted r.functions.now r.landings r.offsets.items r.counts.items };
}

impl<'a> Remapped<'a> {
    /// Groups what comes from each source of a script's map. `generated` is the table of the script's lines.
    ///
    /// Takes time by the segments and the ranges, times a logarithm. The only error is want of memory.
    pub fn of(
        alloc: Global,
        generated: &'a LineTable,
        map: &'a SourceMap,
        functions: &'a [FunctionReport],
    ) -> Result<Remapped<'a>, AllocError>
        ensures { IfOk result (λ r. r ≡ record { generated = generated.now; segments = map.now.segments; functions = functions.now }) }
    {
        let ranges = ranges_of(alloc, functions)?;
        let landings = landings_by_source(alloc, map, generated)?;
        let offsets = landing_offsets(alloc, landings.lists())?;
        let counts = counts_at(alloc, &offsets, ranges.as_slice())?;
        let branches = branch_spans(alloc, generated, map, functions)?;
        let named = named_spans(alloc, generated, map, functions)?;
        Ok(Remapped {
            generated,
            map,
            functions,
            landings,
            offsets,
            counts,
            branches,
            named,
        })
    }

    /// What the script gives to a source of its map: the `mapped_part` of that source. `table` is that of the source's text.
    ///
    /// Takes time by the lines of the table and what comes from the source, times a logarithm. The only error is want of
    /// memory.
    pub fn part(&self, alloc: Global, table: &LineTable, source: u32) -> Result<Part, AllocError>
        ensures { IfOk result (λ part. part ≡ parts.mapped_part table.now self.now.generated self.now.segments source self.now.functions) }
    {
        let anchors = anchors_of(alloc, self.landings.of(source), table.lines())?;
        let lines = mapped_lines(alloc, anchors.as_slice(), &self.offsets, &self.counts)?;
        let branches = branches_in(alloc, table, source, self.branches.of(source))?;
        let functions = functions_in(alloc, table, source, self.named.of(source))?;
        Ok(Part {
            lines,
            branches,
            functions,
        })
    }
}

// The original spans of the ranges of the functions whose flag is true.
fn branch_spans(
    alloc: Global,
    generated: &LineTable,
    map: &SourceMap,
    functions: &[FunctionReport],
) -> Result<BySource<CountedSpan>, AllocError>
    ensures { IfOk result (AreBySource (remap.span_from generated.now map.now.segments) (remap.flagged functions.now)) }
{
    let mut found = BySource::new(alloc);
    for function in functions {
        if function.block {
            add_spans(
                alloc,
                generated,
                map,
                function.ranges.as_slice(),
                &mut found,
            )?;
        }
    }
    Ok(found)
}

// Puts the original spans of these ranges behind those of earlier ones.
fn add_spans(
    alloc: Global,
    generated: &LineTable,
    map: &SourceMap,
    ranges: &[Range],
    found: &mut BySource<CountedSpan>,
) -> Result<(), AllocError>
    ensures { OnOk result ((earlier : List Range) → AreBySource (remap.span_from generated.now map.now.segments) earlier found.old
        → AreBySource (remap.span_from generated.now map.now.segments) (earlier ++ ranges.now) found.new) }
{
    for range in ranges {
        if let Some(counted) = span_of(generated, map, *range) {
            found.put(alloc, counted.span.source, counted)?;
        }
    }
    Ok(())
}

// The original span of a range, with the range's count.
fn span_of(generated: &LineTable, map: &SourceMap, range: Range) -> Option<CountedSpan>
    ensures { result ≡ remap.span_of generated.now map.now.segments range }
{
    let span = original_span(map, generated, range.start, range.end)?;
    let count = range.count;
    Some(CountedSpan { span, count })
}

// The functions that have a name and whose root has an original span.
fn named_spans(
    alloc: Global,
    generated: &LineTable,
    map: &SourceMap,
    functions: &[FunctionReport],
) -> Result<BySource<NamedSpan>, AllocError>
    ensures { IfOk result (AreBySource (remap.named_from generated.now map.now.segments) functions.now) }
{
    let mut found = BySource::new(alloc);
    for function in functions {
        if let Some(named) = named_span(generated, map, function)? {
            found.put(alloc, named.root.span.source, named)?;
        }
    }
    Ok(found)
}

// The function, where it has a name and its root an original span.
fn named_span(
    generated: &LineTable,
    map: &SourceMap,
    function: &FunctionReport,
) -> Result<Option<NamedSpan>, AllocError>
    ensures { IfOk result (λ named. named ≡ remap.named_span generated.now map.now.segments function.now) }
{
    if function.name.as_text().is_empty() {
        return Ok(None);
    }
    let Some(root) = function.ranges.get(0) else {
        return Ok(None);
    };
    let Some(root) = span_of(generated, map, *root) else {
        return Ok(None);
    };
    let name = function.name.clone()?;
    Ok(Some(NamedSpan { name, root }))
}

// The branches of a source, by the spans that come from it.
fn branches_in(
    alloc: Global,
    table: &LineTable,
    source: u32,
    spans: &[CountedSpan],
) -> Result<Items<PartBranch>, AllocError>
    ensures { IfOk result (λ branches. branches ≡ filter_map (remap.branch_in table.now source) spans.now) }
{
    let mut branches = Items::new(alloc);
    for counted in spans {
        if let Some(loc) = loc_in_source(table, source, counted.span) {
            branches.push(PartBranch {
                loc,
                count: counted.count,
            })?;
        }
    }
    Ok(branches)
}

// The functions of a source, by the spans that come from it.
fn functions_in(
    alloc: Global,
    table: &LineTable,
    source: u32,
    named: &[NamedSpan],
) -> Result<Items<PartFunction>, AllocError>
    ensures { IfOk result (λ functions. functions ≡ filter_map (remap.function_in table.now source) named.now) }
{
    let mut functions = Items::new(alloc);
    for function in named {
        if let Some(loc) = loc_in_source(table, source, function.root.span) {
            let name = function.name.clone()?;
            functions.push(PartFunction {
                name,
                loc,
                count: function.root.count,
            })?;
        }
    }
    Ok(functions)
}
