//! The walk over scripts, functions and ranges.
ghost use Rattle.serde_json.specs.Written.{compact_text};
ghost use Rattle.cov_model.specs.File.{range_data, report_data, entry_data, result_data};
ghost use Rattle.json_pieces.specs.Pieces.{Writes, out_at};

use crate::parts::{put_before_ranges, put_behind_functions, put_range};
use cov_io::{Sink, SinkFault};
use cov_model::{Entry, FunctionReport, Range};
use json_pieces::{PIECE, Part, finish, write_list};
use std::alloc::Global;

/// An element of a list.
struct Element;

impl Part<Element> for Range {
    ghost text_at = { λ _ r. compact_text (range_data r) };

    fn write<O: Sink>(
        &self,
        _: Global,
        _: usize,
        text: &mut Vec<u8>,
        _: &mut O,
    ) -> Result<(), SinkFault> {
        Ok(put_range(text, self)?)
    }
}

impl Part<Element> for FunctionReport {
    ghost text_at = { λ _ f. compact_text (report_data f) };

    fn write<O: Sink>(
        &self,
        alloc: Global,
        _: usize,
        text: &mut Vec<u8>,
        out: &mut O,
    ) -> Result<(), SinkFault> {
        put_before_ranges(alloc, text, self)?;
        write_list::<Element, Range, O>(alloc, b"", self.ranges.as_slice(), b"]}", text, out)
    }
}

impl Part<Element> for Entry {
    ghost text_at = { λ k e. compact_text (entry_data k e) };

    fn write<O: Sink>(
        &self,
        alloc: Global,
        place: usize,
        text: &mut Vec<u8>,
        out: &mut O,
    ) -> Result<(), SinkFault> {
        let functions = self.functions.as_slice();
        write_list::<Element, FunctionReport, O>(
            alloc,
            b"{\"functions\":[",
            functions,
            b"]",
            text,
            out,
        )?;
        Ok(put_behind_functions(alloc, text, place, self)?)
    }
}

/// Writes the JSON object of the one member `result`, the list of scripts, to a sink: the compact text, without a final
/// newline, in pieces of at most [`PIECE`] bytes. Each script has its functions and their ranges in their own order,
/// members stand in byte order of their names, and `scriptId` is the place in the list, in decimal.
///
/// After a refusal a prefix of the text was written. `SinkFault::Failed` comes only where the sink's count of faults
/// rose.
pub fn write_scripts<O: Sink>(
    alloc: Global,
    scripts: &[Entry],
    out: &mut O,
) -> Result<(), SinkFault>
    ensures { Writes (compact_text (result_data scripts.now))
        (out_at (O.held out.old) (O.longest out.old) (O.faults out.old))
        (out_at (O.held out.new) (O.longest out.new) (O.faults out.new))
        result }
{
    let mut text = Vec::with_capacity(alloc, PIECE)?;
    write_list::<Element, Entry, O>(alloc, b"{\"result\":[", scripts, b"]}", &mut text, out)?;
    finish(out, &text)
}
