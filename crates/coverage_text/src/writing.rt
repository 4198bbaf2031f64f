//! The walk over files.
ghost use Rattle.std.specs.Prelude.{◌≡◌};
ghost use Rattle.json_pieces.specs.Pieces.{Writes, out_at};
ghost use Rattle.istanbul_json.specs.Value.{file_data, files_text};
ghost use Rattle.coverage_text.specs.Parts.{member_text};

use crate::CoverageFiles;
use crate::listed::write_both;
use crate::parts::{put_key, put_path};
use cov_io::{Sink, SinkFault};
use istanbul_json::FileCoverage;
use json_pieces::{PIECE, Part, finish, put, write_list};
use std::alloc::Global;

/// A file, by its path.
struct Whole;

impl Part<Whole> for FileCoverage {
    ghost text_at = { λ _ f. member_text f.path (file_data f) };

    fn write<O: Sink>(
        &self,
        alloc: Global,
        _: usize,
        text: &mut Vec<u8>,
        out: &mut O,
    ) -> Result<(), SinkFault> {
        put_key(alloc, text, self.path())?;
        write_both(
            alloc,
            self.branches(),
            b"{\"b\":{",
            b",\"branchMap\":{",
            text,
            out,
        )?;
        write_both(
            alloc,
            self.functions(),
            b",\"f\":{",
            b",\"fnMap\":{",
            text,
            out,
        )?;
        put_path(alloc, text, self.path())?;
        write_both(
            alloc,
            self.statements(),
            b",\"s\":{",
            b",\"statementMap\":{",
            text,
            out,
        )?;
        Ok(put(text, b"}")?)
    }
}

/// Writes the JSON text of files to a sink: the compact text of an object from path to file, without a final newline, in
/// pieces of at most [`PIECE`] bytes. Paths and keys stand in byte order, and `istanbul_json::read_coverage` gives the
/// files back where the text is within its size.
///
/// After a refusal a prefix of the text was written. `SinkFault::Failed` comes only where the sink's count of faults
/// rose.
pub fn write_files<O: Sink>(
    alloc: Global,
    files: &CoverageFiles,
    out: &mut O,
) -> Result<(), SinkFault>
    ensures { Writes (files_text files.now)
        (out_at (O.held out.old) (O.longest out.old) (O.faults out.old))
        (out_at (O.held out.new) (O.longest out.new) (O.faults out.new))
        result }
{
    let mut text = Vec::with_capacity(alloc, PIECE)?;
    write_list::<Whole, FileCoverage, O>(alloc, b"{", files.files(), b"}", &mut text, out)?;
    finish(out, &text)
}
