//! The lines of what a report leaves out.
ghost use Rattle.std.specs.Prelude.{◌≡◌, ◌++◌, IfOk, OnOk};
ghost use Rattle.cov_report.specs.Texts as texts;

use crate::{Skip, SkipCause};
use clean_text::{put, put_cleaned};
use std::alloc::{AllocError, Global};

fn cause_text(cause: SkipCause) -> &'static str
    ensures { result.now ≡ texts.cause_text cause }
{
    match cause {
        SkipCause::NotFile => "not a file",
        SkipCause::Absent => "absent",
        SkipCause::TooLong => "too long",
        SkipCause::NotUtf8 => "not UTF-8",
        SkipCause::BadMap => "bad map",
    }
}

// Puts the line of what is left out, with its newline.
fn put_skip(alloc: Global, lines: &mut Vec<u8>, skip: &Skip) -> Result<(), AllocError>
    ensures { OnOk result (lines.new.items ≡ lines.old.items ++ texts.skip_line skip.now) }
{
    put(lines, b"skipped ")?;
    put_cleaned(alloc, lines, skip.name.as_text())?;
    put(lines, b": ")?;
    put(lines, cause_text(skip.cause).as_bytes())?;
    put(lines, b"\n")
}

/// The lines of what is left out, in order: `skipped NAME: CAUSE`, a control character of the name as `?`, each with its
/// newline. The only error is want of memory.
pub fn lines_of_skips(alloc: Global, skips: &[Skip]) -> Result<Vec<u8>, AllocError>
    ensures { IfOk result (λ lines. lines.items ≡ texts.skip_lines skips.now) }
{
    let mut lines = Vec::new(alloc);
    for skip in skips {
        put_skip(alloc, &mut lines, skip)?;
    }
    Ok(lines)
}
