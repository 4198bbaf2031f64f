//! What stands before and behind the lists of the text.
ghost use Rattle.std.specs.Prelude.{◌≡◌, ◌++◌, OnOk, decimal};
ghost use Rattle.scripts_text.specs.Parts.{range_text, before_ranges, behind_name, behind_functions};

use cov_model::{Entry, FunctionReport, Range};
use json_pieces::{put, put_number, put_quoted, put_string};
use std::alloc::{AllocError, Global};

pub fn put_range(text: &mut Vec<u8>, range: &Range) -> Result<(), AllocError>
    ensures { OnOk result (text.new.items ≡ text.old.items ++ range_text range.now) }
{
    put_field(text, b"{\"count\":", range.count)?;
    put_field(text, b",\"endOffset\":", u64::from(range.end))?;
    put_field(text, b",\"startOffset\":", u64::from(range.start))?;
    put(text, b"}")
}

// A number, and the name that stands before it.
fn put_field(text: &mut Vec<u8>, name: &[u8], number: u64) -> Result<(), AllocError>
    ensures { OnOk result (text.new.items ≡ text.old.items ++ (name.now ++ decimal number)) }
{
    put(text, name)?;
    put_number(text, number)
}

// What stands before the ranges of a function.
pub fn put_before_ranges(
    alloc: Global,
    text: &mut Vec<u8>,
    function: &FunctionReport,
) -> Result<(), AllocError>
    ensures { OnOk result (text.new.items ≡ text.old.items ++ before_ranges function.now) }
{
    put(text, b"{\"functionName\":")?;
    put_string(alloc, text, function.name.as_text())?;
    put_behind_name(text, function.block)
}

fn put_behind_name(text: &mut Vec<u8>, block: bool) -> Result<(), AllocError>
    ensures { OnOk result (text.new.items ≡ text.old.items ++ behind_name block) }
{
    if block {
        put(text, b",\"isBlockCoverage\":true,\"ranges\":[")
    } else {
        put(text, b",\"isBlockCoverage\":false,\"ranges\":[")
    }
}

// What stands behind the functions of the script at a place.
pub fn put_behind_functions(
    alloc: Global,
    text: &mut Vec<u8>,
    place: usize,
    script: &Entry,
) -> Result<(), AllocError>
    ensures { OnOk result (text.new.items ≡ text.old.items ++ behind_functions place script.now) }
{
    put(text, b",\"scriptId\":")?;
    put_quoted(alloc, text, place as u64)?;
    put(text, b",\"url\":")?;
    put_string(alloc, text, script.url.as_text())?;
    put(text, b"}")
}
