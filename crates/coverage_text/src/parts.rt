//! What is put whole: keys, places, functions, and what stands around the lists of a branch.
ghost use Rattle.std.specs.Prelude.{◌≡◌, ◌++◌, OnOk};
ghost use Rattle.json.specs.Print.{quoted};
ghost use Rattle.coverage_text.specs.Parts as parts;

use istanbul_json::{Branch, Function, Loc, Mark};
use json_pieces::{put, put_number, put_string};
use std::alloc::{AllocError, Global};

/// A key with its colon.
pub fn put_key(alloc: Global, text: &mut Vec<u8>, key: &str) -> Result<(), AllocError>
    ensures { OnOk result (text.new.items ≡ text.old.items ++ parts.key_text key.now) }
{
    put_string(alloc, text, key)?;
    put(text, b":")
}

fn put_number_or_null(text: &mut Vec<u8>, number: Option<u32>) -> Result<(), AllocError>
    ensures { OnOk result (text.new.items ≡ text.old.items ++ parts.number_text number) }
{
    match number {
        Some(number) => put_number(text, u64::from(number)),
        None => put(text, b"null"),
    }
}

// A line or a column, and the name that stands before it.
fn put_number_field(text: &mut Vec<u8>, name: &[u8], number: Option<u32>) -> Result<(), AllocError>
    ensures { OnOk result (text.new.items ≡ text.old.items ++ (name.now ++ parts.number_text number)) }
{
    put(text, name)?;
    put_number_or_null(text, number)
}

fn put_mark(text: &mut Vec<u8>, mark: Mark) -> Result<(), AllocError>
    ensures { OnOk result (text.new.items ≡ text.old.items ++ parts.mark_text mark) }
{
    put_number_field(text, b"{\"column\":", mark.column)?;
    put_number_field(text, b",\"line\":", mark.line)?;
    put(text, b"}")
}

fn put_mark_field(text: &mut Vec<u8>, name: &[u8], mark: Mark) -> Result<(), AllocError>
    ensures { OnOk result (text.new.items ≡ text.old.items ++ (name.now ++ parts.mark_text mark)) }
{
    put(text, name)?;
    put_mark(text, mark)
}

/// A part of a file.
pub fn put_loc(text: &mut Vec<u8>, loc: Loc) -> Result<(), AllocError>
    ensures { OnOk result (text.new.items ≡ text.old.items ++ parts.loc_text loc) }
{
    put_mark_field(text, b"{\"end\":", loc.end)?;
    put_mark_field(text, b",\"start\":", loc.start)?;
    put(text, b"}")
}

fn put_loc_field(text: &mut Vec<u8>, name: &[u8], loc: Loc) -> Result<(), AllocError>
    ensures { OnOk result (text.new.items ≡ text.old.items ++ (name.now ++ parts.loc_text loc)) }
{
    put(text, name)?;
    put_loc(text, loc)
}

// A text, and the name that stands before it.
fn put_string_field(
    alloc: Global,
    text: &mut Vec<u8>,
    name: &[u8],
    string: &str,
) -> Result<(), AllocError>
    ensures { OnOk result (text.new.items ≡ text.old.items ++ (name.now ++ quoted string.now)) }
{
    put(text, name)?;
    put_string(alloc, text, string)
}

/// What a function is, without its count.
pub fn put_function(
    alloc: Global,
    text: &mut Vec<u8>,
    function: &Function,
) -> Result<(), AllocError>
    ensures { OnOk result (text.new.items ≡ text.old.items ++ parts.function_text function.now) }
{
    put_loc_field(text, b"{\"decl\":", function.decl)?;
    put_number_field(text, b",\"line\":", function.line)?;
    put_loc_field(text, b",\"loc\":", function.loc)?;
    put_behind_loc(alloc, text, function.name.as_text())
}

// The name of a function, behind its places.
fn put_behind_loc(alloc: Global, text: &mut Vec<u8>, name: &str) -> Result<(), AllocError>
    ensures { OnOk result (text.new.items ≡ text.old.items ++ parts.behind_loc name.now) }
{
    put_string_field(alloc, text, b",\"name\":", name)?;
    put(text, b"}")
}

/// What stands before the locations of a branch.
pub fn put_before_locations(text: &mut Vec<u8>, branch: &Branch) -> Result<(), AllocError>
    ensures { OnOk result (text.new.items ≡ text.old.items ++ parts.before_locations branch.now) }
{
    put_number_field(text, b"{\"line\":", branch.line)?;
    put_loc_field(text, b",\"loc\":", branch.loc)?;
    put(text, b",\"locations\":[")
}

/// What stands behind them.
pub fn put_behind_locations(
    alloc: Global,
    text: &mut Vec<u8>,
    branch: &Branch,
) -> Result<(), AllocError>
    ensures { OnOk result (text.new.items ≡ text.old.items ++ parts.behind_locations branch.now) }
{
    put_string_field(alloc, text, b",\"type\":", branch.kind.as_text())?;
    put(text, b"}")
}

/// The path of a file, behind its functions.
pub fn put_path(alloc: Global, text: &mut Vec<u8>, path: &str) -> Result<(), AllocError>
    ensures { OnOk result (text.new.items ≡ text.old.items ++ parts.path_text path.now) }
{
    put_string_field(alloc, text, b",\"path\":", path)
}
