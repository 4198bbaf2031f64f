//! Names and fields in columns. Columns are counted in characters.
ghost use Rattle.std.specs.Prelude.{◌≡◌, ◌++◌, length, replicate, chars, OnOk};
ghost use Rattle.cov_text.specs.Listing.{cleaned};
ghost use Rattle.cov_table.specs.Table.{filled, right_in, barred, fields};
ghost use Rattle.cov_table.specs.Table as table;

use clean_text::{put, put_cleaned};
use std::alloc::{AllocError, Global};

// How many places the fields of a row have.
const FIELD_WIDTH: usize = 6;

/// How many characters a path or a name is shown with.
pub fn shown_width(name: &str) -> usize
    ensures { result ≡ table.shown_width name.now }
{
    character_count(name)
}

fn character_count(text: &str) -> usize
    ensures { result ≡ length (chars text.now) }
{
    text.chars().count()
}

/// A path or a name, filled with spaces on its right.
pub fn put_name(
    alloc: Global,
    text: &mut Vec<u8>,
    width: usize,
    name: &str,
) -> Result<(), AllocError>
    ensures { OnOk result (text.new.items ≡ text.old.items ++ filled width (cleaned name.now)) }
{
    put_cleaned(alloc, text, name)?;
    put_spaces(text, width.saturating_sub(shown_width(name)))
}

/// Three fields, each behind a bar and right in its places.
pub fn put_fields(text: &mut Vec<u8>, a: &str, b: &str, c: &str) -> Result<(), AllocError>
    ensures { OnOk result (text.new.items ≡ text.old.items ++ fields a.now b.now c.now) }
{
    put_field(text, a)?;
    put_field(text, b)?;
    put_field(text, c)
}

fn put_field(text: &mut Vec<u8>, field: &str) -> Result<(), AllocError>
    ensures { OnOk result (text.new.items ≡ text.old.items ++ barred (right_in 6 field.now)) }
{
    put(text, b" | ")?;
    put_spaces(text, FIELD_WIDTH.saturating_sub(character_count(field)))?;
    put(text, field.as_bytes())
}

fn put_spaces(text: &mut Vec<u8>, count: usize) -> Result<(), AllocError>
    ensures { OnOk result (text.new.items ≡ text.old.items ++ replicate count 32) }
{
    for _space in 0..count {
        text.push(b' ')?;
    }
    Ok(())
}
