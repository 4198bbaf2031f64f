//! The words for why a text was refused.
ghost use Rattle.std.specs.Prelude.{◌≡◌, IfOk, string_bytes};
ghost use Rattle.cov_commands.specs.Lines as lines;

use cov_model::{At, Field, Place, RangeFault, ShapeFault, TextFault};
use std::alloc::{AllocError, Global};

/// The word of a field.
fn field_name(field: Field) -> &'static str
    ensures { result.now ≡ lines.field_name field }
{
    match field {
        Field::Top => "top",
        Field::Result => "result",
        Field::Script => "script",
        Field::Url => "url",
        Field::Functions => "functions",
        Field::Function => "function",
        Field::FunctionName => "functionName",
        Field::Ranges => "ranges",
        Field::RangeItem => "range",
        Field::IsBlockCoverage => "isBlockCoverage",
        Field::StartOffset => "startOffset",
        Field::EndOffset => "endOffset",
        Field::Count => "count",
    }
}

// A word and its number, where there is one.
fn numbered(alloc: Global, word: &str, number: Option<u64>) -> Result<String, AllocError>
    ensures { IfOk result (λ text. string_bytes text ≡ lines.numbered word.now number) }
{
    match number {
        Some(number) => format!(in alloc; "{word}{number}"),
        None => Ok(String::new(alloc)),
    }
}

fn place_text(alloc: Global, place: Place) -> Result<String, AllocError>
    ensures { IfOk result (λ text. string_bytes text ≡ lines.place_text place) }
{
    let function = numbered(alloc, " function ", place.function)?;
    let range = numbered(alloc, " range ", place.range)?;
    match place.script {
        Some(script) => format!(in alloc; "script {script}{function}{range}"),
        None => String::from_str(alloc, "top"),
    }
}

fn range_fault_text(alloc: Global, fault: RangeFault) -> Result<String, AllocError>
    ensures { IfOk result (λ text. string_bytes text ≡ lines.range_fault_text fault) }
{
    match fault {
        RangeFault::NoRange => String::from_str(alloc, "no range"),
        RangeFault::Inverted { k } => format!(in alloc; "range {k} inverted"),
        RangeFault::Outside { k } => format!(in alloc; "range {k} outside"),
        RangeFault::Crossing { k, other } => {
            format!(in alloc; "range {k} crosses range {other}")
        }
    }
}

fn shape_text(alloc: Global, fault: ShapeFault) -> Result<String, AllocError>
    ensures { IfOk result (λ text. string_bytes text ≡ lines.shape_text fault) }
{
    match fault {
        ShapeFault::Missing { place, field } => {
            let place = place_text(alloc, place)?;
            let name = field_name(field);
            format!(in alloc; "missing {name} at {place}")
        }
        ShapeFault::Wrong { place, field } => {
            let place = place_text(alloc, place)?;
            let name = field_name(field);
            format!(in alloc; "wrong {name} at {place}")
        }
        ShapeFault::Ranges { place, fault } => {
            let place = place_text(alloc, place)?;
            let fault = range_fault_text(alloc, fault)?;
            format!(in alloc; "ranges at {place}: {fault}")
        }
        ShapeFault::NoMemory => Ok(String::new(alloc)),
    }
}

/// Why a text is no snapshot.
pub fn text_fault_text(alloc: Global, fault: TextFault) -> Result<String, AllocError>
    ensures { IfOk result (λ text. string_bytes text ≡ lines.text_fault_text fault) }
{
    match fault {
        TextFault::TooLong => String::from_str(alloc, "too long"),
        TextFault::Syntax => String::from_str(alloc, "syntax"),
        TextFault::Shape(fault) => shape_text(alloc, fault),
        TextFault::NoMemory => Ok(String::new(alloc)),
    }
}

/// A sum of a function: its root, or an offset.
pub fn point_text(alloc: Global, at: At) -> Result<String, AllocError>
    ensures { IfOk result (λ text. string_bytes text ≡ lines.point_text at) }
{
    match at {
        At::Root => String::from_str(alloc, "root"),
        At::Offset(offset) => format!(in alloc; "offset {offset}"),
    }
}
