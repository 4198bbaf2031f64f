//! The lines of refused texts on the error sink.
ghost use Rattle.std.specs.Prelude.{◌≡◌, IfOk, string_bytes};
ghost use Rattle.cov_commands.specs.Lines as lines;

use crate::faults::{point_text, text_fault_text};
use clean_text::cleaned;
use cov_model::{Answer, SumFault};
use std::alloc::{AllocError, Global};

// How the name of a function stands in a line.
fn shown_name(alloc: Global, name: &str) -> Result<Vec<u8>, AllocError>
    ensures { IfOk result (λ shown. shown.items ≡ lines.shown_name name.now) }
{
    if name.is_empty() {
        Vec::from_slice(alloc, b"(anonymous)")
    } else {
        cleaned(alloc, name)
    }
}

// What is told of a sum past 64 bits.
fn sum_text(alloc: Global, fault: &SumFault) -> Result<Vec<u8>, AllocError>
    ensures { IfOk result (λ text. text.items ≡ lines.sum_text fault.now) }
{
    let name = shown_name(alloc, fault.key.name.as_text())?;
    let url = cleaned(alloc, fault.key.url.as_text())?;
    let span = span_text(alloc, fault)?;
    let point = point_text(alloc, fault.at)?;
    let sums = sums_text(alloc, fault)?;
    let mut text = Vec::from_slice(alloc, b"sum of ")?;
    text.extend_from_slice(name.as_slice())?;
    text.extend_from_slice(span.as_bytes())?;
    text.extend_from_slice(url.as_slice())?;
    text.extend_from_slice(b" at ")?;
    text.extend_from_slice(point.as_bytes())?;
    text.extend_from_slice(sums.as_bytes())?;
    Ok(text)
}

fn span_text(alloc: Global, fault: &SumFault) -> Result<String, AllocError>
    ensures { IfOk result (λ text. string_bytes text ≡ lines.span_text fault.now) }
{
    let start = fault.key.start;
    let end = fault.key.end;
    format!(in alloc; " {start}..{end} in ")
}

fn sums_text(alloc: Global, fault: &SumFault) -> Result<String, AllocError>
    ensures { IfOk result (λ text. string_bytes text ≡ lines.sums_text fault.now) }
{
    let held = fault.held;
    let added = fault.added;
    format!(in alloc; ": {held} and {added}")
}

/// The line of a text or a file that is refused for this, with its newline.
pub fn refused(alloc: Global, path: &str, why: &[u8]) -> Result<Vec<u8>, AllocError>
    ensures { IfOk result (λ line. line.items ≡ lines.refused path.now why.now) }
{
    let path = cleaned(alloc, path)?;
    let mut line = Vec::from_slice(alloc, b"refused ")?;
    line.extend_from_slice(path.as_slice())?;
    line.extend_from_slice(b": ")?;
    line.extend_from_slice(why)?;
    line.extend_from_slice(b"\n")?;
    Ok(line)
}

/// The line of a text that was refused, with its newline, and none of one that was taken.
#[tactic(auto, unfolding(crate::specs::Lines::answer_line))]
pub fn answer_line(alloc: Global, path: &str, answer: &Answer) -> Result<Vec<u8>, AllocError>
    ensures { IfOk result (λ line. line.items ≡ lines.answer_line path.now answer.now) }
{
    match answer {
        Answer::Taken => Ok(Vec::new(alloc)),
        Answer::Bad(fault) => {
            let why = text_fault_text(alloc, *fault)?;
            refused(alloc, path, why.as_bytes())
        }
        Answer::Past(fault) => {
            let why = sum_text(alloc, fault)?;
            refused(alloc, path, why.as_slice())
        }
    }
}
