//! The scans that find the lines.
ghost use Rattle.std.specs.Prelude.{◌≡◌, ◌-◌, ◌<◌, ◌≤◌, length, true, false, if◌then◌else◌, IfOk};
ghost use Rattle.cov_text.specs.Listing.{max_text};
ghost use Rattle.utf16_lines.specs.Scan.{scanned, units_in, units_at, IsScanOfLengths};

use crate::{LengthFault, Span};
use cov_text::Items;
use std::alloc::{AllocError, Global};

const LF: u8 = b'\n';

const CR: u8 = b'\r';

/// The most units that a list of lengths may come to.
const MOST_UNITS: u64 = 4294967294;

/// The lines of a text in UTF-8, and how many units it has.
pub fn text_lines(alloc: Global, bytes: &[u8]) -> Result<(Items<Span>, u32), AllocError>
    requires { length bytes.now ≤ max_text }
    ensures lines { IfOk result (λ found. found.0 ≡ scanned 0 false 0 bytes.now) }
    ensures units { IfOk result (λ found. found.1 ≡ units_in bytes.now) }
{
    let mut spans = Vec::new(alloc);
    let mut start: u32 = 0;
    let mut at: u32 = 0;
    let mut cr = false;
    for byte in bytes {
        if *byte == LF {
            let end = before_cr(at, cr);
            spans.push(Span { start, end })?;
            at += 1;
            start = at;
            cr = false;
        } else {
            at += units_of(*byte);
            cr = *byte == CR;
        }
    }
    if start != at {
        spans.push(Span { start, end: at })?;
    }
    Ok((Items::from_vec(spans), at))
}

// Where a line ends whose LF stands at the unit `at`, where `cr` says that a CR stands before.
fn before_cr(at: u32, cr: bool) -> u32
    requires { cr ≡ true → 0 < at }
    ensures { result ≡ (if cr then at - 1 else at) }
{
    if cr { at - 1 } else { at }
}

// How many units a byte of UTF-8 brings: a first byte those of its character, another none.
fn units_of(byte: u8) -> u32
    ensures { result ≡ units_at byte }
{
    match byte {
        0..=127 => 1,
        128..=191 => 0,
        192..=239 => 1,
        _ => 2,
    }
}

/// The lines of these lengths, each but the last followed by one unit, and how many units there are.
pub fn length_lines(alloc: Global, lengths: &[u32]) -> Result<(Items<Span>, u32), LengthFault>
    ensures { IsScanOfLengths lengths.now result }
{
    let mut spans = Vec::new(alloc);
    let mut start: u32 = 0;
    for length in lengths {
        let end = u64::from(start) + u64::from(*length);
        if end > MOST_UNITS {
            return Err(LengthFault::TooLong);
        }
        let end = end as u32;
        spans
            .push(Span { start, end })
            .map_err(|_| LengthFault::NoMemory)?;
        start = end + 1;
    }
    Ok((Items::from_vec(spans), start.saturating_sub(1)))
}
