//! The lines that comments leave out.
ghost use Rattle.std.specs.Prelude.{◌≡◌, ◌+◌, ◌≤◌, ◌^◌, length, IfOk, IsTrue};
ghost use Rattle.std.specs.List.{list_all, prefix_len};
ghost use Rattle.std.specs.Char.{is_ascii_digit};
ghost use Rattle.cov_text.specs.Listing.{max_text};
ghost use Rattle.istanbul_rules.specs.Ignored as comments;
ghost use Rattle.istanbul_rules.specs.Walk.{covered};

use cov_text::Items;
use std::alloc::{AllocError, Global};

const START: &str = "/* c8 ignore start */";

const STOP: &str = "/* c8 ignore stop */";

/// The most digits that the number of a next comment has.
const MOST_DIGITS: usize = 9;

/// For each line of a text, whether a comment leaves it out. Lines end as for a `LineTable`.
///
/// `/* c8 ignore start */` leaves out its own line and those behind it, up to and with the next one from there on that
/// has `/* c8 ignore stop */`. `/* c8 ignore next N */`, where N is one to nine decimal digits, leaves out its own line
/// and the N behind it; `/* c8 ignore next */` is the same with an N of 1. A comment counts wherever it stands in a line.
///
/// Takes time by the length of the text. The only error is want of memory.
pub fn ignored(alloc: Global, text: &str) -> Result<Items<bool>, AllocError>
    requires { length text.now ≤ max_text }
    ensures { IfOk result (λ off. off ≡ comments.ignored text.now) }
{
    let mut off = Items::new(alloc);
    let mut is_open = false;
    let mut reached: u64 = 0;
    let mut at: u64 = 0;
    for line in text.lines() {
        is_open |= has_start(line);
        reached = reached.max(at + lines_covered(line.as_bytes()));
        off.push(is_open | (at < reached))?;
        is_open &= !has_stop(line);
        at += 1;
    }
    Ok(off)
}

// Whether a start comment stands on the line.
fn has_start(line: &str) -> bool
    ensures { result ≡ comments.has_start line.now }
{
    line.contains(START)
}

// Whether a stop comment stands on the line.
fn has_stop(line: &str) -> bool
    ensures { result ≡ comments.has_stop line.now }
{
    line.contains(STOP)
}

// How many lines a line's next comments cover, itself among them, and 0 where it has none.
fn lines_covered(line: &[u8]) -> u64
    ensures value { result ≡ covered line.now }
    ensures bound { result ≤ 2 ^ 32 }
{
    let mut most: u64 = 0;
    for at in 0..line.len() {
        if let Some(n) = next_here(&line[at..]) {
            most = most.max(lines_of_next(n));
        }
    }
    most
}

// How many lines a next comment of N covers, its own among them.
fn lines_of_next(n: u32) -> u64
    ensures value { result ≡ n + 1 }
    ensures bound { result ≤ 2 ^ 32 }
{
    u64::from(n) + 1
}

// N of the next comment that begins here, 1 where it isn't written. Most places have another byte than its first.
fn next_here(bytes: &[u8]) -> Option<u32>
    ensures { result ≡ comments.next_here bytes.now }
{
    let Some(first) = bytes.first() else {
        return None;
    };
    if *first != b'/' {
        return None;
    }
    if bytes.starts_with(b"/* c8 ignore next */") {
        return Some(1);
    }
    if bytes.starts_with(b"/* c8 ignore next ") {
        number_before_end(&bytes[18..])
    } else {
        None
    }
}

// N, where one to nine digits and then ` */` stand here.
fn number_before_end(bytes: &[u8]) -> Option<u32>
    ensures { result ≡ comments.number_before_end bytes.now }
{
    let digits = digits_before(bytes);
    if digits == 0 || digits > MOST_DIGITS || !bytes[digits..].starts_with(b" */") {
        return None;
    }
    Some(number_of(&bytes[..digits]))
}

// How many digits stand at the front.
fn digits_before(bytes: &[u8]) -> usize
    ensures value { result ≡ prefix_len is_ascii_digit bytes.now }
    ensures within { result ≤ length bytes.now }
{
    bytes.iter().take_while(|b| b.is_ascii_digit()).count()
}

// The number that at most nine digits spell.
fn number_of(digits: &[u8]) -> u32
    requires few { length digits.now ≤ MOST_DIGITS }
    requires are_digits { IsTrue (list_all is_ascii_digit digits.now) }
    ensures { result ≡ comments.spelt digits.now }
{
    let mut number: u32 = 0;
    for digit in digits {
        number = 10 * number + u32::from(*digit - b'0');
    }
    number
}
