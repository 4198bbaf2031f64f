//! Shares against thresholds.
ghost use Rattle.std.specs.Prelude.{◌≡◌, ◌≤◌, ◌++◌, IfOk, OnOk};
ghost use Rattle.cov_table.specs.Shares.{IsWithin, check_line};
ghost use Rattle.cov_table.specs.Shares as shares;

use crate::shares::{Summary, below, percent};
use clean_text::{put, put_number};
use cov_percent::Percent;
use lcov_text::Share;
use std::alloc::{AllocError, Global};

/// Whether a share is below its threshold in percent.
pub fn misses(summary: &Summary, lines: Percent, branches: Percent, functions: Percent) -> bool
    requires within { IsWithin summary.now }
    ensures { result ≡ shares.misses summary.now lines branches functions }
{
    below(summary.lines, lines)
        || below(summary.branches, branches)
        || below(summary.functions, functions)
}

/// A line for each share that is below its threshold in percent, as `lines 50.00 below 60`, first that of the lines, then
/// of the branch locations, then of the functions. There is none exactly where no share is below its threshold.
///
/// The only error is want of memory.
#[tactic(auto, unfolding(crate::specs::Shares::check_text))]
pub fn check_text(
    alloc: Global,
    summary: &Summary,
    lines: Percent,
    branches: Percent,
    functions: Percent,
) -> Result<Vec<u8>, AllocError>
    requires within { IsWithin summary.now }
    ensures { IfOk result (λ text. text.items ≡ shares.check_text summary.now lines branches functions) }
{
    let mut text = Vec::new(alloc);
    put_missed(alloc, &mut text, b"lines", summary.lines, lines)?;
    put_missed(alloc, &mut text, b"branches", summary.branches, branches)?;
    put_missed(alloc, &mut text, b"functions", summary.functions, functions)?;
    Ok(text)
}

// The line of a share, where it is below its threshold.
fn put_missed(
    alloc: Global,
    text: &mut Vec<u8>,
    word: &[u8],
    share: Share,
    threshold: Percent,
) -> Result<(), AllocError>
    requires { share.hit ≤ share.all }
    ensures { OnOk result (text.new.items ≡ text.old.items ++ check_line word.now share threshold) }
{
    if !below(share, threshold) {
        return Ok(());
    }
    let share = percent(alloc, share)?;
    put(text, word)?;
    put(text, b" ")?;
    put(text, share.as_bytes())?;
    put(text, b" below ")?;
    put_number(text, threshold.number())?;
    put(text, b"\n")
}
