//! Shares of lines, branch locations and functions, and their percentages.
ghost use Rattle.std.specs.Prelude.{◌≡◌, ◌≤◌, ◌*◌, false, IfOk, string_bytes};
ghost use Rattle.cov_table.specs.Adding.{plus, both, shares_with};
ghost use Rattle.cov_table.specs.Shares.{summary, IsWithin, is_below};
ghost use Rattle.cov_table.specs.Shares as shares;

use cov_percent::Percent;
use istanbul_json::FileCoverage;
use lcov_text::{LineCount, Share, branches_share, functions_share, line_counts, lines_share};
use std::alloc::{AllocError, Global};

/// How much of all files was run.
#[derive(Clone, Copy, Debug, PartialEq, Eq)]
pub struct Summary {
    /// The lines, as [`line_counts`] has them.
    pub lines: Share,
    /// The locations of the branches.
    pub branches: Share,
    /// The functions.
    pub functions: Share,
}

/// How much of these files was run, all of them taken together.
///
/// The only error is want of memory.
#[tactic(auto, using(crate::proofs::Sums::files_taken))]
pub fn summary_of(alloc: Global, files: &[FileCoverage]) -> Result<Summary, AllocError>
    ensures value { IfOk result (λ shares. shares ≡ summary files.now) }
    ensures within { IfOk result IsWithin }
{
    let mut all = Summary::NOTHING;
    for file in files {
        let lines = line_counts(alloc, file)?;
        all = all.plus(Summary::with_lines(file, &lines));
    }
    Ok(all)
}

impl Summary {
    pub(crate) const NOTHING: Summary = Summary {
        lines: Share { hit: 0, all: 0 },
        branches: Share { hit: 0, all: 0 },
        functions: Share { hit: 0, all: 0 },
    };

    // How much of a file with these lines was run.
    #[tactic(auto, using(crate::proofs::Sums::lines_within))]
    pub(crate) fn with_lines(file: &FileCoverage, lines: &[LineCount]) -> Summary
        ensures value { result ≡ shares_with file.now lines.now }
        ensures within { IsWithin result }
    {
        Summary {
            lines: lines_share(lines),
            branches: branches_share(file.branches()),
            functions: functions_share(file.functions()),
        }
    }

    pub(crate) fn plus(self, more: Summary) -> Summary
        ensures { result ≡ both self more }
    {
        Summary {
            lines: sum_of(self.lines, more.lines),
            branches: sum_of(self.branches, more.branches),
            functions: sum_of(self.functions, more.functions),
        }
    }
}

fn sum_of(a: Share, b: Share) -> Share
    ensures { result ≡ plus a b }
{
    Share {
        hit: a.hit.saturating_add(b.hit),
        all: a.all.saturating_add(b.all),
    }
}

/// The share in hundredths of a percent, rounded down: 6666 where 2 of 3 were run. A share of nothing is 10000.
pub fn hundredths(share: Share) -> u64
    requires { share.hit ≤ share.all }
    ensures value { result ≡ shares.hundredths share }
    ensures most { result ≤ 10000 }
    ensures nothing { share.all ≡ 0 → result ≡ 10000 }
{
    if share.all == 0 {
        return 10000;
    }
    (share.hit as u128 * 10000 / share.all as u128) as u64
}

/// Whether the share is below a threshold in percent. It isn't where both are equal.
pub fn below(share: Share, threshold: Percent) -> bool
    requires { share.hit ≤ share.all }
    ensures value { result ≡ is_below share threshold }
    ensures equal { shares.hundredths share ≡ 100 * threshold → result ≡ false }
{
    hundredths(share) < 100 * threshold.number()
}

// The share in percent, with two digits behind the point.
pub(crate) fn percent(alloc: Global, share: Share) -> Result<String, AllocError>
    requires { share.hit ≤ share.all }
    ensures { IfOk result (λ text. string_bytes text ≡ shares.percent share) }
{
    let share = hundredths(share);
    let whole = share / 100;
    let tenths = share / 10 % 10;
    let rest = share % 10;
    format!(in alloc; "{whole}.{tenths}{rest}")
}
