//! Shares of what was run, as a table and against thresholds.
#![tactic(auto)]

ghost use Rattle.cov_table.specs.Examples.{TableOfTwoLines, Thresholds, NothingCountsAsAll, TwoOfThree, Parts};

mod check;
mod columns;
mod runs;
mod shares;
mod table_rows;

pub use check::{check_text, misses};
pub use cov_percent::Percent;
pub use lcov_text::Share;
pub use shares::{Summary, below, hundredths, summary_of};
pub use table_rows::table_text;

/// What the definitions give on worked examples.
pub fn worked_examples()
    ensures table_of_a_file { TableOfTwoLines }
    ensures thresholds { Thresholds }
    ensures nothing_counts_as_all { NothingCountsAsAll }
    ensures hundredths { TwoOfThree }
    ensures parts { Parts }
{}
