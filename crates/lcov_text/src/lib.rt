//! Coverage files as an lcov trace, and what is counted of them.
#![tactic(auto)]

ghost use Rattle.lcov_text.specs.Examples.{TraceOfTwoLines, NoFile, OddFile};

mod counts;
mod trace;

pub use counts::{LineCount, Share, branches_share, functions_share, line_counts, lines_share};
pub use trace::lcov_of;

/// What the definitions give on worked examples.
pub fn worked_examples()
    ensures text_of_a_file { TraceOfTwoLines }
    ensures no_file { NoFile }
    ensures odd_file { OddFile }
{}
