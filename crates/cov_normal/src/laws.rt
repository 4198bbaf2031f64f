//! Laws over the definitions.
ghost use Rattle.cov_normal.specs.Laws.{CountsDetermineIt, ItIsWellNested, ThereIsOne, ThereIsNoOther};
ghost use Rattle.cov_normal.specs.NestedLaws.{ItIsByCases, NoOtherIs, ItCounts, ItIsNested, TwoAreOne};

/// Of a start, an end, a root count and the counts at the offsets there is one list in each form, and its ranges nest.
pub fn one_list()
    ensures one { CountsDetermineIt }
    ensures nests { ItIsWellNested }
{}

/// A list is the flat one where its root and its counts are these, and what is behind the root is nonempty, rising,
/// disjoint, within it, of other counts than the root, and of other counts where two touch.
pub fn flat_list()
    ensures one { ThereIsOne }
    ensures no_other { ThereIsNoOther }
{}

/// The nested list is what its cases give, and they give no other: none inside a stretch of one count, and else a range
/// from the first offset with another count up to the last with that count before the first comes again, then the
/// ranges inside that one, then those behind it.
pub fn nested_by_cases()
    ensures cases { ItIsByCases }
    ensures no_other { NoOtherIs }
{}

/// The nested list has the counts that it was made of, so it is the nested list of its own, and no other one with its
/// root has these counts.
pub fn nested_list()
    ensures counts { ItCounts }
    ensures own { ItIsNested }
    ensures no_other { TwoAreOne }
{}
