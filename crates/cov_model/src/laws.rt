//! Laws over the definitions, and worked examples of them.
ghost use Rattle.cov_model.specs.Laws.{JoinsWhereItFits, AcceptedFits, StaysPast, OutcomesChain, FlatCounts};
ghost use Rattle.cov_model.specs.Examples.{TwoFiles, HiddenRoot, UrlTwice, TwoNames, NoFunction, CrossingRanges, RangeShapes, PastTheLimit, Branches, BranchesFlat, ComesAgain, ThereAndBack, NoSnapshot, ReadingFaults, NormalFile, FlatLists, HeldSums};

/// What the definitions give on worked examples.
pub fn worked_examples()
    ensures two_files { TwoFiles }
    ensures hidden_root { HiddenRoot }
    ensures url_twice { UrlTwice }
    ensures two_names { TwoNames }
    ensures no_function { NoFunction }
    ensures crossing { CrossingRanges }
    ensures shapes { RangeShapes }
    ensures past_the_limit { PastTheLimit }
    ensures branches { Branches }
    ensures branches_flat { BranchesFlat }
    ensures comes_again { ComesAgain }
    ensures there_and_back { ThereAndBack }
    ensures empty { NoSnapshot }
    ensures faults { ReadingFaults }
    ensures normal { NormalFile }
    ensures flat { FlatLists }
    ensures held { HeldSums }
{}

/// A snapshot joins those held exactly where every sum stays within the limit, and what was accepted fits.
pub fn accepting()
    ensures joins { JoinsWhereItFits }
    ensures fits { AcceptedFits }
    ensures stays { StaysPast }
    ensures chain { OutcomesChain }
{}

/// The flat normal list counts at each offset what it was made of.
pub fn flat_list()
    ensures { FlatCounts }
{}
