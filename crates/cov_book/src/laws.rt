//! Laws of merging, over the definitions.
ghost use Rattle.cov_book.specs.Prepared.{SumsGrow};
ghost use Rattle.cov_book.specs.Rows.{RunsLookedAt};
ghost use Rattle.cov_book.specs.Laws.{AnyOrder, MergesInParts, JoinsInOne, JoinsOverTwo};

/// Snapshots come to the same sums and to one file in whatever order they are taken.
pub fn any_order()
    ensures { AnyOrder }
{}

/// What was merged in parts, and then merged, is what is merged at once: several machines may each
/// merge a share.
pub fn in_parts()
    ensures { MergesInParts }
{}

/// Scripts of one url, in one snapshot or in two, count as one script with the functions of both.
pub fn one_script()
    ensures in_one { JoinsInOne }
    ensures over_two { JoinsOverTwo }
{}

/// The sums of a list with those of a snapshot are the sums of both.
pub fn growing()
    ensures { SumsGrow }
{}

/// What additions of two snapshots of one function, and of one of another function, may look at.
pub fn runs_looked_at()
    ensures { RunsLookedAt }
{}
