//! Maps joined with their counts as they stand in a text, and lists in strict order.
ghost use Rattle.std.specs.Prelude.{◌≡◌, true, IfSome};
ghost use Rattle.std.specs.declared.cmp.Ordering as ordering;
ghost use Rattle.std.specs.Cmp.{IsTotalOrder};
ghost use Rattle.istanbul_json.specs.Walks.{rising, by_key_total, by_text_total, AreJoined, AreOrdered, AreListed};
ghost use Rattle.istanbul_json.specs.Kept.{key_cmp};
ghost use Rattle.cov_text.specs.Listing.{text_cmp};

use crate::keys::{Listed, key_order};
use crate::{Branch, FileCoverage, Function, Statement};
use cov_text::Items;
use json_walk::{Member, Object};
use std::alloc::Global;
use std::cmp::Ordering;

/// What stands in a list in the order of something of its own.
pub trait Ordered: Drop + Sized {
    ghost cmp: { Self → Self → ordering.Ordering };

    fn order(&self, other: &Self) -> Ordering
        ensures { result ≡ cmp self.now other.now };

    ghost total: { IsTotalOrder cmp };
}

impl Ordered for Statement {
    ghost cmp = { λ a b. key_cmp a.key b.key };

    ghost total = { by_key_total (λ s. s.key) };

    fn order(&self, other: &Statement) -> Ordering {
        key_order(&self.key, &other.key)
    }
}

impl Ordered for Function {
    ghost cmp = { λ a b. key_cmp a.key b.key };

    ghost total = { by_key_total (λ f. f.key) };

    fn order(&self, other: &Function) -> Ordering {
        key_order(&self.key, &other.key)
    }
}

impl Ordered for Branch {
    ghost cmp = { λ a b. key_cmp a.key b.key };

    ghost total = { by_key_total (λ b. b.key) };

    fn order(&self, other: &Branch) -> Ordering {
        key_order(&self.key, &other.key)
    }
}

impl Ordered for FileCoverage {
    ghost cmp = { λ a b. text_cmp a.path b.path };

    ghost total = { by_text_total (λ f. f.path) };

    fn order(&self, other: &FileCoverage) -> Ordering {
        self.path().cmp(other.path())
    }
}

// Whether each is less than the next.
fn rises<T: Ordered>(all: &[T]) -> bool
    ensures { result ≡ rising T.cmp all.now }
{
    let [first, rest @ ..] = all else {
        return true;
    };
    let mut before = first;
    for next in rest {
        if !before.order(next).is_lt() {
            return false;
        }
        before = next;
    }
    true
}

/// All in strict order, where no two are equal.
pub fn strictly_ordered<T: Ordered>(all: Vec<T>) -> Option<Items<T>>
    ensures { IfSome result (AreOrdered T.cmp all.items) }
{
    if rises(all.as_slice()) {
        return Some(Items::from_vec(all));
    }
    let mut sorted = all;
    if sorted.sort_by(|a, b| a.order(b)).is_err() {
        return None;
    }
    if rises(sorted.as_slice()) {
        return Some(Items::from_vec(sorted));
    }
    None
}

// An entry with its counts, where both have one key and make a whole.
fn join_one<T: Listed>(entry: Member<T::Entry>, counted: Member<T::Counts>) -> Option<T>
    ensures { IfSome result (λ x. (T.key_of x ≡ entry.key) × (T.entry_of x ≡ entry.value)
        × (T.key_of x ≡ counted.key) × (T.counts_of x ≡ counted.value) × (T.fits_of x ≡ true)) }
{
    let Member { key, value } = entry;
    let Member {
        key: other,
        value: counts,
    } = counted;
    if key != other {
        return None;
    }
    let joined = T::make(key, value, counts);
    if joined.fits() { Some(joined) } else { None }
}

// Each entry with its counts, as they stand.
fn joined<T: Listed>(
    alloc: Global,
    entries: Vec<Member<T::Entry>>,
    counts: Vec<Member<T::Counts>>,
) -> Option<Vec<T>>
    ensures { IfSome result (λ all. AreJoined T.key_of T.entry_of T.counts_of T.fits_of entries.items counts.items all.items) }
{
    let mut all = Vec::new(alloc);
    let mut counts = counts.into_iter();
    for entry in entries {
        let Some(counted) = counts.next() else {
            return None;
        };
        let one = join_one(entry, counted)?;
        if all.push(one).is_err() {
            return None;
        }
    }
    if counts.next().is_some() {
        return None;
    }
    Some(all)
}

/// Each entry that was found with its counts, in strict order.
pub fn listed<T: Listed + Ordered>(
    alloc: Global,
    entries: Option<Object<Member<T::Entry>>>,
    counts: Option<Object<Member<T::Counts>>>,
) -> Option<Items<T>>
    ensures { IfSome result (AreListed T.key_of T.entry_of T.counts_of T.fits_of T.cmp entries counts) }
{
    let Object { members: entries } = entries?;
    let Object { members: counts } = counts?;
    let all = joined(alloc, entries.into_vec(), counts.into_vec())?;
    strictly_ordered(all)
}
