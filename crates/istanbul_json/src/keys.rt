//! Lists by key: statements, functions and branches, made of an entry of their map and of their counts.
ghost use Rattle.std.specs.Prelude.{◌≡◌, ◌==◌, ℕ, Bool, true, List, length, map, IfOk, refl};
ghost use Rattle.std.specs.List.{zip};
ghost use Rattle.istanbul_json.specs.Answers.{pairs, texted, AreRising};
ghost use Rattle.istanbul_json.specs.Coverage as coverage;
ghost use Rattle.istanbul_json.specs.Walks.{function_entry, branch_entry};
ghost use Rattle.istanbul_json.specs.Kept.{key_cmp, by_key};

use crate::entry::{BranchEntry, FunctionEntry};
use crate::values::FromValue;
use crate::{Branch, Function, Loc, Statement};
use cov_text::{Items, Text};
use std::alloc::{AllocError, Global};
use std::cmp::Ordering;

/// What a file lists by key.
pub trait Listed: Drop + Sized {
    type Entry: FromValue;

    type Counts: FromValue;

    ghost key_of: { Self → List ℕ };

    ghost entry_of: { Self → Self.Entry };

    ghost counts_of: { Self → Self.Counts };

    ghost made: { (List ℕ × Self.Entry) × (List ℕ × Self.Counts) → Self };

    ghost fits_of: { Self → Bool };

    fn make(key: Text, entry: Self::Entry, counts: Self::Counts) -> Self
        ensures { (other : List ℕ) → result ≡ made ((key, entry), (other, counts)) };

    fn key(&self) -> &Text
        ensures { result.now ≡ key_of self.now };

    /// Whether there are as many counts as the entry wants.
    fn fits(&self) -> bool
        ensures { result ≡ fits_of self.now };

    ghost keeps_key: { (x : (List ℕ × Self.Entry) × (List ℕ × Self.Counts)) → key_of (made x) ≡ x.0.0 };

    ghost keeps_entry: { (x : (List ℕ × Self.Entry) × (List ℕ × Self.Counts)) → entry_of (made x) ≡ x.0.1 };

    ghost keeps_counts: { (x : (List ℕ × Self.Entry) × (List ℕ × Self.Counts)) → counts_of (made x) ≡ x.1.1 };
}

impl Listed for Statement {
    type Entry = Loc;

    type Counts = u64;

    ghost key_of = { λ s. s.key };

    ghost made = { coverage.statement };

    ghost keeps_key = { λ x. refl };

    ghost entry_of = { λ s. s.loc };

    ghost counts_of = { λ s. s.count };

    ghost keeps_entry = { λ x. refl };

    ghost keeps_counts = { λ x. refl };

    ghost fits_of = { λ s. true };

    fn make(key: Text, loc: Loc, count: u64) -> Statement {
        Statement { key, loc, count }
    }

    fn key(&self) -> &Text {
        &self.key
    }

    fn fits(&self) -> bool {
        true
    }
}

impl Listed for Function {
    type Entry = FunctionEntry;

    type Counts = u64;

    ghost key_of = { λ f. f.key };

    ghost made = { coverage.function };

    ghost keeps_key = { λ x. refl };

    ghost entry_of = { function_entry };

    ghost counts_of = { λ f. f.count };

    ghost keeps_entry = { λ x. refl };

    ghost keeps_counts = { λ x. refl };

    ghost fits_of = { λ f. true };

    fn make(key: Text, entry: FunctionEntry, count: u64) -> Function {
        let FunctionEntry {
            name,
            decl,
            loc,
            line,
        } = entry;
        Function {
            key,
            name,
            decl,
            loc,
            line,
            count,
        }
    }

    fn key(&self) -> &Text {
        &self.key
    }

    fn fits(&self) -> bool {
        true
    }
}

impl Listed for Branch {
    type Entry = BranchEntry;

    type Counts = Items<u64>;

    ghost key_of = { λ b. b.key };

    ghost made = { coverage.branch };

    ghost keeps_key = { λ x. refl };

    ghost entry_of = { branch_entry };

    ghost counts_of = { λ b. b.counts };

    ghost keeps_entry = { λ x. refl };

    ghost keeps_counts = { λ x. refl };

    ghost fits_of = { λ b. length b.counts == length b.locations };

    fn make(key: Text, entry: BranchEntry, counts: Items<u64>) -> Branch {
        let BranchEntry {
            kind,
            loc,
            locations,
            line,
        } = entry;
        Branch {
            key,
            kind,
            loc,
            locations,
            line,
            counts,
        }
    }

    fn key(&self) -> &Text {
        &self.key
    }

    fn fits(&self) -> bool {
        self.counts.len() == self.locations.len()
    }
}

/// Whether both have the same keys.
pub fn same_keys<A, B>(xs: &[(&str, A)], ys: &[(&str, B)]) -> bool
    ensures { result ≡ coverage.same_keys (texted xs.now) (texted ys.now) }
{
    let mut left = ys;
    for x in xs {
        let [y, rest @ ..] = left else {
            return false;
        };
        if x.0 != y.0 {
            return false;
        }
        left = rest;
    }
    left.is_empty()
}

/// Whether each branch has as many counts as locations.
pub fn as_many_counts(branches: &[(&str, BranchEntry)], counts: &[(&str, Items<u64>)]) -> bool
    ensures { result ≡ coverage.as_many_counts (texted branches.now) (texted counts.now) }
{
    let mut left = counts;
    for branch in branches {
        let [of_branch, rest @ ..] = left else {
            return false;
        };
        if branch.1.locations.len() != of_branch.1.len() {
            return false;
        }
        left = rest;
    }
    left.is_empty()
}

/// Shorter keys first, and equally long ones in byte order.
pub fn key_order(a: &Text, b: &Text) -> Ordering
    ensures { result ≡ key_cmp a.now b.now }
{
    let (a, b) = (a.as_text(), b.as_text());
    a.len().cmp(&b.len()).then(a.cmp(b))
}

/// Each entry with its counts, in byte order of the keys.
fn made<T: Listed>(
    alloc: Global,
    entries: Vec<(&str, T::Entry)>,
    counts: Vec<(&str, T::Counts)>,
) -> Result<Vec<T>, AllocError>
    ensures { IfOk result (λ all. all.items ≡ map T.made (zip (pairs entries.entry) (pairs counts.entry))) }
{
    let mut all = Vec::new(alloc);
    let mut counts = counts.into_iter();
    for (key, entry) in entries {
        let Some((_, of_entry)) = counts.next() else {
            return Ok(all);
        };
        let key = Text::from_text(alloc, key)?;
        all.push(T::make(key, entry, of_entry))?;
    }
    Ok(all)
}

/// Each entry with its counts, in the order of the keys.
pub fn in_key_order<T: Listed>(
    alloc: Global,
    entries: Vec<(&str, T::Entry)>,
    counts: Vec<(&str, T::Counts)>,
) -> Result<Items<T>, AllocError>
    requires { AreRising (pairs entries) }
    ensures { IfOk result (λ all. all ≡ by_key T.key_of (map T.made (zip (pairs entries.entry) (pairs counts.entry)))) }
{
    let mut all: Vec<T> = made(alloc, entries, counts)?;
    all.sort_by(|a, b| key_order(a.key(), b.key()))?;
    Ok(Items::from_vec(all))
}
