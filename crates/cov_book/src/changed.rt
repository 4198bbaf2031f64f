//! What an addition would change of the scripts of a book.
ghost use Rattle.std.specs.Prelude.{◌≡◌, ◌<◌, ℕ, [], List, Option, Some, true, length, map, option_copied, option_map, slice_get, IfOk, OnOk};
ghost use Rattle.std.specs.List.{AllByRecursion};
ghost use Rattle.std.specs.List.Sorted.{IsStrictlySortedBy};
ghost use Rattle.std.specs.BTreeSet.{insert_key};
ghost use Rattle.std.specs.Vec.{vec_len};
ghost use Rattle.cov_text.specs.Listing.{text_cmp};
ghost use Rattle.cov_model.specs.declared.sums.Key.{Key};
ghost use Rattle.cov_book.specs.declared.sums.Sums.{Sums};
ghost use Rattle.cov_book.specs.declared.scripts.Function.{Function};
ghost use Rattle.cov_book.specs.declared.scripts.Script.{Script};
ghost use Rattle.cov_book.specs.Told.{named};
ghost use Rattle.cov_book.specs.Prepared.{sums_now};
ghost use Rattle.cov_book.specs.Listed.{AreInOrder, IsPlace, Knows, all_listed, held_in, own_list};
ghost use Rattle.cov_book.specs.Renewed.{AreChanged, IsFoundAt, IsPut, change_before, changed_scripts, changed_urls, is_changed, made, new_at, renewed, renewed_at};

use crate::looking::sums_among;
use crate::scripts::{Function, put_function};
use crate::sums::Sums;
use cov_model::Text;
use std::alloc::{AllocError, Global};

/// What an addition would change of a script, or a script that it would put in.
#[derive(Drop)]
pub struct ScriptChange {
    pub url: Text,
    pub functions: FunctionChanges,
}

/// What an addition would change of the functions of a script.
#[derive(Drop)]
pub struct FunctionChanges {
    /// The new sums of those that are held, by their places. Those past the end keep theirs.
    pub again: Vec<Option<Sums>>,
    /// Those that aren't held, in order.
    pub fresh: Vec<Function>,
}

/// Where the change of a url stands. One that changes nothing is put in where there is none.
pub fn place_of_change(
    alloc: Global,
    changes: &mut Vec<ScriptChange>,
    url: &Text,
) -> Result<usize, AllocError>
    requires { AreChanged changes.now.items }
    ensures order { OnOk result (AreChanged changes.new.items) }
    ensures place { IfOk result (λ at. at < vec_len changes.new) }
    ensures there { IfOk result (λ at. is_changed url.now (slice_get changes.new.items at) ≡ true) }
    ensures same { OnOk result ((ss : List Script) → IsStrictlySortedBy text_cmp (map (λ s. s.url) ss) → (key : Key)
        → sums_now (held_in ss) (all_listed (changed_scripts ss changes.new.items)) key
        ≡ sums_now (held_in ss) (all_listed (changed_scripts ss changes.old.items)) key) }
    ensures urls { OnOk result (changed_urls changes.new.items
        ≡ insert_key text_cmp (changed_urls changes.old.items) url.now) }
{
    let at = place_of_url(changes, url.as_text());
    if is_change_at(changes, at, url) {
        return Ok(at);
    }
    let change = no_change(alloc, url)?;
    changes.insert(at, change)?;
    Ok(at)
}

/// Where the change of a url stands, or else where it would stand.
fn place_of_url(changes: &[ScriptChange], url: &str) -> usize
    requires { IsStrictlySortedBy text_cmp (changed_urls changes.now) }
    ensures { IsPlace (change_before url.now) changes.now result }
{
    if are_before(changes, url) {
        return changes.len();
    }
    changes.partition_point(|change| change.url.as_text().cmp(url).is_lt())
}

/// Whether all changes come before a url, told by the last. The urls of a snapshot mostly come in
/// order, so that this spares a search.
fn are_before(changes: &[ScriptChange], url: &str) -> bool
    requires { IsStrictlySortedBy text_cmp (changed_urls changes.now) }
    ensures { result ≡ true
        → AllByRecursion (λ change. change_before url.now change ≡ true) changes.now }
{
    let Some(last) = changes.last() else {
        return false;
    };
    last.url.as_text().cmp(url).is_lt()
}

/// Whether the change of a url stands at a place.
fn is_change_at(changes: &[ScriptChange], at: usize, url: &Text) -> bool
    ensures { result ≡ is_changed url.now (slice_get changes.now at) }
{
    let Some(there) = changes.get(at) else {
        return false;
    };
    there.url == *url
}

/// The change of a script that changes nothing.
fn no_change(alloc: Global, url: &Text) -> Result<ScriptChange, AllocError>
    ensures url { IfOk result (λ change. change.url ≡ url.now) }
    ensures again { IfOk result (λ change. change.functions.again.items ≡ []) }
    ensures fresh { IfOk result (λ change. change.functions.fresh.items ≡ []) }
{
    let again = Vec::new(alloc);
    let fresh = Vec::new(alloc);
    Ok(ScriptChange {
        url: url.clone()?,
        functions: FunctionChanges { again, fresh },
    })
}

/// The sums of a function that stands at this place among those held, or that isn't held: as they
/// were changed, or else as they are held.
pub fn sums_so_far<'a>(
    held: &'a [Function],
    changes: &'a FunctionChanges,
    place: Option<usize>,
    start: u32,
    end: u32,
    name: &str,
) -> Option<&'a Sums>
    requires held { AreInOrder held.now }
    requires fresh { AreInOrder changes.now.fresh.items }
    requires place { IsFoundAt (named [] start end name.now) held.now place }
    ensures { (url : List ℕ) (functions : Key → Option Sums) → Knows url held.now functions
        → option_copied result ≡ sums_now functions (own_list url (made held.now changes.now))
        (named url start end name.now) }
{
    match place {
        Some(at) => sums_at(held, &changes.again, at),
        None => sums_among(&changes.fresh, start, end, name),
    }
}

/// The sums of the function at a place, if there is one.
fn sums_at<'a>(held: &'a [Function], again: &'a [Option<Sums>], at: usize) -> Option<&'a Sums>
    requires { at < length held.now }
    ensures { option_copied result
        ≡ option_map (λ f. f.sums) (slice_get (renewed held.now again.now) at) }
{
    match again_at(again, at) {
        Some(sums) => Some(sums),
        None => held_at(held, at),
    }
}

/// The new sums at a place, if there are any.
fn again_at(again: &[Option<Sums>], at: usize) -> Option<&Sums>
    ensures { option_copied result ≡ new_at again.now at }
{
    let Some(there) = again.get(at) else {
        return None;
    };
    there.as_ref()
}

/// The sums that are held at a place, if there are any.
fn held_at(held: &[Function], at: usize) -> Option<&Sums>
    ensures { option_copied result ≡ option_map (λ f. f.sums) (slice_get held.now at) }
{
    let Some(function) = held.get(at) else {
        return None;
    };
    Some(&function.sums)
}

/// Changes the sums of a function that stands at this place among those held, or that isn't held.
/// Its name is copied only where it is put in.
pub fn put_sums(
    changes: &mut FunctionChanges,
    place: Option<usize>,
    start: u32,
    end: u32,
    name: &Text,
    sums: Sums,
) -> Result<(), AllocError>
    requires { AreInOrder changes.now.fresh.items }
    ensures { OnOk result (IsPut place (named [] start end name.now) sums changes.old changes.new) }
{
    match place {
        Some(at) => put_again(&mut changes.again, at, sums),
        None => {
            let name = name.clone()?;
            put_function(
                &mut changes.fresh,
                Function {
                    start,
                    end,
                    name,
                    sums,
                },
            )
        }
    }
}

/// Puts new sums at a place.
fn put_again(again: &mut Vec<Option<Sums>>, at: usize, sums: Sums) -> Result<(), AllocError>
    ensures { OnOk result ((fs : List Function)
        → renewed fs again.new.items ≡ renewed_at (renewed fs again.old.items) at (Some sums)) }
{
    grow(again, at)?;
    again[at] = Some(sums);
    Ok(())
}

/// Lets a place be one of the list's. What is put in changes nothing.
fn grow(again: &mut Vec<Option<Sums>>, at: usize) -> Result<(), AllocError>
    ensures same { OnOk result ((fs : List Function)
        → renewed fs again.new.items ≡ renewed fs again.old.items) }
    ensures place { OnOk result (at < vec_len again.new) }
{
    'fill: while again.len() <= at {
        again.push(None)?;
    }
    Ok(())
}

/// Gives functions their new sums. It takes no memory.
pub fn renew(functions: &mut Vec<Function>, again: Vec<Option<Sums>>)
    ensures { functions.new.items ≡ renewed functions.old.items again.items }
{
    let mut left = again;
    'left: while let Some(sums) = left.pop() {
        renew_one(functions, left.len(), sums);
    }
}

/// Gives the function at a place its new sums, if there are any.
fn renew_one(functions: &mut Vec<Function>, at: usize, sums: Option<Sums>)
    ensures { functions.new.items ≡ renewed_at functions.old.items at sums }
{
    let Some(sums) = sums else {
        return;
    };
    if at < functions.len() {
        functions[at].sums = sums;
    }
}
