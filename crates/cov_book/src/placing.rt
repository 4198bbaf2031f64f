//! Changes put in place, where all memory is taken before.
ghost use Rattle.std.specs.Prelude.{◌≡◌, ◌+◌, ◌<◌, ◌≤◌, [], ◌∷◌, ◌++◌, List, ℕ, true, length, reverse, None, IfOk, IfSome, OnOk, OnErr};
ghost use Rattle.std.specs.Option.{option_or};
ghost use Rattle.std.specs.List.{AllByRecursion};
ghost use Rattle.std.specs.Map.{lookup};
ghost use Rattle.std.specs.BTreeMap.{is_at};
ghost use Rattle.std.specs.Vec.{vec_len, vec_capacity};
ghost use Rattle.cov_text.specs.Listing.{inserted, text_cmp};
ghost use Rattle.cov_model.specs.declared.sums.Key.{Key};
ghost use Rattle.cov_model.specs.Sums.{file_order};
ghost use Rattle.cov_book.specs.Listed.{held_in, of_url, own_list, urls_in, AreInOrder, AreSorted};
ghost use Rattle.cov_book.specs.Renewed.{AreChanged, changed_script, changed_scripts, changed_urls, made};
ghost use Rattle.cov_book.specs.Room.{HasRoom, IfNot, IsPutIn, begins_behind, changes_in};
ghost use Rattle.cov_book.specs.Joining.{by_lasts, last_of, IsTaken};

use crate::changed::{FunctionChanges, ScriptChange, renew};
use crate::looking::{functions_of, order_of, place_of_url};
use crate::scripts::{Function, Script, is_script_at, set_functions, take_functions};
use cov_model::Items;
use std::alloc::{AllocError, Global};
use std::cmp::Ordering;

/// A change to put in place, and room for the functions that the script then has, where some of
/// them aren't held.
#[derive(Drop)]
pub struct Update {
    pub change: ScriptChange,
    pub room: Vec<Function>,
}

/// A walk over scripts: those behind it, in order, and those that are left, last first.
#[derive(Drop)]
pub struct Walk {
    pub done: Vec<Script>,
    pub left: Vec<Script>,
}

/// How many fresh urls are put in one by one.
const FEW: usize = 8;

/// Puts changes in place. Without memory nothing changes.
pub fn put(
    alloc: Global,
    scripts: &mut Vec<Script>,
    changed: Vec<ScriptChange>,
) -> Result<(), AllocError>
    requires order { AreSorted scripts.now.items }
    requires changed { AreChanged changed.items }
    ensures order { OnOk result (AreSorted scripts.new.items) }
    ensures held { OnOk result ((key : Key) → held_in scripts.new.items key
        ≡ option_or (held_in (changed_scripts scripts.old.items changed.items) key) (held_in
        scripts.old.items key)) }
    ensures urls { OnOk result (urls_in scripts.new.items
        ≡ inserted text_cmp (urls_in scripts.old.items) (changed_urls changed.items)) }
    ensures err { OnErr result (scripts.new.items ≡ scripts.old.items) }
{
    let updates = updates_of(alloc, scripts, changed)?;
    let mut walk = walk_of(alloc, scripts, &updates)?;
    for update in updates {
        go_to(&mut walk.done, &mut walk.left, update.change.url.as_text());
        put_change(alloc, &mut walk.done, update);
    }
    let Walk { done, left } = walk;
    *scripts = with_rest(done, left);
    Ok(())
}

/// A walk over the scripts, with room for one more of each update. Where few urls seem to be fresh, all
/// scripts lie behind it at once, so that each update is put in at its place among them; else it begins
/// before the first, so that what is put in comes to the end. Without memory nothing changes.
fn walk_of(alloc: Global, scripts: &mut Vec<Script>, updates: &[Update]) -> Result<Walk, AllocError>
    ensures all { IfOk result (λ walk. walk.done.items ++ reverse walk.left.items ≡ scripts.old.items) }
    ensures room { IfOk result (λ walk. vec_len walk.done + length walk.left.items + length updates.now
        ≤ vec_capacity walk.done) }
    ensures err { OnErr result (scripts.new.items ≡ scripts.old.items) }
{
    if !are_many_fresh(updates) {
        scripts.reserve(updates.len())?;
        let done = std::mem::replace(scripts, Vec::new(alloc));
        let left = Vec::new(alloc);
        return Ok(Walk { done, left });
    }
    let Some(count) = scripts.len().checked_add(updates.len()) else {
        return Err(AllocError);
    };
    let done = Vec::with_capacity(alloc, count)?;
    let mut left = std::mem::replace(scripts, Vec::new(alloc));
    left.reverse();
    Ok(Walk { done, left })
}

/// Whether more than a few updates renew no function, as those of fresh urls. That only speed wants to
/// know: an update that is put in among the scripts moves those behind it, and a walk moves all.
fn are_many_fresh(updates: &[Update]) -> bool {
    let fresh = updates
        .iter()
        .filter(|update| update.change.functions.again.is_empty());
    fresh.count() > FEW
}

/// Goes over the scripts that don't come behind a url. It takes no memory.
fn go_to(done: &mut Vec<Script>, left: &mut Vec<Script>, url: &str)
    requires { vec_len done.now + length left.now.items ≤ vec_capacity done.now }
    ensures all { done.new.items ++ reverse left.new.items ≡ done.old.items ++ reverse left.old.items }
    ensures behind { begins_behind url.now (reverse left.new.items) ≡ true }
    ensures room { (more : ℕ) → vec_len done.old + length left.old.items + more ≤ vec_capacity done.old
        → vec_len done.new + length left.new.items + more ≤ vec_capacity done.new }
{
    'over: while let Some(script) = take_up_to(left, url) {
        let _ = done.push(script);
    }
}

/// Takes the last script, unless it comes behind a url.
fn take_up_to(left: &mut Vec<Script>, url: &str) -> Option<Script>
    ensures taken { IfSome result (λ script. left.old.items ≡ left.new.items ++ script ∷ []) }
    ensures none { result ≡ None → left.new.items ≡ left.old.items }
    ensures behind { result ≡ None → begins_behind url.now (reverse left.old.items) ≡ true }
{
    let Some(last) = left.last() else {
        return None;
    };
    if last.url.as_text().cmp(url).is_gt() {
        return None;
    }
    left.pop()
}

/// Scripts with those that are left, last first. It takes no memory.
fn with_rest(done: Vec<Script>, left: Vec<Script>) -> Vec<Script>
    requires { vec_len done + length left.items ≤ vec_capacity done }
    ensures { result.items ≡ done.items ++ reverse left.items }
{
    let mut all = done;
    let mut rest = left;
    'rest: while let Some(script) = rest.pop() {
        let _ = all.push(script);
    }
    all
}

/// The changes, each with room.
fn updates_of(
    alloc: Global,
    scripts: &[Script],
    changed: Vec<ScriptChange>,
) -> Result<Vec<Update>, AllocError>
    requires { AreSorted scripts.now }
    ensures changes { IfOk result (λ updates. changes_in updates.items ≡ changed.items) }
    ensures room { IfOk result (λ updates. AllByRecursion (HasRoom scripts.now) updates.items) }
{
    let mut updates = Vec::new(alloc);
    for change in changed {
        let room = room_for(alloc, scripts, &change)?;
        updates.push(Update { change, room })?;
    }
    Ok(updates)
}

/// Room for the functions of a script with those that a change puts in, if there are any.
fn room_for(
    alloc: Global,
    scripts: &[Script],
    change: &ScriptChange,
) -> Result<Vec<Function>, AllocError>
    requires { AreSorted scripts.now }
    ensures room { IfOk result (λ room. IfNot (change.now.functions.fresh.items ≡ []) (length
        (of_url change.now.url scripts.now) + length change.now.functions.fresh.items
        ≤ vec_capacity room)) }
    ensures empty { IfOk result (λ room. room.items ≡ []) }
    ensures len { IfOk result (λ room. vec_len room ≡ 0) }
{
    if change.functions.fresh.is_empty() {
        return Ok(Vec::new(alloc));
    }
    let held = functions_of(scripts, change.url.as_text());
    let Some(count) = held.len().checked_add(change.functions.fresh.len()) else {
        return Err(AllocError);
    };
    Vec::with_capacity(alloc, count)
}

/// Puts a change in place. It takes no memory.
fn put_change(alloc: Global, scripts: &mut Vec<Script>, update: Update)
    requires order { AreSorted scripts.now.items }
    requires fresh { AreInOrder update.change.functions.fresh.items }
    requires room { HasRoom scripts.now.items update }
    requires place { vec_len scripts.now < vec_capacity scripts.now }
    ensures put { IsPutIn (changed_script scripts.old.items update.change) scripts.old.items
        scripts.new.items }
    ensures len { vec_len scripts.new ≤ vec_len scripts.old + 1 }
    ensures capacity { vec_capacity scripts.old ≤ vec_capacity scripts.new }
{
    let Update { change, room } = update;
    let ScriptChange { url, functions } = change;
    let at = place_of_url(scripts, url.as_text());
    if is_script_at(scripts, at, &url) {
        let held = take_functions(alloc, scripts, at);
        let functions = functions_with(room, held, functions);
        set_functions(scripts, at, functions);
    } else {
        let functions = Items::from_vec(functions.fresh);
        let _ = scripts.insert(at, Script { url, functions });
    }
}

/// The functions of a script with what is changed of them. It takes no memory.
fn functions_with(
    room: Vec<Function>,
    held: Vec<Function>,
    changes: FunctionChanges,
) -> Vec<Function>
    requires empty { room.items ≡ [] }
    requires len { vec_len room ≡ 0 }
    requires room { IfNot (changes.fresh.items ≡ []) (length held.items
        + length changes.fresh.items ≤ vec_capacity room) }
    requires held { AreInOrder held.items }
    requires fresh { AreInOrder changes.fresh.items }
    ensures order { AreInOrder result.items }
    ensures found { (url : List ℕ) (key : Key) → lookup (is_at (file_order key)) (own_list url
        result.items) ≡ lookup (is_at (file_order key)) (own_list url (made held.items changes)) }
{
    let FunctionChanges { again, fresh } = changes;
    let mut functions = held;
    renew(&mut functions, again);
    if fresh.is_empty() {
        return functions;
    }
    joined(room, fresh, functions)
}

/// Functions with others put in, each in the place of the one of the same root and name, if there
/// is one. It takes no memory: both lists are walked once, from their ends.
fn joined(room: Vec<Function>, held: Vec<Function>, new: Vec<Function>) -> Vec<Function>
    requires empty { room.items ≡ [] }
    requires len { vec_len room ≡ 0 }
    requires room { length held.items + length new.items ≤ vec_capacity room }
    requires held { AreInOrder held.items }
    requires new { AreInOrder new.items }
    ensures order { AreInOrder result.items }
    ensures found { (url : List ℕ) (key : Key) → lookup (is_at (file_order key)) (own_list url
        result.items) ≡ option_or (lookup (is_at (file_order key)) (own_list url new.items)) (lookup
        (is_at (file_order key)) (own_list url held.items)) }
{
    let mut all = room;
    let mut old = held;
    let mut fresh = new;
    'left: while let Some(function) = take_last(&mut old, &mut fresh) {
        let _ = all.push(function);
    }
    all.reverse();
    all
}

/// Takes the function away that comes last of two lists. One that ends both goes from both, and is
/// that of the second.
fn take_last(held: &mut Vec<Function>, new: &mut Vec<Function>) -> Option<Function>
    ensures taken { IfSome result (λ f. IsTaken held.old.items new.old.items f held.new.items
        new.new.items) }
    ensures none { result ≡ None → (held.old.items ≡ []) × (new.old.items ≡ []) }
{
    match order_of_lasts(held, new) {
        Ordering::Less => new.pop(),
        Ordering::Equal => {
            let _ = held.pop();
            new.pop()
        }
        Ordering::Greater => held.pop(),
    }
}

/// How the last of two lists stand to each other: a list without one comes first.
fn order_of_lasts(held: &[Function], new: &[Function]) -> Ordering
    ensures { result ≡ by_lasts (last_of held.now) (last_of new.now) }
{
    let Some(one) = held.last() else {
        return Ordering::Less;
    };
    let Some(other) = new.last() else {
        return Ordering::Greater;
    };
    order_of(one, other.start, other.end, other.name.as_text())
}
