//! What a book keeps: scripts in order, and of each its functions in order.
ghost use Rattle.std.specs.Prelude.{◌≡◌, ◌+◌, ◌<◌, ◌≤◌, [], Some, OnOk, OnErr, slice_get, slice_set};
ghost use Rattle.cov_book.specs.declared.scripts.Script.{Script};
ghost use Rattle.std.specs.Vec.{vec_len, vec_capacity};
ghost use Rattle.std.specs.BTreeMap.{insert_entry};
ghost use Rattle.cov_model.specs.Sums.{file_order};
ghost use Rattle.cov_book.specs.Listed.{bare, bare_key, is_there, AreInOrder};

use crate::looking::{is_function_at, place_of};
use crate::sums::Sums;
use cov_model::{Items, Text};
use std::alloc::{AllocError, Global};

/// A function of a script: its root's start and end in UTF-16 units, its name, and its sums.
#[derive(Clone, Debug, Drop)]
pub struct Function {
    pub start: u32,
    pub end: u32,
    pub name: Text,
    pub sums: Sums,
}

/// A script, with its functions by start rising, end falling and name in byte order.
#[derive(Clone, Debug, Drop)]
pub struct Script {
    pub url: Text,
    pub functions: Items<Function>,
}

/// Puts a function at its place, or in the place of the one of the same root and name. It takes no
/// memory where there is room for one more.
pub fn put_function(functions: &mut Vec<Function>, function: Function) -> Result<(), AllocError>
    requires { AreInOrder functions.now.items }
    ensures put { OnOk result (bare functions.new.items
        ≡ insert_entry file_order (bare functions.old.items) (bare_key function) function.sums) }
    ensures err { OnErr result (functions.new.items ≡ functions.old.items) }
    ensures full { OnErr result (vec_capacity functions.old ≤ vec_len functions.old) }
    ensures len { vec_len functions.new ≤ vec_len functions.old + 1 }
    ensures capacity { vec_capacity functions.old ≤ vec_capacity functions.new }
{
    let (start, end, name) = (function.start, function.end, function.name.as_text());
    let at = place_of(functions, start, end, name);
    if is_function_at(functions, at, start, end, name) {
        functions[at] = function;
        return Ok(());
    }
    functions.insert(at, function)?;
    Ok(())
}

/// Whether the script of a url stands at a place.
pub fn is_script_at(scripts: &[Script], at: usize, url: &Text) -> bool
    ensures { result ≡ is_there url.now (slice_get scripts.now at) }
{
    let Some(there) = scripts.get(at) else {
        return false;
    };
    there.url == *url
}

/// Takes the functions of a script out, which then has none.
pub fn take_functions(alloc: Global, scripts: &mut Vec<Script>, at: usize) -> Vec<Function>
    requires { at < vec_len scripts.now }
    ensures functions { (s : Script) → slice_get scripts.old.items at ≡ Some s
        → result.items ≡ s.functions }
    ensures left { (s : Script) → slice_get scripts.old.items at ≡ Some s
        → scripts.new.items ≡ slice_set scripts.old.items at (record { url = s.url; functions = [] }) }
    ensures len { vec_len scripts.new ≡ vec_len scripts.old }
    ensures capacity { vec_capacity scripts.new ≡ vec_capacity scripts.old }
{
    std::mem::replace(&mut scripts[at].functions, Items::new(alloc)).into_vec()
}

/// Gives a script these functions.
pub fn set_functions(scripts: &mut Vec<Script>, at: usize, functions: Vec<Function>)
    requires { at < vec_len scripts.now }
    ensures set { (s : Script) → slice_get scripts.old.items at ≡ Some s
        → scripts.new.items ≡ slice_set scripts.old.items at (record { url = s.url; functions = functions.items }) }
    ensures len { vec_len scripts.new ≡ vec_len scripts.old }
    ensures capacity { vec_capacity scripts.new ≡ vec_capacity scripts.old }
{
    scripts[at].functions = Items::from_vec(functions);
}
