//! Searches by halves in the lists of a book. They take no memory.
ghost use Rattle.std.specs.Prelude.{◌≡◌, [], List, ℕ, is_some, option_copied, option_map, slice_get};
ghost use Rattle.std.specs.List.Sorted.{IsStrictlySortedBy};
ghost use Rattle.std.specs.Map.{lookup};
ghost use Rattle.std.specs.BTreeMap.{is_at};
ghost use Rattle.std.specs.Ordering.{is_lt};
ghost use Rattle.cov_text.specs.Listing.{text_cmp};
ghost use Rattle.cov_model.specs.Sums.{file_order, same_key};
ghost use Rattle.cov_book.specs.Told.{named};
ghost use Rattle.cov_book.specs.Listed.{bare_key, own_list, all_listed, urls_in, is_front, comes_first, hit, AreInOrder, AreSorted, IsPlace, of_url};
ghost use Rattle.cov_book.specs.Renewed.{IsFoundAt};

use crate::scripts::{Function, Script};
use crate::sums::Sums;
use cov_steps::Runs;
use std::cmp::Ordering;

/// The runs of a function's sums, if these scripts have it.
pub fn runs_named<'a>(
    scripts: &'a [Script],
    url: &str,
    start: u32,
    end: u32,
    name: &str,
) -> Option<&'a Runs>
    requires { AreSorted scripts.now }
    ensures { option_copied result ≡ option_map (λ sums. sums.runs) (lookup (same_key (named url.now
        start end name.now)) (all_listed scripts.now)) }
{
    let Some(sums) = sums_named(scripts, url, start, end, name) else {
        return None;
    };
    Some(&sums.runs)
}

/// The sums of a function, if these scripts have it.
pub fn sums_named<'a>(
    scripts: &'a [Script],
    url: &str,
    start: u32,
    end: u32,
    name: &str,
) -> Option<&'a Sums>
    requires { AreSorted scripts.now }
    ensures { option_copied result
        ≡ lookup (is_at (file_order (named url.now start end name.now))) (all_listed scripts.now) }
{
    sums_among(functions_of(scripts, url), start, end, name)
}

/// The functions of a url, of which there are none where no script has it.
pub fn functions_of<'a>(scripts: &'a [Script], url: &str) -> &'a [Function]
    requires { AreSorted scripts.now }
    ensures order { AreInOrder result.now }
    ensures functions { result.now ≡ of_url url.now scripts.now }
{
    let at = place_of_url(scripts, url);
    let Some(script) = scripts.get(at) else {
        return &[];
    };
    if script.url.as_text() == url {
        script.functions.as_slice()
    } else {
        &[]
    }
}

/// Where a url stands among scripts, or else where it would stand.
pub fn place_of_url(scripts: &[Script], url: &str) -> usize
    requires { IsStrictlySortedBy text_cmp (urls_in scripts.now) }
    ensures { IsPlace (is_front url.now) scripts.now result }
{
    scripts.partition_point(|script| script.url.as_text().cmp(url).is_lt())
}

/// The sums of a function, if it is among these.
pub fn sums_among<'a>(
    functions: &'a [Function],
    start: u32,
    end: u32,
    name: &str,
) -> Option<&'a Sums>
    requires { AreInOrder functions.now }
    ensures { (url : List ℕ) → option_copied result
        ≡ lookup (is_at (file_order (named url start end name.now))) (own_list url functions.now) }
{
    let at = place_of(functions, start, end, name);
    let Some(function) = functions.get(at) else {
        return None;
    };
    if is_function(function, start, end, name) {
        Some(&function.sums)
    } else {
        None
    }
}

/// Where a function stands among those of a script, or else where it would stand.
pub fn place_of(functions: &[Function], start: u32, end: u32, name: &str) -> usize
    requires { AreInOrder functions.now }
    ensures { IsPlace (comes_first (named [] start end name.now)) functions.now result }
{
    functions.partition_point(|function| order_of(function, start, end, name).is_lt())
}

/// Where a function stands among these, if it is there.
pub fn place_among(functions: &[Function], start: u32, end: u32, name: &str) -> Option<usize>
    requires { AreInOrder functions.now }
    ensures { IsFoundAt (named [] start end name.now) functions.now result }
{
    let at = place_of(functions, start, end, name);
    if is_function_at(functions, at, start, end, name) {
        Some(at)
    } else {
        None
    }
}

/// Whether the function of this root and name stands at a place.
pub fn is_function_at(functions: &[Function], at: usize, start: u32, end: u32, name: &str) -> bool
    ensures { result ≡ is_some (hit (named [] start end name.now) (slice_get functions.now at)) }
{
    let Some(there) = functions.get(at) else {
        return false;
    };
    is_function(there, start, end, name)
}

/// Whether a function has this root and name.
fn is_function(function: &Function, start: u32, end: u32, name: &str) -> bool
    ensures { result ≡ same_key (named [] start end name.now) (bare_key function.now) }
{
    start == function.start && end == function.end && name == function.name.as_text()
}

/// How a function stands to this root and name.
pub fn order_of(function: &Function, start: u32, end: u32, name: &str) -> Ordering
    ensures { result ≡ file_order (bare_key function.now) (named [] start end name.now) }
{
    match function.start.cmp(&start) {
        Ordering::Equal => match end.cmp(&function.end) {
            Ordering::Equal => function.name.as_text().cmp(name),
            order => order,
        },
        order => order,
    }
}
