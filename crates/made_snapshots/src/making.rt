//! The scripts of one made snapshot.
ghost use Rattle.std.specs.Prelude.{◌≡◌, ◌≤◌, ◌+◌, ◌<◌, IfOk, OnOk};
ghost use Rattle.made_snapshots.specs.Draws.{behind};
ghost use Rattle.made_snapshots.specs.Made as made;
ghost use Rattle.made_snapshots.specs.Made.{snapshot};

use crate::Draws;
use cov_model::{Entry, FunctionReport, Items, Range, Text};
use std::alloc::{AllocError, Global};

/// The scripts of the made snapshot of a number, by twelve draws: one script with two functions, both with block counts.
pub fn made_scripts(
    alloc: Global,
    draws: &mut Draws,
    number: u32,
) -> Result<Items<Entry>, AllocError>
    ensures scripts { IfOk result (λ scripts. scripts ≡ snapshot number draws.old) }
    ensures state { OnOk result (draws.new ≡ behind 12 draws.old) }
{
    let url = url(alloc, number)?;
    let mut functions = Items::new(alloc);
    functions.push(outer(alloc, draws)?)?;
    functions.push(inner(alloc, draws)?)?;
    let mut scripts = Items::new(alloc);
    scripts.push(Entry { url, functions })?;
    Ok(scripts)
}

// The url of a number. Fifty urls come again and again.
fn url(alloc: Global, number: u32) -> Result<Text, AllocError>
    ensures { IfOk result (λ url. url ≡ made.url number) }
{
    let url = format!(in alloc; "file:///made/{}.js", number % 50)?;
    Ok(Text::from_string(url))
}

// What runs once, with three blocks.
fn outer(alloc: Global, draws: &mut Draws) -> Result<FunctionReport, AllocError>
    ensures report { IfOk result (λ f. f ≡ made.outer draws.old) }
    ensures state { OnOk result (draws.new ≡ behind 9 draws.old) }
{
    let root = Range {
        start: 0,
        end: 10000,
        count: 1,
    };
    let first = block(draws, 0);
    let second = block(draws, 2000);
    let third = block(draws, 4000);
    Ok(FunctionReport {
        name: Text::from_text(alloc, "")?,
        block: true,
        ranges: Items::from_slice(alloc, &[root, first, second, third])?,
    })
}

// A block behind an offset, by three draws.
fn block(draws: &mut Draws, base: u32) -> Range
    requires { base ≤ 4000 }
    ensures range { result ≡ made.block base draws.old }
    ensures state { draws.new ≡ behind 3 draws.old }
{
    let start = base + draws.draw() % 500;
    let end = start + 1 + draws.draw() % 1000;
    let count = u64::from(draws.draw() % 5);
    Range { start, end, count }
}

// A function in it, with one block, by three draws.
fn inner(alloc: Global, draws: &mut Draws) -> Result<FunctionReport, AllocError>
    ensures report { IfOk result (λ f. f ≡ made.inner draws.old) }
    ensures state { OnOk result (draws.new ≡ behind 3 draws.old) }
{
    let root = Range {
        start: 8000,
        end: 9000,
        count: u64::from(draws.draw() % 5),
    };
    let end = 8100 + 1 + draws.draw() % 100;
    let count = u64::from(draws.draw() % 5);
    let inside = Range {
        start: 8100,
        end,
        count,
    };
    Ok(FunctionReport {
        name: Text::from_text(alloc, "f")?,
        block: true,
        ranges: Items::from_slice(alloc, &[root, inside])?,
    })
}
