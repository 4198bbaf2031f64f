//! What comes from each source of a map.
ghost use Rattle.std.specs.Prelude.{◌≡◌, ◌<◌, ◌^◌, [], ◌∷◌, ◌++◌, ◌==◌, ℕ, length, if◌then◌else◌, OnOk};
ghost use Rattle.source_remap.specs.Groups.{of_source};

use cov_text::Items;
use std::alloc::{AllocError, Global};
use std::marker::Model;

/// The items of each source, in the order in which they were put. Contracts see one list per source from 0 on; a source
/// behind the last list has no item.
#[derive(Debug, Drop)]
pub struct BySource<T> {
    lists: Vec<Items<T>>,
}

impl<T> Model for BySource<T> {
    ghost use Rattle.std.specs.Prelude.{List};
    ghost use Rattle.std.specs.Coded.{coded_list};

    ghost Value = { List (List T) };

    ghost coded = { coded_list (coded_list T.code) };

    ghost view = { λ g. g.lists.items };
}

impl<T> BySource<T> {
    /// No item. Takes no memory.
    pub fn new(alloc: Global) -> BySource<T>
        ensures { result ≡ [] }
    {
        BySource {
            lists: Vec::new(alloc),
        }
    }

    /// The items of a source, lent.
    pub fn of(&self, source: u32) -> &[T]
        ensures { result.now ≡ of_source self.now source }
    {
        match self.lists.get(source as usize) {
            Some(items) => items.as_slice(),
            None => &[],
        }
    }

    /// The lists, lent.
    pub fn lists(&self) -> &[Items<T>]
        ensures { result.now ≡ self.now }
    {
        self.lists.as_slice()
    }
}

impl<T: Drop> BySource<T> {
    /// Puts an item at the end of those of its source. The only error is want of memory.
    pub fn put(&mut self, alloc: Global, source: u32, item: T) -> Result<(), AllocError>
        ensures { OnOk result ((k : ℕ) → of_source self.new k ≡ (if k == source then of_source self.old k ++ item ∷ [] else of_source self.old k)) }
    {
        let place = source as usize;
        reach(alloc, &mut self.lists, place)?;
        self.lists[place].push(item)
    }
}

// Puts empty lists at the end until there is one at this place.
fn reach<T: Drop>(alloc: Global, lists: &mut Vec<Items<T>>, place: usize) -> Result<(), AllocError>
    requires { place < 2 ^ 32 }
    ensures same { OnOk result ((k : ℕ) → of_source lists.new.items k ≡ of_source lists.old.items k) }
    ensures there { OnOk result (place < length lists.new.items) }
{
    for _list in lists.len()..place + 1 {
        lists.push(Items::new(alloc))?;
    }
    Ok(())
}
