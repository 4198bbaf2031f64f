//! The first map entry of each url.
ghost use Rattle.std.specs.Prelude.{◌≡◌, map, option_map, IfOk};
ghost use Rattle.source_maps.specs.Entries.{said};
ghost use Rattle.cov_report.specs.Wanted.{entry_for};
ghost use Rattle.cov_report.specs.First.{ArePlaces};

use source_maps::MapEntry;
use std::alloc::{AllocError, Global};
use std::collections::BTreeMap;

/// The place of the first entry of each url.
pub fn first_places<'a>(
    alloc: Global,
    entries: &'a [MapEntry],
) -> Result<BTreeMap<&'a str, usize>, AllocError>
    ensures { IfOk result (λ places. ArePlaces entries.now places) }
{
    let mut places = BTreeMap::new(alloc);
    for (place, entry) in entries.iter().enumerate() {
        let url = entry.url.as_text();
        if !places.contains_key(&url) {
            places.insert(url, place)?;
        }
    }
    Ok(places)
}

/// The first entry of a url.
pub fn entry_of<'a>(
    entries: &'a [MapEntry],
    places: &BTreeMap<&'a str, usize>,
    url: &'a str,
) -> Option<&'a MapEntry>
    requires { ArePlaces entries.now places.now }
    ensures { option_map (λ entry. said entry.now) result ≡ entry_for (map said entries.now) url.now }
{
    let place = *places.get(&url)?;
    entries.get(place)
}
