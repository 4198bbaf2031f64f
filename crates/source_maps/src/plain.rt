//! A map without sections.
ghost use Rattle.std.specs.Prelude.{◌≡◌, IfOk};
ghost use Rattle.serde_json.specs.View.{view};
ghost use Rattle.source_maps.specs.Kept.{AreParts};
ghost use Rattle.source_maps.specs.Maps as maps;
ghost use Rattle.source_maps.specs.Gives.{Gives};

use crate::members::{contents_of, names_of, root_of, sources_of};
use crate::segments::segments_of;
use crate::{MapFault, MapParts};
use cov_text::{Items, Text};
use serde_json::Value;
use std::alloc::{AllocError, Global};

/// The map of a value without sections, its segments as in the text. In an index map it is that of a section.
pub fn plain_map(alloc: Global, section: Option<u64>, value: &Value) -> Result<MapParts, MapFault>
    ensures map { Gives result (maps.plain_map section (view value.now)) }
    ensures parts { IfOk result AreParts }
{
    let sources = sources_of(alloc, section, value)?;
    let root = root_of(section, value)?;
    let contents = contents_of(alloc, section, value)?;
    let names = names_of(alloc, section, value)?;
    let segments = segments_of(alloc, section, sources.len(), names.len(), value)?;
    let Ok(contents) = fitted(sources.len(), contents) else {
        return Err(MapFault::NoMemory);
    };
    let Ok(sources) = kept_names(alloc, root, sources.as_slice()) else {
        return Err(MapFault::NoMemory);
    };
    Ok(MapParts {
        sources,
        contents,
        names,
        segments,
    })
}

// As many contents as there are sources: missing ones aren't given, and those past the sources are dropped.
fn fitted(sources: usize, contents: Items<Option<Text>>) -> Result<Items<Option<Text>>, AllocError>
    ensures { IfOk result (λ fitted. fitted ≡ maps.fitted sources contents) }
{
    let mut contents = contents.into_vec();
    contents.truncate(sources);
    while contents.len() < sources {
        contents.push(None)?;
    }
    Ok(Items::from_vec(contents))
}

// The names of the sources behind their root.
fn kept_names(
    alloc: Global,
    root: &str,
    sources: &[Option<Text>],
) -> Result<Items<Option<Text>>, AllocError>
    ensures { IfOk result (λ kept. kept ≡ maps.kept_names root.now sources.now) }
{
    let mut kept = Items::new(alloc);
    for source in sources {
        let name = match source {
            Some(source) => Some(kept_name(alloc, root, source.as_text())?),
            None => None,
        };
        kept.push(name)?;
    }
    Ok(kept)
}

// The root, with `/` at its end, then the source.
fn kept_name(alloc: Global, root: &str, source: &str) -> Result<Text, AllocError>
    ensures { IfOk result (λ name. name ≡ maps.kept_name root.now source.now) }
{
    let mut name = String::from_str(alloc, root)?;
    name.push_str(slash_behind(root))?;
    name.push_str(source)?;
    Ok(Text::from_string(name))
}

// `/` where a root isn't empty and has none at its end.
fn slash_behind(root: &str) -> &'static str
    ensures { result.now ≡ maps.slash_behind root.now }
{
    if root.is_empty() {
        return "";
    }
    if root.as_bytes().ends_with(b"/") {
        ""
    } else {
        "/"
    }
}
