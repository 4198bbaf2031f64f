//! Maps that can be used.
ghost use Rattle.std.specs.Prelude.{◌≡◌, IfOk, option_and_then};
ghost use Rattle.source_maps.specs.Entries.{said_body};
ghost use Rattle.cov_report.specs.Wanted as wanted;

use source_maps::{EntryBody, MapFault, SourceMap, map_of};
use std::alloc::{AllocError, Global};
use utf16_lines::{LengthFault, LineTable};

/// The map of a script, and the lines of the generated code.
#[derive(Debug, Drop)]
pub struct GoodMap {
    pub map: SourceMap,
    pub generated: LineTable,
}

/// The map of an entry: none where the entry is of another shape, or where its lengths or its map are refused.
pub fn good_map(alloc: Global, body: &EntryBody) -> Result<Option<GoodMap>, AllocError>
    ensures { IfOk result (λ good. good ≡ option_and_then wanted.good_map (said_body body.now)) }
{
    let EntryBody::Given { map, lengths } = body else {
        return Ok(None);
    };
    let generated = match LineTable::of_lengths(alloc, lengths.as_slice()) {
        Ok(generated) => generated,
        Err(LengthFault::TooLong) => return Ok(None),
        Err(LengthFault::NoMemory) => return Err(AllocError),
    };
    match map_of(alloc, map) {
        Ok(map) => Ok(Some(GoodMap { map, generated })),
        Err(MapFault::NoMemory) => Err(AllocError),
        Err(_) => Ok(None),
    }
}
