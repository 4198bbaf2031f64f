//! Asking for a script without a map, and for each source of a script with one.
ghost use Rattle.std.specs.Prelude.{◌≡◌, ℕ, List, [], ◌∷◌, ◌++◌, Some, slice_get, option_and_then, IfOk, OnOk, is_some, true};
ghost use Rattle.cov_io.specs.Told.{WhereTold};
ghost use Rattle.source_maps.specs.Entries.{said_body};
ghost use Rattle.cov_report.specs.Wanted as wanted;
ghost use Rattle.cov_report.specs.Wanted.{Asked};
ghost use Rattle.cov_report.specs.Gathering.{Gathers};
ghost use Rattle.cov_report.specs.Counting.{ReadsFiles, store_at};

use crate::gathering::Gathered;
use crate::maps::{GoodMap, good_map};
use crate::texts::taken;
use crate::{ReportFault, SkipCause};
use cov_io::Store;
use cov_model::Entry;
use cov_text::Text;
use istanbul_rules::{Remapped, direct_part};
use source_maps::{EntryBody, SourceMap};
use source_remap::{path_of, source_path};
use std::alloc::{AllocError, Global};

/// Asks for a script without a map entry: it has one direct part.
pub fn ask_script<S: Store>(
    alloc: Global,
    store: &mut S,
    gathered: &mut Gathered,
    script: &Entry,
) -> Result<(), ReportFault>
    ensures gathers { OnOk result (WhereTold (S.files store.old) (λ told. (earlier : List Asked)
        → Gathers told earlier gathered.old → Gathers told (earlier ++ wanted.direct script.now ∷ []) gathered.new)) }
    ensures store { ReadsFiles (store_at (S.files store.old) (S.folders store.old) (S.faults store.old))
        (store_at (S.files store.new) (S.folders store.new) (S.faults store.new))
        gathered.old.skips gathered.new.skips result }
{
    let url = script.url.as_text();
    let Some(path) = path_of(alloc, url)? else {
        gathered.skip(alloc, url, SkipCause::NotFile)?;
        return Ok(());
    };
    match taken(alloc, store, &mut gathered.files, &path, &None)? {
        Ok(file) => {
            let part = direct_part(alloc, file.table(), script.functions.as_slice())?;
            gathered.put(path, file, part)?;
        }
        Err(cause) => gathered.skip(alloc, url, cause)?,
    }
    Ok(())
}

/// Asks for each named source of a script whose map is good. A map that isn't is left out as a whole.
pub fn ask_sources<S: Store>(
    alloc: Global,
    store: &mut S,
    gathered: &mut Gathered,
    script: &Entry,
    body: &EntryBody,
) -> Result<(), ReportFault>
    ensures gathers { OnOk result (WhereTold (S.files store.old) (λ told. (earlier : List Asked)
        → Gathers told earlier gathered.old
        → Gathers told (earlier ++ wanted.sources_asked script.now (option_and_then wanted.good_map (said_body body.now))) gathered.new)) }
    ensures store { ReadsFiles (store_at (S.files store.old) (S.folders store.old) (S.faults store.old))
        (store_at (S.files store.new) (S.folders store.new) (S.faults store.new))
        gathered.old.skips gathered.new.skips result }
{
    match good_map(alloc, body)? {
        Some(good) => ask_each(alloc, store, gathered, script, &good),
        None => {
            gathered.skip(alloc, script.url.as_text(), SkipCause::BadMap)?;
            Ok(())
        }
    }
}

fn ask_each<S: Store>(
    alloc: Global,
    store: &mut S,
    gathered: &mut Gathered,
    script: &Entry,
    good: &GoodMap,
) -> Result<(), ReportFault>
    ensures gathers { OnOk result (WhereTold (S.files store.old) (λ told. (earlier : List Asked)
        → Gathers told earlier gathered.old
        → Gathers told (earlier ++ wanted.sources_asked script.now (Some good.now)) gathered.new)) }
    ensures store { ReadsFiles (store_at (S.files store.old) (S.folders store.old) (S.faults store.old))
        (store_at (S.files store.new) (S.folders store.new) (S.faults store.new))
        gathered.old.skips gathered.new.skips result }
{
    let remapped = Remapped::of(
        alloc,
        &good.generated,
        &good.map,
        script.functions.as_slice(),
    )?;
    for (k, name) in good.map.sources().iter().enumerate() {
        if let Err(fault) = ask_place(alloc, store, gathered, script, good, &remapped, k, name) {
            return Err(fault);
        }
    }
    Ok(())
}

/// Asks for the source at a place of the map, where it has a name and the place is a 32-bit number.
fn ask_place<S: Store>(
    alloc: Global,
    store: &mut S,
    gathered: &mut Gathered,
    script: &Entry,
    good: &GoodMap,
    remapped: &Remapped,
    k: usize,
    name: &Option<Text>,
) -> Result<(), ReportFault>
    requires source { slice_get good.now.map.sources k ≡ Some name.now }
    requires remapped { remapped.now ≡ wanted.mapped_code script.now good.now }
    ensures gathers { OnOk result (WhereTold (S.files store.old) (λ told. (earlier : List Asked)
        → Gathers told earlier gathered.old
        → Gathers told (earlier ++ wanted.asked_at script.now good.now (k, name.now)) gathered.new)) }
    ensures store { ReadsFiles (store_at (S.files store.old) (S.folders store.old) (S.faults store.old))
        (store_at (S.files store.new) (S.folders store.new) (S.faults store.new))
        gathered.old.skips gathered.new.skips result }
{
    if k > u32::MAX as usize {
        return Ok(());
    }
    match name {
        None => Ok(()),
        Some(name) => ask_source(
            alloc,
            store,
            gathered,
            script,
            good,
            remapped,
            k as u32,
            name.as_text(),
        ),
    }
}

/// Asks for a source of a map, by its place and its name.
fn ask_source<S: Store>(
    alloc: Global,
    store: &mut S,
    gathered: &mut Gathered,
    script: &Entry,
    good: &GoodMap,
    remapped: &Remapped,
    k: u32,
    name: &str,
) -> Result<(), ReportFault>
    requires source { slice_get good.now.map.sources k ≡ Some (Some name.now) }
    requires remapped { remapped.now ≡ wanted.mapped_code script.now good.now }
    ensures gathers { OnOk result (WhereTold (S.files store.old) (λ told. (earlier : List Asked)
        → Gathers told earlier gathered.old
        → Gathers told (earlier ++ wanted.mapped script.now good.now k name.now ∷ []) gathered.new)) }
    ensures store { ReadsFiles (store_at (S.files store.old) (S.folders store.old) (S.faults store.old))
        (store_at (S.files store.new) (S.folders store.new) (S.faults store.new))
        gathered.old.skips gathered.new.skips result }
{
    let content = content_of(&good.map, k);
    let url = script.url.as_text();
    let Some(path) = path_or_name(alloc, &good.map, k, url, name, content.is_some())? else {
        gathered.skip(alloc, name, SkipCause::NotFile)?;
        return Ok(());
    };
    match taken(alloc, store, &mut gathered.files, &path, content)? {
        Ok(file) => {
            let part = remapped.part(alloc, file.table(), k)?;
            gathered.put(path, file, part)?;
        }
        Err(cause) => gathered.skip(alloc, name, cause)?,
    }
    Ok(())
}

/// The content that a map has for a source.
fn content_of(map: &SourceMap, k: u32) -> &Option<Text>
    requires { is_some (slice_get map.now.sources k) ≡ true }
    ensures { result.now ≡ wanted.content_of map.now k }
{
    &map.contents()[k as usize]
}

/// The path of a source, or else its own name where its content is there.
fn path_or_name(
    alloc: Global,
    map: &SourceMap,
    k: u32,
    url: &str,
    name: &str,
    has_content: bool,
) -> Result<Option<Text>, AllocError>
    requires { slice_get map.now.sources k ≡ Some (Some name.now) }
    ensures { IfOk result (λ path. path ≡ wanted.path_or_name url.now name.now has_content) }
{
    match source_path(alloc, map, k, url)? {
        Some(path) => Ok(Some(path)),
        None if has_content => Ok(Some(Text::from_text(alloc, name)?)),
        None => Ok(None),
    }
}
