//! A name taken from a folder, segment by segment.
ghost use Rattle.std.specs.Prelude.{◌≡◌, map, IfOk, OnOk};
ghost use Rattle.source_remap.specs.Paths as paths;

use cov_text::Text;
use std::alloc::{AllocError, Global};

/// A name taken from the folder of the file at a path.
pub fn path_from(alloc: Global, name: &str, base: &str) -> Result<Text, AllocError>
    ensures { IfOk result (λ path. path ≡ paths.path_from name.now base.now) }
{
    let base_segments = segments_of(alloc, base)?;
    let segments = segments_of(alloc, name)?;
    let mut kept = Vec::new(alloc);
    walk(&mut kept, folder_of(base_segments.as_slice()))?;
    walk(&mut kept, segments.as_slice())?;
    let path = rooted(alloc, kept.as_slice())?;
    Ok(path)
}

// What stands between the slashes of a path.
fn segments_of(alloc: Global, path: &str) -> Result<Vec<&str>, AllocError>
    ensures { IfOk result (λ segments. map (λ s. s.now) segments.items ≡ paths.segments_of path.now) }
{
    path.split('/').collect(alloc)
}

// The segments of a path's folder, of all of its segments.
fn folder_of<'s, 't>(segments: &'s [&'t str]) -> &'s [&'t str]
    ensures { map (λ s. s.now) result.now ≡ paths.inner_segments (map (λ s. s.now) segments.now) }
{
    let end = segments.len().saturating_sub(1);
    &segments[end.min(1)..end]
}

// Puts segments behind those kept, without `.`, and without `..` and the one before it.
fn walk<'t>(kept: &mut Vec<&'t str>, segments: &[&'t str]) -> Result<(), AllocError>
    ensures { OnOk result (map (λ s. s.now) kept.new.items ≡ paths.walked (map (λ s. s.now) kept.old.items) (map (λ s. s.now) segments.now)) }
{
    for segment in segments {
        if *segment == "." {
            continue;
        }
        if *segment == ".." {
            kept.pop();
        } else {
            kept.push(*segment)?;
        }
    }
    Ok(())
}

// The path of segments from the root.
fn rooted(alloc: Global, segments: &[&str]) -> Result<Text, AllocError>
    ensures { IfOk result (λ path. path ≡ paths.rooted (map (λ s. s.now) segments.now)) }
{
    if segments.is_empty() {
        return Text::from_text(alloc, "/");
    }
    let mut path = String::new(alloc);
    for segment in segments {
        path.push('/')?;
        path.push_str(segment)?;
    }
    Ok(Text::from_string(path))
}
