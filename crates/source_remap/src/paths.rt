//! The files that urls and sources name.
ghost use Rattle.std.specs.Prelude.{◌≡◌, ◌<◌, length, position, IfOk};
ghost use Rattle.std.specs.List.{before_first, list_all};
ghost use Rattle.source_remap.specs.Paths as paths;

use crate::walk::path_from;
use cov_text::Text;
use percent_encoding::percent_decode;
use source_maps::SourceMap;
use std::alloc::{AllocError, Global};

/// The path of the file that a url names: what stands behind `file://`, up to the first `?` or `#`, percent-decoded
/// (RFC 3986, section 2.1).
///
/// `None` exactly where the url doesn't begin with `file:///`, or where the decoded bytes aren't UTF-8 or hold a zero
/// byte. The only error is want of memory.
#[tactic(auto, unfolding(crate::specs::Paths::path_of))]
pub fn path_of(alloc: Global, url: &str) -> Result<Option<Text>, AllocError>
    ensures { IfOk result (λ path. path ≡ paths.path_of url.now) }
{
    let url = url.as_bytes();
    if !url.starts_with(b"file:///") {
        return Ok(None);
    }
    let mut decoded = Vec::new(alloc);
    percent_decode(without_query(&url[7..])).append_to(&mut decoded)?;
    Ok(path_text(decoded))
}

/// The path of a source of the map of the script at a url: by the source's name, a path, a url of a file, or a name
/// relative to the script's folder.
///
/// `None` exactly where the map doesn't name the source, where the name is a url of no file, or where it is relative and
/// the script's url names no file. The only error is want of memory.
#[tactic(auto, unfolding(crate::specs::Paths::source_path))]
pub fn source_path(
    alloc: Global,
    map: &SourceMap,
    source: u32,
    generated_url: &str,
) -> Result<Option<Text>, AllocError>
    requires { source < length map.now.sources }
    ensures { IfOk result (λ path. path ≡ paths.source_path generated_url.now (paths.source_at map.now.sources source)) }
{
    match &map.sources()[source as usize] {
        Some(name) => named_path(alloc, generated_url, name.as_text()),
        None => Ok(None),
    }
}

// The path that a source's name names.
fn named_path(alloc: Global, generated_url: &str, name: &str) -> Result<Option<Text>, AllocError>
    ensures { IfOk result (λ path. path ≡ paths.named_path generated_url.now name.now) }
{
    let bytes = name.as_bytes();
    if bytes.starts_with(b"file:") {
        return path_of(alloc, name);
    }
    if bytes.starts_with(b"/") {
        let path = Text::from_text(alloc, name)?;
        return Ok(Some(path));
    }
    if has_scheme(bytes) {
        return Ok(None);
    }
    match path_of(alloc, generated_url)? {
        Some(base) => {
            let path = path_from(alloc, name, base.as_text())?;
            Ok(Some(path))
        }
        None => Ok(None),
    }
}

// Bytes that may be a path, as a text.
fn path_text(bytes: Vec<u8>) -> Option<Text>
    ensures { result ≡ paths.path_text bytes.items }
{
    if bytes.contains(&0) {
        return None;
    }
    match String::from_utf8(bytes) {
        Ok(text) => Some(Text::from_string(text)),
        Err(_) => None,
    }
}

// What stands before the first `?` or `#`.
fn without_query(url: &[u8]) -> &[u8]
    ensures { result.now ≡ before_first paths.ends_the_path url.now }
{
    match path_end(url) {
        Some(end) => &url[..end],
        None => url,
    }
}

// Where the first `?` or `#` stands.
fn path_end(url: &[u8]) -> Option<usize>
    ensures { result ≡ position paths.ends_the_path url.now }
{
    url.iter().position(|byte| *byte == b'?' || *byte == b'#')
}

// Whether a name begins with a scheme and `:` (RFC 3986, section 3.1).
fn has_scheme(name: &[u8]) -> bool
    ensures { result ≡ paths.has_scheme name.now }
{
    match first_colon(name) {
        Some(end) => is_scheme(&name[..end]),
        None => false,
    }
}

// Where the first `:` stands.
fn first_colon(name: &[u8]) -> Option<usize>
    ensures { result ≡ position paths.is_colon name.now }
{
    name.iter().position(|byte| *byte == b':')
}

// Whether bytes are a letter, and then letters, digits, `+`, `-` or `.`.
fn is_scheme(bytes: &[u8]) -> bool
    ensures { result ≡ paths.is_scheme bytes.now }
{
    match bytes {
        [first, rest @ ..] => first.is_ascii_alphabetic() && are_scheme_bytes(rest),
        [] => false,
    }
}

// Whether all of these bytes may stand in a scheme behind its first letter.
fn are_scheme_bytes(bytes: &[u8]) -> bool
    ensures { result ≡ list_all paths.is_scheme_byte bytes.now }
{
    bytes.iter().all(|byte| is_scheme_byte(*byte))
}

// Whether a byte may stand in a scheme behind its first letter.
fn is_scheme_byte(byte: u8) -> bool
    ensures { result ≡ paths.is_scheme_byte byte }
{
    byte.is_ascii_alphabetic()
        || byte.is_ascii_digit()
        || byte == b'+'
        || byte == b'-'
        || byte == b'.'
}
