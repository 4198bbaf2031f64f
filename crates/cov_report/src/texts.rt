//! The text of a path: that of its file so far, the content that a map has, or what is read.
ghost use Rattle.std.specs.Prelude.{◌≡◌, ◌≤◌, ℕ, List, None, if◌then◌else◌, length, IfOk};
ghost use Rattle.std.specs.BTreeMap.{get, is_at};
ghost use Rattle.cov_io.specs.Told.{WhereTold};
ghost use Rattle.cov_text.specs.Listing.{max_text, text_cmp};
ghost use Rattle.cov_report.specs.Wanted as wanted;
ghost use Rattle.cov_report.specs.SoFar.{taken_from};
ghost use Rattle.cov_report.specs.Counting.{ReadsText, store_at};

use crate::files::PathFile;
use crate::{ReportFault, SkipCause};
use cov_io::{Store, StoreFault};
use cov_text::{MAX_TEXT, Text};
use std::alloc::{AllocError, Global};
use std::collections::BTreeMap;

/// The most bytes of a file that are read: one past the greatest size of a text.
const MOST: usize = 134217729;

/// The text of bytes, or why they are none.
fn text_in(bytes: Vec<u8>) -> Result<Text, SkipCause>
    ensures text { result ≡ wanted.text_in bytes.items }
    ensures short { IfOk result (λ text. length text ≤ max_text) }
{
    if bytes.len() > MAX_TEXT {
        return Err(SkipCause::TooLong);
    }
    match String::from_utf8(bytes) {
        Ok(text) => Ok(Text::from_string(text)),
        Err(_) => Err(SkipCause::NotUtf8),
    }
}

/// The text of a file, or why there is none.
fn read_text<S: Store>(
    alloc: Global,
    store: &mut S,
    path: &str,
) -> Result<Result<Text, SkipCause>, ReportFault>
    ensures text { IfOk result (λ own. WhereTold (S.files store.old) (λ files. own ≡ wanted.own_text files path.now None)) }
    ensures short { IfOk result (λ own. IfOk own (λ text. length text ≤ max_text)) }
    ensures store { ReadsText (store_at (S.files store.old) (S.folders store.old) (S.faults store.old))
        (store_at (S.files store.new) (S.folders store.new) (S.faults store.new)) result }
{
    match store.read(alloc, path, MOST) {
        Ok(bytes) => Ok(text_in(bytes)),
        Err(StoreFault::Absent) => Ok(Err(SkipCause::Absent)),
        Err(StoreFault::Failed) => Err(ReportFault::Failed),
        Err(StoreFault::NoMemory) => Err(ReportFault::NoMemory),
    }
}

/// A content as a text, unless it is too long.
fn content_text(alloc: Global, content: &str) -> Result<Result<Text, SkipCause>, AllocError>
    ensures text { IfOk result (λ own. own ≡ wanted.short_text content.now) }
    ensures short { IfOk result (λ own. IfOk own (λ text. length text ≤ max_text)) }
{
    if content.len() > MAX_TEXT {
        return Ok(Err(SkipCause::TooLong));
    }
    Ok(Ok(Text::from_text(alloc, content)?))
}

/// The text that is wanted for a path, the content or else that of the file there, or why there is none.
fn own_text<S: Store>(
    alloc: Global,
    store: &mut S,
    path: &str,
    content: &Option<Text>,
) -> Result<Result<Text, SkipCause>, ReportFault>
    ensures text { IfOk result (λ own. WhereTold (S.files store.old) (λ files. own ≡ wanted.own_text files path.now content.now)) }
    ensures short { IfOk result (λ own. IfOk own (λ text. length text ≤ max_text)) }
    ensures store { ReadsText (store_at (S.files store.old) (S.folders store.old) (S.faults store.old))
        (store_at (S.files store.new) (S.folders store.new) (S.faults store.new)) result }
{
    match content {
        None => read_text(alloc, store, path),
        Some(content) => match content_text(alloc, content.as_text()) {
            Ok(own) => Ok(own),
            Err(_) => Err(ReportFault::NoMemory),
        },
    }
}

/// Takes the file at a path out of those so far, or begins it with its own text. Or tells why there is none.
pub fn taken<S: Store>(
    alloc: Global,
    store: &mut S,
    files: &mut BTreeMap<Text, PathFile>,
    path: &Text,
    content: &Option<Text>,
) -> Result<Result<PathFile, SkipCause>, ReportFault>
    ensures file { IfOk result (λ found. WhereTold (S.files store.old)
        (λ told. found ≡ taken_from (get text_cmp files.old path.now) (wanted.own_text told path.now content.now))) }
    ensures others { (q : List ℕ) → get text_cmp files.new q ≡ (if is_at (text_cmp path.now) q then None else get text_cmp files.old q) }
    ensures store { ReadsText (store_at (S.files store.old) (S.folders store.old) (S.faults store.old))
        (store_at (S.files store.new) (S.folders store.new) (S.faults store.new)) result }
{
    if let Some(file) = files.remove(path) {
        return Ok(Ok(file));
    }
    match own_text(alloc, store, path.as_text(), content) {
        Ok(Ok(text)) => match PathFile::new(alloc, text) {
            Ok(file) => Ok(Ok(file)),
            Err(_) => Err(ReportFault::NoMemory),
        },
        Ok(Err(cause)) => Ok(Err(cause)),
        Err(fault) => Err(fault),
    }
}
