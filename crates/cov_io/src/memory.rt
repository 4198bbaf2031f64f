//! Stores and sinks in memory, which tell all that they hold.
ghost use Rattle.std.specs.Prelude.{◌≡◌, [], Some, length, map, max, option_map, string_bytes, take, IfOk};
ghost use Rattle.cov_io.specs.Told.{bytes_at, is_among, behind_front, name_in, names_in};
ghost use Rattle.cov_io.specs.Told as told;
ghost use Rattle.cov_io.specs.Fails.{failing_at};
ghost use Rattle.cov_io.specs.Memory.{files_of};

use crate::{Failing, Sink, SinkFault, Store, StoreFault};
use cov_text::{Items, Text};
use std::alloc::{AllocError, Global};
use std::collections::BTreeSet;

/// A file that a test gives.
#[derive(Debug, Drop)]
pub struct MemFile {
    pub path: Text,
    pub bytes: Items<u8>,
}

/// A store in memory that never fails.
#[derive(Debug, Drop)]
pub struct SureStore {
    pub folders: Items<Text>,
    pub files: Items<MemFile>,
}

/// A store in memory whose calls fail by a list of their numbers, from 0.
#[derive(Debug, Drop)]
pub struct MemStore {
    pub inner: SureStore,
    pub failing: Failing,
}

/// A sink in memory that never fails.
#[derive(Debug, Drop)]
pub struct SureSink {
    pub bytes: Items<u8>,
    /// The length of the longest piece that it was handed, 0 at first.
    pub longest: usize,
}

/// A sink in memory whose calls fail by a list of their numbers, from 0. A call that fails appends nothing.
#[derive(Debug, Drop)]
pub struct MemSink {
    pub inner: SureSink,
    pub failing: Failing,
}

impl SureStore {
    fn has_folder(&self, folder: &str) -> bool
        ensures { result ≡ is_among folder.now self.now.folders }
    {
        self.folders
            .as_slice()
            .iter()
            .any(|other| folder == other.as_text())
    }

    fn find(&self, path: &str) -> Option<&MemFile>
        ensures { option_map (λ f. f.now.bytes) result ≡ bytes_at path.now (files_of self.now.files) }
    {
        for file in self.files.as_slice() {
            if file.path.as_text() == path {
                return Some(file);
            }
        }
        None
    }
}

// What follows a front.
fn behind<'a>(front: &str, text: &'a str) -> Option<&'a str>
    ensures { option_map (λ rest. rest.now) result ≡ behind_front front.now text.now }
{
    text.strip_prefix(front)
}

fn has_slash(name: &str) -> bool
    ensures { result ≡ told.has_slash name.now }
{
    name.as_bytes().iter().any(|b| *b == b'/')
}

// The name of a path that is directly in a folder.
fn name_of<'a>(alloc: Global, folder: &str, path: &'a str) -> Result<Option<&'a str>, AllocError>
    ensures { IfOk result (λ found. option_map (λ name. name.now) found ≡ name_in folder.now path.now) }
{
    let front = format!(in alloc; "{folder}/")?;
    match behind(front.as_str(), path) {
        Some(name) if !has_slash(name) => Ok(Some(name)),
        _ => Ok(None),
    }
}

// The names of the files directly in a folder.
fn names_of(alloc: Global, folder: &str, files: &[MemFile]) -> Result<BTreeSet<Text>, AllocError>
    ensures { IfOk result (λ names. names.keys ≡ names_in folder.now (files_of files.now)) }
{
    let mut names = BTreeSet::new(alloc);
    for file in files {
        if let Some(name) = name_of(alloc, folder, file.path.as_text())? {
            let name = Text::from_text(alloc, name)?;
            names.insert(name)?;
        }
    }
    Ok(names)
}

fn strings_of(alloc: Global, names: BTreeSet<Text>) -> Result<Vec<String>, AllocError>
    ensures { IfOk result (λ strings. map string_bytes strings.items ≡ names.keys) }
{
    let mut strings = Vec::new(alloc);
    for name in &names {
        strings.push(String::from_str(alloc, name.as_text())?)?;
    }
    Ok(strings)
}

impl Store for SureStore {
    ghost files = { λ s. Some (files_of s.files) };

    ghost folders = { λ s. Some s.folders };

    ghost faults = { λ _. 0 };

    fn list(&mut self, alloc: Global, folder: &str) -> Result<Vec<String>, StoreFault> {
        if !self.has_folder(folder) {
            return Err(StoreFault::Absent);
        }
        let names = names_of(alloc, folder, self.files.as_slice())?;
        Ok(strings_of(alloc, names)?)
    }

    fn read(&mut self, alloc: Global, path: &str, most: usize) -> Result<Vec<u8>, StoreFault> {
        match self.find(path) {
            Some(file) => Ok(copied(alloc, file.bytes.as_slice(), most)?),
            None => Err(StoreFault::Absent),
        }
    }
}

impl MemStore {
    /// The store, where the calls of these numbers fail.
    pub fn new(inner: SureStore, numbers: Items<u64>) -> MemStore
        ensures inner { result.inner ≡ inner }
        ensures failing { result.failing ≡ failing_at numbers }
    {
        MemStore {
            inner,
            failing: Failing::new(numbers),
        }
    }
}

impl Store for MemStore {
    ghost files = { λ s. Some (files_of s.inner.files) };

    ghost folders = { λ s. Some s.inner.folders };

    ghost faults = { λ s. s.failing.faults };

    fn list(&mut self, alloc: Global, folder: &str) -> Result<Vec<String>, StoreFault> {
        if self.failing.fails_now() {
            return Err(StoreFault::Failed);
        }
        self.inner.list(alloc, folder)
    }

    fn read(&mut self, alloc: Global, path: &str, most: usize) -> Result<Vec<u8>, StoreFault> {
        if self.failing.fails_now() {
            return Err(StoreFault::Failed);
        }
        self.inner.read(alloc, path, most)
    }
}

// The first bytes of a slice.
fn copied(alloc: Global, bytes: &[u8], most: usize) -> Result<Vec<u8>, AllocError>
    ensures { IfOk result (λ v. v.items ≡ take most bytes.now) }
{
    if bytes.len() <= most {
        Vec::from_slice(alloc, bytes)
    } else {
        Vec::from_slice(alloc, &bytes[..most])
    }
}

impl SureSink {
    /// A sink that holds nothing yet.
    pub fn new(alloc: Global) -> SureSink
        ensures bytes { result.bytes ≡ [] }
        ensures longest { result.longest ≡ 0 }
    {
        SureSink {
            bytes: Items::new(alloc),
            longest: 0,
        }
    }

    // Keeps the length of a piece that is handed over.
    fn note(&mut self, piece: &[u8])
        ensures bytes { self.new.bytes ≡ self.old.bytes }
        ensures longest { self.new.longest ≡ max self.old.longest (length piece.now) }
    {
        self.longest = self.longest.max(piece.len());
    }
}

impl MemSink {
    /// A sink that holds nothing yet, whose calls of these numbers fail.
    pub fn new(alloc: Global, numbers: Items<u64>) -> MemSink
        ensures bytes { result.inner.bytes ≡ [] }
        ensures longest { result.inner.longest ≡ 0 }
        ensures failing { result.failing ≡ failing_at numbers }
    {
        MemSink {
            inner: SureSink::new(alloc),
            failing: Failing::new(numbers),
        }
    }
}

impl Sink for SureSink {
    ghost held = { λ s. Some s.bytes };

    ghost longest = { λ s. Some s.longest };

    ghost faults = { λ _. 0 };

    fn write(&mut self, piece: &[u8]) -> Result<(), SinkFault> {
        self.note(piece);
        Ok(self.bytes.extend_from_slice(piece)?)
    }
}

impl Sink for MemSink {
    ghost held = { λ s. Some s.inner.bytes };

    ghost longest = { λ s. Some s.inner.longest };

    ghost faults = { λ s. s.failing.faults };

    fn write(&mut self, piece: &[u8]) -> Result<(), SinkFault> {
        if self.failing.fails_now() {
            self.inner.note(piece);
            return Err(SinkFault::Failed);
        }
        self.inner.write(piece)
    }
}
