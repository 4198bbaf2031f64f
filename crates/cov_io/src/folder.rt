//! The real folders: a store over the file system.
ghost use Rattle.std.specs.Prelude.{◌≡◌, ◌≤◌, None, IfOk, IfSome, take, vec_len};
ghost use Rattle.std.specs.IoError.{error_kind};
ghost use Rattle.cov_io.specs.Causes.{Rose};
ghost use Rattle.cov_io.specs.Errors.{fault_on_way, fault_within};
ghost use Rattle.cov_io.specs.Real.{folder_faults};
ghost use Rattle.cov_io.specs.declared.store.StoreFault.TheVariants.{Absent, Failed};

use crate::{Store, StoreFault};
use std::alloc::{AllocError, Global};
use std::io::{ErrorKind, Read};
use std::rt::Files;
use std::{fs, io};

/// A store over the folders and files of the system. It tells no content, so no clause speaks of what a file holds;
/// each error raises its count.
///
/// A path is looked at before it is opened, through links. What is no plain file then, as a folder, a pipe or a
/// device, is `Absent`, and is never opened.
#[derive(Drop)]
pub struct FolderStore<R: Drop> {
    rt: R,
    faults: u64,
}

impl<R: Drop> FolderStore<R> {
    /// A store that has not failed yet.
    pub fn new(rt: R) -> FolderStore<R>
        ensures { folder_faults result ≡ 0 }
    {
        FolderStore { rt, faults: 0 }
    }

    // Counts a fault, and hands it on.
    fn failed(&mut self, fault: StoreFault) -> StoreFault
        ensures same { result ≡ fault }
        ensures rose { Rose self.old.faults self.new.faults }
        ensures later { self.old.faults ≤ self.new.faults }
    {
        let faults = self.faults;
        self.faults = faults.saturating_add(1);
        fault
    }
}

impl<R: Files + AllocGlobal + Clone + Drop> Store for FolderStore<R> {
    ghost files = { λ _. None };

    ghost folders = { λ _. None };

    ghost faults = { λ s. s.faults };

    fn list(&mut self, alloc: Global, folder: &str) -> Result<Vec<String>, StoreFault> {
        match plain_files(&self.rt, alloc, folder) {
            Ok(names) => Ok(names),
            Err(fault) => Err(self.failed(fault)),
        }
    }

    fn read(&mut self, alloc: Global, path: &str, most: usize) -> Result<Vec<u8>, StoreFault> {
        match file_at(&self.rt, alloc, path, most) {
            Ok(bytes) => Ok(bytes),
            Err(fault) => Err(self.failed(fault)),
        }
    }
}

// What an error means on the way to a file or folder.
fn on_way(error: io::Error) -> StoreFault
    ensures { result ≡ fault_on_way (error_kind error) }
{
    match error.kind() {
        ErrorKind::NotFound
        | ErrorKind::NotADirectory
        | ErrorKind::IsADirectory
        | ErrorKind::InvalidFilename
        | ErrorKind::InvalidInput
        | ErrorKind::FilesystemLoop => StoreFault::Absent,
        _ => within(error),
    }
}

// What an error means within a file or folder.
fn within(error: io::Error) -> StoreFault
    ensures { result ≡ fault_within (error_kind error) }
{
    match error.kind() {
        ErrorKind::OutOfMemory => StoreFault::NoMemory,
        _ => StoreFault::Failed,
    }
}

// The names of the plain files directly in a folder, in byte order. A link is no plain file.
fn plain_files<R: Files + AllocGlobal + Clone + Drop>(
    rt: &R,
    alloc: Global,
    folder: &str,
) -> Result<Vec<String>, StoreFault> {
    let mut names = Vec::new(alloc);
    for entry in fs::read_dir(rt, folder).map_err(on_way)? {
        let entry = entry.map_err(within)?;
        if entry.file_type().map_err(within)?.is_file() {
            names.push(String::from_str(alloc, entry.file_name())?)?;
        }
    }
    names.sort()?;
    Ok(names)
}

// The first bytes of the plain file at a path.
fn file_at<R: Files>(rt: &R, alloc: Global, path: &str, most: usize) -> Result<Vec<u8>, StoreFault>
    ensures { IfOk result (λ bytes. vec_len bytes ≤ most) }
{
    let found = fs::metadata(rt, path).map_err(on_way)?;
    if !found.is_file() {
        return Err(StoreFault::Absent);
    }
    let file = fs::open(rt, path).map_err(on_way)?;
    first_bytes(file, alloc, found.len(), most).map_err(within)
}

// The first bytes that a reader gives, or all of them where there are fewer. The length is what it is thought to have.
fn first_bytes<F: Read + Drop>(
    file: F,
    alloc: Global,
    length: u64,
    most: usize,
) -> io::Result<Vec<u8>>
    ensures whole { IfOk result (λ bytes. IfSome (F.remaining file)
        (λ all. bytes.items ≡ take most all)) }
    ensures bound { IfOk result (λ bytes. vec_len bytes ≤ most) }
{
    let expected = usize::try_from(length).unwrap_or(most).min(most);
    // With room for one byte more the end is met without growing.
    let mut bytes = Vec::with_capacity(alloc, expected.saturating_add(1))?;
    file.take(most as u64).read_to_end(&mut bytes)?;
    bytes.truncate(most);
    Ok(bytes)
}
