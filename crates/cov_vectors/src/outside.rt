//! The real folder and stream.
use cov_io::{FolderStore, Sink, Store, StoreFault, StreamSink};
use std::io::Write;
use std::test::Fail;
use std::{fs, io};

#[test]
fn a_folder_lists_and_reads_its_files(rt: HostRuntime) -> Result<(), Fail> {
    fs::create_dir(&rt, "cov")?;
    fs::create_dir(&rt, "cov/c.json")?;
    fs::write(&rt, "cov/b.json", "four")?;
    fs::write(&rt, "cov/a.json", "")?;
    let alloc = rt.alloc();
    let mut store = FolderStore::new(rt);
    let names = store.list(alloc, "cov")?;
    assert_eq!(rt; names.len(), 2);
    assert!(rt; names[0].as_str() == "a.json");
    assert!(rt; names[1].as_str() == "b.json");
    let bytes = store.read(alloc, "cov/b.json", 3)?;
    assert!(rt; bytes.as_slice() == "fou".as_bytes());
    assert!(rt; matches!(store.read(alloc, "cov/d.json", 3), Err(StoreFault::Absent)));
    assert!(rt; matches!(store.list(alloc, "elsewhere"), Err(StoreFault::Absent)));
    Ok(())
}

/// A writer that has no room.
#[derive(Drop)]
struct Full;

impl Write for Full {
    fn write(&mut self, _buf: &[u8]) -> io::Result<usize> {
        Err(io::Error::from(io::ErrorKind::StorageFull))
    }

    fn flush(&mut self) -> io::Result<()> {
        Ok(())
    }
}

#[test]
fn a_stream_is_written(rt: HostRuntime) -> Result<(), Fail> {
    let mut sink = StreamSink::new(Vec::new(rt.alloc()));
    assert!(rt; sink.write("line\n".as_bytes()).is_ok());
    let mut full = StreamSink::new(Full);
    assert!(rt; full.write("line\n".as_bytes()).is_err());
    Ok(())
}
