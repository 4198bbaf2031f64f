//! The real folder, stream and child, and a net in memory.
use cov_io::{
    ChildSpawner, FolderStore, Got, Link, MemNet, MemSpawner, Net, Prepared, Sink, Spawner, Store,
    StoreFault, StreamSink,
};
use cov_text::{Items, Text};
use std::fs;
use std::os::unix::fs::symlink;
use std::process::Command;
use std::test::Fail;

#[test]
fn a_large_file_is_read_whole_or_to_the_bound(rt: HostRuntime) -> Result<(), Fail> {
    let alloc = rt.alloc();
    let mut text = "0123456789".repeat(alloc, 7000)?;
    text.push('!')?;
    fs::write(&rt, "large", text.as_str())?;
    let mut store = FolderStore::new(rt);
    let whole = store.read(alloc, "large", 100000)?;
    assert!(rt; whole.as_slice() == text.as_bytes());
    let cut = store.read(alloc, "large", 65537)?;
    assert_eq!(rt; cut.len(), 65537);
    assert!(rt; text.as_bytes().starts_with(cut.as_slice()));
    Ok(())
}

#[test]
fn what_is_no_plain_file_is_absent(rt: HostRuntime) -> Result<(), Fail> {
    let alloc = rt.alloc();
    fs::create_dir(&rt, "folder")?;
    fs::write(&rt, "folder/plain", "text")?;
    symlink(&rt, "plain", "folder/link")?;
    symlink(&rt, "loop", "loop")?;
    Command::new(alloc, "mkfifo")?.arg("pipe")?.status(&rt)?;
    let long = "n".repeat(alloc, 300)?;
    let mut store = FolderStore::new(rt);
    let names = [
        "",
        "folder",
        "folder/plain/x",
        "loop",
        "pipe",
        "/dev/null",
        "a\0b",
        long.as_str(),
    ];
    for name in names {
        assert!(rt;
            matches!(store.read(alloc, name, 9), Err(StoreFault::Absent)),
            "{name}"
        );
    }
    let linked = store.read(alloc, "folder/link", 9)?;
    assert!(rt; linked.as_slice() == "text".as_bytes());
    let listed = store.list(alloc, "folder")?;
    assert_eq!(rt; listed.len(), 1);
    Ok(())
}

#[test]
fn a_stream_gets_each_byte(rt: HostRuntime) -> Result<(), Fail> {
    let mut written = Vec::new(rt.alloc());
    {
        let mut sink = StreamSink::new(&mut written);
        sink.write("one ".as_bytes())?;
        sink.write("two\n".as_bytes())?;
    }
    assert!(rt; written.as_slice() == "one two\n".as_bytes());
    Ok(())
}

#[test]
fn a_program_ends_with_its_status(rt: HostRuntime) -> Result<(), Fail> {
    let alloc = rt.alloc();
    let mut words = Vec::new(alloc);
    for word in ["sh", "-c", "exit 3"] {
        words.push(String::from_str(alloc, word)?)?;
    }
    let mut real = ChildSpawner::new(rt);
    assert_eq!(rt; real.run(alloc, words.as_slice())?, 3);
    let mut planned = MemSpawner::new(alloc, 5, Items::new(alloc));
    assert_eq!(rt; planned.run(alloc, words.as_slice())?, 5);
    Ok(())
}

#[test]
fn a_link_in_memory_gives_its_texts(rt: HostRuntime) -> Result<(), Fail> {
    let alloc = rt.alloc();
    let mut texts = Items::new(alloc);
    texts.push(Text::from_text(alloc, "one")?)?;
    let mut coming = Vec::new(alloc);
    coming.push(Prepared {
        texts,
        failing: Items::new(alloc),
    })?;
    let mut net = MemNet::new(alloc, coming, Items::new(alloc));
    let mut link = net.dial(alloc, "h:1/x")?;
    link.send(alloc, "two")?;
    assert!(rt; matches!(link.recv(alloc)?, Got::Text(text) if text.as_str() == "one"));
    assert!(rt; matches!(link.recv(alloc)?, Got::Closed));
    net.hang_up(link)?;
    assert_eq!(rt; net.closed, 1);
    assert!(rt; net.accept(alloc).is_err());
    Ok(())
}
