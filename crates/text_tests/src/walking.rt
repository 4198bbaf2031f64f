//! Which texts are read, and as what.
use cov_text::{Items, Text};
use json::Reader;
use json_walk::{Member, Object, read_bytes};
use std::process::Abort;
use std::test::Fail;

#[test]
fn objects_keep_their_members_as_they_stand(rt: HostRuntime) -> Result<(), Fail> {
    let alloc = rt.alloc();
    let text = "{\"10\":[1],\"2\":[3,4],\"10\":[]}";
    let read = read_bytes::<Object<Member<Items<u64>>>>(alloc, text.as_bytes()).ok_or("not read")?;
    let members = read.members.as_slice();
    assert_eq!(rt; members.len(), 3);
    assert!(rt; members[0].key.as_text() == "10");
    assert!(rt; members[1].key.as_text() == "2");
    assert_eq!(rt; members[1].value.len(), 2);
    assert!(rt; members[2].value.is_empty());
    Ok(())
}

#[test]
fn texts_of_another_kind_are_not_read(rt: HostRuntime) -> Result<(), Fail> {
    let alloc = rt.alloc();
    for text in [
        "",
        "1",
        "[1",
        "[1]x",
        "[-1]",
        "[1.0]",
        "[18446744073709551616]",
        "{}",
    ] {
        let read = read_bytes::<Items<u64>>(alloc, text.as_bytes());
        assert!(rt; read.is_none(), "{text}");
    }
    for text in ["[]", " [1, 18446744073709551615]\n"] {
        let read = read_bytes::<Items<u64>>(alloc, text.as_bytes());
        assert!(rt; read.is_some(), "{text}");
    }
    Ok(())
}
