use clean_text::{cleaned, put, put_cleaned, put_number};
use std::test::Fail;

#[test]
fn control_characters_are_question_marks(rt: HostRuntime) -> Result<(), Fail> {
    let alloc = rt.alloc();
    for (name, shown) in [
        ("", ""),
        ("/a b.js", "/a b.js"),
        ("\0\t\n\u{1f} \u{7e}\u{7f}", "???? ~?"),
        ("\u{80}é\u{2028}", "\u{80}é\u{2028}"),
    ] {
        let text = cleaned(alloc, name)?;
        assert!(rt; text.as_slice() == shown.as_bytes());
        let mut text = Vec::from_slice(alloc, b"\n")?;
        put_cleaned(alloc, &mut text, name)?;
        assert!(rt; text[0] == 10 && &text[1..] == shown.as_bytes());
    }
    Ok(())
}

#[test]
fn parts_stand_behind_each_other(rt: HostRuntime) -> Result<(), Fail> {
    let mut text = Vec::new(rt.alloc());
    put(&mut text, b"DA:")?;
    put_number(&mut text, 0)?;
    put(&mut text, b",")?;
    put_number(&mut text, u64::MAX)?;
    assert!(rt; text.as_slice() == b"DA:0,18446744073709551615".as_slice());
    Ok(())
}
