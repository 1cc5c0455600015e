//! Lines read from bytes in memory.
use crate::Line;
use std::test::*;

#[test]
fn lines_of_an_input(rt: HostRuntime) -> Result<(), Fail> {
    let mut input = b"one\n\nlast".as_slice();
    let mut line = Line::new(rt.alloc());
    for text in ["one", "", "last"] {
        assert!(rt; line.read(&mut input)?, "a line");
        assert_eq!(rt; line.text().ok(), Some(text));
    }
    assert!(rt; !line.read(&mut input)?, "no line is left");
    Ok(())
}

#[test]
fn a_line_that_is_too_long(rt: HostRuntime) -> Result<(), Fail> {
    let mut bytes = Vec::new(rt.alloc());
    bytes.resize(1_000_000, b'a')?;
    bytes.extend_from_slice(b"\n")?;
    bytes.resize(2_000_002, b'b')?;
    bytes.extend_from_slice(b"\nlast")?;
    let mut input = bytes.as_slice();
    let mut line = Line::new(rt.alloc());
    assert!(rt;
        line.read(&mut input)? && line.text().is_ok(),
        "1,000,000 bytes"
    );
    assert!(rt;
        line.read(&mut input)? && line.text().is_err(),
        "1,000,001 bytes"
    );
    assert!(rt; line.read(&mut input)?, "a line after it");
    assert_eq!(rt; line.text().ok(), Some("last"));
    Ok(())
}
