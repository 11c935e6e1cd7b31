//! Rows whose text has 1,000,000 bytes of all 256 values, in memory.
use super::tags::{Form, written};
use cb_scan::Kind;
use cb_tags::{Sink, TagRow};
use std::alloc::Global;
use std::test::Fail;

/// The bytes from 0 to 255 again and again, 1,000,000 in all.
fn long_text(alloc: Global) -> Result<Vec<u8>, Fail> {
    let mut text = Vec::with_capacity(alloc, 1_000_000)?;
    let mut byte = 0u8;
    for _ in 0..1_000_000 {
        text.push(byte)?;
        byte = byte.wrapping_add(1);
    }
    Ok(text)
}

/// A text with others before and after it.
fn around(alloc: Global, before: &[u8], text: &[u8], after: &[u8]) -> Result<Vec<u8>, Fail> {
    let mut whole = Vec::from_slice(alloc, before)?;
    whole.extend_from_slice(text)?;
    whole.extend_from_slice(after)?;
    Ok(whole)
}

#[test]
fn one_write_takes_a_long_text(rt: HostRuntime) -> Result<(), Fail> {
    let text = long_text(rt.alloc())?;
    assert!(rt; !text.as_slice().is_empty());
    let mut taken = Vec::new(rt.alloc());
    let mut sink = Sink::new(&mut taken);
    let count = sink.write(text.as_slice());
    assert_eq!(rt; count, Ok(1_000_000));
    assert!(rt; !sink.failed());
    assert_eq!(rt; taken.as_slice(), text.as_slice());
    Ok(())
}

#[test]
fn each_line_takes_a_long_text(rt: HostRuntime) -> Result<(), Fail> {
    let text = long_text(rt.alloc())?;
    let mut escaped = Vec::with_capacity(rt.alloc(), 1_010_000)?;
    for byte in text.as_slice() {
        if *byte == b'/' || *byte == b'\\' {
            escaped.push(b'\\')?;
        }
        escaped.push(*byte)?;
    }
    let row = TagRow {
        name: b"x",
        file: b"a.c",
        place: 0,
        line: 7,
        text: text.as_slice(),
        kind: Kind::Macro,
        local: false,
        scope: None,
    };
    let plain = around(rt.alloc(), b"x\ta.c\t/^", escaped.as_slice(), b"$/\n")?;
    assert!(rt; written(rt.alloc(), Form::Plain, &row)?.as_slice() == plain.as_slice());
    let extended = around(
        rt.alloc(),
        b"x\ta.c\t/^",
        escaped.as_slice(),
        b"$/;\"\td\tline:7\n",
    )?;
    assert!(rt; written(rt.alloc(), Form::Extended, &row)?.as_slice() == extended.as_slice());
    let listing = around(rt.alloc(), b"x 7 a.c ", text.as_slice(), b"\n")?;
    assert!(rt; written(rt.alloc(), Form::Listing, &row)?.as_slice() == listing.as_slice());
    Ok(())
}
