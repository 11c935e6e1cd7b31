//! Input by bytes and pieces.
use cb_tags::{Feed, ReadFault};
use std::process::Abort;
use std::test::Fail;

/// A piece up to so many bytes in all comes, or does not; these bytes are kept then.
fn keeps(
    rt: &impl Abort,
    feed: &mut Feed<&[u8]>,
    count: usize,
    kept: &mut Vec<u8>,
    came: Result<bool, ReadFault>,
    text: &[u8],
) {
    assert!(rt; kept.len() < count);
    assert!(rt; count <= kept.capacity());
    assert_eq!(rt; feed.piece(count, kept), came);
    assert_eq!(rt; kept.as_slice(), text);
}

#[test]
fn piece_gives_no_more_than_was_asked_for(rt: HostRuntime) -> Result<(), Fail> {
    let mut feed = Feed::new(b"abcdef".as_slice());
    let mut kept = Vec::with_capacity(rt.alloc(), 8)?;
    kept.push(b'x')?;
    keeps(&rt, &mut feed, 4, &mut kept, Ok(true), b"xabc");
    assert_eq!(rt; feed.byte(), Ok(Some(b'd')));
    keeps(&rt, &mut feed, 8, &mut kept, Ok(true), b"xabcef");
    keeps(&rt, &mut feed, 8, &mut kept, Ok(false), b"xabcef");
    assert_eq!(rt; feed.byte(), Ok(None));
    Ok(())
}
