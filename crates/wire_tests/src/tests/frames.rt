//! Messages as they come in a stream.
use cb_tags::Feed;
use cb_wire::{Frame, FrameError, Frames};
use std::test::Fail;

#[test]
fn bodies_come_one_after_another(rt: HostRuntime) -> Result<(), Fail> {
    let mut frames = Frames::new(rt.alloc())?;
    let mut feed = Feed::new(
        b"Content-Type: x; charset=utf-8\r\ncontent-length: \t 2\r\n\r\n{}Content-Length:0\r\n\r\n".as_slice(),
    );
    assert_eq!(rt; frames.read(&mut feed), Ok(Frame::Body(b"{}")));
    assert_eq!(rt; frames.read(&mut feed), Ok(Frame::Body(b"")));
    assert_eq!(rt; frames.read(&mut feed), Ok(Frame::End));
    Ok(())
}

#[test]
fn other_heads_are_bad(rt: HostRuntime) -> Result<(), Fail> {
    let heads = [
        b"Content-Length: x\r\n\r\n".as_slice(),
        b"Content-Length: 1\n\r\n\r\n.",
        b"Content-Length: 1\r\nContent-Length: 1\r\n\r\n.",
        b"Content-Length: 0000000001\r\n\r\n.",
        b"Content-Length : 1\r\n\r\n.",
        b"Content-Length: 1\r\nx\r\n\r\n.",
        b"Content-Type: x\r\n\r\n",
        b"\r\n",
    ];
    for head in heads {
        let mut frames = Frames::new(rt.alloc())?;
        let mut feed = Feed::new(head);
        assert_eq!(rt; frames.read(&mut feed), Err(FrameError::BadHeader));
    }
    Ok(())
}

#[test]
fn input_may_end_inside(rt: HostRuntime) -> Result<(), Fail> {
    let inputs = [
        b"Content-Length: 5\r\n\r\n{}".as_slice(),
        b"Content-Length: 5\r\n",
        b"C",
        b"Content-Length: 16000001\r\n\r\n{}",
    ];
    for input in inputs {
        let mut frames = Frames::new(rt.alloc())?;
        let mut feed = Feed::new(input);
        assert_eq!(rt; frames.read(&mut feed), Err(FrameError::InputEnded));
    }
    Ok(())
}

#[test]
fn a_head_has_at_most_4096_bytes(rt: HostRuntime) -> Result<(), Fail> {
    for (more, good) in [(4_096 - 25, true), (4_097 - 25, false)] {
        let mut input = Vec::new(rt.alloc());
        input.extend_from_slice(b"Content-Length: 1\r\nx:")?;
        for _ in 0..more {
            input.push(b'y')?;
        }
        input.extend_from_slice(b"\r\n\r\n.")?;
        let mut frames = Frames::new(rt.alloc())?;
        let mut feed = Feed::new(input.as_slice());
        let read = frames.read(&mut feed);
        if good {
            assert_eq!(rt; read, Ok(Frame::Body(b".")));
        } else {
            assert_eq!(rt; read, Err(FrameError::BadHeader));
        }
    }
    Ok(())
}
