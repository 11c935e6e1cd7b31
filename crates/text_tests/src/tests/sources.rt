//! Sources, their pieces and keys by their first bytes, worked out by hand.
use cb_scan::{Class, Piece, Range, Rules, Source, Span, function_ranges, key_prefix, pieces};
use std::test::Fail;

#[test]
fn a_source_of_1000001_lines(rt: HostRuntime) -> Result<(), Fail> {
    let lines = Source::new(rt.alloc(), vec![in rt.alloc(); b'\n'; 1_000_001]?)?;
    assert_eq!(rt; lines.line_count(), 1_000_001);
    assert_eq!(rt; lines.line(1_000_001), Some(b"".as_slice()));
    assert!(rt; lines.line(1_000_002).is_none());
    Ok(())
}

#[test]
fn line_has_none_beyond_the_count(rt: HostRuntime) -> Result<(), Fail> {
    let source = Source::new(rt.alloc(), b"a\r\n\n\r".to_vec(rt.alloc())?)?;
    assert_eq!(rt; source.bytes(), b"a\r\n\n\r".as_slice());
    assert_eq!(rt; source.line_count(), 3);
    assert_eq!(rt; source.line(1), Some(b"a".as_slice()));
    assert_eq!(rt; source.line(3), Some(b"\r".as_slice()));
    for number in [0, 4, u32::MAX] {
        assert!(rt; source.line(number).is_none());
    }
    Ok(())
}

#[test]
fn lines_begin_where_their_bytes_do(rt: HostRuntime) -> Result<(), Fail> {
    // Lines at 0, 3 and 5; the text ends at 7.
    let source = Source::new(rt.alloc(), b"ab\n\r\ncd".to_vec(rt.alloc())?)?;
    for (line, start) in [(0, 0), (1, 0), (2, 3), (3, 5), (4, 7), (u32::MAX, 7)] {
        assert_eq!(rt; source.line_start(line), start);
    }
    for (place, line) in [(0, 1), (2, 1), (3, 2), (4, 2), (5, 3), (6, 3), (7, 3)] {
        assert_eq!(rt; source.line_of(place), line);
    }
    assert_eq!(rt; source.line_of(u32::MAX), 3);
    Ok(())
}

#[test]
fn functions_range_from_their_names_to_the_ends_of_their_bodies(
    rt: HostRuntime,
) -> Result<(), Fail> {
    let closed = |start: u32, end: u32, to: u32| -> Range {
        Range {
            name: Span { start, end },
            end: to,
        }
    };
    let text = b"int f(void) {\n}\nint g(void) {";
    let source = Source::new(rt.alloc(), text.to_vec(rt.alloc())?)?;
    let found = [closed(4, 5, 15), closed(20, 21, 29)];
    for rules in [Rules::Standard, Rules::Wide, Rules::Prototypes] {
        let ranges = function_ranges(rt.alloc(), rules, &source)?;
        assert_eq!(rt; ranges.as_slice(), found.as_slice());
    }
    let source = Source::new(rt.alloc(), b"NO(1) int f(void) {}".to_vec(rt.alloc())?)?;
    let standard = function_ranges(rt.alloc(), Rules::Standard, &source)?;
    assert_eq!(rt; standard.as_slice(), [closed(0, 2, 20)].as_slice());
    let wide = function_ranges(rt.alloc(), Rules::Wide, &source)?;
    assert_eq!(rt; wide.as_slice(), [closed(10, 11, 20)].as_slice());
    Ok(())
}

#[test]
fn a_line_feed_begins_a_line_also_at_the_end(rt: HostRuntime) -> Result<(), Fail> {
    let ended = Source::new(rt.alloc(), b"a\n".to_vec(rt.alloc())?)?;
    for (place, line) in [(0, 1), (1, 1), (2, 2), (3, 2)] {
        assert_eq!(rt; ended.line_of(place), line);
    }
    assert_eq!(rt; ended.line_start(2), 2);
    let empty = Source::new(rt.alloc(), b"".to_vec(rt.alloc())?)?;
    assert_eq!(rt; empty.line_of(0), 1);
    assert_eq!(rt; empty.line_of(9), 1);
    assert_eq!(rt; empty.line_start(1), 0);
    Ok(())
}

#[test]
fn pieces_cover_a_text(rt: HostRuntime) -> Result<(), Fail> {
    let source = Source::new(rt.alloc(), b"x1 =".to_vec(rt.alloc())?)?;
    let wanted = [
        (Class::Name, 0, 2),
        (Class::Blank, 2, 3),
        (Class::Byte, 3, 4),
    ];
    let mut found = pieces(&source);
    for (class, start, end) in wanted {
        let span = Span { start, end };
        assert_eq!(rt; found.next(), Some(Piece { class, span }));
    }
    assert!(rt; found.next().is_none());
    Ok(())
}

#[test]
fn key_prefix_is_the_first_eight_bytes(rt: HostRuntime) {
    assert_eq!(rt; key_prefix(b""), 0);
    assert_eq!(rt; key_prefix(b"a"), 0x6100_0000_0000_0000);
    assert_eq!(rt; key_prefix(b"sqlite3_"), 0x7371_6c69_7465_335f);
    assert_eq!(rt; key_prefix(b"sqlite3_open"), 0x7371_6c69_7465_335f);
}
