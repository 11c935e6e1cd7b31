//! Columns and positions, counted by hand.
use cb_wire::{
    Encoding, Position, column_of_place, line_at, place_of_column, place_of_position,
    position_of_place,
};

/// `aé𝄞`, a byte that is no UTF-8, and `b`.
const LINE: &[u8] = b"a\xC3\xA9\xF0\x9D\x84\x9E\xFFb";

#[test]
fn columns_count_units_of_utf_16(rt: HostRuntime) {
    let columns = [0, 1, 1, 2, 2, 2, 2, 4, 5, 6, 6];
    for (place, column) in columns.iter().enumerate() {
        assert_eq!(rt; column_of_place(Encoding::Utf16, LINE, place), *column);
    }
    let places = [0, 1, 3, 3, 7, 8, 9, 9];
    for (column, place) in places.iter().enumerate() {
        assert_eq!(rt; place_of_column(Encoding::Utf16, LINE, column), *place);
    }
}

#[test]
fn columns_count_bytes_in_utf_8(rt: HostRuntime) {
    assert_eq!(rt; column_of_place(Encoding::Utf8, LINE, 5), 5);
    assert_eq!(rt; place_of_column(Encoding::Utf8, LINE, 5), 5);
    assert_eq!(rt; place_of_column(Encoding::Utf8, LINE, 50), 9);
}

#[test]
fn positions_count_from_zero(rt: HostRuntime) {
    let text = b"ab\r\n\xC3\xA9x\n".as_slice();
    let end = Position {
        line: 2,
        character: 0,
    };
    let x = Position {
        line: 1,
        character: 1,
    };
    assert_eq!(rt; position_of_place(Encoding::Utf16, text, 6), x);
    assert_eq!(rt; place_of_position(Encoding::Utf16, text, x), 6);
    assert_eq!(rt; position_of_place(Encoding::Utf16, text, 8), end);
    assert_eq!(rt; place_of_position(Encoding::Utf16, text, end), 8);
    let far = Position {
        line: 0,
        character: 9,
    };
    assert_eq!(rt; place_of_position(Encoding::Utf16, text, far), 2);
    assert_eq!(rt; line_at(text, 1), (4, b"\xC3\xA9x".as_slice()));
    assert_eq!(rt; line_at(text, 2), (8, b"".as_slice()));
}
