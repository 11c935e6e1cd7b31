//! The fields of a head.
ghost use Rattle.std.specs.Prelude.{◌≡◌, ◌≤◌, ◌&&◌, ◌<◌, nat_le, true, IfSome, length};
ghost use Rattle.std.specs.List.{list_all, position, prefix_len};
ghost use Rattle.std.specs.Str.Parse.{digits_value};
ghost use Rattle.cb_wire.specs.Fields.{content_length, is_blank, is_colon, is_digit, is_name_byte};
ghost use Rattle.cb_wire.specs.Fields.{is_number, number, of_field, of_line, of_split};
ghost use Rattle.cb_wire.specs.Fields.{first_length, trimmed, without_last};

use bstr::ByteSlice;

/// The most digits of a length.
const MOST_DIGITS: usize = 9;

fn is_blank(byte: u8) -> bool
    ensures { result ≡ is_blank byte }
{
    byte == b' ' || byte == b'\t'
}

fn is_name_byte(byte: u8) -> bool
    ensures { result ≡ is_name_byte byte }
{
    0x21 <= byte && byte <= 0x7E && byte != b':'
}

fn is_digit(byte: u8) -> bool
    ensures { result ≡ is_digit byte }
{
    b'0' <= byte && byte <= b'9'
}

/// A text without blanks at its end.
fn without_last(text: &[u8]) -> &[u8]
    ensures { result.now ≡ without_last text.now }
{
    let mut end = text.len();
    'blanks: while end > 0 && is_blank(text[end - 1]) {
        end -= 1;
    }
    text.split_at(end).0
}

/// How many blanks a text begins with.
fn first_blanks(text: &[u8]) -> usize
    ensures value { result ≡ prefix_len is_blank text.now }
    ensures within { result ≤ length text.now }
{
    text.iter().take_while(|byte| is_blank(**byte)).count()
}

/// A text without blanks at its ends.
fn trimmed(text: &[u8]) -> &[u8]
    ensures { result.now ≡ trimmed text.now }
{
    without_last(text.split_at(first_blanks(text)).1)
}

/// The number that digits write.
fn value(digits: &[u8]) -> usize
    requires digits { list_all is_digit digits.now ≡ true }
    requires short { length digits.now ≤ MOST_DIGITS }
    ensures { result ≡ digits_value 10 digits.now }
{
    let mut value = 0usize;
    for byte in digits {
        value = value * 10 + (*byte - b'0') as usize;
    }
    value
}

/// Whether a word has no byte but digits.
fn has_digits_alone(word: &[u8]) -> bool
    ensures { result ≡ list_all is_digit word.now }
{
    word.iter().all(|byte| is_digit(*byte))
}

/// Whether a word is 1 to 9 decimal digits.
fn is_number(word: &[u8]) -> bool
    ensures { result ≡ is_number word.now }
{
    !word.is_empty() && word.len() <= MOST_DIGITS && has_digits_alone(word)
}

/// The number of 1 to 9 decimal digits.
fn number(word: &[u8]) -> Option<usize>
    ensures { result ≡ number word.now }
{
    if is_number(word) {
        Some(value(word))
    } else {
        None
    }
}

/// Whether all bytes may stand in the name of a field.
fn has_name_bytes_alone(name: &[u8]) -> bool
    ensures { result ≡ list_all is_name_byte name.now }
{
    name.iter().all(|byte| is_name_byte(*byte))
}

/// Whether bytes are the name of a field.
fn is_name(name: &[u8]) -> bool
    ensures { result ≡ (nat_le 1 (length name.now) && list_all is_name_byte name.now) }
{
    !name.is_empty() && has_name_bytes_alone(name)
}

/// The one length of a message.
fn first_length(found: Option<usize>, length: Option<usize>) -> Option<Option<usize>>
    ensures { result ≡ first_length found length }
{
    match (found, length) {
        (None, Some(length)) => Some(Some(length)),
        _ => None,
    }
}

/// The length that was found, behind a field with this name and value.
fn of_field(found: Option<usize>, name: &[u8], value: &[u8]) -> Option<Option<usize>>
    ensures { result ≡ of_field found name.now value.now }
{
    if !is_name(name) {
        return None;
    }
    if name.eq_ignore_ascii_case(b"content-length") {
        first_length(found, number(trimmed(value)))
    } else {
        Some(found)
    }
}

/// Where a line has its first colon.
fn colon_in(line: &[u8]) -> Option<usize>
    ensures { result ≡ position is_colon line.now }
{
    line.iter().position(|byte| *byte == b':')
}

/// The length that was found, behind a line with a colon at a place, or without one.
fn of_split(found: Option<usize>, line: &[u8], colon: Option<usize>) -> Option<Option<usize>>
    requires { IfSome colon (λ at. at < length line.now) }
    ensures { result ≡ of_split found line.now colon }
{
    match colon {
        Some(at) => of_field(found, line.split_at(at).0, line.split_at(at + 1).1),
        None => None,
    }
}

/// The length that was found, behind one line more.
fn of_line(found: Option<usize>, line: &[u8]) -> Option<Option<usize>>
    ensures { result ≡ of_line found line.now }
{
    if line.is_empty() {
        return Some(found);
    }
    of_split(found, line, colon_in(line))
}

/// The length of the body behind a head; `None` where there is none, or a line is no field.
pub(crate) fn content_length(head: &[u8]) -> Option<usize>
    ensures { result ≡ content_length head.now }
{
    let mut found = None;
    'lines: for line in head.lines() {
        found = of_line(found, line)?;
    }
    found
}
