//! Questions and the rows that answer them; the forms of a tags file.
ghost use Rattle.std.specs.Prelude.{◌≡◌, ◌≤◌, ◌==◌, ◌||◌, length};
ghost use Rattle.std.specs.List.{prefix_len};
ghost use Rattle.cb_desk.specs.Answer.{field_of_digit, file_row, is_header, line_row, space, tab};
ghost use Rattle.cb_desk.specs.Answer.{unindented};
ghost use Rattle.cb_desk.specs.Models.{row_of};

use cb_scan::{Source, Span};

/// What is asked: the field of a question.
#[derive(Clone, Copy, Debug, PartialEq, Eq)]
pub enum Field {
    /// 0: the uses of a name.
    Symbol,
    /// 1: the definitions of a name.
    Definition,
    /// 2: the calls in a function.
    Called,
    /// 3: the calls of a function.
    Calling,
    /// 4: the lines that hold a text.
    Text,
    /// 7: the files whose name holds a text.
    File,
    /// 8: the includes of a header.
    Including,
}

impl Field {
    /// The field that a digit names, if there is one. `digit` is the byte of the digit, as `b'1'`.
    pub fn of_digit(digit: u8) -> Option<Field>
        ensures { result ≡ field_of_digit digit }
    {
        match digit {
            b'0' => Some(Field::Symbol),
            b'1' => Some(Field::Definition),
            b'2' => Some(Field::Called),
            b'3' => Some(Field::Calling),
            b'4' => Some(Field::Text),
            b'7' => Some(Field::File),
            b'8' => Some(Field::Including),
            _ => None,
        }
    }
}

/// A row of an answer; its text has no leading spaces and tabs.
#[derive(Clone, Copy, Debug)]
pub struct RefRow<'a> {
    pub file: &'a [u8],
    pub function: &'a [u8],
    /// From 1.
    pub line: u32,
    pub text: &'a [u8],
}

/// The row that shows a line of a file and names no function. Lines count from 1.
pub fn line_row<'a>(file: &'a [u8], source: &'a Source, line: u32) -> RefRow<'a>
    ensures { row_of result ≡ line_row file.now source.now line }
{
    RefRow {
        file,
        function: b"<unknown>",
        line,
        text: unindented(source.shown_line(line)),
    }
}

/// The row of a file.
pub(crate) fn file_row(name: &[u8]) -> RefRow<'_>
    ensures { row_of result ≡ file_row name.now }
{
    RefRow {
        file: name,
        function: b"<unknown>",
        line: 1,
        text: b"<unknown>",
    }
}

/// A line without its leading spaces and tabs.
pub fn unindented(line: &[u8]) -> &[u8]
    ensures { result.now ≡ unindented line.now }
{
    &line[blanks(line)..]
}

/// How many spaces and tabs a line begins with.
fn blanks(line: &[u8]) -> usize
    ensures value { result ≡ prefix_len (λ b. b == space || b == tab) line.now }
    ensures within { result ≤ length line.now }
{
    line.iter()
        .take_while(|byte| **byte == b' ' || **byte == b'\t')
        .count()
}

/// A fact as a field shows it.
#[derive(Clone, Copy, Debug, PartialEq, Eq)]
pub(crate) struct Found {
    /// What the pattern is held against.
    pub key: Span,
    /// The name in the function column; none outside of functions and macros.
    pub function: Option<Span>,
    /// From 1.
    pub line: u32,
}

/// Whether a header is the one asked for, or ends in a slash and that one.
pub fn is_header(pattern: &[u8], header: &[u8]) -> bool
    ensures { result ≡ is_header pattern.now header.now }
{
    if header.len() <= pattern.len() {
        return header == pattern;
    }
    let end = &header[header.len() - pattern.len() - 1..];
    end[0] == b'/' && &end[1..] == pattern
}

/// The form of a tags file.
#[derive(Clone, Copy, Debug, PartialEq, Eq)]
pub enum Format {
    /// POSIX `ctags`: name, file and address, in the order of the tag names.
    Plain,
    /// tags(5): with fields for kind, line and scope, in the order of the names. A listing has
    /// that order too.
    Extended,
}
