//! What a line asks for.
ghost use Rattle.std.specs.Prelude.{◌≡◌, ◌≤◌, true, length};
ghost use Rattle.std.specs.List.{list_all, slice_split, position};
ghost use Rattle.std.specs.Str.Parse.{digits_value};
ghost use Rattle.cb_desk.specs.Answer.{field_of_digit};
ghost use Rattle.cb_session.specs.declared.input.TheConstants.{MOST_DIGITS};
ghost use Rattle.cb_session.specs.Commands.{cut_at, is_digit, is_space, is_number, number_in};
ghost use Rattle.cb_session.specs.Commands.{load_sized, load_words, tags_numbered, tags_words};
ghost use Rattle.cb_session.specs.Commands.{drop_words, rename_words, mark_numbered, mark_words};
ghost use Rattle.cb_session.specs.Commands.{to_text, tag_numbered, tag_words, alone, want_of};
ghost use Rattle.cb_session.specs.Commands.{query_of, field_line, command, command_line};
ghost use Rattle.cb_session.specs.Commands.{short_line};
ghost use Rattle.cb_session.specs.Models.{request_of, command_of, line_request_of};
ghost use Rattle.cb_session.specs.steps.Words.{rest_of, words_after, parts_of};

use crate::input::MOST_DIGITS;
use crate::{Command, Input};
use cb_desk::{Change, Field, Format, Refusal};

/// What the block after a line is for.
#[derive(Clone, Copy, Debug)]
pub enum Purpose {
    /// A file that is loaded.
    Load,
    /// A file that is reloaded.
    Reload,
}

/// What a line asks for.
#[derive(Debug, Drop)]
pub enum Asked<'a> {
    /// An input by itself.
    Whole(Input<'a>),
    /// A load or a reload of this name, with a block of that number of bytes after the line.
    Block(Purpose, &'a [u8], u32),
}

fn is_digit(byte: u8) -> bool
    ensures { result ≡ is_digit byte }
{
    byte.is_ascii_digit()
}

fn has_digits_alone(word: &[u8]) -> bool
    ensures { result ≡ list_all is_digit word.now }
{
    word.iter().all(|byte| is_digit(*byte))
}

/// Whether a word is 1 to 9 decimal digits.
fn is_number(word: &[u8]) -> bool
    ensures { result ≡ is_number word.now }
{
    !word.is_empty() && word.len() <= MOST_DIGITS && has_digits_alone(word)
}

/// The number that digits write.
fn number(digits: &[u8]) -> u32
    requires digits { list_all is_digit digits.now ≡ true }
    requires short { length digits.now ≤ MOST_DIGITS }
    ensures { result ≡ digits_value 10 digits.now }
{
    let mut number = 0u32;
    for byte in digits {
        number = number * 10 + (*byte - b'0') as u32;
    }
    number
}

/// The number of 1 to 9 decimal digits.
fn number_in(word: &[u8]) -> Option<u32>
    ensures { result ≡ number_in word.now }
{
    if is_number(word) {
        Some(number(word))
    } else {
        None
    }
}

fn space_in(text: &[u8]) -> Option<usize>
    ensures { result ≡ position is_space text.now }
{
    text.iter().position(|byte| *byte == b' ')
}

/// The bytes before the first space, and those after it, if there is one.
fn cut_word(text: &[u8]) -> (&[u8], Option<&[u8]>)
    ensures words { slice_split is_space text.now ≡ parts_of result.0.now result.1 }
    ensures cut { cut_at text.now (position is_space text.now) ≡ (result.0.now, rest_of result.1) }
{
    match space_in(text) {
        Some(at) => (&text[..at], Some(&text[at + 1..])),
        None => (text, None),
    }
}

/// A load or a reload by its name and its count.
fn load_sized<'a>(limit: u64, purpose: Purpose, name: &'a [u8], count: &[u8]) -> Asked<'a>
    ensures { line_request_of result ≡ load_sized limit purpose name.now (number_in count.now) }
{
    match number_in(count) {
        Some(count) if count as u64 <= limit => Asked::Block(purpose, name, count),
        _ => Asked::Whole(Input::Refused(Refusal::BadCount)),
    }
}

/// A load or a reload by the words after it.
fn load_words(limit: u64, purpose: Purpose, rest: Option<&[u8]>) -> Asked<'_>
    ensures { line_request_of result ≡ load_words limit purpose (words_after rest.entry) }
{
    let Some(words) = rest else {
        return load_sized(limit, purpose, b"", b"");
    };
    let (name, rest) = cut_word(words);
    let Some(rest) = rest else {
        return load_sized(limit, purpose, name, b"");
    };
    match cut_word(rest) {
        (count, None) => load_sized(limit, purpose, name, count),
        (_, Some(_)) => Asked::Whole(Input::Refused(Refusal::UnknownCommand)),
    }
}

/// A tags file by its number.
fn tags_numbered(number: Option<u32>) -> Input<'static>
    ensures { request_of result ≡ tags_numbered number }
{
    match number {
        Some(1) => Input::Command(Command::Tags(Format::Plain)),
        Some(2) => Input::Command(Command::Tags(Format::Extended)),
        _ => Input::Refused(Refusal::BadCount),
    }
}

/// A tags file by the words after it.
fn tags_words(rest: Option<&[u8]>) -> Input<'static>
    ensures { request_of result ≡ tags_words (words_after rest.entry) }
{
    let Some(words) = rest else {
        return Input::Command(Command::Tags(Format::Plain));
    };
    match cut_word(words) {
        (number, None) => tags_numbered(number_in(number)),
        (_, Some(_)) => Input::Refused(Refusal::UnknownCommand),
    }
}

/// A file's removal by the words after it.
fn drop_words(rest: Option<&[u8]>) -> Input<'_>
    ensures { request_of result ≡ drop_words (words_after rest.entry) }
{
    let Some(words) = rest else {
        return Input::Command(Command::Change(Change::Unload(b"")));
    };
    match cut_word(words) {
        (name, None) => Input::Command(Command::Change(Change::Unload(name))),
        (_, Some(_)) => Input::Refused(Refusal::UnknownCommand),
    }
}

/// A new name by the words after it.
fn rename_words(rest: Option<&[u8]>) -> Input<'_>
    ensures { request_of result ≡ rename_words (words_after rest.entry) }
{
    let Some(words) = rest else {
        return Input::Command(Command::Change(Change::Rename(b"", b"")));
    };
    let (old, rest) = cut_word(words);
    let Some(rest) = rest else {
        return Input::Command(Command::Change(Change::Rename(old, b"")));
    };
    match cut_word(rest) {
        (new, None) => Input::Command(Command::Change(Change::Rename(old, new))),
        (_, Some(_)) => Input::Refused(Refusal::UnknownCommand),
    }
}

/// A mark by its number.
fn mark_numbered(number: Option<u32>) -> Input<'static>
    ensures { request_of result ≡ mark_numbered number }
{
    match number {
        Some(n) => Input::Command(Command::Change(Change::Mark(n as u64))),
        None => Input::Refused(Refusal::BadCount),
    }
}

/// A mark by the words after it.
fn mark_words(rest: Option<&[u8]>) -> Input<'static>
    ensures { request_of result ≡ mark_words (words_after rest.entry) }
{
    let Some(words) = rest else {
        return Input::Refused(Refusal::BadCount);
    };
    match cut_word(words) {
        (number, None) => mark_numbered(number_in(number)),
        (_, Some(_)) => Input::Refused(Refusal::UnknownCommand),
    }
}

/// A change of the wanted text to the rest of the line.
fn to_text(rest: Option<&[u8]>) -> Input<'_>
    ensures { request_of result ≡ to_text (rest_of rest.entry) }
{
    match rest {
        Some(text) => Input::Command(Command::Change(Change::Replace(text))),
        None => Input::Command(Command::Change(Change::Replace(b""))),
    }
}

/// A push by its name and its number.
fn tag_numbered(name: &[u8], number: Option<u32>) -> Input<'_>
    ensures { request_of result ≡ tag_numbered name.now number }
{
    match number {
        Some(n) => Input::Command(Command::Change(Change::Tag(name, n as u64))),
        None => Input::Refused(Refusal::BadCount),
    }
}

/// A push by the words after it.
fn tag_words(rest: Option<&[u8]>) -> Input<'_>
    ensures { request_of result ≡ tag_words (words_after rest.entry) }
{
    let Some(words) = rest else {
        return tag_numbered(b"", Some(1));
    };
    let (name, rest) = cut_word(words);
    let Some(rest) = rest else {
        return tag_numbered(name, Some(1));
    };
    match cut_word(rest) {
        (number, None) => tag_numbered(name, number_in(number)),
        (_, Some(_)) => Input::Refused(Refusal::UnknownCommand),
    }
}

/// A command that is alone on its line.
fn alone<'a>(command: Command<'a>, rest: Option<&[u8]>) -> Asked<'a>
    ensures { line_request_of result ≡ alone (command_of command.entry) (words_after rest.entry) }
{
    match rest {
        None => Asked::Whole(Input::Command(command)),
        Some(_) => Asked::Whole(Input::Refused(Refusal::UnknownCommand)),
    }
}

/// A query by the digit of its field and its pattern.
fn field_query(digit: u8, pattern: &[u8]) -> Input<'_>
    ensures { request_of result ≡ query_of (field_of_digit digit) pattern.now }
{
    let Some(field) = Field::of_digit(digit) else {
        return Input::Refused(Refusal::NoSuchField);
    };
    if pattern.is_empty() {
        return Input::Refused(Refusal::NoPattern);
    }
    Input::Command(Command::Query(field, pattern))
}

/// A text that is wanted.
fn want_of(text: &[u8]) -> Input<'_>
    ensures { request_of result ≡ want_of text.now }
{
    if text.is_empty() {
        return Input::Refused(Refusal::NoPattern);
    }
    Input::Command(Command::Change(Change::Want(text)))
}

/// A field by its digit and what follows it: field 5 wants a text, each other is a query.
fn field_line(digit: u8, rest: &[u8]) -> Input<'_>
    ensures { request_of result ≡ field_line digit rest.now }
{
    if digit == b'5' {
        want_of(rest)
    } else {
        field_query(digit, rest)
    }
}

/// A command by its word and the rest of its line.
#[tactic(auto, unfolding(crate::specs::Commands::command))]
fn command<'a>(limit: u64, word: &[u8], rest: Option<&'a [u8]>) -> Asked<'a>
    ensures { line_request_of result ≡ command limit word.now (rest_of rest.entry) }
{
    if word == b"r".as_slice() {
        alone(Command::Rebuild, rest)
    } else if word == b":load".as_slice() {
        load_words(limit, Purpose::Load, rest)
    } else if word == b":reload".as_slice() {
        load_words(limit, Purpose::Reload, rest)
    } else if word == b":drop".as_slice() {
        Asked::Whole(drop_words(rest))
    } else if word == b":rename".as_slice() {
        Asked::Whole(rename_words(rest))
    } else if word == b":mark".as_slice() {
        Asked::Whole(mark_words(rest))
    } else if word == b":markall".as_slice() {
        alone(Command::Change(Change::MarkAll), rest)
    } else if word == b":to".as_slice() {
        Asked::Whole(to_text(rest))
    } else if word == b":tag".as_slice() {
        Asked::Whole(tag_words(rest))
    } else if word == b":pop".as_slice() {
        alone(Command::Change(Change::Pop), rest)
    } else if word == b":undo".as_slice() {
        alone(Command::Undo, rest)
    } else if word == b":redo".as_slice() {
        alone(Command::Redo, rest)
    } else if word == b":tags".as_slice() {
        Asked::Whole(tags_words(rest))
    } else if word == b":listing".as_slice() {
        alone(Command::Listing, rest)
    } else if word == b":marks".as_slice() {
        alone(Command::Marks, rest)
    } else if word == b":stack".as_slice() {
        alone(Command::Stack, rest)
    } else {
        Asked::Whole(Input::Refused(Refusal::UnknownCommand))
    }
}

/// A command by its line.
fn command_line(limit: u64, line: &[u8]) -> Asked<'_>
    ensures { line_request_of result ≡ command_line limit line.now }
{
    let (word, rest) = cut_word(line);
    command(limit, word, rest)
}

/// What a line of at most 4,096 bytes asks for, where a run allows `limit` bytes in a block.
pub fn line_asks(limit: u64, line: &[u8]) -> Asked<'_>
    ensures { line_request_of result ≡ short_line limit line.now }
{
    match line {
        [] => Asked::Whole(Input::Nothing),
        [b'q' | 4, ..] => Asked::Whole(Input::End),
        [digit, pattern @ ..] if is_digit(*digit) => Asked::Whole(field_line(*digit, pattern)),
        _ => command_line(limit, line),
    }
}
