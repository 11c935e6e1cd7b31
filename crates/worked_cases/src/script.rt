//! The lines of sessions and of texts as they stand in a file.
use crate::case::Case;
use crate::facts::Text;
use crate::failed::Failed;
use bstr::ByteSlice;
use std::alloc::Global;
use std::fs;
use std::rt::Files;

/// The file of that name beside this one.
fn read_named<R: Files + AllocGlobal>(rt: &R, name: &[u8]) -> Result<Vec<u8>, Failed> {
    let Ok(name) = str::from_utf8(name) else {
        return Err(Failed);
    };
    Ok(fs::read(rt, name)?)
}

/// Takes a line of a session.
pub(crate) fn take_line<R: Files + AllocGlobal>(
    rt: &R,
    case: &mut Case,
    line: &[u8],
) -> Result<(), Failed> {
    if line.is_empty() || line.starts_with(b"# ") {
        return Ok(());
    }
    if let Some(name) = line.strip_prefix(b"file ".as_slice()) {
        return case.put_file(name, Vec::new(rt.alloc()));
    }
    if let Some(name) = line.strip_prefix(b"with ".as_slice()) {
        let bytes = read_named(rt, name)?;
        return case.put_file(name, bytes);
    }
    if let Some(words) = line.strip_prefix(b"end ".as_slice()) {
        return case.put_end(words);
    }
    if line == b"limits 5000 3".as_slice() {
        case.put_narrow_limits();
        return Ok(());
    }
    if line == b"bounds 3 20".as_slice() {
        case.put_narrow_bounds();
        return Ok(());
    }
    if line == b"at each byte".as_slice() {
        case.put_at_each_byte();
        return Ok(());
    }
    take_exchange(case, line)
}

/// A line of input, of a block or of a reply.
fn take_exchange(case: &mut Case, line: &[u8]) -> Result<(), Failed> {
    if line == b">>".as_slice() {
        return case.put_input(b"");
    }
    if let Some(input) = line.strip_prefix(b">> ".as_slice()) {
        return case.put_input(input);
    }
    match block_line(line) {
        Some(text) => case.put_block(text),
        None => case.put_reply(line),
    }
}

/// A line of a text, after its `| `.
fn block_line(line: &[u8]) -> Option<&[u8]> {
    if line == b"|".as_slice() {
        return Some(b"");
    }
    line.strip_prefix(b"| ".as_slice())
}

/// The word of a line before its colon, and what stands after it and a space.
fn cut_word(line: &[u8]) -> Option<(&[u8], &[u8])> {
    let at = line.find_byte(b':')?;
    let (word, rest) = line.split_at(at);
    match rest.strip_prefix(b": ".as_slice()) {
        Some(wanted) => Some((word, wanted)),
        None => Some((word, b"")),
    }
}

/// Takes a line on a text: one of its lines, or what its scan should find. Whether that is right.
pub(crate) fn take_text(alloc: Global, text: &mut Text, line: &[u8]) -> Result<bool, Failed> {
    if line.is_empty() || line.starts_with(b"# ") {
        return Ok(true);
    }
    if let Some(part) = block_line(line) {
        text.put_line(part)?;
        return Ok(true);
    }
    match cut_word(line) {
        Some((word, wanted)) => text.has(alloc, word, wanted),
        None => Err(Failed),
    }
}
