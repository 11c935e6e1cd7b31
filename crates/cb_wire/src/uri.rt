//! File URIs, and the names of files below a root.
ghost use Rattle.std.specs.Prelude.{◌≡◌, ◌++◌, ◌-◌, ◌*◌, ◌≤◌, IfOk, IfSome, count_by};
ghost use Rattle.std.specs.Prelude.{length, not};
ghost use Rattle.std.specs.Cow.{cow_slice_items};
ghost use Rattle.std.specs.List.{list_all};
ghost use Rattle.std.specs.Option.{option_map};
ghost use Rattle.cb_tags.specs.Writing.{Puts};
ghost use Rattle.cb_wire.specs.Uris.{after, begins_with_slash, below, escape_byte, escaped};
ghost use Rattle.cb_wire.specs.Uris.{escaped_path, has_one_form, is_kept, last_slashes};
ghost use Rattle.cb_wire.specs.Uris.{leads_on, one_form, path_of, segments, steps_back};
ghost use Rattle.cb_wire.specs.steps.Segments.{segment_size, step_of};

use crate::units::{after_place, before};
use cb_tags::{Sink, WriteFault, put_text};
use percent_encoding::{percent_decode, percent_encode_byte};
use std::alloc::{AllocError, Global};
use std::borrow::CowSlice;
use std::io::Write;

/// What a file URI begins with.
const SCHEME: &[u8] = b"file://";

/// The one host that a file URI may name.
const HOST: &[u8] = b"localhost";

/// What follows these letters, in either case, at the front of a text.
fn after<'a>(letters: &[u8], text: &'a [u8]) -> Option<&'a [u8]>
    ensures value { option_map (λ rest. rest.now) result ≡ after letters.now text.now }
    ensures within { IfSome result (λ rest. length rest.now ≤ length text.now) }
{
    let (front, rest) = text.split_at(letters.len().min(text.len()));
    if front.eq_ignore_ascii_case(letters) {
        Some(rest)
    } else {
        None
    }
}

/// Whether a text begins with a slash.
pub(crate) fn begins_with_slash(text: &[u8]) -> bool
    ensures { result ≡ begins_with_slash text.now }
{
    matches!(text, [b'/', ..])
}

/// The path of a file URI, as it stands there.
pub(crate) fn escaped_path(uri: &[u8]) -> Option<&[u8]>
    ensures value { option_map (λ path. path.now) result ≡ escaped_path uri.now }
    ensures within { IfSome result (λ path. length path.now ≤ length uri.now) }
{
    let rest = after(SCHEME, uri)?;
    if begins_with_slash(rest) {
        return Some(rest);
    }
    let rest = after(HOST, rest)?;
    if begins_with_slash(rest) {
        Some(rest)
    } else {
        None
    }
}

/// Whether a segment of a path leads on: it is not empty and no dot.
fn leads_on(segment: &[u8]) -> bool
    ensures { result ≡ leads_on segment.now }
{
    !(segment == b"".as_slice() || segment == b".".as_slice())
}

/// Whether a path steps back: it has a segment of two dots.
pub fn steps_back(path: &[u8]) -> bool
    ensures { result ≡ steps_back path.now }
{
    path.split(|byte| *byte == b'/')
        .any(|segment| segment == b"..".as_slice())
}

/// Whether all segments of a path lead on.
fn all_lead_on(path: &[u8]) -> bool
    ensures { result ≡ list_all leads_on (segments path.now) }
{
    path.split(|byte| *byte == b'/')
        .all(|segment| leads_on(segment))
}

/// Whether a path is seen to have its one form.
fn has_one_form(path: &[u8]) -> bool
    ensures { result ≡ has_one_form path.now }
{
    match path {
        [b'/', rest @ ..] => all_lead_on(rest),
        _ => false,
    }
}

/// How many bytes the first segment of a path has.
fn segment_size(path: &[u8]) -> usize
    ensures value { result ≡ segment_size path.now }
    ensures within { result ≤ length path.now }
{
    path.iter().take_while(|byte| !(**byte == b'/')).count()
}

/// The one form of a path: a slash before each segment that leads on.
pub(crate) fn one_form_of(alloc: Global, path: &[u8]) -> Result<Vec<u8>, AllocError>
    ensures { IfOk result (λ form. form.items ≡ one_form path.now) }
{
    let mut form = Vec::new(alloc);
    let mut rest = path;
    'segments: while rest.len() > 0 {
        let size = segment_size(rest);
        append_segment(&mut form, before(rest, size))?;
        rest = after_place(rest, size + 1);
    }
    Ok(form)
}

/// A segment after a path, if it leads on.
fn append_segment(form: &mut Vec<u8>, segment: &[u8]) -> Result<(), AllocError>
    ensures { IfOk result (λ _. form.new.items ≡ form.old.items ++ step_of segment.now) }
{
    if leads_on(segment) {
        form.push(b'/')?;
        form.extend_from_slice(segment)?;
    }
    Ok(())
}

/// A path in its one form.
fn in_one_form(alloc: Global, path: CowSlice<'_, u8>) -> Result<CowSlice<'_, u8>, AllocError>
    ensures { IfOk result (λ form. cow_slice_items form ≡ one_form (cow_slice_items path.entry)) }
{
    if has_one_form(path.as_slice()) {
        return Ok(path);
    }
    Ok(CowSlice::Owned(one_form_of(alloc, path.as_slice())?))
}

/// The path of a file URI in its one form, or `None` for any other text. Memory is taken only for a
/// path with escapes or another form.
pub fn path_of_uri(alloc: Global, uri: &[u8]) -> Result<Option<CowSlice<'_, u8>>, AllocError>
    ensures { IfOk result (λ path. option_map cow_slice_items path ≡ path_of uri.now) }
{
    match escaped_path(uri) {
        Some(path) => Ok(Some(in_one_form(alloc, percent_decode(path).into_cow(alloc)?)?)),
        None => Ok(None),
    }
}

/// Whether a byte stands for itself in a URI. A dot, a slash and the digits follow the minus.
fn is_kept(byte: u8) -> bool
    ensures { result ≡ is_kept byte }
{
    byte.is_ascii_lowercase()
        || (b'-' <= byte && byte <= b'9')
        || byte.is_ascii_uppercase()
        || byte == b'_'
        || byte == b'~'
}

/// Writes a path with escapes, as in a URI; at once, where it has none.
pub fn put_escaped<W: Write>(out: &mut Sink<W>, path: &[u8]) -> Result<(), WriteFault>
    ensures { Puts out.old out.new result (escaped path.now) }
{
    if escapes(path) == 0 {
        return put_text(out, path);
    }
    for byte in path {
        put_escaped_byte(out, *byte)?;
    }
    Ok(())
}

/// Writes a byte of a path.
fn put_escaped_byte<W: Write>(out: &mut Sink<W>, byte: u8) -> Result<(), WriteFault>
    ensures { Puts out.old out.new result (escape_byte byte) }
{
    if is_kept(byte) {
        put_text(out, &[byte])
    } else {
        put_text(out, percent_encode_byte(byte).as_bytes())
    }
}

/// How many bytes of a path have an escape.
fn escapes(path: &[u8]) -> usize
    ensures value { result ≡ count_by (λ b. not (is_kept b)) path.now }
    ensures within { result ≤ length path.now }
{
    path.iter().filter(|byte| !is_kept(**byte)).count()
}

/// How many bytes a path takes with escapes.
pub(crate) fn escaped_length(path: &[u8]) -> u128
    ensures value { result ≡ length (escaped path.now) }
    ensures few { result ≤ 3 * length path.now }
{
    path.len() as u128 + 2 * escapes(path) as u128
}

/// A path with escapes, behind a text.
pub(crate) fn append_escaped(text: &mut Vec<u8>, path: &[u8]) -> Result<(), AllocError>
    ensures { IfOk result (λ _. text.new.items ≡ text.old.items ++ escaped path.now) }
{
    for byte in path {
        append_escaped_byte(text, *byte)?;
    }
    Ok(())
}

/// A byte of a path, behind a text.
fn append_escaped_byte(text: &mut Vec<u8>, byte: u8) -> Result<(), AllocError>
    ensures { IfOk result (λ _. text.new.items ≡ text.old.items ++ escape_byte byte) }
{
    if is_kept(byte) {
        text.push(byte)?;
        Ok(())
    } else {
        text.extend_from_slice(percent_encode_byte(byte).as_bytes())
    }
}

/// What follows a text and a slash at the front of a path, unless it begins with another slash.
pub(crate) fn below<'a>(root: &[u8], path: &'a [u8]) -> Option<&'a [u8]>
    ensures { option_map (λ name. name.now) result ≡ below root.now path.now }
{
    match path.strip_prefix(root) {
        Some([b'/', name @ ..]) if !begins_with_slash(name) => Some(name),
        _ => None,
    }
}

/// How many slashes a text ends with.
pub(crate) fn last_slashes(text: &[u8]) -> usize
    ensures value { result ≡ last_slashes text.now }
    ensures within { result ≤ length text.now }
{
    let mut end = text.len();
    'slashes: while end > 0 && text[end - 1] == b'/' {
        end -= 1;
    }
    text.len() - end
}
