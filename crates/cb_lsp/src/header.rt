//! Headers of includes, and the files that they mean.
ghost use Rattle.std.specs.Prelude.{◌≡◌, ◌≤◌, length, option_map};
ghost use Rattle.cb_lsp.specs.Headers.{after_dots, folder_length, folder_of, header_at, holds};
ghost use Rattle.cb_lsp.specs.Headers.{is_in_folder, without_dots};

use cb_scan::{Include, Span};

/// Whether a place is in a span or at its end.
fn holds(span: Span, place: usize) -> bool
    ensures { result ≡ holds span place }
{
    span.start as usize <= place && place <= span.end as usize
}

/// The first header that holds a place or ends at it.
pub(crate) fn header_at(includes: &[Include], place: usize) -> Option<Span>
    ensures { result ≡ header_at includes.now place }
{
    'includes: for include in includes {
        if holds(include.header, place) {
            return Some(include.header);
        }
    }
    None
}

/// How many bytes the folder of a file has, with its slash.
pub(crate) fn folder_length(name: &[u8]) -> usize
    ensures value { result ≡ folder_length name.now }
    ensures within { result ≤ length name.now }
{
    let mut end = name.len();
    'bytes: while end > 0 && name[end - 1] != b'/' {
        end -= 1;
    }
    end
}

/// The folder of a file, with its slash.
pub(crate) fn folder_of(name: &[u8]) -> &[u8]
    ensures { result.now ≡ folder_of name.now }
{
    name.split_at(folder_length(name)).0
}

/// Whether a file is the one of a header in a folder. Most have another length.
pub(crate) fn is_in_folder(folder: &[u8], header: &[u8], name: &[u8]) -> bool
    ensures { result ≡ is_in_folder folder.now header.now name.now }
{
    if name.len() < header.len() || name.len() - header.len() != folder.len() {
        return false;
    }
    match name.strip_prefix(folder) {
        Some(rest) => rest == header,
        None => false,
    }
}

/// What stands behind a `./` or a `../` at the front of a header.
pub(crate) fn after_dots(header: &[u8]) -> Option<&[u8]>
    ensures { option_map (λ rest. rest.now) result ≡ after_dots header.now }
{
    match header {
        [b'.', b'/', rest @ ..] => Some(rest),
        [b'.', b'.', b'/', rest @ ..] => Some(rest),
        _ => None,
    }
}

/// A header without each `./` and `../` before it.
pub(crate) fn without_dots(header: &[u8]) -> &[u8]
    ensures { result.now ≡ without_dots header.now }
{
    let mut rest = header;
    'parts: while let Some(more) = after_dots(rest) {
        rest = more;
    }
    rest
}
