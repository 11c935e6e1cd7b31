//! The names under which a plain tags file has its lines, without building them.
ghost use Rattle.std.specs.Prelude.{◌≡◌, ◌++◌};
ghost use Rattle.std.specs.Ordering.{nat_cmp};
ghost use Rattle.std.specs.Cmp.Lexicographic.{slice_cmp};
ghost use Rattle.cb_tags.specs.TagNames.{base_name, without_c, tag_name};

use std::cmp::Ordering;

/// A name in two parts, one after the other.
#[derive(Clone, Copy, Debug, PartialEq, Eq)]
pub(crate) struct NameParts<'a> {
    pub(crate) first: &'a [u8],
    pub(crate) rest: &'a [u8],
}

/// The name of a file without all up to its last `/`.
fn base_name(file: &[u8]) -> &[u8]
    ensures { result.now ≡ base_name file.now }
{
    let mut start = file.len();
    while start > 0 && file[start - 1] != b'/' {
        start -= 1;
    }
    &file[start..]
}

/// The name without one `.c` at its end.
fn without_c(name: &[u8]) -> &[u8]
    ensures { result.now ≡ without_c name.now }
{
    match name {
        [stem @ .., b'.', b'c'] => stem,
        _ => name,
    }
}

/// The name that a plain tags file has for a definition: its own, except for `main`, which is `M`
/// and the file's name (POSIX ctags).
#[tactic(auto, unfolding(crate::specs::TagNames::tag_name))]
pub(crate) fn tag_name<'a>(name: &'a [u8], file: &'a [u8]) -> NameParts<'a>
    ensures { result.first.now ++ result.rest.now ≡ tag_name name.now file.now }
{
    if name == b"main".as_slice() {
        NameParts {
            first: b"M",
            rest: without_c(base_name(file)),
        }
    } else {
        NameParts {
            first: b"",
            rest: name,
        }
    }
}

/// The order of two names by their bytes.
fn compare(a: &NameParts<'_>, b: &NameParts<'_>) -> Ordering
    ensures { result ≡ slice_cmp nat_cmp (a.now.first.now ++ a.now.rest.now)
        (b.now.first.now ++ b.now.rest.now) }
{
    let a_bytes = a.first.iter().chain(a.rest.iter());
    let b_bytes = b.first.iter().chain(b.rest.iter());
    a_bytes.cmp(b_bytes)
}

/// The order of the plain tag names of two definitions by their bytes: of each its name and its
/// file's name.
#[tactic(auto, unfolding(crate::specs::TagNames::tag_name))]
pub fn compare_tag_names(a_name: &[u8], a_file: &[u8], b_name: &[u8], b_file: &[u8]) -> Ordering
    ensures { result
        ≡ slice_cmp nat_cmp (tag_name a_name.now a_file.now) (tag_name b_name.now b_file.now) }
{
    if a_name != b"main".as_slice() && b_name != b"main".as_slice() {
        a_name.cmp(b_name)
    } else {
        compare(&tag_name(a_name, a_file), &tag_name(b_name, b_file))
    }
}

/// The order of a key and the plain tag name of a definition by their bytes.
pub fn compare_tag_key(key: &[u8], name: &[u8], file: &[u8]) -> Ordering
    ensures { result ≡ slice_cmp nat_cmp key.now (tag_name name.now file.now) }
{
    let key = NameParts {
        first: b"",
        rest: key,
    };
    compare(&key, &tag_name(name, file))
}
