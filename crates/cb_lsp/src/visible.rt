//! The names of a function that complete a word.
ghost use Rattle.std.specs.Prelude.{◌≡◌, IfOk, OnOk, filter, fold, if◌then◌else◌, map, nat_eq};
ghost use Rattle.std.specs.BTreeSet.{insert_key};
ghost use Rattle.std.specs.Cmp.Lexicographic.{slice_cmp};
ghost use Rattle.std.specs.List.{starts_with};
ghost use Rattle.std.specs.Ordering.{nat_cmp};
ghost use Rattle.cb_scan.specs.lex.Tokens.{bytes_of};
ghost use Rattle.cb_lsp.specs.Completions.{own_names};
ghost use Rattle.cb_lsp.specs.steps.Completions.{names_in};

use crate::place::bytes_of;
use cb_names::Code;
use cb_scan::{Source, Span};
use std::alloc::{AllocError, Global};
use std::collections::BTreeSet;

/// Takes in a name, if it begins with a word.
fn add_begun<'a>(
    names: &mut BTreeSet<&'a [u8]>,
    name: &'a [u8],
    word: &[u8],
) -> Result<(), AllocError>
    ensures { OnOk result (names_in names.new ≡ (if starts_with nat_eq name.entry.now word.now
        then insert_key (slice_cmp nat_cmp) (names_in names.old) name.entry.now
        else names_in names.old)) }
{
    if name.starts_with(word) {
        names.insert(name)?;
    }
    Ok(())
}

/// Takes in those of some tokens that begin with a word.
fn add_all<'a>(
    names: &mut BTreeSet<&'a [u8]>,
    source: &'a Source,
    spans: &[Span],
    word: &[u8],
) -> Result<(), AllocError>
    ensures { OnOk result (names_in names.new ≡ fold (insert_key (slice_cmp nat_cmp))
        (names_in names.old) (filter (λ name. starts_with nat_eq name word.now)
        (map (bytes_of source.now) spans.now))) }
{
    for span in spans {
        add_begun(names, bytes_of(source, *span), word)?;
    }
    Ok(())
}

/// The names that a function declares, that are visible where a word begins, and that begin with
/// it. Refused memory is the only error.
pub(crate) fn own_names<'a>(
    alloc: Global,
    source: &'a Source,
    start: u32,
    word: &[u8],
) -> Result<BTreeSet<&'a [u8]>, AllocError>
    ensures { IfOk result (λ names. names_in names ≡ own_names source.entry.now start word.now) }
{
    let Ok(code) = Code::new(alloc, source) else {
        return Err(AllocError);
    };
    let spans = code.visible_names(alloc, start)?;
    let mut names = BTreeSet::new(alloc);
    add_all(&mut names, source, spans.as_slice(), word)?;
    Ok(names)
}
