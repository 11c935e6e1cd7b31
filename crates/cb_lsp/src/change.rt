//! Changes of a text.
ghost use Rattle.std.specs.Prelude.{◌≡◌, IfErr, IfOk, is_some, true};
ghost use Rattle.std.specs.Option.{option_map};
ghost use Rattle.json.specs.Value.{items_view, value_view};
ghost use Rattle.cb_lsp.specs.Changes.{or_else, text_by, text_with};
ghost use Rattle.cb_lsp.specs.Models.{change_seen};
ghost use Rattle.cb_lsp.specs.Params.{change_of, changes_among};
ghost use Rattle.cb_lsp.specs.steps.Changed.{text_when};

use crate::documents::copy_of;
use crate::edited::Edited;
use crate::params::change_of;
use cb_wire::{Encoding, Range};
use json::Value;
use std::alloc::{AllocError, Global};

/// A change of a text.
#[derive(Clone, Copy, Debug)]
pub(crate) enum TextChange<'a> {
    /// To another one.
    Whole(&'a str),
    /// To one with a text in place of what stands in a range.
    Part(Range, &'a str),
}

/// The text that a part is put into, if there is one: a new one, or else a copy of the one before.
fn text_for_part(
    alloc: Global,
    new: Option<Edited>,
    before: Option<&[u8]>,
) -> Result<Option<Edited>, AllocError>
    ensures ok { IfOk result (λ text. text
        ≡ or_else new (option_map (λ t. t.now) before.entry)) }
    ensures err { IfErr result (λ _.
        is_some (or_else new (option_map (λ t. t.now) before.entry)) ≡ true) }
{
    match new {
        Some(text) => Ok(Some(text)),
        None => match before {
            Some(text) => Ok(Some(Edited::new(copy_of(alloc, text)?))),
            None => Ok(None),
        },
    }
}

impl TextChange<'_> {
    /// The text after it, if there is one: a part is put into the new text, or else into a copy of
    /// the one before. Only where there is one memory is refused.
    fn applied(
        self,
        alloc: Global,
        encoding: Encoding,
        before: Option<&[u8]>,
        new: Option<Edited>,
    ) -> Result<Option<Edited>, AllocError>
        ensures ok { IfOk result (λ made. made ≡ text_with encoding (change_seen self.entry)
            (or_else new (option_map (λ t. t.now) before.entry))) }
        ensures err { IfErr result (λ _. is_some (text_with encoding (change_seen self.entry)
            (or_else new (option_map (λ t. t.now) before.entry))) ≡ true) }
    {
        match self {
            TextChange::Whole(text) => Ok(Some(Edited::new(copy_of(alloc, text.as_bytes())?))),
            TextChange::Part(range, text) => match text_for_part(alloc, new, before)? {
                Some(found) => {
                    let mut made = found;
                    made.put(encoding, range, text.as_bytes())?;
                    Ok(Some(made))
                }
                None => Ok(None),
            },
        }
    }
}

/// The text after one more change, where it is one. Only where there is such a text memory is
/// refused.
fn text_when(
    alloc: Global,
    encoding: Encoding,
    before: Option<&[u8]>,
    new: Option<Edited>,
    value: &Value<'_>,
) -> Result<Option<Edited>, AllocError>
    ensures ok { IfOk result (λ made. made
        ≡ text_when encoding (option_map (λ t. t.now) before.entry) new
        (change_of (value_view value.now))) }
    ensures err { IfErr result (λ _. is_some
        (text_when encoding (option_map (λ t. t.now) before.entry) new
        (change_of (value_view value.now))) ≡ true) }
{
    match change_of(value) {
        Some(change) => change.applied(alloc, encoding, before, new),
        None => Ok(new),
    }
}

/// The text that was changed, if there is one.
fn text_of(edited: Option<Edited>) -> Option<Vec<u8>>
    ensures { option_map (λ t. t.items) result ≡ edited }
{
    match edited {
        Some(edited) => Some(edited.into_text()),
        None => None,
    }
}

/// The text that changes lead to, if they do: each is made in the one that those before it led to,
/// the first in the one that was there, if there was one. Only where there is such a text memory is
/// refused. The text that was there is copied once.
pub(crate) fn text_by(
    alloc: Global,
    encoding: Encoding,
    before: Option<&[u8]>,
    changes: &[Value<'_>],
) -> Result<Option<Vec<u8>>, AllocError>
    ensures ok { IfOk result (λ made. option_map (λ t. t.items) made
        ≡ text_by encoding (option_map (λ t. t.now) before.entry)
        (changes_among (items_view changes.now))) }
    ensures err { IfErr result (λ _. is_some
        (text_by encoding (option_map (λ t. t.now) before.entry)
        (changes_among (items_view changes.now))) ≡ true) }
{
    let mut new: Option<Edited> = None;
    'changes: for value in changes {
        let made = text_when(alloc, encoding, before, new, value)?;
        new = made;
    }
    Ok(text_of(new))
}
