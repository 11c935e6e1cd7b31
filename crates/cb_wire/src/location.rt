//! Where something stands, as the protocol names it.
ghost use Rattle.std.specs.Prelude.{◌≡◌};
ghost use Rattle.cb_wire.specs.Locations.{highlight_end, highlight_text, location_text};
ghost use Rattle.cb_wire.specs.Texts.{parts_text};

use crate::{Element, Part, Range, Root, parts_length, put_parts};
use cb_tags::{Sink, WriteFault};
use std::io::Write;

/// A range in the file of a name below a root.
#[derive(Clone, Copy, Debug)]
pub struct Location<'a> {
    pub root: &'a Root,
    pub name: &'a [u8],
    pub range: Range,
}

impl<'a> Location<'a> {
    /// The parts of its text.
    fn parts(&self) -> [Part<'a>; 5]
        ensures { parts_text result ≡ location_text self.now }
    {
        [
            Part::Raw(b"{\"uri\":\""),
            Part::Uri(self.root, self.name),
            Part::Raw(b"\",\"range\":"),
            Part::Range(self.range),
            Part::Raw(b"}"),
        ]
    }
}

impl Element for Location<'_> {
    ghost text = { location_text };

    fn put<W: Write>(&self, out: &mut Sink<W>) -> Result<(), WriteFault> {
        put_parts(out, &self.parts())
    }

    fn length(&self) -> u128 {
        parts_length(&self.parts())
    }
}

/// What is done with a name (`DocumentHighlightKind`): 1, 2 and 3.
#[derive(Clone, Copy, Debug, PartialEq, Eq)]
pub enum HighlightKind {
    /// It is named.
    Text,
    /// It is read.
    Read,
    /// It is written.
    Write,
}

/// How the text of a range that is marked ends.
fn highlight_end(kind: Option<HighlightKind>) -> &'static [u8]
    ensures { result.now ≡ highlight_end kind }
{
    match kind {
        None => b"}",
        Some(HighlightKind::Text) => b",\"kind\":1}",
        Some(HighlightKind::Read) => b",\"kind\":2}",
        Some(HighlightKind::Write) => b",\"kind\":3}",
    }
}

/// A range of the file that is asked about, which an editor marks (`DocumentHighlight`), and what
/// is done with the name there, if that is known.
#[derive(Clone, Copy, Debug)]
pub struct Highlight {
    pub range: Range,
    pub kind: Option<HighlightKind>,
}

impl Highlight {
    /// The parts of its text.
    fn parts(&self) -> [Part<'static>; 3]
        ensures { parts_text result ≡ highlight_text self.now }
    {
        [
            Part::Raw(b"{\"range\":"),
            Part::Range(self.range),
            Part::Raw(highlight_end(self.kind)),
        ]
    }
}

impl Element for Highlight {
    ghost text = { highlight_text };

    fn put<W: Write>(&self, out: &mut Sink<W>) -> Result<(), WriteFault> {
        put_parts(out, &self.parts())
    }

    fn length(&self) -> u128 {
        parts_length(&self.parts())
    }
}
