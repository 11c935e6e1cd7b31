//! What is defined somewhere, as the protocol names it.
ghost use Rattle.std.specs.Prelude.{◌≡◌};
ghost use Rattle.cb_wire.specs.Symbols.{symbol_text, tree_symbol_text};
ghost use Rattle.cb_wire.specs.Texts.{parts_text};

use crate::{Element, Location, Part, Range, parts_length, put_parts};
use cb_tags::{Sink, WriteFault};
use std::io::Write;

/// A symbol of the flat form: its name, the number of its kind (`SymbolKind`), and where it is.
#[derive(Clone, Copy, Debug)]
pub struct Symbol<'a> {
    pub name: &'a [u8],
    pub kind: usize,
    pub location: Location<'a>,
}

impl<'a> Symbol<'a> {
    /// The parts of its text.
    fn parts(&self) -> [Part<'a>; 9]
        ensures { parts_text result ≡ symbol_text self.now }
    {
        [
            Part::Raw(b"{\"name\":\""),
            Part::Source(self.name),
            Part::Raw(b"\",\"kind\":"),
            Part::Number(self.kind),
            Part::Raw(b",\"location\":{\"uri\":\""),
            Part::Uri(self.location.root, self.location.name),
            Part::Raw(b"\",\"range\":"),
            Part::Range(self.location.range),
            Part::Raw(b"}}"),
        ]
    }
}

impl Element for Symbol<'_> {
    ghost text = { symbol_text };

    fn put<W: Write>(&self, out: &mut Sink<W>) -> Result<(), WriteFault> {
        put_parts(out, &self.parts())
    }

    fn length(&self) -> u128 {
        parts_length(&self.parts())
    }
}

/// A symbol of the tree form: its name, the number of its kind (`SymbolKind`), its line and the
/// range of its name. It has no children.
#[derive(Clone, Copy, Debug)]
pub struct TreeSymbol<'a> {
    pub name: &'a [u8],
    pub kind: usize,
    pub line: Range,
    pub range: Range,
}

impl<'a> TreeSymbol<'a> {
    /// The parts of its text.
    fn parts(&self) -> [Part<'a>; 9]
        ensures { parts_text result ≡ tree_symbol_text self.now }
    {
        [
            Part::Raw(b"{\"name\":\""),
            Part::Source(self.name),
            Part::Raw(b"\",\"kind\":"),
            Part::Number(self.kind),
            Part::Raw(b",\"range\":"),
            Part::Range(self.line),
            Part::Raw(b",\"selectionRange\":"),
            Part::Range(self.range),
            Part::Raw(b"}"),
        ]
    }
}

impl Element for TreeSymbol<'_> {
    ghost text = { tree_symbol_text };

    fn put<W: Write>(&self, out: &mut Sink<W>) -> Result<(), WriteFault> {
        put_parts(out, &self.parts())
    }

    fn length(&self) -> u128 {
        parts_length(&self.parts())
    }
}
