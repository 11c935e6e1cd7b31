//! A name that completes a word, as the protocol tells it.
ghost use Rattle.std.specs.Prelude.{◌∷◌, ◌≡◌, []};
ghost use Rattle.cb_wire.specs.Completions.{completion_text, rank_digit};
ghost use Rattle.cb_wire.specs.Texts.{parts_text};

use crate::{Element, Part, parts_length, put_parts};
use cb_tags::{Sink, WriteFault};
use std::io::Write;

/// Which names that complete a word an editor shows first.
#[derive(Clone, Copy, Debug, PartialEq, Eq)]
pub enum Rank {
    /// Those that are declared in the function.
    Local,
    /// All others.
    Session,
}

/// The digit with which the text begins that an editor sorts names by.
fn rank_digit(rank: Rank) -> &'static [u8]
    ensures { result.now ≡ rank_digit rank ∷ [] }
{
    match rank {
        Rank::Local => b"0",
        Rank::Session => b"1",
    }
}

/// A name that completes a word, the number of its kind (`CompletionItemKind`), and its rank.
#[derive(Clone, Copy, Debug)]
pub struct Completion<'a> {
    pub label: &'a [u8],
    pub kind: usize,
    pub rank: Rank,
}

impl<'a> Completion<'a> {
    /// The parts of its text.
    fn parts(&self) -> [Part<'a>; 8]
        ensures { parts_text result ≡ completion_text self.now }
    {
        let label = Part::Source(self.label);
        [
            Part::Raw(b"{\"label\":\""),
            label,
            Part::Raw(b"\",\"kind\":"),
            Part::Number(self.kind),
            Part::Raw(b",\"sortText\":\""),
            Part::Raw(rank_digit(self.rank)),
            label,
            Part::Raw(b"\"}"),
        ]
    }
}

impl Element for Completion<'_> {
    ghost text = { completion_text };

    fn put<W: Write>(&self, out: &mut Sink<W>) -> Result<(), WriteFault> {
        put_parts(out, &self.parts())
    }

    fn length(&self) -> u128 {
        parts_length(&self.parts())
    }
}
