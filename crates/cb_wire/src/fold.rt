//! Lines that an editor folds, as the protocol tells them.
ghost use Rattle.std.specs.Prelude.{◌≡◌};
ghost use Rattle.cb_wire.specs.Folds.{fold_text};
ghost use Rattle.cb_wire.specs.Texts.{parts_text};

use crate::{Element, Part, parts_length, put_parts};
use cb_tags::{Sink, WriteFault};
use std::io::Write;

/// The first and the last of some lines, counted from 0, that an editor may fold (`FoldingRange`).
#[derive(Clone, Copy, Debug)]
pub struct Fold {
    pub first: usize,
    pub last: usize,
}

impl Fold {
    /// The parts of its text.
    fn parts(&self) -> [Part<'static>; 5]
        ensures { parts_text result ≡ fold_text self.now }
    {
        [
            Part::Raw(b"{\"startLine\":"),
            Part::Number(self.first),
            Part::Raw(b",\"endLine\":"),
            Part::Number(self.last),
            Part::Raw(b"}"),
        ]
    }
}

impl Element for Fold {
    ghost text = { fold_text };

    fn put<W: Write>(&self, out: &mut Sink<W>) -> Result<(), WriteFault> {
        put_parts(out, &self.parts())
    }

    fn length(&self) -> u128 {
        parts_length(&self.parts())
    }
}
