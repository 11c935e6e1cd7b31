//! Edits of files, as the protocol names them.
ghost use Rattle.std.specs.Prelude.{◌≡◌};
ghost use Rattle.cb_wire.specs.Edits.{file_edit_text, text_if};
ghost use Rattle.cb_wire.specs.Texts.{part_text, parts_text};

use crate::{Element, Location, Part, parts_length, put_parts};
use cb_tags::{Sink, WriteFault};
use std::io::Write;

/// An edit among those of files, by file (`TextEdit`, in the `changes` of a `WorkspaceEdit`): where
/// it is, and the text that is put there. The first edit of a file opens the list of its file, and
/// the last one closes it.
#[derive(Clone, Copy, Debug)]
pub struct FileEdit<'a> {
    pub location: Location<'a>,
    pub new_text: &'a [u8],
    pub opens: bool,
    pub closes: bool,
}

/// A part, or nothing.
fn part_if<'a>(test: bool, part: Part<'a>) -> Part<'a>
    ensures { part_text result ≡ text_if test (part_text part.entry) }
{
    if test { part } else { Part::Raw(b"") }
}

impl<'a> FileEdit<'a> {
    /// The parts of its text.
    fn parts(&self) -> [Part<'a>; 9]
        ensures { parts_text result ≡ file_edit_text self.now }
    {
        [
            part_if(self.opens, Part::Raw(b"\"")),
            part_if(
                self.opens,
                Part::Uri(self.location.root, self.location.name),
            ),
            part_if(self.opens, Part::Raw(b"\":[")),
            Part::Raw(b"{\"range\":"),
            Part::Range(self.location.range),
            Part::Raw(b",\"newText\":\""),
            Part::Escaped(self.new_text),
            Part::Raw(b"\"}"),
            part_if(self.closes, Part::Raw(b"]")),
        ]
    }
}

impl Element for FileEdit<'_> {
    ghost text = { file_edit_text };

    fn put<W: Write>(&self, out: &mut Sink<W>) -> Result<(), WriteFault> {
        put_parts(out, &self.parts())
    }

    fn length(&self) -> u128 {
        parts_length(&self.parts())
    }
}
