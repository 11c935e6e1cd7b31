//! What an editor gets of a name that means something in its function alone.
ghost use Rattle.std.specs.Prelude.{◌≡◌, ◌∷◌, [], MatchOption, map};
ghost use Rattle.cb_names.specs.declared.local.LocalUse.{LocalUse as Use};
ghost use Rattle.cb_tags.specs.Writing.{Puts};
ghost use Rattle.cb_wire.specs.Messages.{id_json};
ghost use Rattle.cb_wire.specs.Texts.{frame};
ghost use Rattle.cb_wire.specs.Trees.{result_reply};
ghost use Rattle.cb_wire.specs.Values.{value_text};
ghost use Rattle.cb_lsp.specs.Answers.{list_of, local_answer, local_hover, local_hover_at};
ghost use Rattle.cb_lsp.specs.Answers.{prepared_local};
ghost use Rattle.cb_lsp.specs.Locals.{definition_places, local_mark, mark_kind, token_place};
ghost use Rattle.cb_lsp.specs.Locals.{uses_wanted};
ghost use Rattle.cb_lsp.specs.steps.Elements.{local_marks_left, local_uses_left};
ghost use Rattle.cb_lsp.specs.steps.Located.{client_in};

use crate::answers::{FileAsked, put_hovers, put_list};
use crate::columns::Positions;
use crate::hover::Hover;
use crate::location::range_of;
use crate::question::PlaceQuestion;
use crate::written::put_null;
use cb_names::{Access, Local, LocalUse};
use cb_scan::Span;
use cb_tags::{Sink, WriteFault};
use cb_wire::{Elements, Highlight, HighlightKind, Id, Location, Root};
use std::io::Write;

/// What is done with a name, as an editor marks that.
fn mark_kind(access: Access) -> HighlightKind
    ensures { result ≡ mark_kind access }
{
    match access {
        Access::Named => HighlightKind::Text,
        Access::Read => HighlightKind::Read,
        Access::Written => HighlightKind::Write,
        Access::Address => HighlightKind::Write,
    }
}

/// The first of some uses that is wanted, and the uses behind it.
fn split_wanted<'l>(declarations: bool, uses: &'l [LocalUse]) -> Option<(LocalUse, &'l [LocalUse])>
    ensures { MatchOption result (uses_wanted declarations uses.now ≡ [])
        (λ r. uses_wanted declarations uses.now ≡ r.0 ∷ uses_wanted declarations r.1.now) }
{
    let mut rest = uses;
    'uses: while let Some((one, more)) = rest.split_first() {
        if declarations || !one.declares {
            return Some((*one, more));
        }
        rest = more;
    }
    None
}

/// Where the uses of a local in a file are, with those that declare it or without.
#[derive(Drop)]
pub(crate) struct LocalUses<'a, 'l> {
    pub(crate) root: &'a Root,
    pub(crate) file: &'a [u8],
    pub(crate) positions: Positions<'a>,
    pub(crate) declarations: bool,
    pub(crate) rest: &'l [LocalUse],
}

impl<'a, 'l> Elements for LocalUses<'a, 'l> {
    type Item = Location<'a>;

    ghost texts = { local_uses_left };

    fn again(&self) -> LocalUses<'a, 'l> {
        LocalUses {
            root: self.root,
            file: self.file,
            positions: Positions::new(self.positions.encoding(), self.positions.source()),
            declarations: self.declarations,
            rest: self.rest,
        }
    }

    fn next(&mut self) -> Option<Location<'a>> {
        let (one, rest) = split_wanted(self.declarations, self.rest)?;
        self.rest = rest;
        let range = self
            .positions
            .range(one.name.start as usize, one.name.end as usize);
        Some(Location {
            root: self.root,
            name: self.file,
            range,
        })
    }
}

/// The uses of a local in a file, which an editor marks.
#[derive(Drop)]
pub(crate) struct LocalMarks<'a, 'l> {
    pub(crate) positions: Positions<'a>,
    pub(crate) rest: &'l [LocalUse],
}

impl<'a, 'l> Elements for LocalMarks<'a, 'l> {
    type Item = Highlight;

    ghost texts = { local_marks_left };

    fn again(&self) -> LocalMarks<'a, 'l> {
        LocalMarks {
            positions: Positions::new(self.positions.encoding(), self.positions.source()),
            rest: self.rest,
        }
    }

    fn next(&mut self) -> Option<Highlight> {
        let (one, rest) = self.rest.split_first()?;
        self.rest = rest;
        let range = self
            .positions
            .range(one.name.start as usize, one.name.end as usize);
        Some(Highlight {
            range,
            kind: Some(mark_kind(one.access)),
        })
    }
}

impl<'a> FileAsked<'a> {
    /// Writes where a local is defined.
    fn put_local_definition<W: Write>(
        &self,
        out: &mut Sink<W>,
        id: Id<'_>,
        definition: Option<Span>,
    ) -> Result<(), WriteFault>
        ensures { Puts out.old out.new result (frame (value_text (result_reply (id_json id.entry)
            (list_of (definition_places self.now.forms.root.now self.now.forms.encoding
            self.now.name.now self.now.source.now definition))))) }
    {
        match definition {
            Some(span) => {
                let place = Location {
                    root: self.forms.root,
                    name: self.name,
                    range: range_of(self.forms, self.source, span),
                };
                put_list(out, id, [place].as_slice())
            }
            None => {
                let none: &[Location<'a>] = &[];
                put_list(out, id, none)
            }
        }
    }

    /// Writes the line on which a local is defined, for a word.
    fn put_local_hover<W: Write>(
        &self,
        out: &mut Sink<W>,
        id: Id<'_>,
        word: Span,
        definition: Option<Span>,
    ) -> Result<(), WriteFault>
        ensures { Puts out.old out.new result (frame (value_text (result_reply (id_json id.entry)
            (local_hover (client_in self.now.forms) self.now.name.now self.now.source.now word
            definition)))) }
    {
        match definition {
            Some(span) => {
                let line = Hover::at_place(self.name, self.source, span.start);
                let range = range_of(self.forms, self.source, word);
                put_hovers(out, id, [line].as_slice(), range)
            }
            None => put_null(out, id),
        }
    }

    /// The same for a word, if there is one.
    fn put_local_hover_at<W: Write>(
        &self,
        out: &mut Sink<W>,
        id: Id<'_>,
        word: Option<Span>,
        definition: Option<Span>,
    ) -> Result<(), WriteFault>
        ensures { Puts out.old out.new result (frame (value_text (result_reply (id_json id.entry)
            (local_hover_at (client_in self.now.forms) self.now.name.now self.now.source.now word
            definition)))) }
    {
        match word {
            Some(word) => self.put_local_hover(out, id, word, definition),
            None => put_null(out, id),
        }
    }

    /// Writes the uses of a local, which an editor marks.
    fn put_local_marks<W: Write>(
        &self,
        out: &mut Sink<W>,
        id: Id<'_>,
        uses: &[LocalUse],
    ) -> Result<(), WriteFault>
        ensures { Puts out.old out.new result (frame (value_text (result_reply (id_json id.entry)
            (list_of (map (local_mark self.now.forms.encoding self.now.source.now)
            uses.now))))) }
    {
        let positions = Positions::new(self.forms.encoding, self.source);
        put_list(
            out,
            id,
            LocalMarks {
                positions,
                rest: uses,
            },
        )
    }

    /// Writes where the uses of a local are.
    fn put_local_uses<W: Write>(
        &self,
        out: &mut Sink<W>,
        id: Id<'_>,
        uses: &[LocalUse],
        declarations: bool,
    ) -> Result<(), WriteFault>
        ensures { Puts out.old out.new result (frame (value_text (result_reply (id_json id.entry)
            (list_of (map (λ (u : Use). token_place self.now.forms.root.now
            self.now.forms.encoding self.now.name.now self.now.source.now u.name)
            (uses_wanted declarations uses.now)))))) }
    {
        let positions = Positions::new(self.forms.encoding, self.source);
        put_list(
            out,
            id,
            LocalUses {
                root: self.forms.root,
                file: self.name,
                positions,
                declarations,
                rest: uses,
            },
        )
    }

    /// Writes the range of a word whose local is renamed: one with a definition.
    fn put_local_prepared<W: Write>(
        &self,
        out: &mut Sink<W>,
        id: Id<'_>,
        word: Option<Span>,
        definition: Option<Span>,
    ) -> Result<(), WriteFault>
        ensures { Puts out.old out.new result (frame (value_text (result_reply (id_json id.entry)
            (prepared_local (client_in self.now.forms) self.now.source.now word definition)))) }
    {
        match definition {
            Some(_) => self.put_prepared(out, id, word),
            None => put_null(out, id),
        }
    }

    /// Answers a question about a name that means something in its function alone, and about the
    /// word there.
    pub(crate) fn put_about_local<W: Write>(
        &self,
        out: &mut Sink<W>,
        id: Id<'_>,
        own: &Local,
        word: Option<Span>,
        question: PlaceQuestion,
    ) -> Result<(), WriteFault>
        ensures { Puts out.old out.new result (frame (value_text (result_reply (id_json id.entry)
            (local_answer (client_in self.now.forms) self.now.name.now self.now.source.now
            own.now word question)))) }
    {
        match question {
            PlaceQuestion::Definition => self.put_local_definition(out, id, own.definition()),
            PlaceQuestion::Declaration => self.put_local_definition(out, id, own.definition()),
            PlaceQuestion::Hover => self.put_local_hover_at(out, id, word, own.definition()),
            PlaceQuestion::Highlights => self.put_local_marks(out, id, own.uses()),
            PlaceQuestion::References(declarations) => {
                self.put_local_uses(out, id, own.uses(), declarations)
            }
            PlaceQuestion::PrepareRename => self.put_local_prepared(
                out,
                id,
                word,
                own.definition(),
            ),
            PlaceQuestion::Callables => put_null(out, id),
        }
    }
}
