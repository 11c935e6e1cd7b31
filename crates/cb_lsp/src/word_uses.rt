//! The uses of a word that name the same: where they are, and what an editor marks.
ghost use Rattle.std.specs.Prelude.{◌≡◌, Bool, IfOk, map};
ghost use Rattle.cb_index.specs.steps.Left.{fact_of_spot};
ghost use Rattle.cb_tags.specs.TagLines.{tag_of};
ghost use Rattle.cb_tags.specs.Writing.{Puts};
ghost use Rattle.cb_wire.specs.Messages.{id_json};
ghost use Rattle.cb_wire.specs.Texts.{frame};
ghost use Rattle.cb_wire.specs.Trees.{result_reply};
ghost use Rattle.cb_wire.specs.Values.{value_text};
ghost use Rattle.cb_lsp.specs.Answers.{highlights_of, list_of, references_of_word};
ghost use Rattle.cb_lsp.specs.Highlights.{highlight};
ghost use Rattle.cb_lsp.specs.Messages.{result_unless};
ghost use Rattle.cb_lsp.specs.Same.{begins_macro};
ghost use Rattle.cb_lsp.specs.Symbols.{place_of_use};
ghost use Rattle.cb_lsp.specs.WordUses.{references_in, word_marks, word_references, word_sort};
ghost use Rattle.cb_lsp.specs.steps.Located.{client_in};
ghost use Rattle.cb_lsp.specs.steps.References.{UsesAreByPlace};

use crate::answers::{FileAsked, put_gathered, put_list};
use crate::columns::Positions;
use crate::highlights::Highlights;
use crate::location::Located;
use crate::place::bytes_of;
use crate::references::References;
use crate::same::{Sort, same_in, same_uses, sort_in};
use crate::spots::{Spots, UsePlaces};
use crate::written::put_refusal;
use cb_index::FactSpot;
use cb_names::Space;
use cb_scan::{Kind, Span, Use};
use cb_tags::{Sink, TagRow, WriteFault};
use cb_wire::Id;
use std::alloc::AllocError;
use std::io::Write;

/// Whether the first of some definitions is that of a macro.
fn begins_macro(rows: &[TagRow<'_>]) -> bool
    ensures { result ≡ begins_macro (map tag_of rows.now) }
{
    match rows {
        [row, ..] => matches!(row.kind, Kind::Macro),
        [] => false,
    }
}

impl<'a> FileAsked<'a> {
    /// What is asked about a word of the file, whose name has this space.
    pub(crate) fn sort(&self, word: Span, space: Option<Space>) -> Result<Sort, AllocError>
        ensures { IfOk result (λ sort. sort ≡ word_sort self.now.desk.now.timeline.present
            self.now.name.now self.now.source.now space word) }
    {
        let Some(one) = space else {
            return Ok(Sort::All);
        };
        let rows = self.shown(word, space, false)?;
        if begins_macro(rows.as_slice()) {
            Ok(Sort::All)
        } else {
            Ok(sort_in(one))
        }
    }

    /// The uses of its name in its reach that are of a sort.
    pub(crate) fn uses_of_sort(
        &self,
        sort: Sort,
        word: Span,
        declarations: bool,
    ) -> Result<Vec<FactSpot<'a>>, AllocError>
        ensures uses { IfOk result (λ found. map fact_of_spot found.items
            ≡ references_in self.now.desk.now.timeline.present self.now.name.now
            self.now.source.now sort word declarations) }
        ensures order { IfOk result (λ found. UsesAreByPlace (map fact_of_spot found.items)) }
    {
        let _files = self.desk.files();
        let name = bytes_of(self.source, word);
        let uses = References::new(
            self.desk.uses(name),
            self.desk.definitions(name),
            self.name,
            declarations,
        );
        match same_uses(self.alloc, self.desk, sort, name, uses) {
            Ok(found) => Ok(found),
            Err(error) => Err(error),
        }
    }

    /// Those that name the same as the word.
    fn references(
        &self,
        word: Span,
        space: Option<Space>,
        declarations: bool,
    ) -> Result<Vec<FactSpot<'a>>, AllocError>
        ensures { IfOk result (λ found. map fact_of_spot found.items
            ≡ word_references self.now.desk.now.timeline.present self.now.name.now
            self.now.source.now space word declarations) }
    {
        let sort = self.sort(word, space)?;
        match self.uses_of_sort(sort, word, declarations) {
            Ok(found) => Ok(found),
            Err(error) => Err(error),
        }
    }

    /// Writes where some uses are.
    fn put_spots<W: Write>(
        &self,
        out: &mut Sink<W>,
        id: Id<'_>,
        spots: &[FactSpot<'a>],
    ) -> Result<(), WriteFault>
        ensures { Puts out.old out.new result (frame (value_text (result_reply (id_json id.entry)
            (list_of (map (place_of_use (client_in self.now.forms)
            self.now.desk.now.timeline.present.files) (map fact_of_spot spots.now)))))) }
    {
        put_gathered(
            self.alloc,
            out,
            id,
            UsePlaces {
                places: Located::new(self.forms, self.desk),
                rest: Spots { rest: spots },
            },
        )
    }

    /// Writes where the uses of a word in its reach are.
    pub(crate) fn put_references<W: Write>(
        &self,
        out: &mut Sink<W>,
        id: Id<'_>,
        word: Option<Span>,
        space: Option<Space>,
        declarations: bool,
    ) -> Result<(), WriteFault>
        ensures { (no_memory : Bool) × Puts out.old out.new result (frame (value_text
            (result_unless no_memory (id_json id.entry) (references_of_word
            (client_in self.now.forms) self.now.desk.now.timeline.present self.now.name.now
            self.now.source.now space declarations word)))) }
    {
        let Some(word) = word else {
            return self.put_spots(out, id, &[]);
        };
        match self.references(word, space, declarations) {
            Ok(spots) => self.put_spots(out, id, spots.as_slice()),
            Err(_) => put_refusal(out, id),
        }
    }

    /// The uses of a word in the file that name the same.
    fn marks(&self, word: Span, space: Option<Space>) -> Result<Vec<Use>, AllocError>
        ensures { IfOk result (λ found. found.items
            ≡ word_marks self.now.desk.now.timeline.present self.now.name.now
            self.now.source.now self.now.facts.now space word) }
    {
        let sort = self.sort(word, space)?;
        let name = bytes_of(self.source, word);
        same_in(self.alloc, sort, self.source, self.facts, name)
    }

    /// Writes some uses of the file, as ranges that are marked.
    fn put_marks<W: Write>(
        &self,
        out: &mut Sink<W>,
        id: Id<'_>,
        uses: &[Use],
    ) -> Result<(), WriteFault>
        ensures { Puts out.old out.new result (frame (value_text (result_reply (id_json id.entry)
            (list_of (map (highlight self.now.forms.encoding self.now.source.now)
            uses.now))))) }
    {
        put_list(
            out,
            id,
            Highlights {
                positions: Positions::new(self.forms.encoding, self.source),
                rest: uses,
            },
        )
    }

    /// Writes the uses of a word in the file.
    pub(crate) fn put_highlights<W: Write>(
        &self,
        out: &mut Sink<W>,
        id: Id<'_>,
        word: Option<Span>,
        space: Option<Space>,
    ) -> Result<(), WriteFault>
        ensures { (no_memory : Bool) × Puts out.old out.new result (frame (value_text
            (result_unless no_memory (id_json id.entry) (highlights_of self.now.forms.encoding
            self.now.desk.now.timeline.present self.now.name.now self.now.source.now
            self.now.facts.now space word)))) }
    {
        let Some(word) = word else {
            return self.put_marks(out, id, &[]);
        };
        match self.marks(word, space) {
            Ok(uses) => self.put_marks(out, id, uses.as_slice()),
            Err(_) => put_refusal(out, id),
        }
    }
}
