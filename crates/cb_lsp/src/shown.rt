//! What is shown of a word of a file: where its definitions are, a hover, and the functions and
//! macros among them.
ghost use Rattle.std.specs.Prelude.{◌≡◌, Bool, IfOk, false, map};
ghost use Rattle.cb_tags.specs.TagLines.{tag_of};
ghost use Rattle.cb_tags.specs.Writing.{Puts};
ghost use Rattle.cb_wire.specs.Messages.{id_json};
ghost use Rattle.cb_wire.specs.Texts.{frame};
ghost use Rattle.cb_wire.specs.Trees.{result_reply};
ghost use Rattle.cb_wire.specs.Values.{value_text};
ghost use Rattle.cb_lsp.specs.Answers.{callables_at, hover_at, hover_over, list_of, places_of_word};
ghost use Rattle.cb_lsp.specs.Answers.{some_of};
ghost use Rattle.cb_lsp.specs.Calls.{callables, item_of};
ghost use Rattle.cb_lsp.specs.Messages.{result_unless};
ghost use Rattle.cb_lsp.specs.Symbols.{place_of};
ghost use Rattle.cb_lsp.specs.WordUses.{word_shown};
ghost use Rattle.cb_lsp.specs.steps.Located.{client_in};

use crate::answers::{FileAsked, put_hovers, put_list};
use crate::calls::CallItems;
use crate::hover::Hovers;
use crate::location::{Located, range_of};
use crate::nearest::Viewer;
use crate::place::bytes_of;
use crate::symbols::Places;
use crate::written::{put_null, put_refusal};
use cb_names::Space;
use cb_scan::Span;
use cb_tags::{Sink, TagRow, WriteFault};
use cb_wire::Id;
use std::alloc::AllocError;
use std::io::Write;

impl<'a> FileAsked<'a> {
    /// The definitions that are shown of a word of the file, where its name has this space:
    /// declarations first, or not.
    pub(crate) fn shown(
        &self,
        word: Span,
        space: Option<Space>,
        declarations: bool,
    ) -> Result<Vec<TagRow<'a>>, AllocError>
        ensures { IfOk result (λ found. map tag_of found.items ≡ word_shown
            self.now.desk.now.timeline.present self.now.name.now self.now.source.now space
            declarations word) }
    {
        let rows = self.desk.definitions(bytes_of(self.source, word));
        let mut viewer = Viewer::new(self.desk, self.name);
        viewer.shown(self.alloc, rows, space, declarations)
    }

    /// Writes where some definitions are.
    fn put_rows<W: Write>(
        &self,
        out: &mut Sink<W>,
        id: Id<'_>,
        rows: &[TagRow<'a>],
    ) -> Result<(), WriteFault>
        ensures { Puts out.old out.new result (frame (value_text (result_reply (id_json id.entry)
            (list_of (map (place_of (client_in self.now.forms)
            self.now.desk.now.timeline.present.files) (map tag_of rows.now)))))) }
    {
        put_list(
            out,
            id,
            Places {
                places: Located::new(self.forms, self.desk),
                rest: rows,
            },
        )
    }

    /// Writes where the definitions that are shown of a word are.
    pub(crate) fn put_places<W: Write>(
        &self,
        out: &mut Sink<W>,
        id: Id<'_>,
        word: Option<Span>,
        space: Option<Space>,
        declarations: bool,
    ) -> Result<(), WriteFault>
        ensures { (no_memory : Bool) × Puts out.old out.new result (frame (value_text
            (result_unless no_memory (id_json id.entry) (places_of_word
            (client_in self.now.forms) self.now.desk.now.timeline.present self.now.name.now
            self.now.source.now space declarations word)))) }
    {
        let Some(word) = word else {
            return self.put_rows(out, id, &[]);
        };
        match self.shown(word, space, declarations) {
            Ok(rows) => self.put_rows(out, id, rows.as_slice()),
            Err(_) => put_refusal(out, id),
        }
    }

    /// Writes some definitions as a hover shows them over a word.
    fn put_hover_rows<W: Write>(
        &self,
        out: &mut Sink<W>,
        id: Id<'_>,
        word: Span,
        rows: &[TagRow<'a>],
    ) -> Result<(), WriteFault>
        ensures { Puts out.old out.new result (frame (value_text (result_reply (id_json id.entry)
            (hover_over (client_in self.now.forms) self.now.source.now word
            (map tag_of rows.now))))) }
    {
        if rows.is_empty() {
            return put_null(out, id);
        }
        let range = range_of(self.forms, self.source, word);
        put_hovers(out, id, Hovers { rest: rows }, range)
    }

    /// Writes what stands at a place.
    pub(crate) fn put_hover<W: Write>(
        &self,
        out: &mut Sink<W>,
        id: Id<'_>,
        word: Option<Span>,
        space: Option<Space>,
    ) -> Result<(), WriteFault>
        ensures { (no_memory : Bool) × Puts out.old out.new result (frame (value_text
            (result_unless no_memory (id_json id.entry) (hover_at (client_in self.now.forms)
            self.now.desk.now.timeline.present self.now.name.now self.now.source.now space
            word)))) }
    {
        let Some(word) = word else {
            return put_null(out, id);
        };
        match self.shown(word, space, false) {
            Ok(rows) => self.put_hover_rows(out, id, word, rows.as_slice()),
            Err(_) => put_refusal(out, id),
        }
    }

    /// Writes some functions and macros.
    fn put_callable_rows<W: Write>(
        &self,
        out: &mut Sink<W>,
        id: Id<'_>,
        rows: &[TagRow<'a>],
    ) -> Result<(), WriteFault>
        ensures { Puts out.old out.new result (frame (value_text (result_reply (id_json id.entry)
            (some_of (map (item_of (client_in self.now.forms)
            self.now.desk.now.timeline.present.files) (map tag_of rows.now)))))) }
    {
        if rows.is_empty() {
            return put_null(out, id);
        }
        put_list(
            out,
            id,
            CallItems {
                places: Located::new(self.forms, self.desk),
                rest: rows,
            },
        )
    }

    /// The functions and macros that are shown of a word.
    fn callables(&self, word: Span, space: Option<Space>) -> Result<Vec<TagRow<'a>>, AllocError>
        ensures { IfOk result (λ found. map tag_of found.items ≡ callables (word_shown
            self.now.desk.now.timeline.present self.now.name.now self.now.source.now space false
            word)) }
    {
        let rows = self.desk.definitions(bytes_of(self.source, word));
        let mut viewer = Viewer::new(self.desk, self.name);
        viewer.callables(self.alloc, rows, space)
    }

    /// Writes the functions and macros that stand at a place.
    pub(crate) fn put_callables_at<W: Write>(
        &self,
        out: &mut Sink<W>,
        id: Id<'_>,
        word: Option<Span>,
        space: Option<Space>,
    ) -> Result<(), WriteFault>
        ensures { (no_memory : Bool) × Puts out.old out.new result (frame (value_text
            (result_unless no_memory (id_json id.entry) (callables_at
            (client_in self.now.forms) self.now.desk.now.timeline.present self.now.name.now
            self.now.source.now space word)))) }
    {
        let Some(word) = word else {
            return put_null(out, id);
        };
        match self.callables(word, space) {
            Ok(rows) => self.put_callable_rows(out, id, rows.as_slice()),
            Err(_) => put_refusal(out, id),
        }
    }
}
