//! The answers to questions, as replies.
ghost use Rattle.std.specs.Prelude.{◌≡◌, ◌≤◌, ◌++◌, ℕ, Bool, MatchOption, List, [], Some, false};
ghost use Rattle.std.specs.Prelude.{IfOk, length, map, take, true};
ghost use Rattle.std.specs.List.{list_any};
ghost use Rattle.json.specs.Json.{Json, array};
ghost use Rattle.json.specs.Print.{escape};
ghost use Rattle.cb_desk.specs.World.{has_file};
ghost use Rattle.cb_index.specs.Rows.{tags_named};
ghost use Rattle.cb_index.specs.steps.Left.{tag_of_spot};
ghost use Rattle.cb_names.specs.Meanings.{local_at};
ghost use Rattle.cb_scan.specs.Profiles.{facts_in};
ghost use Rattle.cb_scan.specs.lex.Tokens.{bytes_of};
ghost use Rattle.cb_tags.specs.Writing.{Puts};
ghost use Rattle.cb_wire.specs.Completions.{completion_list, completions_front};
ghost use Rattle.cb_wire.specs.Messages.{id_json};
ghost use Rattle.cb_wire.specs.Positions.{place};
ghost use Rattle.cb_wire.specs.Texts.{frame};
ghost use Rattle.cb_wire.specs.Trees.{result_reply};
ghost use Rattle.cb_wire.specs.Values.{items_of, value_text};
ghost use Rattle.cb_wire.specs.declared.list.TheConstants.{MOST_ELEMENTS};
ghost use Rattle.cb_lsp.specs.Answers.{answer_in, header_asked};
ghost use Rattle.cb_lsp.specs.Answers.{list_of, name_answer};
ghost use Rattle.cb_lsp.specs.Answers.{named_answer, place_answer, space_asked, word_answer};
ghost use Rattle.cb_lsp.specs.Completions.{completing, completions_at, completions_of, own_names};
ghost use Rattle.cb_lsp.specs.WordSpaces.{is_member_at, space_there, space_told};
ghost use Rattle.cb_lsp.specs.Headers.{folder_of, header_files};
ghost use Rattle.cb_lsp.specs.Hovers.{hover_of, hover_shown};
ghost use Rattle.cb_lsp.specs.Messages.{result_unless};
ghost use Rattle.cb_lsp.specs.Parameters.{parameter_there};
ghost use Rattle.cb_lsp.specs.Renames.{if_renamable, is_at, is_some_tag, prepared};
ghost use Rattle.cb_lsp.specs.Searches.{found_by};
ghost use Rattle.cb_lsp.specs.Symbols.{file_place, file_symbol, session_symbol};
ghost use Rattle.cb_lsp.specs.Words.{word_at};
ghost use Rattle.cb_lsp.specs.steps.Completions.{completions_left};
ghost use Rattle.cb_lsp.specs.steps.Located.{client_in};
ghost use Rattle.cb_lsp.specs.declared.symbols.TheConstants.{MOST_SYMBOLS};

use crate::columns::Positions;
use crate::completion::{Completions, MOST_COMPLETIONS};
use crate::header::{folder_of, header_at, is_in_folder, without_dots};
use crate::hover::MOST_HOVERS;
use crate::location::{Forms, Located, range_of};
use crate::place::bytes_of;
use crate::question::{FileQuestion, PlaceQuestion};
use crate::symbols::{
    FileDefs, FlatSymbols, HeaderFiles, MOST_SYMBOLS, OneFile, SessionSymbols, TreeSymbols,
    keep_like, next_like,
};
use crate::visible::own_names;
use crate::word::{word_at, word_before, word_start};
use crate::written::{put_null, put_refusal};
use cb_desk::{Desk, Format};
use cb_index::TagSpot;
use cb_names::{Code, Space, directive_space};
use cb_scan::{Def, Facts, Kind, Source, Span};
use cb_tags::{Sink, WriteFault};
use cb_wire::{
    Elements, Id, MOST_ELEMENTS, Part, Position, Range, list_in_memory, place_of_position,
    put_list_result, put_range_result, put_result,
};
use std::alloc::{AllocError, Global};
use std::io::Write;

/// A file that is asked about, what scanning it gives, and what the client takes.
#[derive(Clone, Copy)]
pub(crate) struct FileAsked<'a> {
    pub(crate) alloc: Global,
    pub(crate) forms: Forms<'a>,
    pub(crate) desk: &'a Desk,
    pub(crate) name: &'a [u8],
    pub(crate) source: &'a Source,
    pub(crate) facts: &'a Facts,
}

/// Whether a definition is that of a member with the name that a word is.
fn is_member_at(word: Span, def: &Def) -> bool
    ensures { result ≡ is_member_at word def.now }
{
    matches!(def.kind, Kind::Member) && def.name.start == word.start && def.name.end == word.end
}

/// Writes a reply whose result is the first of some elements.
fn put_first<W: Write, I: Elements>(
    out: &mut Sink<W>,
    id: Id<'_>,
    most: usize,
    elements: I,
) -> Result<(), WriteFault>
    requires { most ≤ MOST_ELEMENTS }
    ensures { (js : List Json) → I.texts elements ≡ map value_text js
        → Puts out.old out.new result
        (frame (value_text (result_reply (id_json id.entry) (array (items_of (take most js)))))) }
{
    put_list_result(out, id, b"[", b",", &[Part::Raw(b"]")], most, elements)
}

/// Writes a reply whose result is a list.
pub(crate) fn put_list<W: Write, I: Elements>(
    out: &mut Sink<W>,
    id: Id<'_>,
    elements: I,
) -> Result<(), WriteFault>
    ensures { (js : List Json) → I.texts elements ≡ map value_text js
        → Puts out.old out.new result
        (frame (value_text (result_reply (id_json id.entry) (list_of js)))) }
{
    put_first(out, id, MOST_ELEMENTS, elements)
}

/// Writes a reply whose result is a list. Its length stands before it; so the list is made in
/// memory, and where that is refused its elements are found twice: counted, and then written.
pub(crate) fn put_gathered<W: Write, I: Elements>(
    alloc: Global,
    out: &mut Sink<W>,
    id: Id<'_>,
    elements: I,
) -> Result<(), WriteFault>
    ensures { (js : List Json) → I.texts elements ≡ map value_text js
        → Puts out.old out.new result
        (frame (value_text (result_reply (id_json id.entry) (list_of js)))) }
{
    let tail = [Part::Raw(b"]")];
    match list_in_memory(alloc, b"[", b",", &tail, MOST_ELEMENTS, elements.again()) {
        Ok(list) => put_result(out, id, list.as_slice()),
        Err(_) => put_list(out, id, elements),
    }
}

/// Writes a reply that shows the first of some texts, for what stands at a range.
pub(crate) fn put_hovers<W: Write, I: Elements>(
    out: &mut Sink<W>,
    id: Id<'_>,
    hovers: I,
    range: Range,
) -> Result<(), WriteFault>
    ensures { (ts : List (List ℕ)) → I.texts hovers ≡ map escape ts
        → Puts out.old out.new result (frame (value_text (result_reply (id_json id.entry)
        (hover_of (hover_shown ts) range)))) }
{
    put_list_result(
        out,
        id,
        b"{\"contents\":{\"kind\":\"plaintext\",\"value\":\"",
        b"\\n\\n",
        &[
            Part::Raw(b"\"},\"range\":"),
            Part::Range(range),
            Part::Raw(b"}"),
        ],
        MOST_HOVERS,
        hovers,
    )
}

/// Writes that no name completes the empty word yet.
fn put_no_names<W: Write>(out: &mut Sink<W>, id: Id<'_>) -> Result<(), WriteFault>
    ensures { Puts out.old out.new result (frame (value_text (result_reply (id_json id.entry)
        (completion_list true [])))) }
{
    put_result(out, id, b"{\"isIncomplete\":true,\"items\":[]}")
}

/// How the list of names that complete a word begins.
fn names_head(more: bool) -> &'static [u8]
    ensures { result.now ≡ completions_front more }
{
    if more {
        b"{\"isIncomplete\":true,\"items\":["
    } else {
        b"{\"isIncomplete\":false,\"items\":["
    }
}

/// Writes names that complete a word.
fn put_names<W: Write>(
    out: &mut Sink<W>,
    id: Id<'_>,
    names: Completions<'_, '_>,
) -> Result<(), WriteFault>
    ensures { Puts out.old out.new result (frame (value_text (result_reply (id_json id.entry)
        (completions_of (completions_left names.entry))))) }
{
    let head = names_head(names.are_more());
    let tail = [Part::Raw(b"]}")];
    put_list_result(out, id, head, b",", &tail, MOST_COMPLETIONS, names)
}

impl<'a> FileAsked<'a> {
    /// The place of a position.
    pub(crate) fn place(&self, position: Position) -> u32
        ensures value { result ≡ place self.now.forms.encoding self.now.source.now position }
        ensures within { result ≤ length self.now.source.now }
    {
        place_of_position(self.forms.encoding, self.source.bytes(), position) as u32
    }

    /// Writes the symbols of the file.
    fn put_symbols<W: Write>(&self, out: &mut Sink<W>, id: Id<'_>) -> Result<(), WriteFault>
        ensures { Puts out.old out.new result (frame (value_text (result_reply (id_json id.entry)
            (list_of (map (file_symbol (client_in self.now.forms) self.now.name.now
            self.now.source.now) self.now.facts.now.defs))))) }
    {
        let defs = FileDefs {
            root: self.forms.root,
            file: self.name,
            positions: Positions::new(self.forms.encoding, self.source),
            rest: self.facts.defs(),
        };
        if self.forms.tree {
            put_list(out, id, TreeSymbols { defs })
        } else {
            put_list(out, id, FlatSymbols { defs })
        }
    }

    /// The file of a header in the folder of this file, if it is there.
    fn beside(&self, header: &[u8]) -> Option<&'a [u8]>
        ensures { MatchOption result (has_file self.now.desk.now.timeline.present.files
            (folder_of self.now.name.now ++ header.now) ≡ false)
            (λ name. (has_file self.now.desk.now.timeline.present.files
            (folder_of self.now.name.now ++ header.now) ≡ true)
            × (name.now ≡ folder_of self.now.name.now ++ header.now)) }
    {
        let folder = folder_of(self.name);
        let mut files = self.desk.files();
        'files: while let Some((name, _)) = files.next() {
            if is_in_folder(folder, header, name) {
                return Some(name);
            }
        }
        None
    }

    /// Writes the files that a header means.
    fn put_header<W: Write>(
        &self,
        out: &mut Sink<W>,
        id: Id<'_>,
        header: &[u8],
    ) -> Result<(), WriteFault>
        ensures { Puts out.old out.new result (frame (value_text (result_reply (id_json id.entry)
            (list_of (map (file_place (client_in self.now.forms))
            (header_files self.now.desk.now.timeline.present.files self.now.name.now
            header.now)))))) }
    {
        match self.beside(header) {
            Some(name) => put_list(
                out,
                id,
                OneFile {
                    forms: self.forms,
                    rest: Some(name),
                },
            ),
            None => put_list(
                out,
                id,
                HeaderFiles {
                    forms: self.forms,
                    header: without_dots(header),
                    rest: self.desk.files(),
                },
            ),
        }
    }

    /// Whether exactly a word of the file is a use.
    fn is_use(&self, word: Span) -> bool
        ensures { result ≡ list_any (is_at word) self.now.facts.now.uses }
    {
        self.facts.uses().iter().any(|one| one.name.start == word.start && one.name.end == word.end)
    }

    /// Whether the name of a word of the file has a definition.
    fn is_defined(&self, word: Span) -> bool
        ensures { result ≡ is_some_tag (tags_named self.now.desk.now.timeline.present.profile
            (bytes_of self.now.source.now word) self.now.desk.now.timeline.present.files) }
    {
        let mut definitions = self.desk.definitions(bytes_of(self.source, word));
        match definitions.next() {
            Some(_) => true,
            None => false,
        }
    }

    /// A word of the file, if it may be renamed.
    fn if_renamable(&self, word: Span) -> Option<Span>
        requires { self.now.facts.now
            ≡ facts_in self.now.desk.now.timeline.present.profile self.now.source.now }
        ensures { result ≡ if_renamable self.now.desk.now.timeline.present self.now.source.now
            (Some word) }
    {
        if self.is_use(word) && self.is_defined(word) {
            Some(word)
        } else {
            None
        }
    }

    /// The word of the file, if it may be renamed.
    pub(crate) fn renamable(&self, word: Option<Span>) -> Option<Span>
        requires { self.now.facts.now
            ≡ facts_in self.now.desk.now.timeline.present.profile self.now.source.now }
        ensures { result ≡ if_renamable self.now.desk.now.timeline.present self.now.source.now
            word }
    {
        match word {
            Some(word) => self.if_renamable(word),
            None => None,
        }
    }

    /// Writes the range of a word of the file.
    pub(crate) fn put_prepared<W: Write>(
        &self,
        out: &mut Sink<W>,
        id: Id<'_>,
        word: Option<Span>,
    ) -> Result<(), WriteFault>
        ensures { Puts out.old out.new result (frame (value_text (result_reply (id_json id.entry)
            (prepared (client_in self.now.forms) self.now.source.now word)))) }
    {
        match word {
            Some(word) => put_range_result(out, id, range_of(self.forms, self.source, word)),
            None => put_null(out, id),
        }
    }

    /// Writes the names that complete a word which begins at a place.
    fn put_completing<W: Write>(
        &self,
        out: &mut Sink<W>,
        id: Id<'_>,
        start: u32,
        word: &'a [u8],
    ) -> Result<(), WriteFault>
        ensures { (no_memory : Bool) × Puts out.old out.new result (frame (value_text
            (result_unless no_memory (id_json id.entry) (completions_of (completing
            self.now.desk.now.timeline.present (own_names self.now.source.now start word.entry.now)
            word.entry.now))))) }
    {
        match own_names(self.alloc, self.source, start, word) {
            Ok(own) => put_names(out, id, Completions::new(self.desk, &own, word)),
            Err(_) => put_refusal(out, id),
        }
    }

    /// Writes the names that complete the word before a place.
    fn put_completions<W: Write>(
        &self,
        out: &mut Sink<W>,
        id: Id<'_>,
        place: usize,
    ) -> Result<(), WriteFault>
        requires { place ≤ length self.now.source.now }
        ensures { (no_memory : Bool) × Puts out.old out.new result (frame (value_text
            (result_unless no_memory (id_json id.entry) (completions_at
            self.now.desk.now.timeline.present self.now.source.now place)))) }
    {
        let word = word_before(self.source, place);
        match word {
            [] => put_no_names(out, id),
            [_, ..] => self.put_completing(out, id, word_start(self.source, place), word),
        }
    }

    /// Answers a question about a word of the file, whose name has this space.
    fn put_about_word<W: Write>(
        &self,
        out: &mut Sink<W>,
        id: Id<'_>,
        word: Option<Span>,
        space: Option<Space>,
        question: PlaceQuestion,
    ) -> Result<(), WriteFault>
        requires { self.now.facts.now
            ≡ facts_in self.now.desk.now.timeline.present.profile self.now.source.now }
        ensures { (no_memory : Bool) × Puts out.old out.new result (frame (value_text
            (result_unless no_memory (id_json id.entry) (word_answer (client_in self.now.forms)
            self.now.desk.now.timeline.present self.now.name.now self.now.source.now space word
            question)))) }
    {
        match question {
            PlaceQuestion::Definition => self.put_places(out, id, word, space, false),
            PlaceQuestion::Declaration => self.put_places(out, id, word, space, true),
            PlaceQuestion::Hover => self.put_hover(out, id, word, space),
            PlaceQuestion::Highlights => self.put_highlights(out, id, word, space),
            PlaceQuestion::References(declarations) => {
                self.put_references(out, id, word, space, declarations)
            }
            PlaceQuestion::PrepareRename => self.put_prepared(out, id, self.renamable(word)),
            PlaceQuestion::Callables => self.put_callables_at(out, id, word, space),
        }
    }

    /// Whether a word of the file is the name of a member that is defined there.
    fn names_member(&self, word: Span) -> bool
        ensures { result ≡ list_any (is_member_at word) self.now.facts.now.defs }
    {
        self.facts.defs().iter().any(|def| is_member_at(word, def))
    }

    /// The name space of the name at a place, as the code tells it or a directive.
    fn space_told(&self, code: &Code<'_>, place: u32) -> Result<Option<Space>, AllocError>
        requires { code.now ≡ self.now.source.now }
        ensures { IfOk result (λ found. found ≡ space_told self.now.source.now place) }
    {
        match code.space_at(self.alloc, place)? {
            Some(space) => Ok(Some(space)),
            None => match directive_space(self.alloc, self.source, place) {
                Ok(found) => Ok(found),
                Err(_) => Err(AllocError),
            },
        }
    }

    /// The same where this word stands.
    pub(crate) fn space_there(
        &self,
        code: &Code<'_>,
        place: u32,
        word: Option<Span>,
    ) -> Result<Option<Space>, AllocError>
        requires { code.now ≡ self.now.source.now }
        ensures { IfOk result (λ found. found ≡ space_there self.now.facts.now.defs
            self.now.source.now place word) }
    {
        match word {
            Some(word) if self.names_member(word) => Ok(Some(Space::Member)),
            _ => self.space_told(code, place),
        }
    }

    /// The same where a question asks for it.
    fn space_asked(
        &self,
        code: &Code<'_>,
        place: u32,
        word: Option<Span>,
        question: PlaceQuestion,
    ) -> Result<Option<Space>, AllocError>
        requires { code.now ≡ self.now.source.now }
        ensures { IfOk result (λ found. found ≡ space_asked self.now.facts.now.defs
            self.now.source.now place word question) }
    {
        match question {
            PlaceQuestion::PrepareRename => Ok(None),
            _ => self.space_there(code, place, word),
        }
    }

    /// Answers a question about the name at a place of the code, by what it means in its function
    /// alone, if it does.
    fn put_about_code<W: Write>(
        &self,
        out: &mut Sink<W>,
        id: Id<'_>,
        code: &Code<'_>,
        place: u32,
        question: PlaceQuestion,
    ) -> Result<(), WriteFault>
        requires code { code.now ≡ self.now.source.now }
        requires place { place ≤ length self.now.source.now }
        requires facts { self.now.facts.now
            ≡ facts_in self.now.desk.now.timeline.present.profile self.now.source.now }
        ensures { (no_memory : Bool) × Puts out.old out.new result (frame (value_text
            (result_unless no_memory (id_json id.entry) (name_answer (client_in self.now.forms)
            self.now.desk.now.timeline.present self.now.name.now self.now.source.now
            (local_at self.now.source.now place) (space_asked self.now.facts.now.defs
            self.now.source.now place (word_at self.now.source.now place) question)
            (word_at self.now.source.now place) question)))) }
    {
        let word = word_at(self.source, place as usize);
        match code.local_at(self.alloc, place) {
            Ok(None) => match self.space_asked(code, place, word, question) {
                Ok(space) => self.put_about_word(out, id, word, space, question),
                Err(_) => put_refusal(out, id),
            },
            Ok(Some(own)) => self.put_about_local(out, id, &own, word, question),
            Err(_) => put_refusal(out, id),
        }
    }

    /// The same, where the code is not read yet.
    fn put_about_text<W: Write>(
        &self,
        out: &mut Sink<W>,
        id: Id<'_>,
        place: u32,
        question: PlaceQuestion,
    ) -> Result<(), WriteFault>
        requires place { place ≤ length self.now.source.now }
        requires facts { self.now.facts.now
            ≡ facts_in self.now.desk.now.timeline.present.profile self.now.source.now }
        ensures { (no_memory : Bool) × Puts out.old out.new result (frame (value_text
            (result_unless no_memory (id_json id.entry) (name_answer (client_in self.now.forms)
            self.now.desk.now.timeline.present self.now.name.now self.now.source.now
            (local_at self.now.source.now place) (space_asked self.now.facts.now.defs
            self.now.source.now place (word_at self.now.source.now place) question)
            (word_at self.now.source.now place) question)))) }
    {
        match Code::new(self.alloc, self.source) {
            Ok(code) => self.put_about_code(out, id, &code, place, question),
            Err(_) => put_refusal(out, id),
        }
    }

    /// The same, or about the parameter of a macro.
    fn put_about_name<W: Write>(
        &self,
        out: &mut Sink<W>,
        id: Id<'_>,
        place: u32,
        question: PlaceQuestion,
    ) -> Result<(), WriteFault>
        requires place { place ≤ length self.now.source.now }
        requires facts { self.now.facts.now
            ≡ facts_in self.now.desk.now.timeline.present.profile self.now.source.now }
        ensures { (no_memory : Bool) × Puts out.old out.new result (frame (value_text
            (result_unless no_memory (id_json id.entry) (named_answer (client_in self.now.forms)
            self.now.desk.now.timeline.present self.now.name.now self.now.source.now
            self.now.facts.now.defs place (parameter_there self.now.facts.now.defs
            self.now.source.now place) question)))) }
    {
        match self.parameter_there(place) {
            Ok(None) => self.put_about_text(out, id, place, question),
            Ok(Some(own)) => {
                let word = word_at(self.source, place as usize);
                self.put_about_local(out, id, own.local(), word, question)
            }
            Err(_) => put_refusal(out, id),
        }
    }

    /// The header at a place, where a definition or a declaration is asked for.
    fn header_asked(&self, place: u32, question: PlaceQuestion) -> Option<Span>
        ensures { result ≡ header_asked self.now.facts.now.includes place question }
    {
        match question {
            PlaceQuestion::Definition => header_at(self.facts.includes(), place as usize),
            PlaceQuestion::Declaration => header_at(self.facts.includes(), place as usize),
            _ => None,
        }
    }

    /// Answers a question about what stands at a place.
    fn put_about_place<W: Write>(
        &self,
        out: &mut Sink<W>,
        id: Id<'_>,
        place: u32,
        question: PlaceQuestion,
    ) -> Result<(), WriteFault>
        requires place { place ≤ length self.now.source.now }
        requires facts { self.now.facts.now
            ≡ facts_in self.now.desk.now.timeline.present.profile self.now.source.now }
        ensures { (no_memory : Bool) × Puts out.old out.new result (frame (value_text
            (result_unless no_memory (id_json id.entry) (place_answer (client_in self.now.forms)
            self.now.desk.now.timeline.present self.now.name.now self.now.source.now place
            (header_asked self.now.facts.now.includes place question) question)))) }
    {
        match self.header_asked(place, question) {
            Some(header) => self.put_header(out, id, bytes_of(self.source, header)),
            None => self.put_about_name(out, id, place, question),
        }
    }

    /// Answers a question about the file.
    pub(crate) fn put_answer<W: Write>(
        &self,
        out: &mut Sink<W>,
        id: Id<'_>,
        question: FileQuestion,
    ) -> Result<(), WriteFault>
        requires { self.now.facts.now
            ≡ facts_in self.now.desk.now.timeline.present.profile self.now.source.now }
        ensures { (no_memory : Bool) × Puts out.old out.new result (frame (value_text
            (result_unless no_memory (id_json id.entry) (answer_in (client_in self.now.forms)
            self.now.desk.now.timeline.present self.now.name.now self.now.source.now
            question)))) }
    {
        match question {
            FileQuestion::Symbols => self.put_symbols(out, id),
            FileQuestion::At(position, question) => {
                self.put_about_place(out, id, self.place(position), question)
            }
            FileQuestion::Completions(position) => {
                self.put_completions(out, id, self.place(position) as usize)
            }
        }
    }
}

/// Writes the symbols of the session that have a name, and then those that were kept.
fn put_kept<W: Write>(
    forms: Forms<'_>,
    desk: &Desk,
    out: &mut Sink<W>,
    id: Id<'_>,
    query: &[u8],
    kept: &[TagSpot<'_>],
) -> Result<(), WriteFault>
    ensures { Puts out.old out.new result (frame (value_text (result_reply (id_json id.entry)
        (array (items_of (map (session_symbol (client_in forms.entry) desk.now.timeline.present.files)
        (take MOST_SYMBOLS (tags_named desk.now.timeline.present.profile query.now
        desk.now.timeline.present.files ++ map tag_of_spot kept.now)))))))) }
{
    let symbols = SessionSymbols {
        places: Located::new(forms, desk),
        named: desk.definitions(query),
        kept,
    };
    put_first(out, id, MOST_SYMBOLS, symbols)
}

/// Writes the symbols of the session that a query names. Those whose name holds it are kept first,
/// since all names are gone through for them.
pub(crate) fn put_session_symbols<W: Write>(
    forms: Forms<'_>,
    desk: &Desk,
    out: &mut Sink<W>,
    id: Id<'_>,
    query: &[u8],
) -> Result<(), WriteFault>
    ensures { Puts out.old out.new result (frame (value_text (result_reply (id_json id.entry)
        (array (items_of (map (session_symbol (client_in forms.entry) desk.now.timeline.present.files)
        (found_by desk.now.timeline.present query.now))))))) }
{
    let mut rows = desk.tag_rows(Format::Extended);
    match next_like(&mut rows, query) {
        Some(first) => {
            let mut kept = [first; MOST_SYMBOLS];
            let count = keep_like(&mut rows, query, &mut kept);
            put_kept(forms, desk, out, id, query, &kept[..count])
        }
        None => put_kept(forms, desk, out, id, query, &[]),
    }
}
