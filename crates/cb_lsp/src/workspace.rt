//! The files of a server, and the documents that the editor has open.
ghost use Rattle.std.specs.Prelude.{◌≡◌, ◌<◌, ◌≤◌, Bool, true, List, [], ◌∷◌, length, ◌⊎◌, IfErr};
ghost use Rattle.std.specs.Prelude.{IfOk, Some, not};
ghost use Rattle.std.specs.Option.{option_copied, option_map};
ghost use Rattle.json.specs.Value.{items_view};
ghost use Rattle.cb_tags.specs.Names.{is_file_name};
ghost use Rattle.cb_desk.specs.Models.{step_of};
ghost use Rattle.cb_desk.specs.World.{has_file};
ghost use Rattle.cb_lsp.specs.Documents.{changed, closed, document_of, given, given_found, is_open};
ghost use Rattle.cb_lsp.specs.Documents.{holds, is_renewed, lost_all, opened, removed, saved};
ghost use Rattle.cb_lsp.specs.Documents.{taken};
ghost use Rattle.cb_lsp.specs.Documents.{text_step};
ghost use Rattle.cb_lsp.specs.Documents.{told_unless, was_lost};
ghost use Rattle.cb_lsp.specs.Messages.{only_name, told_of};
ghost use Rattle.cb_lsp.specs.Models.{found_in, kept_in};
ghost use Rattle.cb_lsp.specs.Params.{changes_among};
ghost use Rattle.cb_lsp.specs.Refresh.{given_anew};
ghost use Rattle.cb_lsp.specs.steps.Noted.{with_noted};
ghost use Rattle.cb_lsp.specs.steps.Values.{seen};
ghost use Rattle.cb_lsp.specs.steps.Works.{Becomes, Reloads, changed_named, kept_before};
ghost use Rattle.cb_lsp.specs.steps.Works.{one_change, text_at};

use crate::change::text_by;
use crate::disk::{Found, has_text};
use crate::documents::{Documents, Kept, copy_of, told_unless};
use crate::notice::Notice;
use crate::params;
use cb_desk::{Change, Desk, Field, Refusal};
use cb_wire::Encoding;
use json::Value;
use std::alloc::{AllocError, Global};
use std::marker::Model;

/// The files, and the documents that are open. No change of a file can be undone.
#[derive(Drop)]
pub(crate) struct Workspace {
    desk: Desk,
    documents: Documents,
}

impl Model for Workspace {
    ghost use Rattle.cb_lsp.specs.Documents.{Work};
    ghost use Rattle.cb_lsp.specs.steps.Works.{IsForgotten};

    ghost Value = { Work };

    ghost view = { λ w. record {
      world = w.desk.timeline.present;
      documents = w.documents;
    } };

    ghost invariant = { λ w. IsForgotten w.desk.timeline };
}

impl Workspace {
    /// The files of a desk, with no document open. It takes no memory.
    pub(crate) fn new(alloc: Global, desk: Desk) -> Workspace
        requires { 1 ≤ desk.timeline.present.bounds.history }
        ensures world { result.world ≡ desk.timeline.present }
        ensures documents { result.documents ≡ [] }
    {
        let mut desk = desk;
        desk.forget();
        Workspace {
            desk,
            documents: Documents::new(alloc),
        }
    }

    /// The files.
    pub(crate) fn desk(&self) -> &Desk
        ensures { result.now.timeline.present ≡ self.now.world }
    {
        &self.desk
    }

    /// The documents that are open.
    pub(crate) fn documents(&self) -> &Documents
        ensures { result.now ≡ self.now.documents }
    {
        &self.documents
    }

    /// Puts in order what questions of a field read. It changes no answer.
    pub(crate) fn settle(&mut self, field: Field)
        ensures { self.new ≡ self.old }
    {
        self.desk.settle(field);
    }

    /// Makes a change, and forgets what was before it.
    fn make(&mut self, alloc: Global, change: Change<'_>) -> Result<(), Refusal>
        ensures { (no_memory : Bool) × Becomes
            (taken no_memory self.old.world (step_of change.entry)) self.old self.new result }
    {
        self.desk.change(alloc, change)?;
        self.desk.forget();
        Ok(())
    }

    /// Gives a file a text.
    fn take(&mut self, alloc: Global, name: &[u8], text: Vec<u8>) -> Result<(), Refusal>
        ensures { (no_text : Bool) × Becomes (taken no_text self.old.world
            (text_step self.old.world.files name.now text.items)) self.old self.new result }
    {
        if self.desk.source(name).is_some() {
            self.make(alloc, Change::Reload(name, text))
        } else {
            self.make(alloc, Change::Load(name, text))
        }
    }

    /// A copy of a text, unless it is larger than a file may be.
    fn copy(&self, alloc: Global, text: &[u8]) -> Result<Vec<u8>, Refusal>
        ensures text { IfOk result (λ copy. copy.items ≡ text.now) }
        ensures refusal { IfErr result (λ r. (r ≡ Refusal.OutOfMemory) ⊎ ((r ≡ Refusal.TooLarge)
            × (self.now.world.bounds.file_bytes < length text.now))) }
    {
        if text.len() > self.desk.bounds().file_bytes() as usize {
            return Err(Refusal::TooLarge);
        }
        Ok(copy_of(alloc, text)?)
    }

    /// The text of a file, where its document keeps it when it is given another one.
    fn before(&self, alloc: Global, name: &[u8]) -> Result<Option<Kept>, AllocError>
        ensures { IfOk result (λ kept. kept_in kept ≡ kept_before self.now.world.files name.now
            (document_of self.now.documents name.now)) }
    {
        if !self.documents.keeps_present(name) {
            return Ok(None);
        }
        match self.desk.source(name) {
            Some(source) => Ok(Some(Kept::Text(copy_of(alloc, source.bytes())?))),
            None => Ok(Some(Kept::Text(Vec::new(alloc)))),
        }
    }

    /// Gives the file of a document that is opened its text.
    fn load(&mut self, alloc: Global, name: &[u8], text: &[u8]) -> Result<(), Refusal>
        requires { is_file_name name.now ≡ true }
        ensures { (no_text : Bool) × Becomes (taken no_text self.old.world
            (text_step self.old.world.files name.now text.now)) self.old self.new result }
    {
        let text = self.copy(alloc, text)?;
        self.take(alloc, name, text)
    }

    /// A document is lost; what the client is told.
    fn lose(&mut self, name: &[u8], why: &'static str) -> Option<&'static str>
        ensures world { self.new.world ≡ self.old.world }
        ensures documents { self.new.documents
            ≡ with_noted None true name.now self.old.documents }
        ensures told { option_copied result
            ≡ told_unless (was_lost (document_of self.old.documents name.now)) why.now }
    {
        told_unless(self.documents.note(name, None, true), why)
    }

    /// All documents are lost.
    pub(crate) fn lose_all(&mut self)
        ensures { self.new ≡ record self.old { documents = lost_all self.old.documents } }
    {
        self.documents.lose_all();
    }

    /// Opens a document with a text; what the client is told.
    pub(crate) fn open(&mut self, alloc: Global, name: &[u8], text: &[u8]) -> Option<&'static str>
        requires { is_file_name name.now ≡ true }
        ensures { (refusals : List Bool) × (record { work = self.new; told = option_copied result }
            ≡ opened refusals self.old name.now text.now) }
    {
        match self.documents.open(alloc, name) {
            Ok(()) => {}
            Err(_) => return Some(Refusal::OutOfMemory.text()),
        }
        match self.load(alloc, name, text) {
            Ok(()) => {
                self.documents.note(name, Some(Kept::Present), false);
                None
            }
            Err(refusal) => {
                let was_lost = self.documents.note(name, Some(Kept::Nothing), true);
                told_unless(was_lost, refusal.text())
            }
        }
    }

    /// Gives the file of an open document another text.
    fn reload(&mut self, alloc: Global, name: &[u8], text: Vec<u8>) -> Result<(), Refusal>
        requires { is_file_name name.now ≡ true }
        ensures { (no_text : Bool) × Reloads (taken no_text self.old.world
            (text_step self.old.world.files name.now text.items)) name.now self.old self.new
            result }
    {
        let kept = self.before(alloc, name)?;
        self.take(alloc, name, text)?;
        self.documents.note(name, kept, false);
        Ok(())
    }

    /// The text of the file of a document, unless the document is lost.
    fn text_before(&self, name: &[u8]) -> Option<&[u8]>
        ensures { option_map (λ text. text.now) result
            ≡ text_at self.now.world.files name.now (document_of self.now.documents name.now) }
    {
        if self.documents.is_lost(name) {
            return None;
        }
        match self.desk.source(name) {
            Some(source) => Some(source.bytes()),
            None => Some(b""),
        }
    }

    /// Gives the file of an open document another text, if there is one; what the client is told.
    fn change_to(
        &mut self,
        alloc: Global,
        name: &[u8],
        text: Option<Vec<u8>>,
    ) -> Option<&'static str>
        requires named { is_file_name name.now ≡ true }
        requires open { is_open self.now.documents name.now ≡ true }
        ensures { (no_text : Bool) × (record { work = self.new; told = option_copied result }
            ≡ changed_named no_text self.old name.now (option_map (λ text. text.items) text)) }
    {
        match text {
            None => None,
            Some(text) => match self.reload(alloc, name, text) {
                Ok(()) => None,
                Err(refusal) => self.lose(name, refusal.text()),
            },
        }
    }

    /// Makes changes of an open document; what the client is told.
    fn change_by(
        &mut self,
        alloc: Global,
        encoding: Encoding,
        name: &[u8],
        changes: &[Value<'_>],
    ) -> Option<&'static str>
        requires named { is_file_name name.now ≡ true }
        requires open { is_open self.now.documents name.now ≡ true }
        ensures { (refusals : List Bool) × (record { work = self.new; told = option_copied result }
            ≡ changed encoding refusals self.old name.now
            (Some (changes_among (items_view changes.now)))) }
    {
        match text_by(alloc, encoding, self.text_before(name), changes) {
            Ok(text) => self.change_to(alloc, name, text),
            Err(_) => self.lose(name, Refusal::OutOfMemory.text()),
        }
    }

    /// Changes a document; what the client is told.
    pub(crate) fn change(
        &mut self,
        alloc: Global,
        encoding: Encoding,
        name: &[u8],
        changes: Option<&[Value<'_>]>,
    ) -> Option<&'static str>
        requires { is_file_name name.now ≡ true }
        ensures { (refusals : List Bool) × (record { work = self.new; told = option_copied result }
            ≡ changed encoding refusals self.old name.now
            (option_map (λ values. changes_among (items_view values.now)) changes.entry)) }
    {
        if !self.documents.is_open(name) {
            return None;
        }
        match changes {
            None => self.lose(name, "bad parameters"),
            Some(changes) => self.change_by(alloc, encoding, name, changes),
        }
    }

    /// Keeps the present text of a document, unless it is lost.
    pub(crate) fn save(&mut self, name: &[u8])
        ensures { record { work = self.new; told = None } ≡ saved self.old name.now }
    {
        if !self.documents.is_lost(name) {
            self.documents.note(name, Some(Kept::Present), false);
        }
    }

    /// Gives a file a text, if there is one; what the client is told.
    fn give(&mut self, alloc: Global, name: &[u8], text: Option<Vec<u8>>) -> Option<&'static str>
        ensures { (no_text : Bool) × (record { work = self.new; told = option_copied result }
            ≡ given no_text self.old name.now (option_map (λ text. text.items) text)) }
    {
        match text {
            Some(text) => match self.take(alloc, name, text) {
                Ok(()) => None,
                Err(refusal) => Some(refusal.text()),
            },
            None => None,
        }
    }

    /// Gives a file the text that was found; where there is no file another one, if there is one.
    /// What the client is told.
    pub(crate) fn give_found(
        &mut self,
        alloc: Global,
        name: &[u8],
        found: Found,
        other: Option<Vec<u8>>,
    ) -> Option<&'static str>
        ensures { (no_text : Bool) × (record { work = self.new; told = option_copied result }
            ≡ given_found (found_in found) no_text self.old name.now
            (option_map (λ text. text.items) other)) }
    {
        match found {
            Found::Gone => self.give(alloc, name, other),
            Found::Linked => None,
            Found::Unreadable => Some("cannot be read"),
            Found::NoRoom => Some(Refusal::OutOfMemory.text()),
            Found::Holds(text) => self.give(alloc, name, Some(text)),
        }
    }

    /// Closes a document, whose file becomes what was found, or has again the text that was kept;
    /// what the client is told.
    pub(crate) fn close(&mut self, alloc: Global, name: &[u8], found: Found) -> Option<&'static str>
        ensures { (no_text : Bool) × (record { work = self.new; told = option_copied result }
            ≡ closed (one_change no_text (found_in found)) self.old name.now) }
    {
        if !self.documents.is_open(name) {
            return None;
        }
        let kept = self.documents.close(name);
        self.give_found(alloc, name, found, kept)
    }

    /// Whether a file that was written is taken in: its document is not open, and it is there
    /// already or may enter.
    pub(crate) fn renews(&self, name: &[u8], may_enter: bool) -> bool
        ensures { result ≡ is_renewed self.now may_enter name.now }
    {
        !self.documents.is_open(name) && (self.desk.source(name).is_some() || may_enter)
    }

    /// How many bytes the name of a file has, which has to be its only one where the file is not
    /// there yet; 0 where it is.
    pub(crate) fn only_name(&self, name: &[u8]) -> usize
        ensures { result ≡ only_name self.now name.now }
    {
        match self.desk.source(name) {
            Some(_) => 0,
            None => name.len(),
        }
    }

    /// Takes a file away that is gone, unless its document is open; what the client is told.
    pub(crate) fn remove(&mut self, alloc: Global, name: &[u8]) -> Option<&'static str>
        ensures { (no_memory : Bool) × (record { work = self.new; told = option_copied result }
            ≡ removed no_memory self.old name.now) }
    {
        if self.documents.is_open(name) || self.desk.source(name).is_none() {
            return None;
        }
        match self.make(alloc, Change::Unload(name)) {
            Ok(()) => None,
            Err(refusal) => Some(refusal.text()),
        }
    }

    /// Gives a file the text that is found, unless that is empty or the text that it has; what the
    /// client is told.
    fn give_other(&mut self, alloc: Global, name: &[u8], text: Vec<u8>) -> Option<&'static str>
        ensures { (no_text : Bool) × (record { work = self.new; told = option_copied result }
            ≡ given_anew (holds text.items) no_text self.old name.now) }
    {
        if text.is_empty() || has_text(&self.desk, name, text.as_slice()) {
            None
        } else {
            self.give(alloc, name, Some(text))
        }
    }

    /// Gives a file what is found where it is read again; what the client is told.
    pub(crate) fn give_anew(
        &mut self,
        alloc: Global,
        name: &[u8],
        found: Found,
    ) -> Option<&'static str>
        ensures { (no_text : Bool) × (record { work = self.new; told = option_copied result }
            ≡ given_anew (found_in found) no_text self.old name.now) }
    {
        match found {
            Found::Gone => None,
            Found::Linked => None,
            Found::Unreadable => None,
            Found::NoRoom => self.give_found(alloc, name, Found::NoRoom, None),
            Found::Holds(text) => self.give_other(alloc, name, text),
        }
    }

    /// Takes a notification about the document of a file; what the client is told.
    pub(crate) fn take_notice(
        &mut self,
        alloc: Global,
        encoding: Encoding,
        notice: Notice,
        params: Option<&Value<'_>>,
        name: &[u8],
        found: Found,
    ) -> Option<&'static str>
        requires { is_file_name name.now ≡ true }
        ensures { (refusals : List Bool) × (record { work = self.new; told = option_copied result }
            ≡ told_of encoding notice (record { refusals = refusals; found = found_in found ∷ [] })
            self.old (seen params.entry) name.now) }
    {
        match notice {
            Notice::Open => match params::text_of(params) {
                Some(text) => self.open(alloc, name, text.as_bytes()),
                None => None,
            },
            Notice::Change => self.change(alloc, encoding, name, params::changes_in(params)),
            Notice::Save => {
                self.save(name);
                None
            }
            Notice::Close => self.close(alloc, name, found),
            Notice::Ready => None,
            Notice::Files => None,
        }
    }
}
