//! The documents that the editor has open.
ghost use Rattle.std.specs.Prelude.{◌≡◌, [], false, IfOk, OnErr, OnOk};
ghost use Rattle.std.specs.List.{position};
ghost use Rattle.std.specs.Option.{option_copied, option_map};
ghost use Rattle.cb_tags.specs.Writing.{Puts};
ghost use Rattle.cb_lsp.specs.Bodies.{written_text};
ghost use Rattle.cb_lsp.specs.Documents.{as_lost, document_of, is_named, is_open, kept_text};
ghost use Rattle.cb_lsp.specs.Documents.{lost_all, told_unless, was_lost, without_document};
ghost use Rattle.cb_lsp.specs.Messages.{named_lost};
ghost use Rattle.cb_lsp.specs.steps.Told.{lost_text};
ghost use Rattle.cb_lsp.specs.Models.{kept_in, kept_of};
ghost use Rattle.cb_lsp.specs.steps.Noted.{is_present, keeps_present, new_document, noted};
ghost use Rattle.cb_lsp.specs.steps.Noted.{text_again, with_noted, with_opened};

use crate::written::put_told;
use cb_tags::{Sink, WriteFault};
use std::alloc::{AllocError, Global};
use std::io::Write;
use std::marker::Model;

/// The text that a file has again when its document is closed, where the file system has no such
/// file: the one that it had when the document was opened or saved.
#[derive(Debug, Drop)]
pub(crate) enum Kept {
    /// None: the file stays as it is.
    Nothing,
    /// The one that the file has.
    Present,
    /// Another one.
    Text(Vec<u8>),
}

impl Kept {
    /// The text, if it is another one.
    fn text(self) -> Option<Vec<u8>>
        ensures { option_map (λ text. text.items) result ≡ kept_text (kept_of self) }
    {
        match self {
            Kept::Text(text) => Some(text),
            Kept::Nothing => None,
            Kept::Present => None,
        }
    }
}

/// A document that is open.
#[derive(Debug, Drop)]
pub(crate) struct OpenDocument {
    name: Vec<u8>,
    kept: Kept,
    /// Its last text was refused, and the client was told.
    lost: bool,
}

impl Model for OpenDocument {
    ghost use Rattle.cb_lsp.specs.Documents.{Document};
    ghost use Rattle.cb_lsp.specs.Models.{kept_of};

    ghost Value = { Document };

    ghost view = { λ d. record {
      name = d.name.items;
      kept = kept_of d.kept;
      lost = d.lost;
    } };
}

impl OpenDocument {
    /// The document of a file, with nothing kept.
    fn new(name: Vec<u8>) -> OpenDocument
        ensures { result ≡ new_document name.items }
    {
        OpenDocument {
            name,
            kept: Kept::Nothing,
            lost: false,
        }
    }

    /// Whether it is the document of a file.
    fn is_named(&self, name: &[u8]) -> bool
        ensures { result ≡ is_named name.now self.now }
    {
        self.name.as_slice() == name
    }

    /// Whether it keeps the present text of its file.
    fn keeps_present(&self) -> bool
        ensures { result ≡ is_present self.now.kept }
    {
        matches!(self.kept, Kept::Present)
    }

    /// Whether its last text was refused.
    fn is_lost(&self) -> bool
        ensures { result ≡ self.now.lost }
    {
        self.lost
    }

    /// Its text is out of date.
    fn lose(&mut self)
        ensures { self.new ≡ as_lost self.old }
    {
        self.lost = true;
    }

    /// Writes what the client is told where all documents are lost, if this one was not.
    fn put_lost<W: Write>(&self, out: &mut Sink<W>) -> Result<(), WriteFault>
        ensures { Puts out.old out.new result (lost_text self.now) }
    {
        put_told(out, self.name.as_slice(), told_unless(self.lost, DROPPED))
    }

    /// Notes what it keeps, where that is another text, and whether it is lost; whether it was.
    fn note(&mut self, kept: Option<Kept>, lost: bool) -> bool
        ensures document { self.new ≡ noted (kept_in kept) lost self.old }
        ensures was { result ≡ self.old.lost }
    {
        let was = self.lost;
        if let Some(kept) = kept {
            self.kept = kept;
        }
        self.lost = lost;
        was
    }
}

/// The open documents.
#[derive(Debug, Drop)]
pub(crate) struct Documents {
    open: Vec<OpenDocument>,
}

impl Model for Documents {
    ghost use Rattle.std.specs.Prelude.{List};
    ghost use Rattle.cb_lsp.specs.Documents.{Document};

    ghost Value = { List Document };

    ghost view = { λ d. d.open.items };
}

/// What the client is told of a document that is lost with all others.
const DROPPED: &str = "out of date, a message was dropped: close the file and open it again";

/// What is told of a document that is lost, unless it was lost.
pub(crate) fn told_unless(was_lost: bool, why: &'static str) -> Option<&'static str>
    ensures { option_copied result ≡ told_unless was_lost why.now }
{
    if was_lost { None } else { Some(why) }
}

/// A copy of a text.
pub(crate) fn copy_of(alloc: Global, text: &[u8]) -> Result<Vec<u8>, AllocError>
    ensures { IfOk result (λ copy. copy.items ≡ text.now) }
{
    let mut copy = Vec::new(alloc);
    copy.extend_from_slice(text)?;
    Ok(copy)
}

impl Documents {
    /// None is open. It takes no memory.
    pub(crate) fn new(alloc: Global) -> Documents
        ensures { result ≡ [] }
    {
        Documents {
            open: Vec::new(alloc),
        }
    }

    /// The place of the document of a file among them, if it is open.
    fn find(&self, name: &[u8]) -> Option<usize>
        ensures { result ≡ position (is_named name.now) self.now }
    {
        self.open
            .iter()
            .position(|document| document.is_named(name))
    }

    /// Whether the document of a file is open.
    pub(crate) fn is_open(&self, name: &[u8]) -> bool
        ensures { result ≡ is_open self.now name.now }
    {
        self.open.iter().any(|document| document.is_named(name))
    }

    /// Whether the present text of its file is what the document of a file keeps.
    pub(crate) fn keeps_present(&self, name: &[u8]) -> bool
        ensures { result ≡ keeps_present (document_of self.now name.now) }
    {
        match self.find(name) {
            Some(place) => self.open[place].keeps_present(),
            None => false,
        }
    }

    /// Whether the document of a file is lost.
    pub(crate) fn is_lost(&self, name: &[u8]) -> bool
        ensures { result ≡ was_lost (document_of self.now name.now) }
    {
        match self.find(name) {
            Some(place) => self.open[place].is_lost(),
            None => false,
        }
    }

    /// All documents are lost.
    pub(crate) fn lose_all(&mut self)
        ensures { self.new ≡ lost_all self.old }
    {
        for document in self.open.iter_mut() {
            document.lose();
        }
    }

    /// Writes what the client is told where all documents are lost, for each that was not.
    pub(crate) fn put_lost<W: Write>(&self, out: &mut Sink<W>) -> Result<(), WriteFault>
        ensures { Puts out.old out.new result (written_text (named_lost self.now)) }
    {
        for document in self.open.iter() {
            document.put_lost(out)?;
        }
        Ok(())
    }

    /// Opens the document of a file, with nothing kept, unless it is open.
    pub(crate) fn open(&mut self, alloc: Global, name: &[u8]) -> Result<(), AllocError>
        ensures ok { OnOk result (self.new ≡ with_opened name.now self.old) }
        ensures err { OnErr result (self.new ≡ self.old) }
        ensures only { OnErr result (is_open self.old name.now ≡ false) }
    {
        if self.is_open(name) {
            return Ok(());
        }
        let name = copy_of(alloc, name)?;
        self.open.push(OpenDocument::new(name))?;
        Ok(())
    }

    /// Notes what the document of a file keeps, where that is another text, and whether it is lost;
    /// whether it was.
    pub(crate) fn note(&mut self, name: &[u8], kept: Option<Kept>, lost: bool) -> bool
        ensures documents { self.new ≡ with_noted (kept_in kept) lost name.now self.old }
        ensures was { result ≡ was_lost (document_of self.old name.now) }
    {
        match self.find(name) {
            Some(place) => {
                let document = &mut self.open[place];
                document.note(kept, lost)
            }
            None => false,
        }
    }

    /// Closes the document of a file; the text that the file has again, if it is another one.
    pub(crate) fn close(&mut self, name: &[u8]) -> Option<Vec<u8>>
        ensures documents { self.new ≡ without_document name.now self.old }
        ensures text { option_map (λ text. text.items) result
            ≡ text_again (document_of self.old name.now) }
    {
        let place = self.find(name)?;
        let document = self.open.remove(place);
        document.kept.text()
    }
}
