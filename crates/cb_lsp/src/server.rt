//! A language server, and what a message does to it.
ghost use Rattle.std.specs.Prelude.{◌≡◌, ◌&&◌};
ghost use Rattle.cb_lsp.specs.Messages.{encoding_for, ends_as_c, is_opening, may_enter};
ghost use Rattle.cb_lsp.specs.Names.{is_document_name};
ghost use Rattle.cb_lsp.specs.steps.Values.{seen};

mod anew;

use crate::answers::{FileAsked, put_session_symbols};
use crate::callers::put_incoming;
use crate::disk::{Disk, Found, most_read};
use crate::folds::put_folds;
use crate::location::Forms;
use crate::notice::{FileEvent, Notice, comes_again};
use crate::outgoing::put_outgoing;
use crate::params;
use crate::question::{FileQuestion, PlaceQuestion, Question, question_of};
use crate::rename::Renaming;
use crate::workspace::Workspace;
use crate::written::{
    put_bad_name, put_failure, put_null, put_refusal, put_told, put_unasked, put_unread,
};
use cb_desk::{Desk, Field};
use cb_tags::{Sink, WriteFault, is_file_name};
use cb_wire::{
    Call, Encoding, ErrorCode, Id, Position, Root, path_of_uri, put_watch_request, put_welcome,
    steps_back,
};
use json::Value;
use std::alloc::{AllocError, Global};
use std::io::Write;
use std::marker::Model;

/// How far the client is.
#[derive(Clone, Copy, Debug, PartialEq, Eq)]
pub(crate) enum Stage {
    /// Before `initialize`.
    Fresh,
    /// After it.
    Running,
    /// After `shutdown`.
    Down,
}

/// The files of a desk, the documents that the editor has open, and what its client takes.
#[derive(Drop)]
pub struct Server {
    work: Workspace,
    root: Root,
    /// The root was given, and stays.
    rooted: bool,
    encoding: Encoding,
    tree: bool,
    version: &'static str,
    stage: Stage,
    /// The client tells of files that are written when it is asked to.
    watches: bool,
}

impl Model for Server {
    ghost use Rattle.cb_lsp.specs.Messages.{Serving};

    ghost Value = { Serving };

    ghost view = { λ s. record {
      work = s.work;
      client = record { root = s.root; encoding = s.encoding; tree = s.tree };
      rooted = s.rooted;
      version = s.version.now;
      stage = s.stage;
      watches = s.watches;
    } };
}

/// Whether a path ends as the name of a file does.
fn ends_as_c(path: &[u8]) -> bool
    ensures { result ≡ ends_as_c path.now }
{
    path.ends_with(b".c") || path.ends_with(b".h")
}

/// Whether a document is opened whose path ends as the name of a file does.
fn opens_as_c(notice: Notice, path: &[u8]) -> bool
    ensures { result ≡ (ends_as_c path.now && is_opening notice) }
{
    ends_as_c(path) && notice.is_opening()
}

/// Whether a file of a server may have this name: it is a file name, and does not step back.
fn is_document_name(name: &[u8]) -> bool
    ensures { result ≡ is_document_name name.now }
{
    is_file_name(name) && !steps_back(name)
}

/// Whether a file of a path that is not there yet is taken in under a name.
fn may_enter(path: &[u8], name: &[u8]) -> bool
    ensures { result ≡ may_enter path.now name.now }
{
    is_document_name(name) && !(name == path)
}

/// What the columns of a client count.
fn encoding_for(params: Option<&Value<'_>>) -> Encoding
    ensures { result ≡ encoding_for (seen params.entry) }
{
    if params::takes_utf8(params) {
        Encoding::Utf8
    } else {
        Encoding::Utf16
    }
}

impl Server {
    ghost use Rattle.std.specs.Prelude.{◌<◌, ◌≤◌, Bool, MatchResult, Ok, Some, codes};
    ghost use Rattle.std.specs.List.{AllByRecursion};
    ghost use Rattle.json.specs.Value.{value_view};
    ghost use Rattle.cb_tags.specs.Writing.{Puts};
    ghost use Rattle.cb_wire.specs.Messages.{id_json};
    ghost use Rattle.cb_wire.specs.Texts.{frame};
    ghost use Rattle.cb_wire.specs.Values.{value_text};
    ghost use Rattle.cb_lsp.specs.Answers.{answer_named};
    ghost use Rattle.cb_lsp.specs.Messages.{all_lost, asked_reply, dropped, fresh_server};
    ghost use Rattle.cb_lsp.specs.Messages.{happened, happened_at, unread};
    ghost use Rattle.cb_lsp.specs.FileEvents.{event_if};
    ghost use Rattle.cb_lsp.specs.Messages.{happened_in, initialized, noticed, noticed_at};
    ghost use Rattle.cb_lsp.specs.Messages.{noticed_by, noticed_of, read_behind, registers};
    ghost use Rattle.cb_lsp.specs.Messages.{reply_unless, requested, result_unless, running};
    ghost use Rattle.cb_lsp.specs.Messages.{with_root};
    ghost use Rattle.cb_lsp.specs.Models.{asked_of, found_in};
    ghost use Rattle.cb_lsp.specs.Params.{items_in, member_of, uri_in};
    ghost use Rattle.cb_lsp.specs.Questions.{folds, in_file, incoming, outgoing, rename};
    ghost use Rattle.cb_lsp.specs.NameRenames.{renamed_at};
    ghost use Rattle.cb_lsp.specs.steps.Located.{client_in};
    ghost use Rattle.cb_lsp.specs.steps.Works.{one_change, one_event, only};
    ghost use Rattle.cb_lsp.specs.Documents.{Oracle, Reading};
    ghost use Rattle.cb_lsp.specs.Bodies.{Does, DoesBy, Replies};
    ghost use Rattle.cb_lsp.specs.steps.Values.{seen};

    /// A server of the files of a desk, below a root, which was given or is that of the client. The
    /// version is the program's.
    pub fn new(alloc: Global, desk: Desk, root: Root, rooted: bool, version: &'static str) -> Server
        requires { 1 ≤ desk.timeline.present.bounds.history }
        ensures { result ≡ fresh_server desk.timeline.present root rooted version.now }
    {
        Server {
            work: Workspace::new(alloc, desk),
            root,
            rooted,
            encoding: Encoding::Utf16,
            tree: false,
            version,
            stage: Stage::Fresh,
            watches: false,
        }
    }

    /// How far the client is.
    pub(crate) fn stage(&self) -> Stage
        ensures { result ≡ self.now.stage }
    {
        self.stage
    }

    /// What the client takes.
    fn forms(&self) -> Forms<'_>
        ensures { client_in result ≡ self.now.client }
    {
        Forms {
            root: &self.root,
            encoding: self.encoding,
            tree: self.tree,
        }
    }

    /// Answers a request, by the stage of the client.
    pub(crate) fn request<D: Disk, W: Write>(
        &mut self,
        alloc: Global,
        disk: &D,
        out: &mut Sink<W>,
        id: Id<'_>,
        call: Call<'_, '_>,
    ) -> Result<(), WriteFault>
        ensures { (o : Oracle) × DoesBy (D.finds disk.now) (requested self.old.stage o self.old
            (id_json id.entry) call.entry.method.now (seen call.entry.params)) self.new
            out.old out.new result }
    {
        match self.stage {
            Stage::Fresh => {
                if call.method == "initialize" {
                    self.initialize(alloc, out, id, call.params)
                } else {
                    put_failure(out, id, ErrorCode::ServerNotInitialized, b"not initialized")
                }
            }
            Stage::Running => self.run(alloc, disk, out, id, call),
            Stage::Down => put_failure(out, id, ErrorCode::InvalidRequest, b"shut down"),
        }
    }

    /// The root of a client, unless it was given.
    fn take_root(&mut self, alloc: Global, params: Option<&Value<'_>>) -> Result<(), AllocError>
        ensures { MatchResult result
            (λ _. self.new ≡ with_root self.old (seen params.entry)) (λ _. self.new ≡ self.old) }
    {
        if self.rooted {
            return Ok(());
        }
        if let Some(uri) = params::root_of(params) {
            if let Some(root) = Root::of_uri(alloc, uri.as_bytes())? {
                self.root = root;
            }
        }
        Ok(())
    }

    /// Takes what a client says of itself.
    fn initialize<W: Write>(
        &mut self,
        alloc: Global,
        out: &mut Sink<W>,
        id: Id<'_>,
        params: Option<&Value<'_>>,
    ) -> Result<(), WriteFault>
        ensures { (no_memory : Bool) × Does (initialized no_memory self.old (id_json id.entry)
            (seen params.entry)) self.new out.old out.new result }
    {
        match self.take_root(alloc, params) {
            Ok(()) => {}
            Err(_) => return put_refusal(out, id),
        }
        self.encoding = encoding_for(params);
        self.tree = params::takes_trees(params);
        self.watches = params::takes_watchers(params);
        self.stage = Stage::Running;
        let prepares = params::prepares_renames(params);
        put_welcome(out, id, self.encoding, prepares, self.version.as_bytes())
    }

    /// Answers a request of a client that is initialized.
    fn run<D: Disk, W: Write>(
        &mut self,
        alloc: Global,
        disk: &D,
        out: &mut Sink<W>,
        id: Id<'_>,
        call: Call<'_, '_>,
    ) -> Result<(), WriteFault>
        ensures { (o : Oracle) × DoesBy (D.finds disk.now) (running o self.old (id_json id.entry)
            call.entry.method.now (seen call.entry.params)) self.new out.old out.new result }
    {
        if call.method == "initialize" {
            return put_failure(out, id, ErrorCode::InvalidRequest, b"initialized already");
        }
        if call.method == "shutdown" {
            self.stage = Stage::Down;
            return put_null(out, id);
        }
        match question_of(call) {
            Ok(question) => self.answer_anew(alloc, disk, out, id, question),
            Err(why) => put_unasked(out, id, why),
        }
    }

    /// Puts in order what a question reads: nothing, where the file itself has the answer, so that
    /// what changes while one types is put in order once. It changes no answer.
    fn settle(&mut self, question: Question<'_>)
        ensures { self.new ≡ self.old }
    {
        match question {
            Question::Folds(_) => return,
            Question::InFile(_, FileQuestion::Symbols) => return,
            Question::InFile(_, FileQuestion::At(_, PlaceQuestion::Highlights)) => return,
            _ => self.work.settle(Field::Definition),
        }
        match question {
            Question::InFile(_, FileQuestion::At(_, PlaceQuestion::References(_)))
            | Question::Rename(_, _, _) => self.work.settle(Field::Symbol),
            Question::Incoming(_, _) => self.work.settle(Field::Calling),
            _ => {}
        }
    }

    /// Answers a question.
    fn answer<D: Disk, W: Write>(
        &mut self,
        alloc: Global,
        disk: &D,
        out: &mut Sink<W>,
        id: Id<'_>,
        question: Question<'_>,
    ) -> Result<(), WriteFault>
        ensures same { self.new ≡ self.old }
        ensures put { (o : Oracle) × Replies (D.finds disk.now)
            (asked_reply o self.old (id_json id.entry) (Ok (asked_of question.entry)))
            out.old out.new result }
    {
        self.settle(question);
        match question {
            Question::InFile(uri, question) => self.answer_at(alloc, out, id, uri, question),
            Question::WorkspaceSymbols(query) => {
                put_session_symbols(self.forms(), self.work.desk(), out, id, query.as_bytes())
            }
            Question::Rename(uri, position, new_name) => {
                self.rename_at(alloc, disk, out, id, uri, position, new_name)
            }
            Question::Incoming(name, uri) => self.incoming_at(alloc, out, id, name, uri),
            Question::Outgoing(name, uri, position) => {
                self.outgoing_at(alloc, out, id, name, uri, position)
            }
            Question::Folds(uri) => self.folds_at(alloc, out, id, uri),
        }
    }

    /// Answers a question about the file of a URI.
    fn answer_at<W: Write>(
        &self,
        alloc: Global,
        out: &mut Sink<W>,
        id: Id<'_>,
        uri: &str,
        question: FileQuestion,
    ) -> Result<(), WriteFault>
        ensures { (no_memory : Bool) × Puts out.old out.new result (frame (value_text
            (asked_reply (only no_memory) self.now (id_json id.entry)
            (Ok (in_file uri.now question))).message)) }
    {
        match path_of_uri(alloc, uri.as_bytes()) {
            Ok(Some(path)) => {
                let name = self.root.name(path.as_slice());
                self.answer_in(alloc, out, id, name, question)
            }
            Ok(None) => put_null(out, id),
            Err(_) => put_refusal(out, id),
        }
    }

    /// Answers a question about the file of a name.
    fn answer_in<W: Write>(
        &self,
        alloc: Global,
        out: &mut Sink<W>,
        id: Id<'_>,
        name: &[u8],
        question: FileQuestion,
    ) -> Result<(), WriteFault>
        ensures { (no_memory : Bool) × Puts out.old out.new result (frame (value_text
            (result_unless no_memory (id_json id.entry)
            (answer_named self.now.client self.now.work.world question (Some name.now))))) }
    {
        match self.work.desk().scanned(name) {
            Some((source, facts)) => {
                let asked = FileAsked {
                    alloc,
                    forms: self.forms(),
                    desk: self.work.desk(),
                    name,
                    source,
                    facts,
                };
                asked.put_answer(out, id, question)
            }
            None => put_null(out, id),
        }
    }

    /// Answers how the word at a position of the file of a URI is renamed.
    fn rename_at<D: Disk, W: Write>(
        &self,
        alloc: Global,
        disk: &D,
        out: &mut Sink<W>,
        id: Id<'_>,
        uri: &str,
        position: Position,
        new_name: &str,
    ) -> Result<(), WriteFault>
        ensures { (o : Oracle) × Replies (D.finds disk.now) (asked_reply o self.now
            (id_json id.entry) (Ok (rename uri.now position new_name.now))) out.old out.new result }
    {
        match path_of_uri(alloc, uri.as_bytes()) {
            Ok(Some(path)) => {
                let name = self.root.name(path.as_slice());
                self.rename_in(alloc, disk, out, id, name, position, new_name.as_bytes())
            }
            Ok(None) => put_failure(out, id, ErrorCode::RequestFailed, b"no such definition"),
            Err(_) => put_refusal(out, id),
        }
    }

    /// Answers how the word at a position of the file of a name is renamed.
    fn rename_in<D: Disk, W: Write>(
        &self,
        alloc: Global,
        disk: &D,
        out: &mut Sink<W>,
        id: Id<'_>,
        name: &[u8],
        position: Position,
        new_name: &[u8],
    ) -> Result<(), WriteFault>
        ensures { (no_memory : Bool) × (o : Oracle) × Replies (D.finds disk.now)
            (reply_unless no_memory (id_json id.entry) (renamed_at o self.now.client self.now.work
            position new_name.now (Some name.now))) out.old out.new result }
    {
        match self.work.desk().scanned(name) {
            Some((source, facts)) => {
                let asked = FileAsked {
                    alloc,
                    forms: self.forms(),
                    desk: self.work.desk(),
                    name,
                    source,
                    facts,
                };
                let renaming = Renaming {
                    asked,
                    documents: self.work.documents(),
                    new_name,
                };
                renaming.put(alloc, disk, out, id, position)
            }
            None => put_failure(out, id, ErrorCode::RequestFailed, b"no such definition"),
        }
    }

    /// Tells who calls a name that stands in the file of a URI.
    fn incoming_at<W: Write>(
        &self,
        alloc: Global,
        out: &mut Sink<W>,
        id: Id<'_>,
        name: &str,
        uri: &str,
    ) -> Result<(), WriteFault>
        ensures { (no_memory : Bool) × Puts out.old out.new result (frame (value_text
            (asked_reply (only no_memory) self.now (id_json id.entry)
            (Ok (incoming name.now uri.now))).message)) }
    {
        match path_of_uri(alloc, uri.as_bytes()) {
            Ok(Some(path)) => {
                let file = self.root.name(path.as_slice());
                let (forms, desk) = (self.forms(), self.work.desk());
                put_incoming(alloc, forms, desk, out, id, name.as_bytes(), file)
            }
            Ok(None) => put_null(out, id),
            Err(_) => put_refusal(out, id),
        }
    }

    /// Tells what is called by what has a name at a position of the file of a URI.
    fn outgoing_at<W: Write>(
        &self,
        alloc: Global,
        out: &mut Sink<W>,
        id: Id<'_>,
        name: &str,
        uri: &str,
        position: Position,
    ) -> Result<(), WriteFault>
        ensures { (no_memory : Bool) × Puts out.old out.new result (frame (value_text
            (asked_reply (only no_memory) self.now (id_json id.entry)
            (Ok (outgoing name.now uri.now position))).message)) }
    {
        match path_of_uri(alloc, uri.as_bytes()) {
            Ok(Some(path)) => {
                let file = self.root.name(path.as_slice());
                let (forms, desk) = (self.forms(), self.work.desk());
                put_outgoing(alloc, forms, desk, out, id, name.as_bytes(), file, position)
            }
            Ok(None) => put_null(out, id),
            Err(_) => put_refusal(out, id),
        }
    }

    /// Tells what is folded of the file of a URI.
    fn folds_at<W: Write>(
        &self,
        alloc: Global,
        out: &mut Sink<W>,
        id: Id<'_>,
        uri: &str,
    ) -> Result<(), WriteFault>
        ensures { (no_memory : Bool) × Puts out.old out.new result (frame (value_text
            (asked_reply (only no_memory) self.now (id_json id.entry)
            (Ok (folds uri.now))).message)) }
    {
        match path_of_uri(alloc, uri.as_bytes()) {
            Ok(Some(path)) => {
                let file = self.root.name(path.as_slice());
                put_folds(alloc, self.work.desk(), out, id, file)
            }
            Ok(None) => put_null(out, id),
            Err(_) => put_refusal(out, id),
        }
    }

    /// All documents are lost; each that was not is named to the client.
    pub(crate) fn lose_all<W: Write>(&mut self, out: &mut Sink<W>) -> Result<(), WriteFault>
        ensures { Does (all_lost self.old) self.new out.old out.new result }
    {
        self.work.documents().put_lost(out)?;
        self.work.lose_all();
        Ok(())
    }

    /// Writes that memory was refused to the URI of a notification, which is dropped.
    fn drop_notice<W: Write>(&mut self, out: &mut Sink<W>, uri: &[u8]) -> Result<(), WriteFault>
        ensures { Does (dropped self.old (unread uri.now)) self.new out.old out.new result }
    {
        match put_unread(out, uri) {
            Ok(()) => self.lose_all(out),
            Err(fault) => Err(fault),
        }
    }

    /// Takes a notification; only a server that runs does something.
    pub(crate) fn notice<D: Disk, W: Write>(
        &mut self,
        alloc: Global,
        disk: &D,
        out: &mut Sink<W>,
        call: Call<'_, '_>,
    ) -> Result<(), WriteFault>
        ensures { (o : Oracle) × DoesBy (D.finds disk.now) (noticed_by self.old.stage o self.old
            call.entry.method.now (seen call.entry.params)) self.new out.old out.new result }
    {
        match self.stage {
            Stage::Running => self.take(alloc, disk, out, call),
            Stage::Fresh => Ok(()),
            Stage::Down => Ok(()),
        }
    }

    /// Takes a notification.
    fn take<D: Disk, W: Write>(
        &mut self,
        alloc: Global,
        disk: &D,
        out: &mut Sink<W>,
        call: Call<'_, '_>,
    ) -> Result<(), WriteFault>
        ensures { (o : Oracle) × DoesBy (D.finds disk.now) (noticed o self.old
            call.entry.method.now (seen call.entry.params)) self.new out.old out.new result }
    {
        match Notice::of_method(call.method) {
            Some(Notice::Ready) => self.register(out),
            Some(Notice::Files) => self.take_files(alloc, disk, out, call.params),
            Some(notice) => self.take_document(alloc, disk, out, notice, call.params),
            None => Ok(()),
        }
    }

    /// Asks a client that is ready to tell of files that are written, if it can.
    fn register<W: Write>(&self, out: &mut Sink<W>) -> Result<(), WriteFault>
        ensures { Does (registers self.now self.now.watches) self.now out.old out.new result }
    {
        if self.watches {
            put_watch_request(out)
        } else {
            Ok(())
        }
    }

    /// Takes a notification about a document.
    fn take_document<D: Disk, W: Write>(
        &mut self,
        alloc: Global,
        disk: &D,
        out: &mut Sink<W>,
        notice: Notice,
        params: Option<&Value<'_>>,
    ) -> Result<(), WriteFault>
        ensures { (o : Oracle) × DoesBy (D.finds disk.now) (noticed_of notice o self.old
            (seen params.entry) (uri_in (seen params.entry))) self.new out.old out.new result }
    {
        let Some(uri) = params::uri_of(params) else {
            return Ok(());
        };
        match path_of_uri(alloc, uri.as_bytes()) {
            Ok(Some(path)) => self.take_path(alloc, disk, out, notice, params, path.as_slice()),
            Ok(None) => Ok(()),
            Err(_) => self.drop_notice(out, uri.as_bytes()),
        }
    }

    /// What is found where a document is closed, whose file is read again.
    fn found_behind<D: Disk>(
        &self,
        alloc: Global,
        disk: &D,
        notice: Notice,
        path: &[u8],
        name: &[u8],
    ) -> Found
        ensures { AllByRecursion (D.finds disk.now)
            (read_behind notice (found_in result) self.now.work path.now name.now) }
    {
        if notice.is_closing() && self.work.documents().is_open(name) {
            disk.read(alloc, path, most_read(self.work.desk()), 0)
        } else {
            Found::Gone
        }
    }

    /// Takes a notification about the document of a path.
    fn take_path<D: Disk, W: Write>(
        &mut self,
        alloc: Global,
        disk: &D,
        out: &mut Sink<W>,
        notice: Notice,
        params: Option<&Value<'_>>,
        path: &[u8],
    ) -> Result<(), WriteFault>
        ensures { (o : Oracle) × DoesBy (D.finds disk.now) (noticed_at notice o self.old
            (seen params.entry) path.now) self.new out.old out.new result }
    {
        let name = self.root.name(path);
        if is_document_name(name) {
            let found = self.found_behind(alloc, disk, notice, path, name);
            let told = self
                .work
                .take_notice(alloc, self.encoding, notice, params, name, found);
            return put_told(out, name, told);
        }
        if opens_as_c(notice, path) {
            return put_bad_name(out, path);
        }
        Ok(())
    }

    /// Takes file events.
    fn take_files<D: Disk, W: Write>(
        &mut self,
        alloc: Global,
        disk: &D,
        out: &mut Sink<W>,
        params: Option<&Value<'_>>,
    ) -> Result<(), WriteFault>
        ensures { (o : Oracle) × DoesBy (D.finds disk.now) (happened_in o self.old
            (items_in (member_of (codes "changes") (seen params.entry)))) self.new
            out.old out.new result }
    {
        let Some(events) = params::items_in(params::member(params, "changes")) else {
            return Ok(());
        };
        'events: for i in 0..events.len() {
            let event = &events[i];
            self.take_unless(
                alloc,
                disk,
                out,
                comes_again(event, &events[i + 1..]),
                event,
            )?;
        }
        Ok(())
    }

    /// Takes a file event, unless it comes again.
    fn take_unless<D: Disk, W: Write>(
        &mut self,
        alloc: Global,
        disk: &D,
        out: &mut Sink<W>,
        again: bool,
        event: &Value<'_>,
    ) -> Result<(), WriteFault>
        ensures { (no_path no_text : Bool) × (found : Reading) × DoesBy (D.finds disk.now) (happened
            (one_event no_path no_text found) self.old (event_if again (value_view event.now)))
            self.new out.old out.new result }
    {
        if again {
            Ok(())
        } else {
            self.take_event(alloc, disk, out, event)
        }
    }

    /// Takes a file event.
    fn take_event<D: Disk, W: Write>(
        &mut self,
        alloc: Global,
        disk: &D,
        out: &mut Sink<W>,
        event: &Value<'_>,
    ) -> Result<(), WriteFault>
        ensures { (no_path no_text : Bool) × (found : Reading) × DoesBy (D.finds disk.now) (happened
            (one_event no_path no_text found) self.old (value_view event.now)) self.new
            out.old out.new result }
    {
        let Some(kind) = params::event_of(event) else {
            return Ok(());
        };
        let Some(uri) = params::text_in(event.get("uri")) else {
            return Ok(());
        };
        match path_of_uri(alloc, uri.as_bytes()) {
            Ok(Some(path)) => self.take_event_at(alloc, disk, out, kind, path.as_slice()),
            Ok(None) => Ok(()),
            Err(_) => put_unread(out, uri.as_bytes()),
        }
    }

    /// Takes a file event about the file of a path.
    fn take_event_at<D: Disk, W: Write>(
        &mut self,
        alloc: Global,
        disk: &D,
        out: &mut Sink<W>,
        kind: FileEvent,
        path: &[u8],
    ) -> Result<(), WriteFault>
        ensures { (no_text : Bool) × (found : Reading) × DoesBy (D.finds disk.now) (happened_at kind
            (one_change no_text found) self.old (Some path.now)) self.new out.old out.new result }
    {
        match kind {
            FileEvent::Written => self.renew(alloc, disk, out, path),
            FileEvent::Gone => self.remove(alloc, out, path),
        }
    }

    /// Reads the file of a path again, which was written.
    fn renew<D: Disk, W: Write>(
        &mut self,
        alloc: Global,
        disk: &D,
        out: &mut Sink<W>,
        path: &[u8],
    ) -> Result<(), WriteFault>
        ensures { (no_text : Bool) × (found : Reading) × DoesBy (D.finds disk.now)
            (happened_at FileEvent.Written (one_change no_text found) self.old (Some path.now))
            self.new out.old out.new result }
    {
        let name = self.root.name(path);
        if !self.work.renews(name, may_enter(path, name)) {
            return Ok(());
        }
        let only = self.work.only_name(name);
        let found = disk.read(alloc, path, most_read(self.work.desk()), only);
        let told = self.work.give_found(alloc, name, found, None);
        put_told(out, name, told)
    }

    /// Takes away the file of a path.
    fn remove<W: Write>(
        &mut self,
        alloc: Global,
        out: &mut Sink<W>,
        path: &[u8],
    ) -> Result<(), WriteFault>
        ensures { (no_memory : Bool) × (found : Reading) × Does (happened_at FileEvent.Gone
            (one_change no_memory found) self.old (Some path.now)) self.new out.old out.new
            result }
    {
        let name = self.root.name(path);
        let told = self.work.remove(alloc, name);
        put_told(out, name, told)
    }
}
