//! Notifications about documents and files.
ghost use Rattle.std.specs.Prelude.{◌≡◌};
ghost use Rattle.json.specs.Value.{items_view, value_view};
ghost use Rattle.cb_lsp.specs.FileEvents.{comes_again, is_said, is_same_kind, says};

use crate::params::{event_of, text_in};
use json::Value;

/// A notification that does something.
#[derive(Clone, Copy, Debug, PartialEq, Eq)]
pub(crate) enum Notice {
    /// `initialized`
    Ready,
    /// `textDocument/didOpen`
    Open,
    /// `textDocument/didChange`
    Change,
    /// `textDocument/didSave`
    Save,
    /// `textDocument/didClose`
    Close,
    /// `workspace/didChangeWatchedFiles`
    Files,
}

/// What a file event tells.
#[derive(Clone, Copy, Debug, PartialEq, Eq)]
pub(crate) enum FileEvent {
    /// A file was made or changed.
    Written,
    /// A file was deleted.
    Gone,
}

/// So many events behind one are looked at for the same.
const MOST_AHEAD: usize = 64;

fn is_same_kind(one: FileEvent, other: FileEvent) -> bool
    ensures { result ≡ is_same_kind one other }
{
    match (one, other) {
        (FileEvent::Written, FileEvent::Written) => true,
        (FileEvent::Gone, FileEvent::Gone) => true,
        (FileEvent::Written, FileEvent::Gone) => false,
        (FileEvent::Gone, FileEvent::Written) => false,
    }
}

/// Whether an event says this of the file of a URI.
fn says(kind: FileEvent, uri: &str, event: &Value<'_>) -> bool
    ensures { result ≡ says kind uri.now (value_view event.now) }
{
    match (event_of(event), text_in(event.get("uri"))) {
        (Some(other), Some(name)) => is_same_kind(kind, other) && uri == name,
        _ => false,
    }
}

/// Whether one of the first events does.
fn is_said(kind: FileEvent, uri: &str, events: &[Value<'_>]) -> bool
    ensures { result ≡ is_said 64 kind uri.now (items_view events.now) }
{
    for i in 0..events.len() {
        if i == MOST_AHEAD {
            return false;
        }
        if says(kind, uri, &events[i]) {
            return true;
        }
    }
    false
}

/// Whether an event comes again: one of the next says the same of its file.
pub(crate) fn comes_again(event: &Value<'_>, more: &[Value<'_>]) -> bool
    ensures { result ≡ comes_again (value_view event.now) (items_view more.now) }
{
    match (event_of(event), text_in(event.get("uri"))) {
        (Some(kind), Some(uri)) => is_said(kind, uri, more),
        _ => false,
    }
}

impl Notice {
    ghost use Rattle.cb_lsp.specs.Messages.{is_closing, is_opening, notice_of};

    /// The notification of a method, if there is one.
    pub(crate) fn of_method(method: &str) -> Option<Notice>
        ensures { result ≡ notice_of method.now }
    {
        if method == "initialized" {
            Some(Notice::Ready)
        } else if method == "textDocument/didOpen" {
            Some(Notice::Open)
        } else if method == "textDocument/didChange" {
            Some(Notice::Change)
        } else if method == "textDocument/didSave" {
            Some(Notice::Save)
        } else if method == "textDocument/didClose" {
            Some(Notice::Close)
        } else if method == "workspace/didChangeWatchedFiles" {
            Some(Notice::Files)
        } else {
            None
        }
    }

    /// Whether a document is opened.
    pub(crate) fn is_opening(self) -> bool
        ensures { result ≡ is_opening self }
    {
        matches!(self, Notice::Open)
    }

    /// Whether a document is closed.
    pub(crate) fn is_closing(self) -> bool
        ensures { result ≡ is_closing self }
    {
        matches!(self, Notice::Close)
    }
}
