//! Bodies of messages, as a server takes them.
ghost use Rattle.std.specs.Prelude.{◌≡◌};
ghost use Rattle.cb_lsp.specs.Messages.{is_exit};
ghost use Rattle.cb_lsp.specs.Models.{message_in};
ghost use Rattle.cb_lsp.specs.steps.Turns.{going_on, some_last};

use crate::Server;
use crate::disk::Disk;
use crate::written::log;
use cb_tags::{Sink, WriteFault};
use cb_wire::{Message, message_of, text_of, value_of, with_whole_pairs};
use json::{Scratch, Value};
use std::alloc::Global;
use std::io::Write;

/// Whether the client ends a run by a message.
fn is_exit(message: &Message<'_, '_>) -> bool
    ensures { result ≡ is_exit (message_in message.now) }
{
    match message {
        Message::Notification(call) => call.method == "exit",
        _ => false,
    }
}

/// A run goes on behind what was written.
pub(crate) fn going_on(written: Result<(), WriteFault>) -> Result<bool, WriteFault>
    ensures { result ≡ going_on written }
{
    match written {
        Ok(()) => Ok(false),
        Err(fault) => Err(fault),
    }
}

/// Whether the client ends a run by a message that was JSON.
fn some_last(taken: Result<bool, WriteFault>) -> Result<Option<bool>, WriteFault>
    ensures { result ≡ some_last taken }
{
    match taken {
        Ok(last) => Ok(Some(last)),
        Err(fault) => Err(fault),
    }
}

impl Server {
    ghost use Rattle.std.specs.Prelude.{Some};
    ghost use Rattle.cb_lsp.specs.Documents.{Oracle};
    ghost use Rattle.json.specs.Json.{document};
    ghost use Rattle.json.specs.Value.{value_view};
    ghost use Rattle.cb_wire.specs.Messages.{text_of};
    ghost use Rattle.cb_wire.specs.Surrogates.{with_whole_pairs};
    ghost use Rattle.cb_lsp.specs.Messages.{does, dropped, log_of};
    ghost use Rattle.cb_lsp.specs.Bodies.{Does, DoesBy, IsMessage, IsValue, TakesBody};
    ghost use Rattle.cb_lsp.specs.steps.Turns.{TakesJson};

    /// Takes a message.
    fn message<D: Disk, W: Write>(
        &mut self,
        alloc: Global,
        disk: &D,
        out: &mut Sink<W>,
        message: Message<'_, '_>,
    ) -> Result<(), WriteFault>
        ensures { (o : Oracle) × DoesBy (D.finds disk.now)
            (does o self.old (message_in message.entry)) self.new out.old out.new result }
    {
        match message {
            Message::NotRequest => log(out, b"not a request"),
            Message::Reply => Ok(()),
            Message::Notification(call) => self.notice(alloc, disk, out, call),
            Message::Request(id, call) => self.request(alloc, disk, out, id, call),
        }
    }

    /// Takes the value of a message; whether the client ends the run by it.
    fn value<D: Disk, W: Write>(
        &mut self,
        alloc: Global,
        disk: &D,
        out: &mut Sink<W>,
        value: &Value<'_>,
    ) -> Result<bool, WriteFault>
        ensures { TakesBody (D.finds disk.now) (IsValue (Some (value_view value.now)))
            self.old self.new out.old out.new result }
    {
        let message = message_of(value);
        let last = is_exit(&message);
        match self.message(alloc, disk, out, message) {
            Ok(()) => Ok(last),
            Err(fault) => Err(fault),
        }
    }

    /// Logs why a body was dropped. It may have been a change, so all documents are lost.
    pub(crate) fn drop_body<W: Write>(
        &mut self,
        out: &mut Sink<W>,
        why: &[u8],
    ) -> Result<(), WriteFault>
        ensures { Does (dropped self.old (log_of why.now)) self.new out.old out.new result }
    {
        match log(out, why) {
            Ok(()) => self.lose_all(out),
            Err(fault) => Err(fault),
        }
    }

    /// Takes the text of a message, if it is JSON; whether the client ends the run by it.
    fn text<D: Disk, W: Write>(
        &mut self,
        alloc: Global,
        disk: &D,
        out: &mut Sink<W>,
        scratch: &mut Scratch,
        text: &str,
    ) -> Result<Option<bool>, WriteFault>
        ensures { TakesJson (D.finds disk.now) (document text.now) self.old self.new
            out.old out.new result }
    {
        match value_of(alloc, text, scratch) {
            Ok(Some(value)) => some_last(self.value(alloc, disk, out, &value)),
            Ok(None) => Ok(None),
            Err(_) => some_last(going_on(self.drop_body(out, b"out of memory"))),
        }
    }

    /// Takes a body, if it is JSON; whether the client ends the run by it.
    fn json<D: Disk, W: Write>(
        &mut self,
        alloc: Global,
        disk: &D,
        out: &mut Sink<W>,
        scratch: &mut Scratch,
        body: &[u8],
    ) -> Result<Option<bool>, WriteFault>
        ensures { TakesJson (D.finds disk.now) (document (text_of body.now)) self.old self.new
            out.old out.new result }
    {
        match text_of(alloc, body) {
            Ok(text) => self.text(alloc, disk, out, scratch, text.as_str()),
            Err(_) => some_last(going_on(self.drop_body(out, b"out of memory"))),
        }
    }

    /// Takes a body that is read with U+FFFD for each half of a surrogate pair alone; whether the
    /// client ends the run by it.
    fn paired<D: Disk, W: Write>(
        &mut self,
        alloc: Global,
        disk: &D,
        out: &mut Sink<W>,
        scratch: &mut Scratch,
        body: &[u8],
    ) -> Result<bool, WriteFault>
        ensures { TakesBody (D.finds disk.now)
            (IsValue (document (text_of (with_whole_pairs body.now)))) self.old self.new
            out.old out.new result }
    {
        match with_whole_pairs(alloc, body) {
            Ok(body) => match self.json(alloc, disk, out, scratch, body.as_slice()) {
                Ok(Some(last)) => Ok(last),
                Ok(None) => going_on(self.drop_body(out, b"not JSON")),
                Err(fault) => Err(fault),
            },
            Err(_) => going_on(self.drop_body(out, b"out of memory")),
        }
    }

    /// Takes the body of a message; whether the client ends the run by it.
    pub(crate) fn take_body<D: Disk, W: Write>(
        &mut self,
        alloc: Global,
        disk: &D,
        out: &mut Sink<W>,
        scratch: &mut Scratch,
        body: &[u8],
    ) -> Result<bool, WriteFault>
        ensures { TakesBody (D.finds disk.now) (IsMessage body.now) self.old self.new
            out.old out.new result }
    {
        match self.json(alloc, disk, out, scratch, body) {
            Ok(Some(last)) => Ok(last),
            Ok(None) => self.paired(alloc, disk, out, scratch, body),
            Err(fault) => Err(fault),
        }
    }
}
