//! The request that makes a client tell of files that are written.
ghost use Rattle.cb_tags.specs.Writing.{Puts};
ghost use Rattle.cb_wire.specs.Texts.{frame};
ghost use Rattle.cb_wire.specs.Values.{value_text};
ghost use Rattle.cb_wire.specs.Watchers.{watch_request};

use crate::{Part, put_message};
use cb_tags::{Sink, WriteFault};
use std::io::Write;

/// Asks the client to tell of C files that are made, written or deleted (`registerCapability` of
/// `workspace/didChangeWatchedFiles`). What it replies need not be looked at.
pub fn put_watch_request<W: Write>(out: &mut Sink<W>) -> Result<(), WriteFault>
    ensures { Puts out.old out.new result (frame (value_text watch_request)) }
{
    put_message(
        out,
        &[
            Part::Raw(b"{\"jsonrpc\":\"2.0\",\"id\":\"watch\","),
            Part::Raw(b"\"method\":\"client/registerCapability\",\"params\":{\"registrations\":["),
            Part::Raw(b"{\"id\":\"files\",\"method\":\"workspace/didChangeWatchedFiles\","),
            Part::Raw(b"\"registerOptions\":{\"watchers\":[{\"globPattern\":\"**/*.[ch]\"}]}}]}}"),
        ],
    )
}
