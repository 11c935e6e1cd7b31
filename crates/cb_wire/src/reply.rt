//! Replies, and the notifications of the server.
ghost use Rattle.std.specs.Prelude.{◌≡◌, ◌<◌, ◌^◌, codes};
ghost use Rattle.cb_tags.specs.Writing.{Puts};
ghost use Rattle.cb_wire.specs.Replies.{code_text, error_body, log_body, result_body, result_head};
ghost use Rattle.cb_wire.specs.Replies.{show_body};
ghost use Rattle.cb_wire.specs.Texts.{frame, part_text};
ghost use Rattle.cb_wire.specs.Values.{range_tree, value_text};

use crate::part::put_head;
use crate::{Id, Part, Range, parts_length, put_message, put_parts};
use cb_tags::{Sink, WriteFault, put_text};
use std::io::Write;

/// Why a request has no result.
#[derive(Clone, Copy, Debug, PartialEq, Eq)]
pub enum ErrorCode {
    /// It came before `initialize`.
    ServerNotInitialized,
    /// It may not come any more.
    InvalidRequest,
    /// Its method is unknown.
    MethodNotFound,
    /// Its parameters are not those of its method.
    InvalidParams,
    /// It cannot be done.
    RequestFailed,
}

/// The number of a code.
fn code_text(code: ErrorCode) -> &'static [u8]
    ensures { result.now ≡ code_text code }
{
    match code {
        ErrorCode::ServerNotInitialized => b"-32002",
        ErrorCode::InvalidRequest => b"-32600",
        ErrorCode::MethodNotFound => b"-32601",
        ErrorCode::InvalidParams => b"-32602",
        ErrorCode::RequestFailed => b"-32803",
    }
}

/// Writes a reply with a result, the text of a value.
pub fn put_result<'a, W: Write>(
    out: &mut Sink<W>,
    id: Id<'a>,
    value: &'a [u8],
) -> Result<(), WriteFault>
    ensures { Puts out.old out.new result (frame (result_body id.entry value.now)) }
{
    put_message(
        out,
        &[
            Part::Raw(b"{\"jsonrpc\":\"2.0\",\"id\":"),
            Part::Id(id),
            Part::Raw(b",\"result\":"),
            Part::Raw(value),
            Part::Raw(b"}"),
        ],
    )
}

/// Writes a reply whose result is a range.
pub fn put_range_result<W: Write>(
    out: &mut Sink<W>,
    id: Id<'_>,
    range: Range,
) -> Result<(), WriteFault>
    ensures { Puts out.old out.new result
        (frame (result_body id.entry (value_text (range_tree range)))) }
{
    put_message(
        out,
        &[
            Part::Raw(b"{\"jsonrpc\":\"2.0\",\"id\":"),
            Part::Id(id),
            Part::Raw(b",\"result\":"),
            Part::Range(range),
            Part::Raw(b"}"),
        ],
    )
}

/// Writes a reply up to its result, which has so many bytes. The result is to follow, and then the
/// end.
pub fn put_result_head<W: Write>(
    out: &mut Sink<W>,
    id: Id<'_>,
    length: usize,
) -> Result<(), WriteFault>
    ensures { Puts out.old out.new result (result_head id.entry length) }
{
    put_result_front(out, id, length as u128)
}

/// Writes a reply up to its result, which has so many bytes.
pub(crate) fn put_result_front<W: Write>(
    out: &mut Sink<W>,
    id: Id<'_>,
    length: u128,
) -> Result<(), WriteFault>
    requires { length < 2 ^ 127 }
    ensures { Puts out.old out.new result (result_head id.entry length) }
{
    let front = [
        Part::Raw(b"{\"jsonrpc\":\"2.0\",\"id\":"),
        Part::Id(id),
        Part::Raw(b",\"result\":"),
    ];
    put_head(out, parts_length(&front) + length + 1)?;
    put_parts(out, &front)
}

/// Writes the end of a reply whose result was written.
pub fn put_result_end<W: Write>(out: &mut Sink<W>) -> Result<(), WriteFault>
    ensures { Puts out.old out.new result (codes "}") }
{
    put_text(out, b"}")
}

/// Writes a reply that tells an error, by its code and a text of two parts.
pub fn put_error<'a, W: Write>(
    out: &mut Sink<W>,
    id: Id<'a>,
    code: ErrorCode,
    text: &'a [u8],
    more: &'a [u8],
) -> Result<(), WriteFault>
    ensures { Puts out.old out.new result
        (frame (error_body id.entry code text.now more.now)) }
{
    put_message(
        out,
        &[
            Part::Raw(b"{\"jsonrpc\":\"2.0\",\"id\":"),
            Part::Id(id),
            Part::Raw(b",\"error\":{\"code\":"),
            Part::Raw(code_text(code)),
            Part::Raw(b",\"message\":\""),
            Part::Escaped(text),
            Part::Escaped(more),
            Part::Raw(b"\"}}"),
        ],
    )
}

/// Writes the notification that logs a text.
pub fn put_log<W: Write>(out: &mut Sink<W>, text: &[u8]) -> Result<(), WriteFault>
    ensures { Puts out.old out.new result (frame (log_body text.now)) }
{
    put_message(
        out,
        &[
            Part::Raw(b"{\"jsonrpc\":\"2.0\",\"method\":\"window/logMessage\","),
            Part::Raw(b"\"params\":{\"type\":1,\"message\":\"cbrowse: "),
            Part::Escaped(text),
            Part::Raw(b"\"}}"),
        ],
    )
}

/// Writes the notification that shows a text on a name, a part inside a string of JSON.
pub fn put_show<'a, W: Write>(
    out: &mut Sink<W>,
    name: Part<'a>,
    text: &'a [u8],
) -> Result<(), WriteFault>
    ensures { Puts out.old out.new result
        (frame (show_body (part_text name.entry) text.now)) }
{
    put_message(
        out,
        &[
            Part::Raw(b"{\"jsonrpc\":\"2.0\",\"method\":\"window/showMessage\","),
            Part::Raw(b"\"params\":{\"type\":2,\"message\":\"cbrowse: "),
            name,
            Part::Raw(b": "),
            Part::Escaped(text),
            Part::Raw(b"\"}}"),
        ],
    )
}
