//! What is written besides answers.
ghost use Rattle.std.specs.Prelude.{◌++◌, ◌∷◌, [], Err, codes};
ghost use Rattle.std.specs.Option.{option_copied};
ghost use Rattle.json.specs.Json.{null};
ghost use Rattle.cb_tags.specs.Writing.{Puts};
ghost use Rattle.cb_wire.specs.Messages.{id_json};
ghost use Rattle.cb_wire.specs.declared.reply.ErrorCode.TheVariants.{RequestFailed};
ghost use Rattle.cb_wire.specs.Texts.{frame};
ghost use Rattle.cb_wire.specs.Trees.{error_reply, result_reply};
ghost use Rattle.cb_wire.specs.Uris.{escaped};
ghost use Rattle.cb_wire.specs.Values.{value_text};
ghost use Rattle.cb_lsp.specs.Answers.{answer_reply};
ghost use Rattle.cb_lsp.specs.Renames.{odd_bytes, unknown_type};
ghost use Rattle.cb_lsp.specs.Messages.{log_of, out_of_memory, out_of_memory_reply, show_if};
ghost use Rattle.cb_lsp.specs.Messages.{show_of, unasked_reply};
ghost use Rattle.cb_lsp.specs.Bodies.{written_text};

use crate::question::Unasked;
use cb_tags::{Sink, WriteFault};
use cb_wire::{ErrorCode, Id, Part, put_error, put_log, put_message, put_result, put_show};
use std::io::Write;

/// Writes why a request asks nothing.
pub(crate) fn put_unasked<W: Write>(
    out: &mut Sink<W>,
    id: Id<'_>,
    why: Unasked,
) -> Result<(), WriteFault>
    ensures { Puts out.old out.new result
        (frame (value_text (unasked_reply (id_json id.entry) why))) }
{
    match why {
        Unasked::UnknownMethod => {
            put_failure(out, id, ErrorCode::MethodNotFound, b"unknown method")
        }
        Unasked::BadParameters => {
            put_failure(out, id, ErrorCode::InvalidParams, b"bad parameters")
        }
    }
}

/// Writes what is told of the document of a file, if anything.
pub(crate) fn put_told<W: Write>(
    out: &mut Sink<W>,
    name: &[u8],
    told: Option<&'static str>,
) -> Result<(), WriteFault>
    ensures { Puts out.old out.new result
        (written_text (show_if name.now (option_copied told.entry))) }
{
    match told {
        Some(why) => put_show(out, Part::Escaped(name), why.as_bytes()),
        None => Ok(()),
    }
}

/// Writes that there is no answer.
pub(crate) fn put_null<W: Write>(out: &mut Sink<W>, id: Id<'_>) -> Result<(), WriteFault>
    ensures { Puts out.old out.new result
        (frame (value_text (result_reply (id_json id.entry) null))) }
{
    put_result(out, id, b"null")
}

/// Writes that memory was refused to a request.
pub(crate) fn put_refusal<W: Write>(out: &mut Sink<W>, id: Id<'_>) -> Result<(), WriteFault>
    ensures { Puts out.old out.new result
        (frame (value_text (out_of_memory_reply (id_json id.entry)))) }
{
    put_error(out, id, ErrorCode::RequestFailed, b"out of memory", b"")
}

/// Writes that memory was refused to a URI.
pub(crate) fn put_unread<W: Write>(out: &mut Sink<W>, uri: &[u8]) -> Result<(), WriteFault>
    ensures { Puts out.old out.new result
        (frame (value_text (show_of uri.now out_of_memory))) }
{
    put_show(out, Part::Escaped(uri), b"out of memory")
}

/// Writes that a path is no name of a file.
pub(crate) fn put_bad_name<W: Write>(out: &mut Sink<W>, path: &[u8]) -> Result<(), WriteFault>
    ensures { Puts out.old out.new result
        (frame (value_text (show_of (escaped path.now) (codes "bad name")))) }
{
    put_show(out, Part::Path(path), b"bad name")
}

/// Writes that a request has no result.
pub(crate) fn put_failure<W: Write>(
    out: &mut Sink<W>,
    id: Id<'_>,
    code: ErrorCode,
    text: &[u8],
) -> Result<(), WriteFault>
    ensures { Puts out.old out.new result
        (frame (value_text (error_reply (id_json id.entry) code text.now))) }
{
    put_error(out, id, code, text, b"")
}

/// Writes why a rename is refused.
pub(crate) fn put_refused<W: Write>(
    out: &mut Sink<W>,
    id: Id<'_>,
    text: &[u8],
) -> Result<(), WriteFault>
    ensures { Puts out.old out.new result
        (frame (value_text (error_reply (id_json id.entry) RequestFailed text.now))) }
{
    put_failure(out, id, ErrorCode::RequestFailed, text)
}

/// Writes why a rename is refused, and what is the cause.
pub(crate) fn put_because<W: Write>(
    out: &mut Sink<W>,
    id: Id<'_>,
    text: &[u8],
    cause: &[u8],
) -> Result<(), WriteFault>
    ensures { Puts out.old out.new result (frame (value_text
        (error_reply (id_json id.entry) RequestFailed (text.now ++ cause.now)))) }
{
    put_error(out, id, ErrorCode::RequestFailed, text, cause)
}

/// Writes that the type of a member is not known, on a line of a file.
pub(crate) fn put_unknown_type<'a, W: Write>(
    out: &mut Sink<W>,
    id: Id<'a>,
    file: &'a [u8],
    line: u32,
) -> Result<(), WriteFault>
    ensures { Puts out.old out.new result (frame (value_text (answer_reply (id_json id.entry)
        (Err (unknown_type file.now line))))) }
{
    put_message(
        out,
        &[
            Part::Raw(b"{\"jsonrpc\":\"2.0\",\"id\":"),
            Part::Id(id),
            Part::Raw(b",\"error\":{\"code\":-32803,\"message\":\"type is not known: "),
            Part::Escaped(file),
            Part::Raw(b":"),
            Part::Number(line as usize),
            Part::Raw(b"\"}}"),
        ],
    )
}

/// Writes that bytes beside a use are the cause, on a line of a file.
pub(crate) fn put_odd_bytes<'a, W: Write>(
    out: &mut Sink<W>,
    id: Id<'a>,
    file: &'a [u8],
    line: u32,
) -> Result<(), WriteFault>
    ensures { Puts out.old out.new result (frame (value_text (answer_reply (id_json id.entry)
        (Err (odd_bytes file.now line))))) }
{
    put_message(
        out,
        &[
            Part::Raw(b"{\"jsonrpc\":\"2.0\",\"id\":"),
            Part::Id(id),
            Part::Raw(b",\"error\":{\"code\":-32803,\"message\":\"odd bytes: "),
            Part::Escaped(file),
            Part::Raw(b":"),
            Part::Number(line as usize),
            Part::Raw(b"\"}}"),
        ],
    )
}

/// Writes a text to the log of the client.
pub(crate) fn log<W: Write>(out: &mut Sink<W>, text: &[u8]) -> Result<(), WriteFault>
    ensures { Puts out.old out.new result (written_text (log_of text.now ∷ [])) }
{
    put_log(out, text)
}
