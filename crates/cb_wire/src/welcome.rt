//! The reply to `initialize`.
ghost use Rattle.std.specs.Prelude.{◌≡◌};
ghost use Rattle.cb_tags.specs.Writing.{Puts};
ghost use Rattle.cb_wire.specs.Messages.{id_json};
ghost use Rattle.cb_wire.specs.Texts.{frame};
ghost use Rattle.cb_wire.specs.Trees.{result_reply};
ghost use Rattle.cb_wire.specs.Values.{value_text};
ghost use Rattle.cb_wire.specs.Welcome.{encoding_name, renaming, welcome};

use crate::{Encoding, Id, Part, put_message};
use cb_tags::{Sink, WriteFault};
use std::io::Write;

/// An encoding, as the protocol names it.
fn encoding_name(encoding: Encoding) -> &'static [u8]
    ensures { result.now ≡ encoding_name encoding }
{
    match encoding {
        Encoding::Utf8 => b"utf-8",
        Encoding::Utf16 => b"utf-16",
    }
}

/// How it is told that names are renamed.
fn renaming(prepares: bool) -> &'static [u8]
    ensures { result.now ≡ value_text (renaming prepares) }
{
    if prepares {
        b"{\"prepareProvider\":true}"
    } else {
        b"true"
    }
}

/// Writes the reply to `initialize`: what the server does, its name and its version. A client that
/// prepares a change of a name is told that it may.
pub fn put_welcome<'a, W: Write>(
    out: &mut Sink<W>,
    id: Id<'a>,
    encoding: Encoding,
    prepares: bool,
    version: &'a [u8],
) -> Result<(), WriteFault>
    ensures { Puts out.old out.new result (frame (value_text
        (result_reply (id_json id.entry) (welcome encoding prepares version.now)))) }
{
    put_message(
        out,
        &[
            Part::Raw(b"{\"jsonrpc\":\"2.0\",\"id\":"),
            Part::Id(id),
            Part::Raw(b",\"result\":{\"capabilities\":{\"positionEncoding\":\""),
            Part::Escaped(encoding_name(encoding)),
            Part::Raw(b"\",\"textDocumentSync\":{\"openClose\":true,\"change\":2,\"save\":true},"),
            Part::Raw(b"\"hoverProvider\":true,\"completionProvider\":{},"),
            Part::Raw(b"\"definitionProvider\":true,\"declarationProvider\":true,"),
            Part::Raw(b"\"referencesProvider\":true,\"documentHighlightProvider\":true,"),
            Part::Raw(b"\"documentSymbolProvider\":true,\"workspaceSymbolProvider\":true,"),
            Part::Raw(b"\"renameProvider\":"),
            Part::Raw(renaming(prepares)),
            Part::Raw(b",\"callHierarchyProvider\":true,\"foldingRangeProvider\":true},"),
            Part::Raw(b"\"serverInfo\":{\"name\":\"cbrowse\",\"version\":\""),
            Part::Escaped(version),
            Part::Raw(b"\"}}}"),
        ],
    )
}
