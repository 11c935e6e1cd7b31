//! What requests ask of the files.
ghost use Rattle.std.specs.Prelude.{◌≡◌};
ghost use Rattle.std.specs.Option.{option_map};
ghost use Rattle.cb_lsp.specs.Models.{asked_in, asked_of};
ghost use Rattle.cb_lsp.specs.Questions.{asked_by, asked_of_files_by, at_place, calls_by, calls_to};
ghost use Rattle.cb_lsp.specs.Questions.{completing, folds, in_file, or_bad, rename_with, uses_at};
ghost use Rattle.cb_lsp.specs.Questions.{workspace_symbols};
ghost use Rattle.cb_lsp.specs.Params.{declarations_in, item_name, item_start, item_uri};
ghost use Rattle.cb_lsp.specs.Params.{new_name_in, position_in, query_in, uri_in};
ghost use Rattle.cb_lsp.specs.steps.Values.{seen};

use crate::params::{
    declarations_of, item_name, item_start, item_uri, new_name_of, position_of, query_of, uri_of,
};
use cb_wire::{Call, Position};

/// A question about what stands at a position of a file.
#[derive(Clone, Copy, Debug, PartialEq, Eq)]
pub(crate) enum PlaceQuestion {
    /// Where it is defined.
    Definition,
    /// Where it is declared, or else defined.
    Declaration,
    /// What it is.
    Hover,
    /// Its uses in the file.
    Highlights,
    /// Its uses in all files of its reach, with the names of definitions or without them.
    References(bool),
    /// Its range, if it may be renamed.
    PrepareRename,
    /// The functions and macros that it means.
    Callables,
}

/// A question about one file.
#[derive(Clone, Copy, Debug, PartialEq, Eq)]
pub(crate) enum FileQuestion {
    /// Its symbols.
    Symbols,
    /// What stands at a position.
    At(Position, PlaceQuestion),
    /// The names that complete the word before a position.
    Completions(Position),
}

/// A question about the files.
#[derive(Clone, Copy, Debug, PartialEq, Eq)]
pub(crate) enum Question<'a> {
    /// About the file of a URI.
    InFile(&'a str, FileQuestion),
    /// The symbols of the session that a query names.
    WorkspaceSymbols(&'a str),
    /// How the word at a position of the file of a URI is given another name.
    Rename(&'a str, Position, &'a str),
    /// Who calls a name that stands in the file of a URI.
    Incoming(&'a str, &'a str),
    /// What is called by what has a name at a position of the file of a URI.
    Outgoing(&'a str, &'a str, Position),
    /// What is folded of the file of a URI.
    Folds(&'a str),
}

/// Why a request asks nothing.
#[derive(Clone, Copy, Debug, PartialEq, Eq)]
pub(crate) enum Unasked {
    UnknownMethod,
    BadParameters,
}

/// The question that is made, if there is one.
fn or_bad(question: Option<Question<'_>>) -> Result<Question<'_>, Unasked>
    ensures { asked_in result ≡ or_bad (option_map asked_of question.entry) }
{
    match question {
        Some(question) => Ok(question),
        None => Err(Unasked::BadParameters),
    }
}

fn document_symbols<'v, 'a>(call: Call<'v, 'a>) -> Option<Question<'a>>
    ensures { option_map asked_of result ≡ option_map (λ uri. in_file uri FileQuestion.Symbols)
        (uri_in (seen call.entry.params)) }
{
    Some(Question::InFile(uri_of(call.params)?, FileQuestion::Symbols))
}

/// A question about what stands at a position.
fn at_place<'v, 'a>(call: Call<'v, 'a>, question: PlaceQuestion) -> Option<Question<'a>>
    ensures { option_map asked_of result ≡ at_place question
        (uri_in (seen call.entry.params)) (position_in (seen call.entry.params)) }
{
    let uri = uri_of(call.params)?;
    let position = position_of(call.params)?;
    Some(Question::InFile(uri, FileQuestion::At(position, question)))
}

fn references<'v, 'a>(call: Call<'v, 'a>) -> Option<Question<'a>>
    ensures { option_map asked_of result ≡ uses_at (uri_in (seen call.entry.params))
        (position_in (seen call.entry.params)) (declarations_in (seen call.entry.params)) }
{
    let declarations = declarations_of(call.params)?;
    at_place(call, PlaceQuestion::References(declarations))
}

fn rename<'v, 'a>(call: Call<'v, 'a>) -> Option<Question<'a>>
    ensures { option_map asked_of result ≡ rename_with (uri_in (seen call.entry.params))
        (position_in (seen call.entry.params)) (new_name_in (seen call.entry.params)) }
{
    let uri = uri_of(call.params)?;
    let position = position_of(call.params)?;
    let new_name = new_name_of(call.params)?;
    Some(Question::Rename(uri, position, new_name))
}

fn completions<'v, 'a>(call: Call<'v, 'a>) -> Option<Question<'a>>
    ensures { option_map asked_of result ≡ completing
        (uri_in (seen call.entry.params)) (position_in (seen call.entry.params)) }
{
    let uri = uri_of(call.params)?;
    let position = position_of(call.params)?;
    Some(Question::InFile(uri, FileQuestion::Completions(position)))
}

fn workspace_symbols<'v, 'a>(call: Call<'v, 'a>) -> Option<Question<'a>>
    ensures { option_map asked_of result
        ≡ option_map workspace_symbols (query_in (seen call.entry.params)) }
{
    Some(Question::WorkspaceSymbols(query_of(call.params)?))
}

fn incoming<'v, 'a>(call: Call<'v, 'a>) -> Option<Question<'a>>
    ensures { option_map asked_of result
        ≡ calls_to (item_name (seen call.entry.params)) (item_uri (seen call.entry.params)) }
{
    let name = item_name(call.params)?;
    let uri = item_uri(call.params)?;
    Some(Question::Incoming(name, uri))
}

fn outgoing<'v, 'a>(call: Call<'v, 'a>) -> Option<Question<'a>>
    ensures { option_map asked_of result
        ≡ calls_by (item_name (seen call.entry.params)) (item_uri (seen call.entry.params))
        (item_start (seen call.entry.params)) }
{
    let name = item_name(call.params)?;
    let uri = item_uri(call.params)?;
    let position = item_start(call.params)?;
    Some(Question::Outgoing(name, uri, position))
}

fn folds<'v, 'a>(call: Call<'v, 'a>) -> Option<Question<'a>>
    ensures { option_map asked_of result ≡ option_map folds (uri_in (seen call.entry.params)) }
{
    Some(Question::Folds(uri_of(call.params)?))
}

/// The question that a call asks about the files together, or about the lines of one.
fn question_of_files<'v, 'a>(call: Call<'v, 'a>) -> Result<Question<'a>, Unasked>
    ensures { asked_in result
        ≡ asked_of_files_by call.entry.method.now (seen call.entry.params) }
{
    if call.method == "workspace/symbol" {
        or_bad(workspace_symbols(call))
    } else if call.method == "textDocument/rename" {
        or_bad(rename(call))
    } else if call.method == "callHierarchy/incomingCalls" {
        or_bad(incoming(call))
    } else if call.method == "callHierarchy/outgoingCalls" {
        or_bad(outgoing(call))
    } else if call.method == "textDocument/foldingRange" {
        or_bad(folds(call))
    } else {
        Err(Unasked::UnknownMethod)
    }
}

/// What a call asks.
pub(crate) fn question_of<'v, 'a>(call: Call<'v, 'a>) -> Result<Question<'a>, Unasked>
    ensures { asked_in result ≡ asked_by call.entry.method.now (seen call.entry.params) }
{
    if call.method == "textDocument/documentSymbol" {
        or_bad(document_symbols(call))
    } else if call.method == "textDocument/definition" {
        or_bad(at_place(call, PlaceQuestion::Definition))
    } else if call.method == "textDocument/declaration" {
        or_bad(at_place(call, PlaceQuestion::Declaration))
    } else if call.method == "textDocument/hover" {
        or_bad(at_place(call, PlaceQuestion::Hover))
    } else if call.method == "textDocument/documentHighlight" {
        or_bad(at_place(call, PlaceQuestion::Highlights))
    } else if call.method == "textDocument/references" {
        or_bad(references(call))
    } else if call.method == "textDocument/prepareRename" {
        or_bad(at_place(call, PlaceQuestion::PrepareRename))
    } else if call.method == "textDocument/prepareCallHierarchy" {
        or_bad(at_place(call, PlaceQuestion::Callables))
    } else if call.method == "textDocument/completion" {
        or_bad(completions(call))
    } else {
        question_of_files(call)
    }
}
