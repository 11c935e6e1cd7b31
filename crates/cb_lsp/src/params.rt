//! The parameters of requests and notifications.
ghost use Rattle.std.specs.Prelude.{◌≡◌};
ghost use Rattle.std.specs.Option.{option_map};
ghost use Rattle.json.specs.Value.{items_view, value_view};
ghost use Rattle.cb_lsp.specs.Models.{change_seen};
ghost use Rattle.cb_lsp.specs.Params.{are_changes, bool_in, change_of, changes_among, changes_in};
ghost use Rattle.cb_lsp.specs.Params.{declarations_in, document_text, event_of, first_of, has_text};
ghost use Rattle.cb_lsp.specs.Params.{is_change, is_text, is_true, item_name, item_start, item_uri};
ghost use Rattle.cb_lsp.specs.Params.{items_in, member_of, new_name_in, number_in, position_at};
ghost use Rattle.cb_lsp.specs.Params.{position_in, prepares_renames, query_in, range_at, root_in};
ghost use Rattle.cb_lsp.specs.Params.{takes_trees, takes_utf8, takes_watchers, text_in};
ghost use Rattle.cb_lsp.specs.Params.{unless_null, uri_in};
ghost use Rattle.cb_lsp.specs.steps.Values.{seen};

use crate::change::TextChange;
use crate::notice::FileEvent;
use cb_wire::{Position, Range};
use json::Value;

/// A member of a value, if it has one.
pub(crate) fn member<'v, 'a>(value: Option<&'v Value<'a>>, name: &str) -> Option<&'v Value<'a>>
    ensures { seen result ≡ member_of name.now (seen value.entry) }
{
    match value {
        Some(value) => value.get(name),
        None => None,
    }
}

/// The text of a value, if it is one.
pub(crate) fn text_in<'v, 'a>(value: Option<&'v Value<'a>>) -> Option<&'a str>
    ensures { option_map (λ s. s.now) result ≡ text_in (seen value.entry) }
{
    match value {
        Some(value) => value.as_str(),
        None => None,
    }
}

/// The number of a value, if it is an integer from 0 up.
fn number_in<'v, 'a>(value: Option<&'v Value<'a>>) -> Option<usize>
    ensures { result ≡ number_in (seen value.entry) }
{
    match value {
        Some(value) => match value.as_u64() {
            Some(number) => Some(number as usize),
            None => None,
        },
        None => None,
    }
}

/// The items of a value, if it is a list.
pub(crate) fn items_in<'v, 'a>(value: Option<&'v Value<'a>>) -> Option<&'v [Value<'a>]>
    ensures { option_map (λ items. items_view items.now) result ≡ items_in (seen value.entry) }
{
    match value {
        Some(Value::Array(items)) => Some(items.as_slice()),
        _ => None,
    }
}

/// The truth value of a value, if it is one.
fn bool_in<'v, 'a>(value: Option<&'v Value<'a>>) -> Option<bool>
    ensures { result ≡ bool_in (seen value.entry) }
{
    match value {
        Some(value) => value.as_bool(),
        None => None,
    }
}

/// Whether a value is `true`.
fn is_true<'v, 'a>(value: Option<&'v Value<'a>>) -> bool
    ensures { result ≡ is_true (seen value.entry) }
{
    bool_in(value) == Some(true)
}

/// `textDocument.uri`.
pub(crate) fn uri_of<'v, 'a>(params: Option<&'v Value<'a>>) -> Option<&'a str>
    ensures { option_map (λ s. s.now) result ≡ uri_in (seen params.entry) }
{
    text_in(member(member(params, "textDocument"), "uri"))
}

/// `textDocument.text`.
pub(crate) fn text_of<'v, 'a>(params: Option<&'v Value<'a>>) -> Option<&'a str>
    ensures { option_map (λ s. s.now) result ≡ document_text (seen params.entry) }
{
    text_in(member(member(params, "textDocument"), "text"))
}

/// `query`.
pub(crate) fn query_of<'v, 'a>(params: Option<&'v Value<'a>>) -> Option<&'a str>
    ensures { option_map (λ s. s.now) result ≡ query_in (seen params.entry) }
{
    text_in(member(params, "query"))
}

/// `item.name`
pub(crate) fn item_name<'v, 'a>(params: Option<&'v Value<'a>>) -> Option<&'a str>
    ensures { option_map (λ s. s.now) result ≡ item_name (seen params.entry) }
{
    text_in(member(member(params, "item"), "name"))
}

/// `item.uri`
pub(crate) fn item_uri<'v, 'a>(params: Option<&'v Value<'a>>) -> Option<&'a str>
    ensures { option_map (λ s. s.now) result ≡ item_uri (seen params.entry) }
{
    text_in(member(member(params, "item"), "uri"))
}

/// `item.selectionRange.start`
pub(crate) fn item_start<'v, 'a>(params: Option<&'v Value<'a>>) -> Option<Position>
    ensures { result ≡ item_start (seen params.entry) }
{
    let range = member(member(params, "item"), "selectionRange");
    position_at(member(range, "start"))
}

/// A position: a line and a character, integers from 0 up.
fn position_at<'v, 'a>(value: Option<&'v Value<'a>>) -> Option<Position>
    ensures { result ≡ position_at (seen value.entry) }
{
    let line = number_in(member(value, "line"))?;
    let character = number_in(member(value, "character"))?;
    Some(Position { line, character })
}

/// `position`
pub(crate) fn position_of<'v, 'a>(params: Option<&'v Value<'a>>) -> Option<Position>
    ensures { result ≡ position_in (seen params.entry) }
{
    position_at(member(params, "position"))
}

/// `context.includeDeclaration`
pub(crate) fn declarations_of<'v, 'a>(params: Option<&'v Value<'a>>) -> Option<bool>
    ensures { result ≡ declarations_in (seen params.entry) }
{
    bool_in(member(member(params, "context"), "includeDeclaration"))
}

/// `newName`
pub(crate) fn new_name_of<'v, 'a>(params: Option<&'v Value<'a>>) -> Option<&'a str>
    ensures { option_map (λ s. s.now) result ≡ new_name_in (seen params.entry) }
{
    text_in(member(params, "newName"))
}

/// A range: a start and an end.
fn range_at<'v, 'a>(value: Option<&'v Value<'a>>) -> Option<Range>
    ensures { result ≡ range_at (seen value.entry) }
{
    let start = position_at(member(value, "start"))?;
    let end = position_at(member(value, "end"))?;
    Some(Range { start, end })
}

/// Whether the client takes symbols of a document as a tree.
pub(crate) fn takes_trees<'v, 'a>(params: Option<&'v Value<'a>>) -> bool
    ensures { result ≡ takes_trees (seen params.entry) }
{
    let document = member(member(params, "capabilities"), "textDocument");
    let symbol = member(document, "documentSymbol");
    is_true(member(symbol, "hierarchicalDocumentSymbolSupport"))
}

/// Whether the client asks what would be renamed.
pub(crate) fn prepares_renames<'v, 'a>(params: Option<&'v Value<'a>>) -> bool
    ensures { result ≡ prepares_renames (seen params.entry) }
{
    let document = member(member(params, "capabilities"), "textDocument");
    is_true(member(member(document, "rename"), "prepareSupport"))
}

/// Whether the client can be asked to tell of files that are written.
pub(crate) fn takes_watchers<'v, 'a>(params: Option<&'v Value<'a>>) -> bool
    ensures { result ≡ takes_watchers (seen params.entry) }
{
    let workspace = member(member(params, "capabilities"), "workspace");
    is_true(member(
        member(workspace, "didChangeWatchedFiles"),
        "dynamicRegistration",
    ))
}

/// Whether a value is this text.
fn is_text<'v, 'a>(value: &'v Value<'a>, text: &str) -> bool
    ensures { result ≡ is_text text.now (value_view value.now) }
{
    match value.as_str() {
        Some(other) => other == text,
        None => false,
    }
}

/// Whether one of these values is a text.
fn has_text(values: &[Value<'_>], text: &str) -> bool
    ensures { result ≡ has_text text.now (items_view values.now) }
{
    'values: for value in values {
        if is_text(value, text) {
            return true;
        }
    }
    false
}

/// Whether the client takes positions in UTF-8.
pub(crate) fn takes_utf8<'v, 'a>(params: Option<&'v Value<'a>>) -> bool
    ensures { result ≡ takes_utf8 (seen params.entry) }
{
    let general = member(member(params, "capabilities"), "general");
    match items_in(member(general, "positionEncodings")) {
        Some(encodings) => has_text(encodings, "utf-8"),
        None => false,
    }
}

/// The first item of a value, if it is a list and has one.
fn first_in<'v, 'a>(value: Option<&'v Value<'a>>) -> Option<&'v Value<'a>>
    ensures { seen result ≡ first_of (seen value.entry) }
{
    match value {
        Some(value) => value.at(0),
        None => None,
    }
}

/// The URI of the first folder, or else of the root, if the client names one.
pub(crate) fn root_of<'v, 'a>(params: Option<&'v Value<'a>>) -> Option<&'a str>
    ensures { option_map (λ s. s.now) result ≡ root_in (seen params.entry) }
{
    let folder = first_in(member(params, "workspaceFolders"));
    match text_in(member(folder, "uri")) {
        Some(uri) => Some(uri),
        None => text_in(member(params, "rootUri")),
    }
}

/// A value, unless it is null.
fn unless_null<'v, 'a>(value: Option<&'v Value<'a>>) -> Option<&'v Value<'a>>
    ensures { seen result ≡ unless_null (seen value.entry) }
{
    match value {
        Some(Value::Null) => None,
        _ => value,
    }
}

/// A change: its text, and its range, unless that is null.
pub(crate) fn change_of<'v, 'a>(change: &'v Value<'a>) -> Option<TextChange<'a>>
    ensures { option_map change_seen result ≡ change_of (value_view change.now) }
{
    let text = text_in(change.get("text"))?;
    match unless_null(change.get("range")) {
        None => Some(TextChange::Whole(text)),
        range => Some(TextChange::Part(range_at(range)?, text)),
    }
}

/// Whether a value is a change.
fn is_change(value: &Value<'_>) -> bool
    ensures { result ≡ is_change (change_of (value_view value.now)) }
{
    match change_of(value) {
        Some(_) => true,
        None => false,
    }
}

/// Whether each of these values is a change.
fn are_changes(values: &[Value<'_>]) -> bool
    ensures { result ≡ are_changes (items_view values.now) }
{
    'values: for value in values {
        if !is_change(value) {
            return false;
        }
    }
    true
}

/// `contentChanges`, where each is a change.
pub(crate) fn changes_in<'v, 'a>(params: Option<&'v Value<'a>>) -> Option<&'v [Value<'a>]>
    ensures { option_map (λ values. changes_among (items_view values.now)) result
        ≡ changes_in (seen params.entry) }
{
    let changes = items_in(member(params, "contentChanges"))?;
    if are_changes(changes) {
        Some(changes)
    } else {
        None
    }
}

/// What a file event tells, if that is known.
pub(crate) fn event_of(event: &Value<'_>) -> Option<FileEvent>
    ensures { result ≡ event_of (value_view event.now) }
{
    let number = number_in(event.get("type"))?;
    if number == 3 {
        Some(FileEvent::Gone)
    } else if number == 1 || number == 2 {
        Some(FileEvent::Written)
    } else {
        None
    }
}
