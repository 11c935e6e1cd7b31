//! What the body of a message asks for.
ghost use Rattle.std.specs.Prelude.{◌≡◌, ◌&&◌, ◌||◌, IfOk, MatchOption, option_map};
ghost use Rattle.std.specs.Cow.{cow_str_bytes};
ghost use Rattle.json.specs.Json.{document};
ghost use Rattle.json.specs.Value.{value_view};
ghost use Rattle.cb_wire.specs.Messages.{IsId, Judges, has, id_json, plain_id, plain_number};
ghost use Rattle.cb_wire.specs.Messages.{text_of};

use bstr::ByteSlice;
use json::{Error, Scratch, Value};
use std::alloc::{AllocError, Global};
use std::borrow::CowStr;

/// A growth of memory was refused.
#[derive(Clone, Copy, Debug, PartialEq, Eq)]
pub struct OutOfMemory;

/// The id of a request, as it comes back.
#[derive(Clone, Copy, Debug, PartialEq, Eq)]
pub enum Id<'a> {
    /// The text of an integer.
    Number(&'a str),
    /// A string.
    Text(&'a str),
}

/// What is asked for: a method and its parameters, if there are any.
#[derive(Clone, Copy)]
pub struct Call<'v, 'a> {
    pub method: &'a str,
    pub params: Option<&'v Value<'a>>,
}

/// A message.
#[derive(Clone, Copy)]
pub enum Message<'v, 'a> {
    /// No message of this protocol.
    NotRequest,
    /// A reply to a request of the server.
    Reply,
    /// A notification, which gets no reply.
    Notification(Call<'v, 'a>),
    /// A request, which gets one reply.
    Request(Id<'a>, Call<'v, 'a>),
}

/// The text of a body, with U+FFFD for each maximal piece that is no UTF-8. Memory is taken only
/// for a body that is no UTF-8.
pub fn text_of(alloc: Global, body: &[u8]) -> Result<CowStr<'_, Global>, AllocError>
    ensures { IfOk result (λ text. cow_str_bytes text ≡ text_of body.now) }
{
    body.to_str_lossy(alloc)
}

/// The value that a text is, or `None` where it is no JSON.
pub fn value_of<'a>(
    alloc: Global,
    text: &'a str,
    scratch: &'a mut Scratch,
) -> Result<Option<Value<'a>>, OutOfMemory>
    ensures { IfOk result (λ value. option_map value_view value ≡ document text.now) }
{
    match Value::parse(alloc, text, scratch) {
        Ok(value) => Ok(Some(value)),
        Err(Error::OutOfMemory) => Err(OutOfMemory),
        Err(_) => Ok(None),
    }
}

/// The text of an integer in decimal.
fn plain_number(text: &str) -> &str
    ensures { result.now ≡ plain_number text.now }
{
    if text == "-0" { "0" } else { text }
}

/// The id that a value is, if it may be one.
fn id_of<'a>(value: &Value<'a>) -> Option<Id<'a>>
    ensures { MatchOption result (IsId (value_view value.now) → ⊥)
        (λ id. (id_json id ≡ plain_id (value_view value.now)) × IsId (value_view value.now)) }
{
    match value.as_str() {
        Some(text) => Some(Id::Text(text)),
        None => match value.as_i64() {
            Some(_) => match value.as_number() {
                Some(text) => Some(Id::Number(plain_number(text))),
                None => None,
            },
            None => None,
        },
    }
}

/// Whether a value has a member.
fn has(value: &Value<'_>, name: &str) -> bool
    ensures { result ≡ has name.now (value_view value.now) }
{
    value.get(name).is_some()
}

/// What a value asks for.
pub fn message_of<'v, 'a>(value: &'v Value<'a>) -> Message<'v, 'a>
    ensures { Judges (value_view value.now) result }
{
    let Some(method) = value.get("method") else {
        return if has(value, "id") && (has(value, "result") || has(value, "error")) {
            Message::Reply
        } else {
            Message::NotRequest
        };
    };
    let Some(method) = method.as_str() else {
        return Message::NotRequest;
    };
    let call = Call {
        method,
        params: value.get("params"),
    };
    let Some(id) = value.get("id") else {
        return Message::Notification(call);
    };
    match id_of(id) {
        Some(id) => Message::Request(id, call),
        None => Message::NotRequest,
    }
}
