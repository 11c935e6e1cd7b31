//! What bodies ask for.
use cb_wire::{Id, Message, message_of, text_of, value_of};
use json::Scratch;
use std::alloc::Global;
use std::process::Abort;

/// What a message is, with its id and its method.
#[derive(Clone, Copy, Debug, PartialEq, Eq)]
enum Kind {
    NotJson,
    NotRequest,
    Reply,
    Notification,
    Number,
    Text,
    Refused,
}

fn kind_of(alloc: Global, body: &[u8]) -> Kind {
    let Ok(text) = text_of(alloc, body) else {
        return Kind::Refused;
    };
    let mut scratch = Scratch::new(alloc);
    let Ok(value) = value_of(alloc, text.as_str(), &mut scratch) else {
        return Kind::Refused;
    };
    let Some(value) = value else {
        return Kind::NotJson;
    };
    match message_of(&value) {
        Message::NotRequest => Kind::NotRequest,
        Message::Reply => Kind::Reply,
        Message::Notification(_) => Kind::Notification,
        Message::Request(Id::Number(_), _) => Kind::Number,
        Message::Request(Id::Text(_), _) => Kind::Text,
    }
}

#[test]
fn messages_are_judged_in_order(rt: HostRuntime) {
    let cases = [
        (b"{\"id\":2,}".as_slice(), Kind::NotJson),
        (b"{\"id\":-05,\"method\":\"x\"}", Kind::NotJson),
        (b"[]", Kind::NotRequest),
        (b"{\"id\":7,\"result\":null}", Kind::Reply),
        (b"{\"id\":null,\"error\":{}}", Kind::Reply),
        (b"{\"id\":7}", Kind::NotRequest),
        (b"{\"method\":1,\"id\":7,\"result\":null}", Kind::NotRequest),
        (b"{\"method\":\"exit\"}", Kind::Notification),
        (b"{\"method\":\"\xE9\xFF\"}", Kind::Notification),
        (b"{\"id\":null,\"method\":\"shutdown\"}", Kind::NotRequest),
        (b"{\"id\":1.0,\"method\":\"shutdown\"}", Kind::NotRequest),
        (b"{\"id\":1e3,\"method\":\"shutdown\"}", Kind::NotRequest),
        (
            b"{\"id\":9223372036854775808,\"method\":\"x\"}",
            Kind::NotRequest,
        ),
        (
            b"{\"id\":-9223372036854775808,\"method\":\"x\"}",
            Kind::Number,
        ),
        (b"\r\n{\"id\":\"a\\u0062\",\"method\":\"x\"} ", Kind::Text),
    ];
    for (body, kind) in cases {
        let found = kind_of(rt.alloc(), body);
        assert!(rt; found == kind || found == Kind::Refused);
    }
}
