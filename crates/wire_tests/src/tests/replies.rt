//! The bytes that are written.
use cb_tags::Sink;
use cb_wire::{
    Encoding, ErrorCode, Id, Part, part_length, parts_length, put_error, put_log, put_message,
    put_parts, put_result, put_result_end, put_result_head, put_show, put_welcome,
};

#[test]
fn replies_are_framed(rt: HostRuntime) {
    let mut written = Vec::new(rt.alloc());
    let mut sink = Sink::new(&mut written);
    assert!(rt; put_result(&mut sink, Id::Number("-5"), b"null").is_ok());
    assert!(rt; put_result_head(&mut sink, Id::Text("a\"b"), 2).is_ok());
    assert!(rt; put_parts(&mut sink, &[Part::Raw(b"[]")]).is_ok());
    assert!(rt; put_result_end(&mut sink).is_ok());
    let code = ErrorCode::RequestFailed;
    assert!(rt; put_error(&mut sink, Id::Number("3"), code, b"not open: ", b"a.c").is_ok());
    assert_eq!(rt;
        written.as_slice(),
        b"Content-Length: 39\r\n\r\n{\"jsonrpc\":\"2.0\",\"id\":-5,\"result\":null}\
          Content-Length: 41\r\n\r\n{\"jsonrpc\":\"2.0\",\"id\":\"a\\\"b\",\"result\":[]}\
          Content-Length: 74\r\n\r\n\
          {\"jsonrpc\":\"2.0\",\"id\":3,\"error\":{\"code\":-32803,\"message\":\"not open: a.c\"}}"
            .as_slice()
    );
}

#[test]
fn notifications_are_framed(rt: HostRuntime) {
    let mut written = Vec::new(rt.alloc());
    let mut sink = Sink::new(&mut written);
    assert!(rt; put_log(&mut sink, b"not JSON").is_ok());
    assert!(rt; put_show(&mut sink, Part::Escaped(b"b.c"), b"too large").is_ok());
    assert!(rt; put_show(&mut sink, Part::Path(b"/x\"y.c"), b"bad name").is_ok());
    assert_eq!(rt;
        written.as_slice(),
        b"Content-Length: 96\r\n\r\n\
          {\"jsonrpc\":\"2.0\",\"method\":\"window/logMessage\",\"params\":{\"type\":1,\"message\":\"cbrowse: not JSON\"}}\
          Content-Length: 103\r\n\r\n\
          {\"jsonrpc\":\"2.0\",\"method\":\"window/showMessage\",\"params\":{\"type\":2,\"message\":\"cbrowse: b.c: too large\"}}\
          Content-Length: 107\r\n\r\n\
          {\"jsonrpc\":\"2.0\",\"method\":\"window/showMessage\",\"params\":{\"type\":2,\"message\":\"cbrowse: /x%22y.c: bad name\"}}"
            .as_slice()
    );
}

#[test]
fn a_client_is_welcomed(rt: HostRuntime) {
    let mut written = Vec::new(rt.alloc());
    let mut sink = Sink::new(&mut written);
    let id = Id::Number("0");
    assert!(rt; put_welcome(&mut sink, id, Encoding::Utf16, false, b"1.2\"").is_ok());
    assert_eq!(rt;
        written.as_slice(),
        b"Content-Length: 488\r\n\r\n{\"jsonrpc\":\"2.0\",\"id\":0,\"result\":\
          {\"capabilities\":{\"positionEncoding\":\"utf-16\",\
          \"textDocumentSync\":{\"openClose\":true,\"change\":2,\"save\":true},\
          \"hoverProvider\":true,\"completionProvider\":{},\"definitionProvider\":true,\
          \"declarationProvider\":true,\
          \"referencesProvider\":true,\"documentHighlightProvider\":true,\
          \"documentSymbolProvider\":true,\"workspaceSymbolProvider\":true,\
          \"renameProvider\":true,\"callHierarchyProvider\":true,\
          \"foldingRangeProvider\":true},\
          \"serverInfo\":{\"name\":\"cbrowse\",\"version\":\"1.2\\\"\"}}}"
            .as_slice()
    );
    let mut again = Vec::new(rt.alloc());
    let mut sink = Sink::new(&mut again);
    assert!(rt; put_welcome(&mut sink, Id::Text("i"), Encoding::Utf8, true, b"1.23").is_ok());
    assert!(rt;
        again.as_slice().ends_with(
            b",\"renameProvider\":{\"prepareProvider\":true},\
        \"callHierarchyProvider\":true,\
          \"foldingRangeProvider\":true},\
        \"serverInfo\":{\"name\":\"cbrowse\",\"version\":\"1.23\"}}}"
        )
    );
    assert_eq!(rt; again.len(), written.len() + 20);
}

#[test]
fn parts_are_escaped(rt: HostRuntime) {
    let parts = [
        Part::Raw(b"\""),
        Part::Escaped(b"\"\\\x08\x0C\n\r\t\x1F\x00/\x7F\xC3\xA9"),
        Part::Source(b"\xE9\xA9\xFF\xF0\x9D\x84\x9E\n"),
        Part::Id(Id::Number("7")),
    ];
    let mut written = Vec::new(rt.alloc());
    let mut sink = Sink::new(&mut written);
    assert!(rt; put_parts(&mut sink, &parts).is_ok());
    assert_eq!(rt;
        written.as_slice(),
        b"\"\\\"\\\\\\b\\f\\n\\r\\t\\u001f\\u0000/\x7F\xC3\xA9\
          \xEF\xBF\xBD\xEF\xBF\xBD\xEF\xBF\xBD\xF0\x9D\x84\x9E\\n7"
            .as_slice()
    );
    assert_eq!(rt; parts_length(&parts), 1 + 30 + 15 + 1);
    assert_eq!(rt; part_length(&parts[0]), 1);
    let mut again = Vec::new(rt.alloc());
    let mut sink = Sink::new(&mut again);
    assert!(rt; put_message(&mut sink, &parts[..1]).is_ok());
    assert_eq!(rt; again.as_slice(), b"Content-Length: 1\r\n\r\n\"".as_slice());
}
