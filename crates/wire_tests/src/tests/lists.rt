//! Places of files, and replies whose result is a list.
use cb_tags::{Sink, WriteFault, put_text};
use cb_wire::{
    Completion, Element, Elements, Fold, Id, Location, MOST_ELEMENTS, Part, Position, Range, Rank,
    Root, Symbol, TreeSymbol, list_in_memory, part_length, parts_length, put_list_result,
    put_parts,
};
use std::io::Write;
use std::test::Fail;

/// A line of source, without what JSON escapes.
#[derive(Clone, Copy, Debug)]
struct Line<'a>(&'a [u8]);

impl Element for Line<'_> {
    ghost text = { λ line. line.0.now };

    fn put<W: Write>(&self, out: &mut Sink<W>) -> Result<(), WriteFault> {
        put_text(out, self.0)
    }

    fn length(&self) -> u128 {
        self.0.len() as u128
    }
}

/// A part of one line.
fn on_line(line: usize, start: usize, end: usize) -> Range {
    Range {
        start: Position {
            line,
            character: start,
        },
        end: Position {
            line,
            character: end,
        },
    }
}

#[test]
fn places_are_parts(rt: HostRuntime) -> Result<(), Fail> {
    let Some(root) = Root::of_uri(rt.alloc(), b"file:///w\"%20x/")? else {
        return Ok(());
    };
    let parts = [
        Part::Number(1_024),
        Part::Raw(b" "),
        Part::Uri(&root, b"a \"b.c"),
        Part::Raw(b" "),
        Part::Uri(&root, b"/usr/x+y.h"),
        Part::Raw(b" "),
        Part::Range(on_line(12, 0, 255)),
    ];
    let mut written = Vec::new(rt.alloc());
    let mut sink = Sink::new(&mut written);
    assert!(rt; put_parts(&mut sink, &parts).is_ok());
    assert_eq!(rt;
        written.as_slice(),
        b"1024 file:///w\\\"%20x/a%20%22b.c file:///usr/x%2By.h \
          {\"start\":{\"line\":12,\"character\":0},\"end\":{\"line\":12,\"character\":255}}"
            .as_slice()
    );
    assert_eq!(rt; part_length(&parts[0]), 4);
    assert_eq!(rt; part_length(&parts[2]), 26);
    assert_eq!(rt; part_length(&parts[6]), 69);
    assert_eq!(rt; parts_length(&parts), 4 + 26 + 19 + 69 + 3);
    Ok(())
}

#[test]
fn locations_are_listed(rt: HostRuntime) -> Result<(), Fail> {
    let root = Root::of_folder(rt.alloc(), b"/w")?;
    let locations = [
        Location {
            root: &root,
            name: b"a.c",
            range: on_line(0, 4, 8),
        },
        Location {
            root: &root,
            name: b"/b.h",
            range: on_line(10, 0, 3),
        },
    ];
    let mut written = Vec::new(rt.alloc());
    let mut sink = Sink::new(&mut written);
    let id = Id::Number("3");
    let (all, tail) = (locations.as_slice(), [Part::Raw(b"]")]);
    assert!(rt; put_list_result(&mut sink, id, b"[", b",", &tail, MOST_ELEMENTS, all).is_ok());
    assert!(rt; put_list_result(&mut sink, id, b"[", b",", &tail, 1, all).is_ok());
    let none = &all[2..];
    assert!(rt; put_list_result(&mut sink, id, b"[", b",", &tail, 1, none.again()).is_ok());
    assert_eq!(rt;
        written.as_slice(),
        b"Content-Length: 231\r\n\r\n{\"jsonrpc\":\"2.0\",\"id\":3,\"result\":[\
          {\"uri\":\"file:///w/a.c\",\"range\":\
          {\"start\":{\"line\":0,\"character\":4},\"end\":{\"line\":0,\"character\":8}}},\
          {\"uri\":\"file:///b.h\",\"range\":\
          {\"start\":{\"line\":10,\"character\":0},\"end\":{\"line\":10,\"character\":3}}}]}\
          Content-Length: 133\r\n\r\n{\"jsonrpc\":\"2.0\",\"id\":3,\"result\":[\
          {\"uri\":\"file:///w/a.c\",\"range\":\
          {\"start\":{\"line\":0,\"character\":4},\"end\":{\"line\":0,\"character\":8}}}]}\
          Content-Length: 36\r\n\r\n{\"jsonrpc\":\"2.0\",\"id\":3,\"result\":[]}"
            .as_slice()
    );
    Ok(())
}

#[test]
fn a_list_is_made_in_memory(rt: HostRuntime) -> Result<(), Fail> {
    let lines = [Line(b"a"), Line(b"bc"), Line(b"d")];
    let tail = [Part::Raw(b"]")];
    let two = list_in_memory(rt.alloc(), b"[", b", ", &tail, 2, lines.as_slice());
    let all = list_in_memory(
        rt.alloc(),
        b"[",
        b", ",
        &tail,
        MOST_ELEMENTS,
        lines.as_slice(),
    );
    assert!(rt; two.is_ok() && all.is_ok());
    if let (Ok(two), Ok(all)) = (two, all) {
        assert_eq!(rt; two.as_slice(), b"[a, bc]".as_slice());
        assert_eq!(rt; all.as_slice(), b"[a, bc, d]".as_slice());
    }
    Ok(())
}

#[test]
fn an_element_is_put(rt: HostRuntime) -> Result<(), Fail> {
    let root = Root::of_folder(rt.alloc(), b"")?;
    let location = Location {
        root: &root,
        name: b"w/a.c",
        range: on_line(1, 2, 3),
    };
    let mut written = Vec::new(rt.alloc());
    let mut sink = Sink::new(&mut written);
    assert!(rt; location.put(&mut sink).is_ok());
    assert_eq!(rt;
        written.as_slice(),
        b"{\"uri\":\"file:///w/a.c\",\"range\":\
          {\"start\":{\"line\":1,\"character\":2},\"end\":{\"line\":1,\"character\":3}}}"
            .as_slice()
    );
    assert_eq!(rt; location.length(), 97);
    Ok(())
}

#[test]
fn names_that_complete_a_word_are_listed(rt: HostRuntime) {
    let names = [
        Completion {
            label: b"ab",
            kind: 3,
            rank: Rank::Local,
        },
        Completion {
            label: b"a\xFF\"",
            kind: 21,
            rank: Rank::Session,
        },
    ];
    let mut written = Vec::new(rt.alloc());
    let mut sink = Sink::new(&mut written);
    let (head, tail) = (b"{\"isIncomplete\":true,\"items\":[", [Part::Raw(b"]}")]);
    let id = Id::Number("5");
    assert!(rt; put_list_result(&mut sink, id, head, b",", &tail, 2, names.as_slice()).is_ok());
    assert_eq!(rt;
        written.as_slice(),
        b"Content-Length: 156\r\n\r\n{\"jsonrpc\":\"2.0\",\"id\":5,\"result\":\
          {\"isIncomplete\":true,\"items\":[{\"label\":\"ab\",\"kind\":3,\"sortText\":\"0ab\"},\
          {\"label\":\"a\xEF\xBF\xBD\\\"\",\"kind\":21,\"sortText\":\"1a\xEF\xBF\xBD\\\"\"}]}}"
            .as_slice()
    );
}

#[test]
fn lines_that_are_folded_are_listed(rt: HostRuntime) {
    let folds = [Fold { first: 0, last: 3 }, Fold { first: 8, last: 10 }];
    let mut written = Vec::new(rt.alloc());
    let mut sink = Sink::new(&mut written);
    let (id, tail) = (Id::Number("5"), [Part::Raw(b"]")]);
    assert!(rt; put_list_result(&mut sink, id, b"[", b",", &tail, 2, folds.as_slice()).is_ok());
    assert_eq!(rt;
        written.as_slice(),
        b"Content-Length: 92\r\n\r\n{\"jsonrpc\":\"2.0\",\"id\":5,\"result\":\
          [{\"startLine\":0,\"endLine\":3},{\"startLine\":8,\"endLine\":10}]}"
            .as_slice()
    );
}

#[test]
fn symbols_are_listed(rt: HostRuntime) -> Result<(), Fail> {
    let root = Root::of_folder(rt.alloc(), b"/w")?;
    let flat = [Symbol {
        name: b"main",
        kind: 12,
        location: Location {
            root: &root,
            name: b"a b.c",
            range: on_line(0, 4, 8),
        },
    }];
    let tree = [TreeSymbol {
        name: b"\xFF\"",
        kind: 14,
        line: on_line(7, 0, 20),
        range: on_line(7, 8, 9),
    }];
    let mut written = Vec::new(rt.alloc());
    let mut sink = Sink::new(&mut written);
    let (id, tail) = (Id::Number("4"), [Part::Raw(b"]")]);
    assert!(rt;
        put_list_result(
            &mut sink,
            id,
            b"[",
            b",",
            &tail,
            MOST_ELEMENTS,
            flat.as_slice()
        )
        .is_ok()
    );
    assert!(rt;
        put_list_result(
            &mut sink,
            id,
            b"[",
            b",",
            &tail,
            MOST_ELEMENTS,
            tree.as_slice()
        )
        .is_ok()
    );
    assert_eq!(rt;
        written.as_slice(),
        b"Content-Length: 174\r\n\r\n{\"jsonrpc\":\"2.0\",\"id\":4,\"result\":[\
          {\"name\":\"main\",\"kind\":12,\"location\":{\"uri\":\"file:///w/a%20b.c\",\"range\":\
          {\"start\":{\"line\":0,\"character\":4},\"end\":{\"line\":0,\"character\":8}}}}]}\
          Content-Length: 220\r\n\r\n{\"jsonrpc\":\"2.0\",\"id\":4,\"result\":[\
          {\"name\":\"\xEF\xBF\xBD\\\"\",\"kind\":14,\"range\":\
          {\"start\":{\"line\":7,\"character\":0},\"end\":{\"line\":7,\"character\":20}},\
          \"selectionRange\":\
          {\"start\":{\"line\":7,\"character\":8},\"end\":{\"line\":7,\"character\":9}}}]}"
            .as_slice()
    );
    assert_eq!(rt; flat[0].length(), 138);
    Ok(())
}

#[test]
fn texts_are_joined(rt: HostRuntime) {
    let mut written = Vec::new(rt.alloc());
    let mut sink = Sink::new(&mut written);
    let lines = [Line(b"int a;"), Line(b"int b;"), Line(b"")];
    let tail = [
        Part::Raw(b"\"},\"range\":"),
        Part::Range(on_line(3, 1, 2)),
        Part::Raw(b"}"),
    ];
    let (id, head) = (Id::Text("x"), b"{\"contents\":{\"value\":\"".as_slice());
    assert!(rt;
        put_list_result(
            &mut sink,
            id,
            head,
            b"\\n",
            &tail,
            MOST_ELEMENTS,
            lines.as_slice()
        )
        .is_ok()
    );
    assert_eq!(rt;
        written.as_slice(),
        b"Content-Length: 151\r\n\r\n\
          {\"jsonrpc\":\"2.0\",\"id\":\"x\",\"result\":{\"contents\":{\"value\":\"int a;\\nint b;\\n\"},\
          \"range\":\
          {\"start\":{\"line\":3,\"character\":1},\"end\":{\"line\":3,\"character\":2}}}}"
            .as_slice()
    );
}
