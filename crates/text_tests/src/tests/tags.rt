//! Tests of the bytes that are written, and of what is read back, on rows worked out by hand.
use cb_scan::{Kind, Source};
use cb_tags::{
    Sink, TagRow, WriteFault, compare_tag_key, compare_tag_names, is_file_name, put_extended,
    put_heads, put_listing, put_plain, read_address,
};
use std::alloc::Global;
use std::cmp::Ordering;
use std::io::{self, ErrorKind, Write};
use std::test::Fail;

/// What the writers of this crate write.
#[derive(Clone, Copy, Debug, PartialEq, Eq)]
pub(super) enum Form {
    Plain,
    Extended,
    Listing,
    Heads,
}

const FORMS: [Form; 4] = [Form::Plain, Form::Extended, Form::Listing, Form::Heads];

const HEADS: &[u8] =
    b"!_TAG_FILE_FORMAT\t2\t/extended format; --format=1 will not append ;\" to lines/\n!_TAG_FILE_SORTED\t1\t/0=unsorted, 1=sorted, 2=foldcase/\n";

fn put<W: Write>(form: Form, out: &mut Sink<W>, row: &TagRow<'_>) -> Result<(), WriteFault> {
    match form {
        Form::Plain => put_plain(out, row),
        Form::Extended => put_extended(out, row),
        Form::Listing => put_listing(out, row),
        Form::Heads => put_heads(out),
    }
}

/// What a writer in memory has taken of a row.
pub(super) fn written(alloc: Global, form: Form, row: &TagRow<'_>) -> Result<Vec<u8>, Fail> {
    let mut taken = Vec::new(alloc);
    let mut sink = Sink::new(&mut taken);
    put(form, &mut sink, row)?;
    sink.flush()?;
    Ok(taken)
}

/// A source of these bytes.
fn source(alloc: Global, text: &[u8]) -> Result<Source, Fail> {
    Ok(Source::new(alloc, text.to_vec(alloc)?)?)
}

const TWICE: TagRow<'static> = TagRow {
    name: b"TWICE",
    file: b"a.c",
    place: 0,
    line: 2,
    text: b"#define TWICE(x) ((x) + add(x, 0))",
    kind: Kind::Macro,
    local: false,
    scope: None,
};

const ADD: TagRow<'static> = TagRow {
    name: b"add",
    file: b"a.c",
    place: 0,
    line: 4,
    text: b"static int add(int a, int b) {",
    kind: Kind::Function,
    local: true,
    scope: None,
};

const MAIN: TagRow<'static> = TagRow {
    name: b"main",
    file: b"a.c",
    place: 0,
    line: 7,
    text: b"int main(void) {",
    kind: Kind::Function,
    local: false,
    scope: None,
};

const WORD: TagRow<'static> = TagRow {
    name: b"word",
    file: b"a.c",
    place: 0,
    line: 3,
    text: b"\ttypedef unsigned long word; ",
    kind: Kind::Typedef,
    local: true,
    scope: None,
};

const ESCAPED: TagRow<'static> = TagRow {
    name: b"P",
    file: b"e.c",
    place: 0,
    line: 4_294_967_295,
    text: b"#define P(x) (x/2) \\$",
    kind: Kind::Macro,
    local: false,
    scope: None,
};

#[test]
fn plain_lines(rt: HostRuntime) -> Result<(), Fail> {
    for (row, want) in [
        (MAIN, "Ma\ta.c\t/^int main(void) {$/\n"),
        (
            TWICE,
            "TWICE\ta.c\t/^#define TWICE(x) ((x) + add(x, 0))$/\n",
        ),
        (ADD, "add\ta.c\t/^static int add(int a, int b) {$/\n"),
        (WORD, "word\ta.c\t/^\ttypedef unsigned long word; $/\n"),
        (ESCAPED, "P\te.c\t/^#define P(x) (x\\/2) \\\\$$/\n"),
    ] {
        assert_eq!(rt;
            written(rt.alloc(), Form::Plain, &row)?.as_slice(),
            want.as_bytes()
        );
    }
    Ok(())
}

#[test]
fn extended_lines(rt: HostRuntime) -> Result<(), Fail> {
    for (row, want) in [
        (
            TWICE,
            "TWICE\ta.c\t/^#define TWICE(x) ((x) + add(x, 0))$/;\"\td\tline:2\n",
        ),
        (
            ADD,
            "add\ta.c\t/^static int add(int a, int b) {$/;\"\tf\tline:4\tfile:\n",
        ),
        (MAIN, "main\ta.c\t/^int main(void) {$/;\"\tf\tline:7\n"),
        (
            WORD,
            "word\ta.c\t/^\ttypedef unsigned long word; $/;\"\tt\tline:3\n",
        ),
        (
            ESCAPED,
            "P\te.c\t/^#define P(x) (x\\/2) \\\\$$/;\"\td\tline:4294967295\n",
        ),
    ] {
        assert_eq!(rt;
            written(rt.alloc(), Form::Extended, &row)?.as_slice(),
            want.as_bytes()
        );
    }
    for (kind, want) in [
        (Kind::Struct, "n\ta.h\t/^n {$/;\"\ts\tline:1\n"),
        (Kind::Union, "n\ta.h\t/^n {$/;\"\tu\tline:1\n"),
        (Kind::Enum, "n\ta.h\t/^n {$/;\"\tg\tline:1\n"),
    ] {
        let row = TagRow {
            name: b"n",
            file: b"a.h",
            place: 0,
            line: 1,
            text: b"n {",
            kind,
            local: true,
            scope: None,
        };
        assert_eq!(rt;
            written(rt.alloc(), Form::Extended, &row)?.as_slice(),
            want.as_bytes()
        );
    }
    Ok(())
}

#[test]
fn listing_lines(rt: HostRuntime) -> Result<(), Fail> {
    for (row, want) in [
        (TWICE, "TWICE 2 a.c #define TWICE(x) ((x) + add(x, 0))\n"),
        (ADD, "add 4 a.c static int add(int a, int b) {\n"),
        (MAIN, "main 7 a.c int main(void) {\n"),
        (WORD, "word 3 a.c \ttypedef unsigned long word; \n"),
        (ESCAPED, "P 4294967295 e.c #define P(x) (x/2) \\$\n"),
    ] {
        assert_eq!(rt;
            written(rt.alloc(), Form::Listing, &row)?.as_slice(),
            want.as_bytes()
        );
    }
    Ok(())
}

#[test]
fn head_lines(rt: HostRuntime) -> Result<(), Fail> {
    assert_eq!(rt; written(rt.alloc(), Form::Heads, &MAIN)?.as_slice(), HEADS);
    Ok(())
}

/// How a writer ends when its room is used up.
#[derive(Clone, Copy, Debug, PartialEq, Eq)]
enum Ending {
    Fails,
    IsInterrupted,
    TakesNothing,
}

/// A writer that takes so many bytes, some at a time at most, and then ends.
#[derive(Drop)]
struct Short {
    taken: Vec<u8>,
    room: usize,
    at_once: usize,
    ending: Ending,
}

impl Write for Short {
    fn write(&mut self, buf: &[u8]) -> io::Result<usize> {
        let taken = buf.len().min(self.room).min(self.at_once);
        if taken == 0 {
            return match self.ending {
                Ending::Fails => Err(io::Error::from(ErrorKind::StorageFull)),
                Ending::IsInterrupted => Err(io::Error::from(ErrorKind::Interrupted)),
                Ending::TakesNothing => Ok(0),
            };
        }
        self.taken.extend_from_slice(&buf[..taken])?;
        self.room -= taken;
        Ok(taken)
    }

    fn flush(&mut self) -> io::Result<()> {
        Ok(())
    }
}

/// Whether the writing of a row to a writer with room for so many bytes leaves those of the row's
/// bytes that it has room for, and a fault exactly where that is not all of them.
fn leaves_a_prefix(
    alloc: Global,
    form: Form,
    row: &TagRow<'_>,
    writer: &mut Short,
) -> Result<bool, Fail> {
    let whole = written(alloc, form, row)?;
    let room = writer.room;
    let mut sink = Sink::new(&mut *writer);
    let is_fault = put(form, &mut sink, row).is_err();
    let is_same = sink.failed() == is_fault && is_fault == (room < whole.len());
    let goes_on = sink.write(b"x").is_ok();
    let flushes = sink.flush().is_ok();
    let stays = !is_fault || (!goes_on && !flushes && sink.failed());
    let prefix = room.min(whole.len());
    Ok(
        is_same
            && stays
            && writer
                .taken
                .as_slice()
                .starts_with(&whole.as_slice()[..prefix])
            && (!is_fault || writer.taken.len() == prefix),
    )
}

#[test]
fn a_writer_that_ends_at_any_byte_has_taken_a_prefix(rt: HostRuntime) -> Result<(), Fail> {
    for ending in [Ending::Fails, Ending::IsInterrupted, Ending::TakesNothing] {
        for form in FORMS {
            for row in [MAIN, ADD, ESCAPED] {
                for room in 0..HEADS.len() + 3 {
                    let at_once = room % 3 + 1;
                    let mut writer = Short {
                        taken: Vec::new(rt.alloc()),
                        room,
                        at_once,
                        ending,
                    };
                    assert!(rt;
                        leaves_a_prefix(rt.alloc(), form, &row, &mut writer)?,
                        "{form:?} {ending:?} {room}"
                    );
                }
            }
        }
    }
    Ok(())
}

#[test]
fn a_writer_that_takes_one_byte_at_a_time_gets_all(rt: HostRuntime) -> Result<(), Fail> {
    let mut writer = Short {
        taken: Vec::new(rt.alloc()),
        room: 1000,
        at_once: 1,
        ending: Ending::Fails,
    };
    let mut sink = Sink::new(&mut writer);
    assert_eq!(rt; sink.write(b"abc"), Ok(1));
    put_heads(&mut sink)?;
    put_plain(&mut sink, &ESCAPED)?;
    assert!(rt; !sink.failed());
    assert_eq!(rt; writer.taken.len(), 1 + HEADS.len() + 34);
    assert!(rt;
        writer
            .taken
            .as_slice()
            .starts_with(b"a!_TAG_FILE_FORMAT\t2\t")
    );
    assert!(rt;
        writer
            .taken
            .as_slice()
            .ends_with(b"/\nP\te.c\t/^#define P(x) (x\\/2) \\\\$$/\n")
    );
    Ok(())
}

/// A writer whose bytes never reach anybody.
#[derive(Drop)]
struct Stuck;

impl Write for Stuck {
    fn write(&mut self, buf: &[u8]) -> io::Result<usize> {
        Ok(buf.len())
    }

    fn flush(&mut self) -> io::Result<()> {
        Err(io::Error::from(ErrorKind::BrokenPipe))
    }
}

#[test]
fn a_failed_flush_is_remembered(rt: HostRuntime) {
    let mut sink = Sink::new(Stuck);
    assert!(rt; !sink.failed());
    assert_eq!(rt; sink.write(b"abc"), Ok(3));
    assert!(rt; !sink.failed());
    assert_eq!(rt; sink.flush(), Err(WriteFault));
    assert!(rt; sink.failed());
    assert_eq!(rt; sink.write(b"abc"), Err(WriteFault));
    assert_eq!(rt; sink.flush(), Err(WriteFault));
}

/// A writer that counts its flushes.
#[derive(Drop)]
struct Counted {
    flushes: u32,
}

impl Write for Counted {
    fn write(&mut self, buf: &[u8]) -> io::Result<usize> {
        Ok(buf.len())
    }

    fn flush(&mut self) -> io::Result<()> {
        self.flushes = self.flushes.saturating_add(1);
        Ok(())
    }
}

/// Writes so many times, then flushes.
fn write_and_flush(writer: &mut Counted, writes: u32) -> Result<(), WriteFault> {
    let mut sink = Sink::new(writer);
    for _ in 0..writes {
        sink.write(b"abc")?;
    }
    sink.flush()
}

#[test]
fn bytes_pending_are_flushed_once(rt: HostRuntime) {
    let mut writer = Counted { flushes: 0 };
    for writes in 1..4u32 {
        assert!(rt; write_and_flush(&mut writer, writes) == Ok(()));
        assert_eq!(rt; writer.flushes, writes);
    }
}

#[test]
fn tag_names_in_order(rt: HostRuntime) {
    for (a_name, a_file, b_name, b_file, want) in [
        ("main", "src/x.c", "Mx", "a.c", Ordering::Equal),
        ("main", "x.h", "Mx.", "a.c", Ordering::Greater),
        ("main", "z/.c", "M", "a.c", Ordering::Equal),
        ("main", "a.c", "TWICE", "a.c", Ordering::Less),
        ("main", "x.c.c", "Mx.c", "a.c", Ordering::Equal),
        ("main", "z/", "M", "a.c", Ordering::Equal),
        ("main", "/z/y/x", "main", "x.c", Ordering::Equal),
        ("mains", "a.c", "Ma", "a.c", Ordering::Greater),
        ("", "a.c", "a", "a.c", Ordering::Less),
    ] {
        let found = compare_tag_names(
            a_name.as_bytes(),
            a_file.as_bytes(),
            b_name.as_bytes(),
            b_file.as_bytes(),
        );
        assert_eq!(rt; found, want, "{a_name} {a_file} {b_name} {b_file}");
        let turned = compare_tag_names(
            b_name.as_bytes(),
            b_file.as_bytes(),
            a_name.as_bytes(),
            a_file.as_bytes(),
        );
        assert_eq!(rt;
            turned,
            want.reverse(),
            "{b_name} {b_file} {a_name} {a_file}"
        );
    }
}

#[test]
fn keys_and_tag_names_in_order(rt: HostRuntime) {
    assert_eq!(rt;
        compare_tag_key(b"Mx", b"main", b"src/x.c"),
        Ordering::Equal
    );
    assert_eq!(rt;
        compare_tag_key(b"main", b"main", b"src/x.c"),
        Ordering::Greater
    );
    assert_eq!(rt; compare_tag_key(b"", b"main", b"src/x.c"), Ordering::Less);
    assert_eq!(rt;
        compare_tag_key(b"add", b"add", b"src/x.c"),
        Ordering::Equal
    );
}

#[test]
fn other_bytes_are_no_address(rt: HostRuntime) {
    for bytes in [
        "/^a\\$/", "/a$/", "/^a/b$/", "/^$", "", "/^/", "/$/", "/^a\n$/", "/^\\a$/", "/^a$/;\"",
        " /^a$/",
    ] {
        assert!(rt;
            read_address(bytes.as_bytes()).is_none(),
            "{bytes:?} is read"
        );
    }
}

#[test]
fn addresses_find_their_first_line(rt: HostRuntime) -> Result<(), Fail> {
    for (bytes, text, want) in [
        ("/^$/", "\n", Some(1)),
        ("/^$/", "a\nb", None),
        ("/^$/", "", None),
        ("/^$/", "a\n\r\n", Some(2)),
        (
            "/^#define P(x) (x\\/2) \\\\$$/",
            "#define P(x) (x/2) \\$\n",
            Some(1),
        ),
        ("/^a\\\\\\/$/", "a\\\na/\na\\/\na\\/\n", Some(3)),
        ("/^^a$$/", "a\n^a$", Some(2)),
        ("/^ab$/", "a\nabc\nab\r\nab\n", Some(3)),
    ] {
        let source = source(rt.alloc(), text.as_bytes())?;
        match read_address(bytes.as_bytes()) {
            Some(address) => assert_eq!(rt; address.find(&source), want, "{bytes:?} in {text:?}"),
            None => assert!(rt; false, "{bytes:?} is not read"),
        }
    }
    Ok(())
}

#[test]
fn names_of_files(rt: HostRuntime) -> Result<(), Fail> {
    for (name, want) in [
        ("a.c", true),
        (".c", true),
        (".h", true),
        ("z/b.h", true),
        ("c", false),
        ("", false),
        ("a c.c", false),
        ("a.C", false),
        ("a.c\x7F", false),
        ("~!.c", true),
    ] {
        assert_eq!(rt; is_file_name(name.as_bytes()), want, "{name:?}");
    }
    let mut long = Vec::new(rt.alloc());
    for _ in 0..253 {
        long.push(b'x')?;
    }
    long.extend_from_slice(b".c")?;
    assert!(rt; is_file_name(long.as_slice()));
    long.extend_from_slice(b".c")?;
    assert!(rt; !is_file_name(long.as_slice()));
    Ok(())
}
