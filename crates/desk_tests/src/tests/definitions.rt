//! The definitions of a name and of those behind it, and what is found in one file.
use super::meters::load;
use cb_desk::{Bounds, Desk, Field, Format, Refusal};
use cb_scan::{Include, Kind, Profile, Rules, Span};
use std::alloc::Global;
use std::process::Abort;

const FIRST: &[u8] = b"int f(void);\nstatic int f(void) { return 0; }\n#include \"b.h\"\n";

const SECOND: &[u8] = b"extern int f;\n";

/// A desk of two files that define one name three times.
fn two_files(alloc: Global) -> Result<Desk, Refusal> {
    let profile = Profile::all_by(Rules::Prototypes);
    let mut desk = Desk::new(alloc, Bounds::standard(), profile);
    load(&mut desk, alloc, b"b.h", SECOND)?;
    load(&mut desk, alloc, b"a.c", FIRST)?;
    Ok(desk)
}

/// All three come by file and place.
fn come_in_order(rt: &impl Abort, desk: &Desk) {
    let mut rows = desk.definitions(b"f");
    let mut again = rows.again();
    for (file, place, line, kind) in [
        (b"a.c", 4, 1, Kind::Prototype),
        (b"a.c", 24, 2, Kind::Function),
        (b"b.h", 11, 1, Kind::External),
    ] {
        let row = rows.next();
        assert!(rt; again.next() == row);
        match row {
            Some(row) => {
                assert!(rt; row.name == b"f".as_slice() && row.file == file.as_slice());
                assert!(rt; row.place == place && row.line == line && row.kind == kind);
            }
            None => assert!(rt; false),
        }
    }
    assert!(rt; rows.next().is_none());
    assert!(rt; desk.definitions(b"g").next().is_none());
}

#[test]
fn definitions_of_a_name_come_by_file_and_place(rt: HostRuntime) -> Result<(), Refusal> {
    let mut desk = two_files(rt.alloc())?;
    come_in_order(&rt, &desk);
    desk.settle(Field::Definition);
    come_in_order(&rt, &desk);
    Ok(())
}

/// The names of the definitions from a name on, each with the file that it stands in.
fn come_from(rt: &impl Abort, desk: &Desk, name: &[u8], found: &[(&[u8], &[u8])]) {
    let mut rows = desk.tag_rows_from(name);
    for (name, file) in found {
        match rows.next() {
            Some(row) => assert!(rt; row.name == *name && row.file == *file),
            None => assert!(rt; false),
        }
    }
    assert!(rt; rows.next().is_none());
}

/// Those of two files that define `ab`, `b` and `a`, and `b` once more.
fn come_by_name(rt: &impl Abort, desk: &Desk) {
    let all: [(&[u8], &[u8]); 4] = [
        (b"a", b"a.c"),
        (b"ab", b"a.c"),
        (b"b", b"a.c"),
        (b"b", b"b.c"),
    ];
    come_from(rt, desk, b"", &all);
    come_from(rt, desk, b"aa", &all[1..]);
    come_from(rt, desk, b"ab", &all[1..]);
    come_from(rt, desk, b"b", &all[2..]);
    come_from(rt, desk, b"ba", &[]);
}

#[test]
fn definitions_from_a_name_on_come_by_name(rt: HostRuntime) -> Result<(), Refusal> {
    let profile = Profile::all_by(Rules::Standard);
    let mut desk = Desk::new(rt.alloc(), Bounds::standard(), profile);
    load(&mut desk, rt.alloc(), b"b.c", b"void b(void) {}\n")?;
    load(
        &mut desk,
        rt.alloc(),
        b"a.c",
        b"void ab(void) {}\nvoid b(void) {}\n#define a 1\n",
    )?;
    come_by_name(&rt, &desk);
    desk.settle_tags(Format::Extended);
    come_by_name(&rt, &desk);
    Ok(())
}

#[test]
fn scanned_lends_the_text_and_its_facts(rt: HostRuntime) -> Result<(), Refusal> {
    let desk = two_files(rt.alloc())?;
    match desk.scanned(b"a.c") {
        Some((source, facts)) => {
            let include = Include {
                header: Span { start: 56, end: 59 },
                line: 3,
                scope: None,
            };
            assert!(rt; source.bytes() == FIRST);
            assert!(rt; facts.includes() == [include].as_slice());
            assert_eq!(rt; facts.defs().len(), 2);
        }
        None => assert!(rt; false),
    }
    assert!(rt; desk.scanned(b"c.c").is_none());
    Ok(())
}
