//! A desk whose past and future are forgotten.
use super::meters::{load, reload};
use cb_desk::{Bounds, Change, Desk, Field, Refusal};
use cb_scan::{Profile, Rules};
use std::alloc::Global;
use std::process::Abort;

/// A function.
const FUNCTION: &[u8] = b"void a(void) {\n}\n";

/// Two lines that hold a `b`.
const TWO_LINES: &[u8] = b"int b;\nint c(void) { return b; }\n";

/// Two files, of which one gets another text and then another name.
fn two_files(rt: &impl Abort, alloc: Global, desk: &mut Desk) {
    assert!(rt; load(desk, alloc, b"b.c", b"int b;\n") == Ok(()));
    assert!(rt; load(desk, alloc, b"a.c", FUNCTION) == Ok(()));
    assert!(rt; reload(desk, alloc, b"b.c", TWO_LINES) == Ok(()));
    assert!(rt; desk.change(alloc, Change::Rename(b"b.c", b"c.c")) == Ok(()));
}

/// Two marks, one of them taken away and back again; the way to one mark is the future.
fn two_marks(rt: &impl Abort, alloc: Global, desk: &mut Desk) {
    assert!(rt; desk.change(alloc, Change::Want(b"b")) == Ok(()));
    assert!(rt; desk.change(alloc, Change::MarkAll) == Ok(()));
    assert!(rt; desk.change(alloc, Change::Mark(1)) == Ok(()));
    assert!(rt; desk.undo() == Ok(()));
}

/// The file of a name has this text.
fn has_text(rt: &impl Abort, desk: &Desk, name: &[u8], text: &[u8]) {
    match desk.source(name) {
        Some(source) => assert!(rt; source.bytes() == text),
        None => assert!(rt; false, "the file is not there"),
    }
}

/// The two files and the two marks are there.
fn shows_all(rt: &impl Abort, desk: &Desk) {
    assert_eq!(rt; desk.files().count(), 2);
    has_text(rt, desk, b"a.c", FUNCTION);
    has_text(rt, desk, b"c.c", TWO_LINES);
    let mut marks = desk.marks();
    assert!(rt; marks.next() == Some((b"c.c".as_slice(), 1)));
    assert!(rt; marks.next() == Some((b"c.c".as_slice(), 2)));
}

/// What is found in the files.
fn answers_all(rt: &impl Abort, desk: &Desk) {
    assert_eq!(rt; desk.rows(Field::Definition, b"a").count_left(), 1);
    assert_eq!(rt; desk.rows(Field::Definition, b"c").count_left(), 1);
    assert_eq!(rt; desk.rows(Field::Symbol, b"b").count_left(), 2);
    assert_eq!(rt; desk.rows(Field::Text, b"int").count_left(), 2);
}

/// Nothing can be undone, and nothing done again.
fn stands_alone(rt: &impl Abort, desk: &mut Desk) {
    assert!(rt; desk.undo() == Err(Refusal::NothingToUndo));
    assert!(rt; desk.redo() == Err(Refusal::NothingToRedo));
}

/// A change can be made, taken back and made again.
fn goes_on(rt: &impl Abort, alloc: Global, desk: &mut Desk) {
    assert!(rt; reload(desk, alloc, b"a.c", b"int d;\n") == Ok(()));
    has_text(rt, desk, b"a.c", b"int d;\n");
    assert!(rt; desk.undo() == Ok(()));
    shows_all(rt, desk);
    assert!(rt; desk.redo() == Ok(()));
    has_text(rt, desk, b"a.c", b"int d;\n");
    assert!(rt; desk.undo() == Ok(()));
}

#[test]
fn forget_leaves_the_present_alone(rt: HostRuntime) {
    let mut desk = Desk::new(
        rt.alloc(),
        Bounds::standard(),
        Profile::all_by(Rules::Standard),
    );
    two_files(&rt, rt.alloc(), &mut desk);
    two_marks(&rt, rt.alloc(), &mut desk);
    shows_all(&rt, &desk);
    answers_all(&rt, &desk);
    desk.forget();
    shows_all(&rt, &desk);
    answers_all(&rt, &desk);
    stands_alone(&rt, &mut desk);
    goes_on(&rt, rt.alloc(), &mut desk);
    answers_all(&rt, &desk);
    desk.forget();
    stands_alone(&rt, &mut desk);
    shows_all(&rt, &desk);
}

/// A thousand new texts of a file.
fn reload_often(desk: &mut Desk, alloc: Global) -> Result<(), Refusal> {
    for _change in 0..1_000 {
        reload(desk, alloc, b"a.c", b"int a;\n")?;
    }
    Ok(())
}

/// So many are accepted where the past is forgotten after each thousand.
fn forget_often(rt: &impl Abort, alloc: Global, desk: &mut Desk) {
    for _round in 0..70 {
        assert!(rt; reload_often(desk, alloc) == Ok(()));
        desk.forget();
    }
}

#[test]
fn forget_makes_room_in_the_past(rt: HostRuntime) {
    let mut desk = Desk::new(
        rt.alloc(),
        Bounds::new(1, 10, 1_000),
        Profile::all_by(Rules::Standard),
    );
    assert!(rt; load(&mut desk, rt.alloc(), b"a.c", b"") == Ok(()));
    desk.forget();
    forget_often(&rt, rt.alloc(), &mut desk);
    assert!(rt; reload_often(&mut desk, rt.alloc()) == Ok(()));
    assert!(rt; reload(&mut desk, rt.alloc(), b"a.c", b"") == Err(Refusal::HistoryFull));
    has_text(&rt, &desk, b"a.c", b"int a;\n");
}
