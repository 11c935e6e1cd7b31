//! What is scanned, and how often files are shown and hidden. Bytes and turns are counted by hand.
use cb_desk::{Bounds, Change, Desk, Refusal};
use cb_scan::{Profile, Rules};
use std::alloc::Global;
use std::process::Abort;

/// Nine lines of 175 bytes.
pub(super) const NINE_LINES: &[u8] =
    b"#include \"a.h\"\n#define TWICE(x) ((x) + add(x, 0))\ntypedef unsigned long word;\nstatic int add(int a, int b) {\n\treturn a + b;\n}\nint main(void) {\n\treturn add(1, 2) / TWICE(3);\n}\n";

/// A load of a text whose bytes may be refused too.
pub(super) fn load(
    desk: &mut Desk,
    alloc: Global,
    name: &[u8],
    text: &[u8],
) -> Result<(), Refusal> {
    match Vec::from_slice(alloc, text) {
        Ok(bytes) => desk.change(alloc, Change::Load(name, bytes)),
        Err(_error) => Err(Refusal::OutOfMemory),
    }
}

/// A reload of a text whose bytes may be refused too.
pub(super) fn reload(
    desk: &mut Desk,
    alloc: Global,
    name: &[u8],
    text: &[u8],
) -> Result<(), Refusal> {
    match Vec::from_slice(alloc, text) {
        Ok(bytes) => desk.change(alloc, Change::Reload(name, bytes)),
        Err(_error) => Err(Refusal::OutOfMemory),
    }
}

/// The desk has scanned so many bytes, and shown and hidden files so often.
fn has_scanned(rt: &impl Abort, desk: &Desk, bytes: u64, turns: u64) {
    assert_eq!(rt; desk.meter(), bytes);
    assert_eq!(rt; desk.turns(), turns);
}

/// A load scans its bytes, a change of a text those of the new one, a move nothing.
fn loads_and_changes(rt: &impl Abort, alloc: Global, desk: &mut Desk) {
    has_scanned(rt, desk, 0, 0);
    assert!(rt; load(desk, alloc, b"a.c", NINE_LINES) == Ok(()));
    has_scanned(rt, desk, 175, 1);
    assert!(rt; desk.change(alloc, Change::Want(b"add")) == Ok(()));
    assert!(rt; desk.change(alloc, Change::Mark(1)) == Ok(()));
    assert!(rt; desk.change(alloc, Change::Mark(3)) == Ok(()));
    assert!(rt; desk.change(alloc, Change::Replace(b"bad\n")) == Err(Refusal::BadText));
    has_scanned(rt, desk, 175, 1);
    assert!(rt; desk.change(alloc, Change::Replace(b"sum")) == Ok(()));
    has_scanned(rt, desk, 350, 3);
}

/// Undo and redo scan nothing, and a rebuild all.
fn moves_and_a_rebuild(rt: &impl Abort, alloc: Global, desk: &mut Desk) {
    assert!(rt; desk.undo() == Ok(()));
    assert!(rt; desk.redo() == Ok(()));
    assert!(rt; desk.undo() == Ok(()));
    has_scanned(rt, desk, 350, 9);
    assert!(rt; desk.rebuild(alloc) == Ok(()));
    assert_eq!(rt; desk.meter(), 525);
}

#[test]
fn meter_counts_loads_changes_and_rebuilds(rt: HostRuntime) {
    let mut desk = Desk::new(
        rt.alloc(),
        Bounds::standard(),
        Profile::all_by(Rules::Standard),
    );
    loads_and_changes(&rt, rt.alloc(), &mut desk);
    moves_and_a_rebuild(&rt, rt.alloc(), &mut desk);
}

/// A reload scans the bytes that it brings, and a refused one nothing.
fn reloads(rt: &impl Abort, alloc: Global, desk: &mut Desk) {
    assert!(rt; load(desk, alloc, b"a.c", NINE_LINES) == Ok(()));
    assert!(rt; load(desk, alloc, b"m.c", b"int Mb(void) {\n}\n") == Ok(()));
    has_scanned(rt, desk, 192, 2);
    assert!(rt; reload(desk, alloc, b"q.c", b"x") == Err(Refusal::NoSuchFile));
    has_scanned(rt, desk, 192, 2);
    assert!(rt; reload(desk, alloc, b"a.c", b"int Ma(void) {\n}\n") == Ok(()));
    has_scanned(rt, desk, 209, 4);
    assert!(rt; desk.undo() == Ok(()));
    assert!(rt; desk.redo() == Ok(()));
    has_scanned(rt, desk, 209, 8);
}

#[test]
fn meter_counts_a_reload_once(rt: HostRuntime) {
    let mut desk = Desk::new(
        rt.alloc(),
        Bounds::standard(),
        Profile::all_by(Rules::Standard),
    );
    reloads(&rt, rt.alloc(), &mut desk);
}
