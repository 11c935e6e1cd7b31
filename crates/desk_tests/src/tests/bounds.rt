//! The bounds of a desk: its files, their bytes, and its past.
use super::meters::load;
use cb_desk::{Bounds, Change, Desk, Refusal};
use cb_scan::{Profile, Rules};
use std::alloc::{AllocError, Global};
use std::process::Abort;

/// The name of a file by its number.
fn name_of(alloc: Global, number: u32) -> Result<String, AllocError> {
    Ok(format!(in alloc; "f{}.c", number)?)
}

/// Loads an empty file under the name with a number.
fn load_numbered(desk: &mut Desk, alloc: Global, number: u32) -> Result<(), Refusal> {
    match name_of(alloc, number) {
        Ok(name) => load(desk, alloc, name.as_bytes(), b""),
        Err(_error) => Err(Refusal::OutOfMemory),
    }
}

/// Loads the files `f1.c` to `f4096.c`.
fn load_most(desk: &mut Desk, alloc: Global) -> Result<(), Refusal> {
    for number in 1..4_097u32 {
        load_numbered(desk, alloc, number)?;
    }
    Ok(())
}

/// One file more is refused, and room is there again when one is dropped.
fn one_more_is_refused(rt: &impl Abort, alloc: Global, desk: &mut Desk) {
    assert_eq!(rt; desk.files().count(), 4_096);
    assert!(rt; load_numbered(desk, alloc, 4_097) == Err(Refusal::TooManyFiles));
    assert!(rt; desk.change(alloc, Change::Unload(b"f7.c")) == Ok(()));
    assert!(rt; load_numbered(desk, alloc, 4_097) == Ok(()));
    assert!(rt; desk.undo() == Ok(()));
    assert!(rt; desk.undo() == Ok(()));
}

/// A drop, its undo and its redo show or hide files once to four times each.
fn each_move_takes_few_turns(rt: &impl Abort, alloc: Global, desk: &mut Desk) {
    let before = desk.turns();
    assert!(rt; desk.change(alloc, Change::Unload(b"f2048.c")) == Ok(()));
    let dropped = desk.turns();
    assert!(rt; desk.undo() == Ok(()));
    let undone = desk.turns();
    assert!(rt; desk.redo() == Ok(()));
    let redone = desk.turns();
    for (from, to) in [(before, dropped), (dropped, undone), (undone, redone)] {
        assert!(rt; from < to && to.saturating_sub(from) <= 4);
    }
}

#[test]
fn change_refuses_the_4097th_file(rt: HostRuntime) -> Result<(), Refusal> {
    let mut desk = Desk::new(
        rt.alloc(),
        Bounds::standard(),
        Profile::all_by(Rules::Standard),
    );
    let loaded = load_most(&mut desk, rt.alloc());
    assert!(rt; loaded == Ok(()));
    one_more_is_refused(&rt, rt.alloc(), &mut desk);
    each_move_takes_few_turns(&rt, rt.alloc(), &mut desk);
    Ok(())
}

/// A load of so many bytes.
fn load_many(
    desk: &mut Desk,
    alloc: Global,
    name: &[u8],
    count: usize,
) -> Result<Result<(), Refusal>, AllocError> {
    let bytes = vec![in alloc; b'a'; count]?;
    Ok(desk.change(alloc, Change::Load(name, bytes)))
}

/// The largest file is loaded, and larger ones are refused, for another reason where there is one.
fn larger_files_are_refused(
    rt: &impl Abort,
    alloc: Global,
    desk: &mut Desk,
) -> Result<(), AllocError> {
    assert!(rt; load_many(desk, alloc, b"a.c", 1_000_001)? == Err(Refusal::TooLarge));
    assert!(rt; load_many(desk, alloc, b"a b.c", 1_000_001)? == Err(Refusal::BadName));
    assert!(rt; load_many(desk, alloc, b"a.c", 1_000_000)? == Ok(()));
    assert!(rt; load_many(desk, alloc, b"a.c", 1_000_001)? == Err(Refusal::FileExists));
    Ok(())
}

/// A text that would be too large is refused, and its mark stays.
fn a_larger_text_is_refused(rt: &impl Abort, alloc: Global, desk: &mut Desk) {
    assert!(rt; desk.change(alloc, Change::Want(b"a")) == Ok(()));
    assert!(rt; desk.change(alloc, Change::MarkAll) == Ok(()));
    assert!(rt; desk.change(alloc, Change::Replace(b"bb")) == Err(Refusal::TooLarge));
    assert_eq!(rt; desk.marks().count(), 1);
}

#[test]
fn change_refuses_more_than_1000000_bytes(rt: HostRuntime) -> Result<(), AllocError> {
    let mut desk = Desk::new(
        rt.alloc(),
        Bounds::standard(),
        Profile::all_by(Rules::Standard),
    );
    larger_files_are_refused(&rt, rt.alloc(), &mut desk)?;
    a_larger_text_is_refused(&rt, rt.alloc(), &mut desk);
    Ok(())
}

/// Texts that can't be wanted, and the longest that can.
fn wanted_texts_are_bounded(rt: &impl Abort, alloc: Global, desk: &mut Desk) {
    let long = [b'a'; 4_097];
    assert!(rt; desk.change(alloc, Change::Want(b"a\nb")) == Err(Refusal::BadText));
    assert!(rt; desk.change(alloc, Change::Want(&long)) == Err(Refusal::BadText));
    assert!(rt; desk.change(alloc, Change::Replace(b"a\nb")) == Err(Refusal::BadText));
    assert!(rt; desk.change(alloc, Change::Want(&long[..4_096])) == Ok(()));
    assert!(rt; desk.change(alloc, Change::Replace(&long)) == Err(Refusal::BadText));
}

#[test]
fn change_refuses_texts_of_4097_bytes(rt: HostRuntime) {
    let mut desk = Desk::new(
        rt.alloc(),
        Bounds::standard(),
        Profile::all_by(Rules::Standard),
    );
    wanted_texts_are_bounded(&rt, rt.alloc(), &mut desk);
}

/// One mark is put and taken away until the past has room for no more.
fn marks_fill_the_past(rt: &impl Abort, alloc: Global, desk: &mut Desk) {
    assert!(rt; load(desk, alloc, b"x.c", b"a\n") == Ok(()));
    assert!(rt; desk.change(alloc, Change::Want(b"a")) == Ok(()));
    for _change in 0..65_534 {
        assert!(rt; desk.change(alloc, Change::Mark(1)) == Ok(()));
    }
}

/// A change is refused until one is taken back; other refusals come first.
fn the_past_is_full(rt: &impl Abort, alloc: Global, desk: &mut Desk) {
    assert!(rt; desk.change(alloc, Change::Mark(1)) == Err(Refusal::HistoryFull));
    assert!(rt; desk.change(alloc, Change::Mark(2)) == Err(Refusal::NoSuchLine));
    assert!(rt; load(desk, alloc, b"y.c", b"") == Err(Refusal::HistoryFull));
    assert!(rt; desk.undo() == Ok(()));
    assert!(rt; desk.change(alloc, Change::Mark(1)) == Ok(()));
}

#[test]
fn change_refuses_the_65537th_of_a_past(rt: HostRuntime) {
    let mut desk = Desk::new(
        rt.alloc(),
        Bounds::standard(),
        Profile::all_by(Rules::Standard),
    );
    marks_fill_the_past(&rt, rt.alloc(), &mut desk);
    the_past_is_full(&rt, rt.alloc(), &mut desk);
}

/// A change is refused where the past has as many as its bound, and done where it has fewer.
fn two_changes_fill_the_past(rt: &impl Abort, alloc: Global, desk: &mut Desk) {
    assert!(rt; load(desk, alloc, b"x.c", b"a\n") == Ok(()));
    assert!(rt; load(desk, alloc, b"y.c", b"") == Ok(()));
    assert!(rt; load(desk, alloc, b"z.c", b"") == Err(Refusal::HistoryFull));
    assert!(rt; desk.undo() == Ok(()));
    assert!(rt; load(desk, alloc, b"z.c", b"") == Ok(()));
}

#[test]
fn change_refuses_the_third_of_a_past_of_two(rt: HostRuntime) {
    let bounds = Bounds::new(3, 20, 2);
    let mut desk = Desk::new(rt.alloc(), bounds, Profile::all_by(Rules::Standard));
    assert_eq!(rt; bounds.files(), desk.bounds().files());
    assert_eq!(rt; bounds.file_bytes(), desk.bounds().file_bytes());
    two_changes_fill_the_past(&rt, rt.alloc(), &mut desk);
}
