//! Texts with their facts, and shelves and archives that keep them.
use cb_index::{Archive, Room, Shelf, Shown, Version};
use cb_scan::{Meter, Profile, Rules, Source, scan};
use std::alloc::Global;
use std::test::Fail;

/// An include, a macro, a typedef and two functions.
pub(super) const FIRST: &[u8] =
    b"#include \"a.h\"\n#define TWICE(x) ((x) + add(x, 0))\ntypedef unsigned long word;\nstatic int add(int a, int b) {\n\treturn a + b;\n}\nint main(void) {\n\treturn add(1, 2) / TWICE(3);\n}\n";

/// A function whose name is the tag name of `main` in `b.c`.
pub(super) const OTHER: &[u8] = b"int Mb(void) {\n}\n";

/// More than any of these tests needs.
const ROOM: Room = Room {
    versions: 1000,
    names: 1000,
    entries: 100,
    defs: 10_000,
    uses: 10_000,
    calls: 10_000,
};

/// A text with its facts.
fn version_of(alloc: Global, text: &[u8]) -> Result<Version, Fail> {
    let source = Source::new(alloc, text.to_vec(alloc)?)?;
    let facts = scan(
        alloc,
        &mut Meter::new(),
        Profile::all_by(Rules::Standard),
        &source,
    )?;
    match Version::new(alloc, Profile::all_by(Rules::Standard), source, facts) {
        Ok(version) => Ok(version),
        Err(_) => Err(Fail::from("out of memory")),
    }
}

/// Keeps a name, in a room for 1000 names.
fn keep_name(alloc: Global, shelf: &mut Shelf, name: &[u8], room: &Room) -> Result<u32, Fail> {
    if shelf.archive().name_count() >= 1000 || room.names != 1000 {
        return Err(Fail::from("too many names"));
    }
    match shelf.reserve(room) {
        Ok(()) => {}
        Err(_) => return Err(Fail::from("no memory")),
    }
    let name = name.to_vec(alloc)?;
    Ok(shelf.push_name(name))
}

/// Keeps a text and its facts, in a room for 1000 versions.
fn keep_version(alloc: Global, shelf: &mut Shelf, text: &[u8], room: &Room) -> Result<u32, Fail> {
    if shelf.archive().version_count() >= 1000 || room.versions != 1000 {
        return Err(Fail::from("too many versions"));
    }
    match shelf.reserve(room) {
        Ok(()) => {}
        Err(_) => return Err(Fail::from("no memory")),
    }
    let version = version_of(alloc, text)?;
    if version.source().bytes() != text || version.facts().defs().is_empty() {
        return Err(Fail::from("another text"));
    }
    if version.profile() != shelf.archive().profile() {
        return Err(Fail::from("another profile"));
    }
    Ok(shelf.push_version(version))
}

/// Keeps a text under a name on a shelf, and does not show it.
pub(super) fn keep(
    alloc: Global,
    shelf: &mut Shelf,
    name: &[u8],
    text: &[u8],
) -> Result<Shown, Fail> {
    Ok(Shown {
        name: keep_name(alloc, shelf, name, &ROOM)?,
        version: keep_version(alloc, shelf, text, &ROOM)?,
    })
}

/// Keeps the first text in an archive under a name.
pub(super) fn keep_in(alloc: Global, archive: &mut Archive, name: &[u8]) -> Result<Shown, Fail> {
    if archive.name_count() >= 1000 || archive.version_count() >= 1000 {
        return Err(Fail::from("too many"));
    }
    match archive.reserve(1000, 1000) {
        Ok(()) => {}
        Err(_) => return Err(Fail::from("no memory")),
    }
    let name = name.to_vec(alloc)?;
    let version = version_of(alloc, FIRST)?;
    if version.profile() != archive.profile() {
        return Err(Fail::from("another profile"));
    }
    Ok(Shown {
        name: archive.push_name(name),
        version: archive.push_version(version),
    })
}
