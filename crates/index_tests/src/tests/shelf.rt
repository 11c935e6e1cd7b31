//! What a shelf shows, on files whose facts are worked out by hand.
use super::kept::{FIRST, OTHER, keep};
use cb_index::{FactKind, FactRows, Shelf, Shown, TagRows, Totals, are_rising};
use cb_scan::{Profile, Rules};
use std::alloc::Global;
use std::process::Abort;
use std::test::Fail;

/// Shows a version where it can be shown.
fn show(shelf: &mut Shelf, one: Shown) -> Result<(), Fail> {
    if !shelf.can_show(&[one]) {
        return Err(Fail::from("cannot be shown"));
    }
    shelf.show(one.name, one.version);
    Ok(())
}

/// The tags have these names.
fn has_tags(rt: &impl Abort, rows: TagRows<'_, '_>, names: &[&[u8]]) -> Result<(), Fail> {
    assert_eq!(rt; rows.len(), names.len());
    let mut rows = rows;
    for name in names {
        match rows.next() {
            Some(row) => assert_eq!(rt; row.name, *name),
            None => return Err(Fail::from("too few tags")),
        }
    }
    assert!(rt; rows.next().is_none());
    Ok(())
}

/// The facts have these names and lines.
fn has_facts(rt: &impl Abort, rows: FactRows<'_, '_>, facts: &[(&[u8], u32)]) -> Result<(), Fail> {
    let mut rows = rows;
    for (name, line) in facts {
        match rows.next() {
            Some(row) => {
                assert_eq!(rt; row.name, *name);
                assert_eq!(rt; row.line, *line);
            }
            None => return Err(Fail::from("too few facts")),
        }
    }
    assert!(rt; rows.next().is_none());
    Ok(())
}

/// The names of the facts begin at these places, and the names around them at those.
fn has_places(
    rt: &impl Abort,
    rows: FactRows<'_, '_>,
    places: &[(u32, Option<u32>)],
) -> Result<(), Fail> {
    let mut rows = rows;
    for (place, scope_place) in places {
        match rows.next_spot() {
            Some(spot) => {
                assert_eq!(rt; spot.place, *place);
                assert!(rt; spot.scope_place == *scope_place);
            }
            None => return Err(Fail::from("too few facts")),
        }
    }
    assert!(rt; rows.next_spot().is_none());
    Ok(())
}

/// The definitions of both files, in each order.
fn shows_definitions(rt: &impl Abort, shelf: &Shelf) -> Result<(), Fail> {
    let tags: [&[u8]; 5] = [b"Mb", b"main", b"TWICE", b"add", b"word"];
    has_tags(rt, shelf.tags(), &tags)?;
    let names: [&[u8]; 5] = [b"Mb", b"TWICE", b"add", b"main", b"word"];
    has_tags(rt, shelf.all_defs(), &names)?;
    has_tags(rt, shelf.defs_from(b"TWICF"), &names[2..])?;
    has_tags(rt, shelf.defs_from(b"wore"), &[])?;
    has_tags(rt, shelf.defs(b"add"), &[b"add".as_slice()])
}

/// The uses and calls of both files.
fn shows_facts(rt: &impl Abort, shelf: &Shelf) -> Result<(), Fail> {
    has_facts(
        rt,
        shelf.calling(b"add"),
        &[(b"add".as_slice(), 2), (b"add", 8)],
    )?;
    has_facts(
        rt,
        shelf.called_by(b"main"),
        &[(b"add".as_slice(), 8), (b"TWICE", 8)],
    )?;
    let uses = [(b"x".as_slice(), 2), (b"x", 2), (b"x", 2)];
    has_facts(rt, shelf.uses(b"x"), &uses)
}

/// The places of the same facts, of which three have equal rows.
fn shows_places(rt: &impl Abort, shelf: &Shelf) -> Result<(), Fail> {
    has_places(
        rt,
        shelf.calling(b"add"),
        &[(39, Some(23)), (151, Some(130))],
    )?;
    has_places(
        rt,
        shelf.called_by(b"main"),
        &[(151, Some(130)), (163, Some(130))],
    )?;
    let uses = [(29, Some(23)), (34, Some(23)), (43, Some(23))];
    has_places(rt, shelf.uses(b"x"), &uses)
}

/// Puts what is pending in order.
fn flush_all(shelf: &mut Shelf) {
    shelf.flush(false);
    shelf.flush(true);
}

/// The files, by name.
fn shows_files(rt: &impl Abort, shelf: &Shelf, names: &[&[u8]]) {
    let mut entries = shelf.entries();
    for name in names {
        assert!(rt; matches!(entries.next(), Some((shown, _, _)) if shown == *name));
    }
    assert!(rt; entries.next().is_none());
}

/// Two files are shown, hidden one by one and together, and shown again.
fn files_come_and_go(
    rt: &impl Abort,
    shelf: &mut Shelf,
    first: Shown,
    second: Shown,
) -> Result<(), Fail> {
    show(shelf, first)?;
    show(shelf, second)?;
    shows_definitions(rt, shelf)?;
    shelf.hide(first.name);
    shows_files(rt, shelf, &[b"m.c".as_slice()]);
    assert!(rt;
        shelf.totals()
            == Totals {
                defs: 1,
                uses: 1,
                calls: 0
            }
    );
    show(shelf, first)?;
    assert_eq!(rt; shelf.turns(), 4);
    Ok(())
}

/// All that is shown of two files.
fn shows_both(rt: &impl Abort, shelf: &mut Shelf) -> Result<(), Fail> {
    shows_definitions(rt, shelf)?;
    shows_facts(rt, shelf)?;
    shows_places(rt, shelf)?;
    flush_all(shelf);
    shows_definitions(rt, shelf)?;
    shows_facts(rt, shelf)?;
    shows_places(rt, shelf)?;
    shows_files(rt, shelf, &[b"m.c".as_slice(), b"z/b.c"]);
    assert!(rt;
        shelf.totals()
            == Totals {
                defs: 5,
                uses: 15,
                calls: 3
            }
    );
    Ok(())
}

/// Both are hidden and shown together.
fn both_come_and_go(rt: &impl Abort, shelf: &mut Shelf, both: [Shown; 2]) -> Result<(), Fail> {
    if !are_rising(&both) {
        return Err(Fail::from("numbers that do not rise"));
    }
    shelf.hide_all(&both);
    shows_files(rt, shelf, &[]);
    let ascending: [Shown; 2] = [both[1], both[0]];
    if !shelf.can_show(&ascending) {
        return Err(Fail::from("cannot be shown together"));
    }
    shelf.show_all(&ascending);
    Ok(())
}

fn show_and_hide(rt: &impl Abort, alloc: Global, shelf: &mut Shelf) -> Result<(), Fail> {
    let first = keep(alloc, shelf, b"z/b.c", FIRST)?;
    let second = keep(alloc, shelf, b"m.c", OTHER)?;
    files_come_and_go(rt, shelf, first, second)?;
    shows_both(rt, shelf)?;
    both_come_and_go(rt, shelf, [first, second])?;
    shows_both(rt, shelf)
}

/// The names and texts of what is shown, by the numbers of both, and from a name on.
fn lends_what_is_shown(rt: &impl Abort, shelf: &Shelf) -> Result<(), Fail> {
    let archive = shelf.archive();
    assert_eq!(rt; shelf.shown().len(), 2);
    let later = shelf.shown().from_name(archive, b"n");
    let Some((one, rest)) = later.split_first() else {
        return Err(Fail::from("none is shown"));
    };
    assert_eq!(rt; archive.name(one.name), b"z/b.c".as_slice());
    assert!(rt; rest.split_first().is_none());
    if one.version as usize >= archive.version_count() {
        return Err(Fail::from("no such version"));
    }
    assert_eq!(rt; archive.source(one.version).bytes(), FIRST);
    assert_eq!(rt; archive.facts(one.version).calls().len(), 3);
    let spot = shelf.defs(b"add").next_spot();
    assert!(rt;
        matches!(spot, Some(spot) if spot.name() == b"add".as_slice() && spot.row().line == 4)
    );
    Ok(())
}

/// The include of the first file, and the three uses of `x`, whose rows are equal.
fn tells_equal_rows_once(rt: &impl Abort, shelf: &Shelf) -> Result<(), Fail> {
    let mut includes = shelf.includes();
    assert!(rt;
        matches!(includes.next(), Some(row) if row.name == b"a.h".as_slice() && row.line == 1)
    );
    assert!(rt; includes.next().is_none());
    let mut spots = shelf.facts(FactKind::Uses, b"x").spots();
    assert_eq!(rt; spots.row_count(), 1u128);
    assert!(rt; matches!(spots.next(), Some(spot) if spot.row().line == 2));
    assert!(rt; spots.next().is_none());
    Ok(())
}

/// A version that is not shown goes; the other one is shown as before.
fn keeps_what_is_shown(rt: &impl Abort, shelf: &mut Shelf, second: Shown) {
    shelf.hide(second.name);
    shelf.compact();
    assert_eq!(rt; shelf.archive().version_count(), 1);
    shows_files(rt, shelf, &[b"z/b.c".as_slice()]);
}

fn lend_and_compact(rt: &impl Abort, alloc: Global, shelf: &mut Shelf) -> Result<(), Fail> {
    let second = keep(alloc, shelf, b"m.c", OTHER)?;
    let first = keep(alloc, shelf, b"z/b.c", FIRST)?;
    show(shelf, second)?;
    show(shelf, first)?;
    lends_what_is_shown(rt, shelf)?;
    tells_equal_rows_once(rt, shelf)?;
    keeps_what_is_shown(rt, shelf, second);
    Ok(())
}

#[test]
fn compact_lets_go_what_is_not_shown(rt: HostRuntime) -> Result<(), Fail> {
    let mut shelf = Shelf::new(rt.alloc(), Profile::all_by(Rules::Standard));
    shelf.truncate(0, 0);
    assert_eq!(rt; shelf.archive().name_count(), 0);
    lend_and_compact(&rt, rt.alloc(), &mut shelf)
}

#[test]
fn show_and_hide_change_what_is_shown(rt: HostRuntime) -> Result<(), Fail> {
    let mut shelf = Shelf::new(rt.alloc(), Profile::all_by(Rules::Standard));
    assert_eq!(rt; shelf.turns(), 0);
    show_and_hide(&rt, rt.alloc(), &mut shelf)
}
