//! An index of definitions, and the order of its rows, worked out by hand.
ghost use Rattle.std.specs.Prelude.{◌≡◌, []};

use super::kept::keep_in;
use cb_index::{Archive, CallsByCaller, DefsByName, DefsByTagName, Row, RowOrder, Shown, Sorted};
use cb_scan::{Profile, Rules};
use std::alloc::Global;
use std::cmp::Ordering;
use std::process::Abort;
use std::test::Fail;

/// A fact of the first version under the first name.
fn row(item: u32) -> Row {
    Row {
        name: 0,
        version: 0,
        item,
    }
}

/// The rows of `add` are one: it is defined third, after `TWICE` and `word`.
fn has_one_add(rt: &impl Abort, archive: &Archive, index: &Sorted<DefsByName>) -> Result<(), Fail> {
    if !index.is_in_order(archive) {
        return Err(Fail::from("out of order"));
    }
    let mut rows = index.range(archive, b"add");
    assert!(rt; rows.next() == Some(row(2)));
    assert!(rt; rows.next().is_none());
    Ok(())
}

/// No row of `add` is left.
fn has_none(rt: &impl Abort, archive: &Archive, index: &Sorted<DefsByName>) -> Result<(), Fail> {
    if !index.is_in_order(archive) {
        return Err(Fail::from("out of order"));
    }
    assert!(rt; index.range(archive, b"add").next().is_none());
    Ok(())
}

/// Four definitions are put in room for four, and taken away.
fn put_and_take(
    rt: &impl Abort,
    archive: &Archive,
    one: Shown,
    index: &mut Sorted<DefsByName>,
) -> Result<(), Fail>
    requires { index.old.entries ≡ [] }
{
    match index.reserve(4) {
        Ok(()) => {}
        Err(_) => return Err(Fail::from("no memory")),
    }
    if index.count(archive, one.version) != 4 || index.room() < 4 || !index.is_in_order(archive) {
        return Err(Fail::from("no room"));
    }
    index.put_all(archive, one);
    has_one_add(rt, archive, index)?;
    index.take_version(archive, one);
    assert_eq!(rt; index.count(archive, one.version), 4);
    has_none(rt, archive, index)
}

fn keep_and_put(rt: &impl Abort, alloc: Global, archive: &mut Archive) -> Result<(), Fail> {
    let one = keep_in(alloc, archive, b"z/b.c")?;
    let mut index: Sorted<DefsByName> = Sorted::new(alloc);
    put_and_take(rt, archive, one, &mut index)
}

#[test]
fn range_gives_the_rows_of_a_key(rt: HostRuntime) -> Result<(), Fail> {
    let mut archive = Archive::new(rt.alloc(), Profile::all_by(Rules::Standard));
    archive.truncate(0, 0);
    assert_eq!(rt; archive.version_count(), 0);
    keep_and_put(&rt, rt.alloc(), &mut archive)
}

/// `main` comes last by name, and first by tag name.
fn orders_differ(rt: &impl Abort, archive: &Archive) {
    let (twice, main) = (row(0), row(3));
    assert!(rt; <DefsByName as RowOrder>::compare(archive, main, twice) == Ordering::Greater);
    assert!(rt; <DefsByName as RowOrder>::compare(archive, main, main) == Ordering::Equal);
    assert!(rt; <DefsByName as RowOrder>::compare_key(archive, b"main", main) == Ordering::Equal);
    assert!(rt; <DefsByName as RowOrder>::compare_key(archive, b"maim", main) == Ordering::Less);
    assert!(rt; <DefsByTagName as RowOrder>::compare(archive, main, twice) == Ordering::Less);
    assert!(rt; <DefsByTagName as RowOrder>::compare_key(archive, b"Mb", main) == Ordering::Equal);
    assert_eq!(rt; <DefsByTagName as RowOrder>::items(archive, 0), 4);
    assert_eq!(rt; <CallsByCaller as RowOrder>::items(archive, 0), 3);
    assert_eq!(rt; <CallsByCaller as RowOrder>::items(archive, 1), 0);
}

fn keep_and_compare(rt: &impl Abort, alloc: Global, archive: &mut Archive) -> Result<(), Fail> {
    let _one = keep_in(alloc, archive, b"z/b.c")?;
    orders_differ(rt, archive);
    Ok(())
}

#[test]
fn compare_is_by_name_or_by_tag_name(rt: HostRuntime) -> Result<(), Fail> {
    let mut archive = Archive::new(rt.alloc(), Profile::all_by(Rules::Standard));
    keep_and_compare(&rt, rt.alloc(), &mut archive)
}
