//! The uses of a name, and calls, with their places.
use super::meters::load;
use cb_desk::{Bounds, Desk, Field, Refusal, Uses};
use cb_scan::{Profile, Rules};
use std::alloc::Global;
use std::process::Abort;

const FIRST: &[u8] = b"int g(int x) { return f(x) + f(x); }\n";

const SECOND: &[u8] = b"int f;\nint h(void) { return f; }\n";

/// A desk of two files that use one name four times, and call it twice.
fn two_users(alloc: Global) -> Result<Desk, Refusal> {
    let mut desk = Desk::new(alloc, Bounds::standard(), Profile::all_by(Rules::Standard));
    load(&mut desk, alloc, b"b.c", SECOND)?;
    load(&mut desk, alloc, b"a.c", FIRST)?;
    Ok(desk)
}

/// They are uses of `f` in this file, at these places, and the names around them begin at those.
fn come(rt: &impl Abort, uses: &mut Uses<'_, '_>, file: &[u8], places: &[(u32, Option<u32>)]) {
    for (place, scope_place) in places {
        match uses.next() {
            Some(spot) => {
                assert!(rt; spot.name == b"f".as_slice() && spot.file == file);
                assert!(rt; spot.place == *place && spot.scope_place == *scope_place);
            }
            None => assert!(rt; false),
        }
    }
}

/// Both calls of `f`, which stand on one line, and no more.
fn are_both_calls(rt: &impl Abort, calls: Uses<'_, '_>) {
    let mut again = calls.again();
    let mut calls = calls;
    come(rt, &mut calls, b"a.c", &[(22, Some(4)), (29, Some(4))]);
    assert!(rt; calls.next().is_none());
    come(rt, &mut again, b"a.c", &[(22, Some(4)), (29, Some(4))]);
    assert!(rt; again.next().is_none());
}

/// All uses and calls, by file and place.
fn come_with_places(rt: &impl Abort, desk: &Desk) {
    let mut uses = desk.uses(b"f");
    come(rt, &mut uses, b"a.c", &[(22, Some(4)), (29, Some(4))]);
    come(rt, &mut uses, b"b.c", &[(4, None), (28, Some(11))]);
    assert!(rt; uses.next().is_none());
    are_both_calls(rt, desk.calls_of(b"f"));
    are_both_calls(rt, desk.calls_in(b"g"));
    assert!(rt; desk.calls_in(b"f").next().is_none());
}

#[test]
fn uses_and_calls_of_a_name_come_by_file_and_place(rt: HostRuntime) -> Result<(), Refusal> {
    let mut desk = two_users(rt.alloc())?;
    come_with_places(&rt, &desk);
    for field in [Field::Symbol, Field::Called, Field::Calling] {
        desk.settle(field);
    }
    come_with_places(&rt, &desk);
    Ok(())
}
