//! Names that are visible at a place of a function, worked out by hand.
use crate::tests::labels::source_of;
use cb_names::Code;
use std::test::Fail;

/// Whether the names that are visible at a place are declared at these.
fn sees(rt: &HostRuntime, text: &[u8], place: u32, places: &[u32]) -> Result<bool, Fail> {
    let source = source_of(rt, text)?;
    let code = Code::new(rt.alloc(), &source)?;
    let found = code.visible_names(rt.alloc(), place)?;
    if found.len() != places.len() {
        return Ok(false);
    }
    for (i, one) in found.iter().enumerate() {
        if one.start != places[i] {
            return Ok(false);
        }
    }
    Ok(true)
}

#[test]
fn a_name_is_visible_up_to_the_end_of_its_scope(rt: HostRuntime) -> Result<(), Fail> {
    let text = b"int f(int n) { { int k; k = n; } int m; m = n; } int z;";
    // In the inner block, and where what stands there declares a name itself.
    assert!(rt; sees(&rt, text, 24, &[10, 21])?);
    assert!(rt; sees(&rt, text, 21, &[10])?);
    // Behind the block, before the next declaration and after it.
    assert!(rt; sees(&rt, text, 33, &[10])?);
    assert!(rt; sees(&rt, text, 40, &[10, 37])?);
    // Outside of the function.
    for place in [0, 4, 48, 53] {
        assert!(rt; sees(&rt, text, place, &[])?);
    }
    Ok(())
}

#[test]
fn a_name_is_visible_in_a_function_that_is_open(rt: HostRuntime) -> Result<(), Fail> {
    let text = b"int f(int n) { for (int i = n; i < n; i++) g(i); int n; x: n";
    assert!(rt; sees(&rt, text, 45, &[10, 24])?);
    // Both declarations of one name; no label.
    assert!(rt; sees(&rt, text, 59, &[10, 53])?);
    Ok(())
}
