//! What the tokens of one spelling are, worked out by hand.
use crate::tests::labels::source_of;
use cb_names::{Code, Space, SpacedName, macro_names};
use std::test::Fail;

/// Whether the tokens begin at these places and are in these spaces.
fn are(found: &[SpacedName], wanted: &[(u32, Option<Space>)]) -> bool {
    if found.len() != wanted.len() {
        return false;
    }
    for (i, one) in found.iter().enumerate() {
        if one.name.start != wanted[i].0 || one.space != wanted[i].1 {
            return false;
        }
    }
    true
}

/// Whether the names that mean something in their function alone begin at these places.
fn owns(rt: &HostRuntime, text: &[u8], name: &[u8], places: &[u32]) -> Result<bool, Fail> {
    let source = source_of(rt, text)?;
    let code = Code::new(rt.alloc(), &source)?;
    let found = code.own_names(rt.alloc(), name)?;
    if found.len() != places.len() {
        return Ok(false);
    }
    for (i, one) in found.iter().enumerate() {
        if one.start != places[i] {
            return Ok(false);
        }
    }
    Ok(true)
}

#[test]
fn a_function_owns_its_locals_and_labels(rt: HostRuntime) -> Result<(), Fail> {
    // The parameter of f and its use; not the variable, the member, or what g names.
    let text = b"int x; int f(int x) { return p->x + x; } int g(void) { return x; }";
    assert!(rt; owns(&rt, text, b"x", &[17, 36])?);
    // A label and its goto in the second function, a block's variable in the third.
    let text = b"int f; void g(void) { goto f; f: ; } void h(void) { { int f; f = 1; } f(); }";
    assert!(rt; owns(&rt, text, b"f", &[27, 30, 58, 61])?);
    assert!(rt; owns(&rt, text, b"k", &[])?);
    Ok(())
}

#[test]
fn the_code_tells_spaces_of_one_spelling(rt: HostRuntime) -> Result<(), Fail> {
    let source = source_of(
        &rt,
        b"struct x { int x; } v; int f(void) { return v.x + x(1) + x; }",
    )?;
    let code = Code::new(rt.alloc(), &source)?;
    let found = code.spaced_names(rt.alloc(), b"x")?;
    let wanted = &[
        (7, Some(Space::Struct)),
        (15, Some(Space::Plain)),
        (46, Some(Space::Member)),
        (50, Some(Space::Called)),
        (57, Some(Space::Plain)),
    ];
    assert!(rt; are(found.as_slice(), wanted));
    Ok(())
}

#[test]
fn the_line_of_a_macro_tells_spaces_of_one_spelling(rt: HostRuntime) -> Result<(), Fail> {
    let source = source_of(
        &rt,
        b"#define R(p) ((p)->read(1) + read + struct read)\nint read;",
    )?;
    let found = macro_names(rt.alloc(), &source, 8, b"read")?;
    let wanted = &[
        (19, Some(Space::Member)),
        (29, Some(Space::Plain)),
        (43, Some(Space::Struct)),
    ];
    assert!(rt; are(found.as_slice(), wanted));
    // A parameter, and the name of the macro itself.
    let found = macro_names(rt.alloc(), &source, 8, b"p")?;
    assert!(rt; are(found.as_slice(), &[(10, None), (15, None)]));
    let found = macro_names(rt.alloc(), &source, 8, b"R")?;
    assert!(rt; are(found.as_slice(), &[]));
    Ok(())
}
