//! Labels, worked out by hand.
use cb_names::Code;
use cb_scan::{Source, Span};
use std::test::Fail;

/// A source.
pub(crate) fn source_of(rt: &HostRuntime, text: &[u8]) -> Result<Source, Fail> {
    Ok(Source::new(rt.alloc(), text.to_vec(rt.alloc())?)?)
}

/// Whether the label named at a place is defined at one place and named at others; no places mean
/// that none is named there.
fn names(
    rt: &HostRuntime,
    text: &[u8],
    place: u32,
    definition: Option<u32>,
    uses: &[u32],
) -> Result<bool, Fail> {
    let source = source_of(rt, text)?;
    let code = Code::new(rt.alloc(), &source)?;
    let Some(label) = code.local_at(rt.alloc(), place)? else {
        return Ok(uses.is_empty());
    };
    let starts = label.uses();
    if label.definition().map(|span: Span| -> u32 { span.start }) != definition
        || starts.len() != uses.len()
    {
        return Ok(false);
    }
    for (i, one) in starts.iter().enumerate() {
        if one.name.start != uses[i] {
            return Ok(false);
        }
    }
    Ok(true)
}

#[test]
fn a_label_is_named_in_its_function_alone(rt: HostRuntime) -> Result<(), Fail> {
    let text = b"int f(int out) { goto out; out: return out; }\nint g(void) { goto out; out: ; }";
    // Behind `goto`, and at the label itself; the place at its end counts.
    for place in [22, 24, 25, 27, 30] {
        assert!(rt; names(&rt, text, place, Some(27), &[22, 27])?);
    }
    assert!(rt; names(&rt, text, 65, Some(70), &[65, 70])?);
    // A parameter, and what is returned.
    assert!(rt; names(&rt, text, 10, Some(10), &[10, 39])?);
    assert!(rt; names(&rt, text, 39, Some(10), &[10, 39])?);
    Ok(())
}

#[test]
fn labels_begin_statements(rt: HostRuntime) -> Result<(), Fail> {
    let text = b"int f(int a) { switch (a) { case 1 ? 2 : 3: b: ; default: c: d: ; } e: ; \
        { i: ; } if (a) { } j: return a ? k : l; }";
    for label in [44, 58, 61, 68] {
        assert!(rt; names(&rt, text, label, Some(label), &[label])?);
    }
    // In an inner block, and behind one.
    assert!(rt; names(&rt, text, 75, Some(75), &[75])?);
    assert!(rt; names(&rt, text, 93, Some(93), &[93])?);
    // A part of a conditional, and a parameter.
    assert!(rt; names(&rt, text, 107, None, &[])?);
    assert!(rt; names(&rt, text, 23, Some(10), &[10, 23, 86, 103])?);
    Ok(())
}

#[test]
fn values_and_bodies_hold_no_labels(rt: HostRuntime) -> Result<(), Fail> {
    let text = b"void f(void) { struct s { int a : 1; } v = { a: 1, { b: 2 } }; g(({ c: 0; })); }";
    for place in [30, 45, 53] {
        assert!(rt; names(&rt, text, place, None, &[])?);
    }
    // A block in parentheses is one.
    assert!(rt; names(&rt, text, 68, Some(68), &[68])?);
    Ok(())
}

#[test]
fn attributes_before_a_label_are_left_out(rt: HostRuntime) -> Result<(), Fail> {
    let text = b"void f(void) { goto a; __attribute__((x)) a: ; b::c; }";
    assert!(rt; names(&rt, text, 20, Some(42), &[20, 42])?);
    // Two colons are no label's.
    assert!(rt; names(&rt, text, 47, None, &[])?);
    Ok(())
}

#[test]
fn a_label_that_is_missing_has_no_definition(rt: HostRuntime) -> Result<(), Fail> {
    let text = b"void f(void) { goto a; goto a; }";
    assert!(rt; names(&rt, text, 20, None, &[20, 28])?);
    assert!(rt; names(&rt, b"int a; goto b;", 12, None, &[])?);
    assert!(rt; names(&rt, b"", 0, None, &[])?);
    Ok(())
}
