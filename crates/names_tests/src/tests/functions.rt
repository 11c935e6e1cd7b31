//! The names of functions, and what the texts of macros name, worked out by hand.
use crate::tests::labels::source_of;
use cb_names::{Arguments, Code, MacroName, macro_at, takes_member};
use cb_scan::Span;
use std::test::Fail;

/// Whether some spans begin at these places.
fn begin_at(spans: &[Span], places: &[u32]) -> bool {
    if spans.len() != places.len() {
        return false;
    }
    for (i, span) in spans.iter().enumerate() {
        if span.start != places[i] {
            return false;
        }
    }
    true
}

/// Whether the names of the text of the macro at a place begin so far behind it, and which are free.
fn names(
    rt: &HostRuntime,
    text: &[u8],
    place: u32,
    wanted: &[(u32, bool)],
    odd: bool,
) -> Result<bool, Fail> {
    let source = source_of(rt, text)?;
    let parts = macro_at(rt.alloc(), &source, place)?;
    let found: &[MacroName] = parts.names();
    if found.len() != wanted.len() || parts.is_odd() != odd {
        return Ok(false);
    }
    for (i, name) in found.iter().enumerate() {
        if name.name.start != wanted[i].0 || name.free != wanted[i].1 {
            return Ok(false);
        }
    }
    Ok(true)
}

#[test]
fn a_function_has_names_and_arguments(rt: HostRuntime) -> Result<(), Fail> {
    let text = b"int a;\nint f(int b) __attribute__((c)) { return g(b, h(d)) + (e); }\nint i;";
    let source = source_of(&rt, text)?;
    let code = Code::new(rt.alloc(), &source)?;
    let Some(function) = code.function_names(rt.alloc(), 12)? else {
        return Err(Fail::new("no function"));
    };
    assert!(rt; function.extent().start == 7 && function.extent().end == 67);
    assert!(rt; begin_at(function.names(), &[11, 17, 35, 48, 50, 53, 55, 62]));
    assert!(rt; begin_at(function.own(), &[11, 17, 48, 50, 53, 55, 62]));
    let with: &[Arguments] = function.arguments();
    assert!(rt; with.len() == 3 && with[0].name.start == 11 && with[0].end == 18);
    assert!(rt; with[1].name.start == 48 && with[1].end == 57);
    assert!(rt; with[2].name.start == 53 && with[2].end == 56);
    assert!(rt; begin_at(function.lone(), &[17, 50, 55, 62]));
    assert!(rt; function.unsure().is_empty() && function.is_whole());
    Ok(())
}

#[test]
fn a_function_that_ends_early_is_not_whole(rt: HostRuntime) -> Result<(), Fail> {
    let text = b"int f(int a) {\n if (a) {\n}\n return a;\n}\nint g(void) { return 0; }";
    let source = source_of(&rt, text)?;
    for (place, whole) in [(10, false), (45, true)] {
        let code = Code::new(rt.alloc(), &source)?;
        let Some(function) = code.function_names(rt.alloc(), place)? else {
            return Err(Fail::new("no function"));
        };
        assert!(rt; function.is_whole() == whole);
    }
    Ok(())
}

#[test]
fn names_of_which_the_rules_are_not_sure(rt: HostRuntime) -> Result<(), Fail> {
    let text = b"void f(int a) { struct { int b; } s; s = (T){ c: a }; p = &&d; d: ; }";
    let source = source_of(&rt, text)?;
    let code = Code::new(rt.alloc(), &source)?;
    let Some(function) = code.function_names(rt.alloc(), 11)? else {
        return Err(Fail::new("no function"));
    };
    assert!(rt; begin_at(function.unsure(), &[29, 46, 60]));
    let text = b"void f(void) { enum { a, b } c; { d: goto d; } }";
    let source = source_of(&rt, text)?;
    let code = Code::new(rt.alloc(), &source)?;
    let Some(function) = code.function_names(rt.alloc(), 7)? else {
        return Err(Fail::new("no function"));
    };
    assert!(rt; function.unsure().is_empty());
    Ok(())
}

#[test]
fn macros_name_what_is_no_parameter(rt: HostRuntime) -> Result<(), Fail> {
    let text = b"#define F(a, b) ((a)->c + d.e + struct g + \\\n h(b))\nint i;\n#define J k\n";
    assert!(rt;
        names(
            &rt,
            text,
            8,
            &[
                (14, false),
                (18, true),
                (20, false),
                (31, false),
                (38, true)
            ],
            false
        )?
    );
    assert!(rt; names(&rt, text, 67, &[(2, true)], false)?);
    Ok(())
}

#[test]
fn macros_make_something_else_of_arguments(rt: HostRuntime) -> Result<(), Fail> {
    for text in [
        b"A(a) #a".as_slice(),
        b"B(a) x ## a".as_slice(),
        b"C(a) p->a".as_slice(),
        b"D(a) struct a".as_slice(),
        b"E(a) goto a".as_slice(),
        b"F(a) a:".as_slice(),
        b"G(a) offsetof(s, a)".as_slice(),
    ] {
        let source = source_of(&rt, text)?;
        assert!(rt; macro_at(rt.alloc(), &source, 0)?.is_odd());
    }
    let source = source_of(&rt, b"H(a) (a)->b")?;
    assert!(rt; !macro_at(rt.alloc(), &source, 0)?.is_odd());
    assert!(rt; macro_at(rt.alloc(), &source, 0)?.takes_arguments());
    let source = source_of(&rt, b"J (a)")?;
    assert!(rt; !macro_at(rt.alloc(), &source, 0)?.takes_arguments());
    assert!(rt; takes_member(b"__builtin_offsetof") && !takes_member(b"offset"));
    Ok(())
}
