//! Parameters and local variables, worked out by hand.
use crate::tests::labels::source_of;
use cb_names::{Access, Code, LocalUse};
use cb_scan::Span;
use std::test::Fail;

/// What is done with a name, by a letter: `N` if it is only declared, `W` if its declaration has a
/// value.
pub(crate) fn letter(one: LocalUse) -> u8 {
    match one.access {
        Access::Named => b'N',
        Access::Written if one.declares => b'W',
        Access::Written => b'w',
        Access::Read => b'r',
        Access::Address => b'a',
    }
}

/// Whether the local named at a place is defined at another one, and used at these in these ways.
fn uses(
    rt: &HostRuntime,
    text: &[u8],
    place: u32,
    definition: u32,
    places: &[u32],
    letters: &[u8],
) -> Result<bool, Fail> {
    let source = source_of(rt, text)?;
    let code = Code::new(rt.alloc(), &source)?;
    let Some(local) = code.local_at(rt.alloc(), place)? else {
        return Ok(false);
    };
    let found = local.uses();
    if local.definition().map(|span: Span| -> u32 { span.start }) != Some(definition)
        || found.len() != places.len()
        || found.len() != letters.len()
    {
        return Ok(false);
    }
    for (i, one) in found.iter().enumerate() {
        if one.name.start != places[i] || letter(*one) != letters[i] {
            return Ok(false);
        }
    }
    Ok(true)
}

/// Whether the name at a place means nothing in a function alone.
fn is_free(rt: &HostRuntime, text: &[u8], place: u32) -> Result<bool, Fail> {
    let source = source_of(rt, text)?;
    let code = Code::new(rt.alloc(), &source)?;
    Ok(code.local_at(rt.alloc(), place)?.is_none())
}

#[test]
fn a_block_hides_names_of_outer_ones(rt: HostRuntime) -> Result<(), Fail> {
    let text = b"int f(int n) { int k = n; { long n = 2, k; k = n; } return k + n; }";
    for place in [10, 23, 63] {
        assert!(rt; uses(&rt, text, place, 10, &[10, 23, 63], b"Nrr")?);
    }
    assert!(rt; uses(&rt, text, 59, 19, &[19, 59], b"Wr")?);
    // In the inner block.
    assert!(rt; uses(&rt, text, 47, 33, &[33, 47], b"Wr")?);
    assert!(rt; uses(&rt, text, 43, 40, &[40, 43], b"Nw")?);
    Ok(())
}

#[test]
fn a_local_begins_at_its_declaration(rt: HostRuntime) -> Result<(), Fail> {
    let text = b"int k; int f(void) { k = 1; int k = k; return k; }";
    assert!(rt; uses(&rt, text, 36, 32, &[32, 36, 46], b"Wrr")?);
    // Before it, in the function and outside of it.
    assert!(rt; is_free(&rt, text, 21)?);
    assert!(rt; is_free(&rt, text, 4)?);
    // At the end of a text whose function is still open.
    assert!(rt; uses(&rt, b"int f(int a) { a", 16, 10, &[10, 15], b"Nr")?);
    Ok(())
}

#[test]
fn the_local_of_a_loop_ends_with_its_statement(rt: HostRuntime) -> Result<(), Fail> {
    let text = b"void f(int i) { for (int i = 0; i < 9; i++) if (i) g(i); else h(i); i = 3; }";
    assert!(rt; uses(&rt, text, 64, 25, &[25, 32, 39, 48, 53, 64], b"Wrwrrr")?);
    assert!(rt; uses(&rt, text, 68, 11, &[11, 68], b"Nw")?);
    Ok(())
}

#[test]
fn declarations_before_the_body_declare_parameters(rt: HostRuntime) -> Result<(), Fail> {
    let text = b"int f(a, b) char *b; { return a + *b; }";
    assert!(rt; uses(&rt, text, 30, 6, &[6, 30], b"Nr")?);
    // The last one before a use is its definition.
    assert!(rt; uses(&rt, text, 35, 18, &[9, 18, 35], b"NNr")?);
    assert!(rt; uses(&rt, text, 9, 9, &[9, 18, 35], b"NNr")?);
    Ok(())
}

#[test]
fn a_list_in_a_list_is_a_scope(rt: HostRuntime) -> Result<(), Fail> {
    let text = b"int f(int (*g)(int a, int b), int a) { return g(a, b); }";
    assert!(rt; uses(&rt, text, 46, 12, &[12, 46], b"Nr")?);
    assert!(rt; uses(&rt, text, 19, 19, &[19], b"N")?);
    assert!(rt; uses(&rt, text, 48, 34, &[34, 48], b"Nr")?);
    assert!(rt; is_free(&rt, text, 51)?);
    Ok(())
}

#[test]
fn enumerators_are_declared_in_their_block(rt: HostRuntime) -> Result<(), Fail> {
    let text = b"int f(void) { { enum e { A, B = 4 } x = A; f(x + B); } return A; }";
    assert!(rt; uses(&rt, text, 40, 25, &[25, 40], b"Nr")?);
    assert!(rt; uses(&rt, text, 49, 28, &[28, 49], b"Wr")?);
    assert!(rt; is_free(&rt, text, 62)?);
    // What is called there is a macro.
    assert!(rt; is_free(&rt, b"void f(void) { enum { A(b), C }; A(C); }", 33)?);
    Ok(())
}

#[test]
fn names_of_the_file_are_not_declared_in_a_block(rt: HostRuntime) -> Result<(), Fail> {
    let text = b"void f(void) { extern int a; int g(int b); a = g(b); }";
    for place in [26, 33, 43, 47, 49] {
        assert!(rt; is_free(&rt, text, place)?);
    }
    assert!(rt; uses(&rt, text, 39, 39, &[39], b"N")?);
    Ok(())
}

#[test]
fn both_branches_of_a_condition_declare(rt: HostRuntime) -> Result<(), Fail> {
    let text = b"void f(void) {\n#if X\n    int a = 1;\n#else\n    char a;\n#endif\n    a++;\n}";
    assert!(rt; uses(&rt, text, 65, 51, &[29, 51, 65], b"WNw")?);
    assert!(rt; uses(&rt, text, 29, 29, &[29, 51, 65], b"WNw")?);
    Ok(())
}

#[test]
fn it_is_known_what_is_done_with_a_name(rt: HostRuntime) -> Result<(), Fail> {
    let text = b"void f(int a[]) { a[1] = 2; a[0]++; --a; *a = 3; g(&a, a); a->b = 1; a <<= 2; \
        a == 1 & a; }";
    let places = &[11, 18, 28, 38, 42, 52, 55, 59, 69, 78, 87];
    assert!(rt; uses(&rt, text, 87, 11, places, b"Nwwwrarrwrr")?);
    Ok(())
}
