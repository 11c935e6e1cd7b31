//! Tokens of the code, and what tokens name as a part of a declaration, worked out by hand.
use cb_scan::{Source, attribute_len, code_tokens, part_names};
use std::test::Fail;

/// A source.
fn source_of(rt: &HostRuntime, text: &[u8]) -> Result<Source, Fail> {
    Ok(Source::new(rt.alloc(), text.to_vec(rt.alloc())?)?)
}

#[test]
fn code_tokens_leave_out_directives_and_blanks(rt: HostRuntime) -> Result<(), Fail> {
    let source = source_of(&rt, b"int a;\n#define b(c) d\nextern \"C\" { x }")?;
    let tokens = code_tokens(rt.alloc(), &source)?;
    let starts = [0, 4, 5, 22, 29, 33, 35, 37];
    assert_eq!(rt; tokens.len(), starts.len());
    for (token, start) in tokens.as_slice().iter().zip(starts.iter()) {
        assert_eq!(rt; token.token.span.start, *start);
        assert!(rt; !token.counted);
    }
    Ok(())
}

#[test]
fn part_names_tells_a_variable_from_a_function(rt: HostRuntime) -> Result<(), Fail> {
    // The text, whether it is a first part, and where its name and the name of its function begin.
    let parts: [(&[u8], bool, Option<u32>, Option<u32>); 5] = [
        (b"int a".as_slice(), true, Some(4), None),
        (b"a".as_slice(), true, None, None),
        (b"a".as_slice(), false, Some(0), None),
        (b"int f(void)".as_slice(), true, None, Some(4)),
        (b"int (*g)(void) = h".as_slice(), true, Some(6), None),
    ];
    for (text, is_first, name, function) in parts {
        let source = source_of(&rt, text)?;
        let tokens = code_tokens(rt.alloc(), &source)?;
        let found = part_names(tokens.as_slice(), is_first);
        assert_eq!(rt; found.name.map(|t| t.token.span.start), name);
        assert_eq!(rt; found.function.map(|t| t.token.span.start), function);
        assert_eq!(rt; found.has_value, text.ends_with(b"h"));
        assert!(rt; !found.is_stray);
    }
    let source = source_of(&rt, b"return a")?;
    let tokens = code_tokens(rt.alloc(), &source)?;
    assert!(rt; part_names(tokens.as_slice(), true).is_stray);
    Ok(())
}

#[test]
fn attribute_len_counts_up_to_the_parenthesis(rt: HostRuntime) -> Result<(), Fail> {
    let texts: [(&[u8], usize); 4] = [
        (b"__attribute__((x)) y".as_slice(), 6),
        (b"aligned(8) y".as_slice(), 4),
        (b"aligned(y) 8".as_slice(), 0),
        (b"asm(\"x\"; y)".as_slice(), 3),
    ];
    for (text, len) in texts {
        let source = source_of(&rt, text)?;
        let tokens = code_tokens(rt.alloc(), &source)?;
        assert_eq!(rt; attribute_len(tokens.as_slice()), len);
    }
    Ok(())
}
