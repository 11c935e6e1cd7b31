//! Name spaces, worked out by hand.
use crate::tests::labels::source_of;
use cb_names::{Code, Space, directive_space};
use std::test::Fail;

/// Whether each of these places has its name space, or no name.
fn spaces(rt: &HostRuntime, text: &[u8], wanted: &[(u32, Option<Space>)]) -> Result<bool, Fail> {
    let source = source_of(rt, text)?;
    let code = Code::new(rt.alloc(), &source)?;
    for one in wanted {
        if code.space_at(rt.alloc(), one.0)? != one.1 {
            return Ok(false);
        }
    }
    Ok(true)
}

#[test]
fn the_tokens_around_a_name_tell_its_space(rt: HostRuntime) -> Result<(), Fail> {
    let text = b"struct x { int x; }; int f(struct x *p) { return p->x + x(1) + x; }";
    let wanted = &[
        (7, Some(Space::Struct)),
        (15, Some(Space::Plain)),
        (25, Some(Space::Called)),
        (34, Some(Space::Struct)),
        (37, Some(Space::Plain)),
        (52, Some(Space::Member)),
        (56, Some(Space::Called)),
        (63, Some(Space::Plain)),
        // At the end of a name.
        (8, Some(Space::Struct)),
        (53, Some(Space::Member)),
        (57, Some(Space::Called)),
        // At the end of a reserved word, in one, at a number and behind all of it.
        (6, None),
        (44, None),
        (58, None),
        (67, None),
    ];
    assert!(rt; spaces(&rt, text, wanted)?);
    Ok(())
}

#[test]
fn the_nearest_of_the_three_words_tells_tags_apart(rt: HostRuntime) -> Result<(), Fail> {
    let text = b"struct PACKED s { union u *i; }; enum PACKED e { A }; union u *g(enum e);";
    let wanted = &[
        (7, Some(Space::Plain)),
        (14, Some(Space::Struct)),
        (24, Some(Space::Union)),
        (27, Some(Space::Plain)),
        (38, Some(Space::Plain)),
        (45, Some(Space::Enum)),
        (49, Some(Space::Plain)),
        (60, Some(Space::Union)),
        (63, Some(Space::Called)),
        (70, Some(Space::Enum)),
    ];
    assert!(rt; spaces(&rt, text, wanted)?);
    Ok(())
}

#[test]
fn a_dot_of_three_makes_no_member(rt: HostRuntime) -> Result<(), Fail> {
    let text = b"enum { a, b }; struct s v = { .a.b = 1, .c[0].d = 2 }; int f(int n, ...) \
        { switch (n) { case a ... b: return v.a; } return 0; }";
    let wanted = &[
        (7, Some(Space::Plain)),
        (10, Some(Space::Plain)),
        (22, Some(Space::Struct)),
        (31, Some(Space::Member)),
        (33, Some(Space::Member)),
        (41, Some(Space::Member)),
        (46, Some(Space::Member)),
        (93, Some(Space::Plain)),
        (99, Some(Space::Plain)),
        (109, Some(Space::Plain)),
        (111, Some(Space::Member)),
    ];
    assert!(rt; spaces(&rt, text, wanted)?);
    Ok(())
}

#[test]
fn only_names_of_the_code_have_a_space(rt: HostRuntime) -> Result<(), Fail> {
    let text = b"/* x */ char *p = \"x\"; // x\n#define x y\nint f(void) __attribute__((s(x)));";
    let wanted = &[
        (14, Some(Space::Plain)),
        (44, Some(Space::Called)),
        // In comments, in a string, in a directive and in an attribute.
        (3, None),
        (26, None),
        (19, None),
        (36, None),
        (38, None),
        (52, None),
        (67, None),
        (69, None),
    ];
    assert!(rt; spaces(&rt, text, wanted)?);
    Ok(())
}

#[test]
fn the_own_word_of_a_directive_tells_its_spaces(rt: HostRuntime) -> Result<(), Fail> {
    let text =
        b"#ifdef A\n#define M(p) ((p)->b + c(d) + sizeof(struct e) + \\\n q.f)\n#endif\n#include G\nint h;\n# /* x */ undef B\n";
    let source = source_of(&rt, text)?;
    let wanted: &[(u32, Option<Space>)] = &[
        (7, Some(Space::Macro)),
        (8, Some(Space::Macro)),
        (17, Some(Space::Macro)),
        (24, Some(Space::Plain)),
        (28, Some(Space::Member)),
        (32, Some(Space::Called)),
        (34, Some(Space::Plain)),
        (53, Some(Space::Struct)),
        (61, Some(Space::Plain)),
        (63, Some(Space::Member)),
        (107, Some(Space::Macro)),
        // The own words, a name behind `include`, one of the code, and one in a comment.
        (1, None),
        (82, None),
        (88, None),
        (96, None),
        (101, None),
    ];
    for one in wanted {
        assert_eq!(rt; directive_space(rt.alloc(), &source, one.0)?, one.1);
    }
    Ok(())
}
