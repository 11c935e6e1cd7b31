//! Parameters of macros, worked out by hand.
use crate::tests::labels::source_of;
use crate::tests::locals::letter;
use cb_names::{Arguments, parameter_at};
use cb_scan::Span;
use std::test::Fail;

#[test]
fn a_parameter_is_known_in_the_line_of_its_macro(rt: HostRuntime) -> Result<(), Fail> {
    let text = b"int x;\n#define F(x, y) G(x) + \\\n p->x++ + x##y\nint y;\n";
    let source = source_of(&rt, text)?;
    for place in [17, 25, 36, 42] {
        let found = parameter_at(rt.alloc(), &source, 15, place)?;
        assert!(rt; found.is_some());
        if let Some(parameter) = found {
            assert_eq!(rt; parameter.extent(), Span { start: 15, end: 46 });
            assert_eq!(rt;
                parameter.arguments(),
                [Arguments {
                    name: Span { start: 23, end: 24 },
                    end: 26
                }]
                .as_slice()
            );
            let local = parameter.local();
            assert_eq!(rt; local.definition(), Some(Span { start: 17, end: 18 }));
            assert!(rt; !local.is_label());
            let uses = local.uses();
            assert_eq!(rt; uses.len(), 4);
            for (i, wanted) in [(17, b'N'), (25, b'r'), (36, b'w'), (42, b'r')]
                .iter()
                .enumerate()
            {
                assert_eq!(rt; uses[i].name.start, wanted.0);
                assert_eq!(rt; letter(uses[i]), wanted.1);
                assert_eq!(rt; uses[i].declares, i == 0);
            }
        }
    }
    // The name of the macro, of another one and of a member, and places in other lines.
    for place in [4, 15, 23, 33, 51] {
        assert!(rt; parameter_at(rt.alloc(), &source, 15, place)?.is_none());
    }
    Ok(())
}

#[test]
fn a_blank_before_the_parenthesis_makes_no_list(rt: HostRuntime) -> Result<(), Fail> {
    let source = source_of(&rt, b"#define F (x) x\n#define x x\n")?;
    for (name, place) in [(8, 11), (8, 14), (24, 26)] {
        assert!(rt; parameter_at(rt.alloc(), &source, name, place)?.is_none());
    }
    Ok(())
}
