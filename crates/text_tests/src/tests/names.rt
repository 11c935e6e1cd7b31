//! Tests of names, with the reserved words as C11 6.4.1 lists them and the six that the profile
//! adds.
use cb_scan::is_name;

const RESERVED: [&str; 50] = [
    "auto",
    "break",
    "case",
    "char",
    "const",
    "continue",
    "default",
    "do",
    "double",
    "else",
    "enum",
    "extern",
    "float",
    "for",
    "goto",
    "if",
    "inline",
    "int",
    "long",
    "register",
    "restrict",
    "return",
    "short",
    "signed",
    "sizeof",
    "static",
    "struct",
    "switch",
    "typedef",
    "union",
    "unsigned",
    "void",
    "volatile",
    "while",
    "_Alignas",
    "_Alignof",
    "_Atomic",
    "_Bool",
    "_Complex",
    "_Generic",
    "_Imaginary",
    "_Noreturn",
    "_Static_assert",
    "_Thread_local",
    "__attribute__",
    "__declspec",
    "__asm__",
    "asm",
    "__extension__",
    "defined",
];

const NAMES: [&str; 31] = [
    "L",
    "u8",
    "_",
    "x1",
    "If",
    "IF",
    "in",
    "dos",
    "form",
    "integer",
    "unsigne",
    "unsignedd",
    "typedefs",
    "_typedef",
    "inline_",
    "__inline",
    "__inline__",
    "asm_",
    "__asm",
    "_asm_",
    "__attribute",
    "attribute",
    "__extension",
    "_bool",
    "bool",
    "_Alignof_",
    "Static_assert",
    "thread_local",
    "define",
    "include",
    "main",
];

#[test]
fn reserved_words_are_no_names(rt: HostRuntime) {
    for word in RESERVED {
        assert!(rt; !is_name(word.as_bytes()), "{word}");
    }
    for word in NAMES {
        assert!(rt; is_name(word.as_bytes()), "{word}");
    }
    for word in ["", "1a", "9", "a-b", "a b", " a", "a\n", "é", "a.b", "$"] {
        assert!(rt; !is_name(word.as_bytes()), "{word:?}");
    }
}
