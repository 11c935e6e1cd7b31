//! The kinds of symbols, by the numbers that the protocol has for them.
ghost use Rattle.std.specs.Prelude.{◌≡◌};
ghost use Rattle.cb_lsp.specs.Completions.{completion_kind};
ghost use Rattle.cb_lsp.specs.Symbols.{kind_number};

use cb_scan::Kind;

/// The number of a kind (`SymbolKind`): Function, Constant, Class, Struct, Enum, EnumMember, Field,
/// Variable.
pub(crate) fn kind_number(kind: Kind) -> usize
    ensures { result ≡ kind_number kind }
{
    match kind {
        Kind::Function => 12,
        Kind::Macro => 14,
        Kind::Typedef => 5,
        Kind::Struct => 23,
        Kind::Union => 23,
        Kind::Enum => 10,
        Kind::Enumerator => 22,
        Kind::Member => 8,
        Kind::Variable => 13,
        Kind::External => 13,
        Kind::Prototype => 12,
    }
}

/// The number of a kind of a name that completes a word (`CompletionItemKind`): Function, Constant,
/// Class, Struct, Enum, EnumMember, Field, Variable.
pub(crate) fn completion_kind(kind: Kind) -> usize
    ensures { result ≡ completion_kind kind }
{
    match kind {
        Kind::Function => 3,
        Kind::Macro => 21,
        Kind::Typedef => 7,
        Kind::Struct => 22,
        Kind::Union => 22,
        Kind::Enum => 13,
        Kind::Enumerator => 20,
        Kind::Member => 5,
        Kind::Variable => 6,
        Kind::External => 6,
        Kind::Prototype => 3,
    }
}
