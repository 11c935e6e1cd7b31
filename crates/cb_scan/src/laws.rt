//! What holds of every text, as functions that do nothing and whose contracts are the laws.
ghost use Rattle.std.specs.Prelude.{◌≡◌, ◌↔◌, ℕ, true, List, length};
ghost use Rattle.std.specs.List.{AllByRecursion};
ghost use Rattle.cb_scan.specs.declared.facts.Def.{Def};
ghost use Rattle.cb_scan.specs.declared.lex.piece.Piece.{Piece};
ghost use Rattle.cb_scan.specs.declared.profile.Profile.{Profile};
ghost use Rattle.cb_scan.specs.declared.source.TheConstants.{MOST_BYTES};
ghost use Rattle.cb_scan.specs.Definitions.{IsNameOf};
ghost use Rattle.cb_scan.specs.lex.Pieces.{IsPieces, Adjoin, LiesIn};
ghost use Rattle.cb_scan.specs.lex.Lexeme.{IsClosedLiteral};
ghost use Rattle.cb_scan.specs.lex.Reserved.{reserved_words};
ghost use Rattle.cb_scan.specs.Order.{AreInOrder};
ghost use Rattle.cb_scan.specs.Profiles.{facts_by, facts_in};
ghost use Rattle.cb_scan.specs.Profiles.{IsCallOnItsLine, IsOnItsLevel, IsUseOnItsLine};
ghost use Rattle.cb_scan.specs.steps.Cut.{pieces};
ghost use Rattle.cb_scan.specs.steps.Quote.{is_closed};

/// The computed pieces of a text are its pieces.
pub fn pieces_are()
    ensures { (text : List ℕ) → IsPieces text (pieces text) }
{}

/// A text has no other list of pieces.
pub fn pieces_only()
    ensures { (text : List ℕ) (ps : List Piece) → IsPieces text ps → ps ≡ pieces text }
{}

/// The pieces of a text lie in it, in order: each begins where the one before it ends.
pub fn pieces_in_order()
    ensures within { (text : List ℕ) → AllByRecursion (LiesIn text) (pieces text) }
    ensures order { (text : List ℕ) → Adjoin 0 (length text) (pieces text) }
{}

/// What a profile finds in a text follows from any list of its pieces, however it was found.
pub fn facts_are()
    ensures { (profile : Profile) (text : List ℕ) (ps : List Piece) → IsPieces text ps
        → facts_in profile text ≡ facts_by profile text ps }
{}

/// A string is found closed exactly if it is a literal whatever follows it.
pub fn closed_strings()
    ensures { (bytes : List ℕ) → (is_closed bytes ≡ true) ↔ IsClosedLiteral 34 bytes }
{}

/// What a profile finds in a text is in order: each of the four lists ascends by place, and
/// definitions at one place go by kind.
pub fn facts_in_order()
    ensures { (profile : Profile) (text : List ℕ) → AreInOrder (facts_in profile text) }
{}

/// Each definition that a profile finds is on its level: enumerators and members are inside the
/// bodies of enumerations, structures and unions; variables, external declarations and prototypes
/// are inside no braces and in no range of a function.
pub fn definitions_on_levels()
    ensures { (profile : Profile) (text : List ℕ)
        → AllByRecursion (IsOnItsLevel text) (facts_in profile text).defs }
{}

/// The name of each definition that a profile finds lies in the text, and what stands there is a
/// name: an identifier that is no reserved word.
pub fn names_stand_in_text()
    ensures { (profile : Profile) (text : List ℕ)
        → AllByRecursion (λ (d : Def). IsNameOf text d.name) (facts_in profile text).defs }
{}

/// Uses and calls tell the lines of their names: each is on the line of the first byte of its name.
pub fn facts_on_lines()
    ensures uses { (profile : Profile) (text : List ℕ)
        → AllByRecursion (IsUseOnItsLine text) (facts_in profile text).uses }
    ensures calls { (profile : Profile) (text : List ℕ)
        → AllByRecursion (IsCallOnItsLine text) (facts_in profile text).calls }
{}

/// The bounds of a text by number, and how many words are reserved.
pub fn limits_are()
    ensures bytes { MOST_BYTES ≡ 268435456 }
    ensures reserved { length reserved_words ≡ 50 }
{}
