//! What follows from the definitions alone: no code runs here.
ghost use Rattle.std.specs.Prelude.{◌≡◌, ◌≤◌, ℕ, Bool, true, List, Option, Some};
ghost use Rattle.std.specs.Cmp.Lexicographic.{slice_cmp};
ghost use Rattle.std.specs.List.{AllByRecursion, list_any};
ghost use Rattle.std.specs.List.Sorted.{IsStrictlySortedBy};
ghost use Rattle.std.specs.Ordering.{nat_cmp};
ghost use Rattle.std.specs.Str.{bytes_eq};
ghost use Rattle.cb_names.specs.declared.space.Space.{Space};
ghost use Rattle.cb_scan.specs.Definitions.{IsNameOf};
ghost use Rattle.cb_scan.specs.declared.lex.piece.Span.{Span};
ghost use Rattle.cb_scan.specs.lex.Reserved.{is_name};
ghost use Rattle.cb_scan.specs.lex.Tokens.{bytes_of};
ghost use Rattle.cb_wire.specs.declared.position.Position.{Position};
ghost use Rattle.cb_wire.specs.declared.units.Encoding.{Encoding};
ghost use Rattle.cb_wire.specs.Positions.{place};
ghost use Rattle.cb_desk.specs.World.{IsAscending, World};
ghost use Rattle.cb_lsp.specs.Calls.{calls_reached};
ghost use Rattle.cb_lsp.specs.Completions.{in_name_order};
ghost use Rattle.cb_lsp.specs.Editors.{EditorsCountUnits, EditorsStayInSync};
ghost use Rattle.cb_lsp.specs.Exact.{RenamesAreExact};
ghost use Rattle.cb_lsp.specs.Places.{line_range, range_of, range_of_line, start_of_file};
ghost use Rattle.cb_lsp.specs.Ranges.{IsInOrder, IsNamedIn, IsUseIn, LiesInside};
ghost use Rattle.cb_lsp.specs.Searches.{found_by};
ghost use Rattle.cb_lsp.specs.Sync.{DocumentsStayInSync, LostAreTold, RequestsChangeNothing};
ghost use Rattle.cb_lsp.specs.Sync.{WhatIsToldChangedNothing, WhatIsToldOfEventsChangedNothing};
ghost use Rattle.cb_lsp.specs.WordUses.{references_in, word_shown};
ghost use Rattle.cb_lsp.specs.Words.{word_at};
ghost use Rattle.cb_lsp.specs.declared.completion.TheConstants.{MOST_COMPLETIONS};
ghost use Rattle.cb_lsp.specs.declared.hover.TheConstants.{MOST_HOVERS};
ghost use Rattle.cb_lsp.specs.declared.same.Sort.{Sort};
ghost use Rattle.cb_lsp.specs.declared.symbols.TheConstants.{MOST_SYMBOLS};

/// After any messages, whatever memory is refused and whatever is found where files are read again,
/// each document that is open and not out of date has the text that its client has. A body that is
/// dropped counts as sent. The client may hold bytes; or it is an editor that holds units, finds
/// positions by walking them, and puts units in the place of units, where its texts are in UTF-8 and
/// have no carriage return alone.
pub fn documents_stay_in_sync()
    ensures bytes { DocumentsStayInSync }
    ensures units { EditorsStayInSync }
{}

/// Each document that a message makes out of date is told to the client by its name, whatever memory
/// is refused and also where the body is dropped.
pub fn lost_documents_are_told()
    ensures { LostAreTold }
{}

/// Changes of a text, one after another, lead to the text whose units such an editor has after
/// them.
pub fn editors_count_units()
    ensures { EditorsCountUnits }
{}

/// Where the client is told of a refusal, the files are as they were. A request leaves the documents
/// as they are, and the files, too, where the client tells of those that are written.
pub fn refusals_change_nothing()
    ensures told { WhatIsToldChangedNothing }
    ensures events { WhatIsToldOfEventsChangedNothing }
    ensures requests { RequestsChangeNothing }
{}

/// The start of a range is not behind its end: of what stands between two places of a text, of a
/// line, and of the start of a file. The range of a name lies in that of its line.
pub fn ranges_are_in_order()
    ensures places { (e : Encoding) (text : List ℕ) (start end : ℕ) → start ≤ end
        → IsInOrder (range_of e text start end) }
    ensures line { (e : Encoding) (text : List ℕ) (n : ℕ) → IsInOrder (range_of_line e text n) }
    ensures file { IsInOrder start_of_file }
    ensures name { (e : Encoding) (text : List ℕ) (name : Span) → IsNameOf text name
        → LiesInside (range_of e text name.start name.end) (line_range e text name.start) }
{}

/// Where an answer has the range of a name, that name stands there: the word at a position; the name
/// of each definition that is shown of a word or that a query finds, and each use and each call of a
/// name that is asked for, in the text that its file has. `names_stand_in_text` of `cb_scan` says the same of
/// the definitions of a text.
pub fn ranges_are_of_names()
    ensures word { (e : Encoding) (text : List ℕ) (p : Position) (word : Span)
        → word_at text (place e text p) ≡ Some word → IsNameOf text word }
    ensures shown { (w : World) (name text : List ℕ) (space : Option Space)
        (declarations : Bool) (word : Span) → IsAscending w.files
        → AllByRecursion (IsNamedIn w.files) (word_shown w name text space declarations word) }
    ensures uses { (w : World) (name text : List ℕ) (sort : Sort) (word : Span)
        (declarations : Bool) → IsAscending w.files → IsNameOf text word
        → AllByRecursion (IsUseIn w.files (bytes_of text word))
        (references_in w name text sort word declarations) }
    ensures calls { (w : World) (name from : List ℕ) → IsAscending w.files
        → is_name name ≡ true
        → AllByRecursion (IsUseIn w.files name) (calls_reached w name from) }
    ensures found { (w : World) (query : List ℕ) → IsAscending w.files
        → AllByRecursion (IsNamedIn w.files) (found_by w query) }
{}

/// Renaming is exact: in each file, the edits that are told lead a client to the text in which the
/// name has the new one in the place of each of its uses in the reach, and every other byte is as it
/// was.
pub fn renames_are_exact()
    ensures { RenamesAreExact }
{}

/// The names of a function that complete a word stand in the order of their bytes, each once, and
/// are the names that were put in order.
pub fn own_names_stand_in_order()
    ensures order { (names : List (List ℕ))
        → IsStrictlySortedBy (slice_cmp nat_cmp) (in_name_order names) }
    ensures same { (names : List (List ℕ)) (name : List ℕ)
        → list_any (bytes_eq name) (in_name_order names) ≡ list_any (bytes_eq name) names }
{}

/// The bounds of answers by number: the symbols that a query finds, the names that complete a word,
/// and the definitions of a hover.
pub fn limits_are()
    ensures symbols { MOST_SYMBOLS ≡ 1000 }
    ensures completions { MOST_COMPLETIONS ≡ 1000 }
    ensures hovers { MOST_HOVERS ≡ 8 }
{}
