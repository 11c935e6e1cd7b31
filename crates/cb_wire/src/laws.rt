//! What holds of columns, positions and names, as functions that do nothing and whose contracts are
//! the laws.
ghost use Rattle.std.specs.Prelude.{◌≡◌, ◌≤◌, ◌<◌, ◌+◌, ◌++◌, ◌^◌, ℕ, codes, true, All, List, []};
ghost use Rattle.std.specs.Prelude.{length, map, Some, take, option_map};
ghost use Rattle.std.specs.List.{AllByRecursion};
ghost use Rattle.json.specs.Json.{Json, array, document, max_depth};
ghost use Rattle.json.specs.Print.{escape, print};
ghost use Rattle.json.specs.Tree.{HasNumbers, depth, json_tokens};
ghost use Rattle.cb_wire.specs.declared.calls.CallItem.{CallItem};
ghost use Rattle.cb_wire.specs.declared.calls.Side.{Side};
ghost use Rattle.cb_wire.specs.declared.frame.TheConstants.{MOST_BODY};
ghost use Rattle.cb_wire.specs.declared.head.TheConstants.{MOST_HEAD};
ghost use Rattle.cb_wire.specs.declared.header.TheConstants.{MOST_DIGITS};
ghost use Rattle.cb_wire.specs.declared.list.TheConstants.{MOST_ELEMENTS};
ghost use Rattle.cb_wire.specs.declared.completion.Completion.{Completion};
ghost use Rattle.cb_wire.specs.declared.fold.Fold.{Fold};
ghost use Rattle.cb_wire.specs.declared.message.Id.{Id};
ghost use Rattle.cb_wire.specs.declared.location.Highlight.{Highlight};
ghost use Rattle.cb_wire.specs.declared.location.Location.{Location};
ghost use Rattle.cb_wire.specs.declared.position.Position.{Position};
ghost use Rattle.cb_wire.specs.declared.position.Range.{Range};
ghost use Rattle.cb_wire.specs.declared.symbol.Symbol.{Symbol};
ghost use Rattle.cb_wire.specs.declared.symbol.TreeSymbol.{TreeSymbol};
ghost use Rattle.cb_wire.specs.declared.units.Encoding.{Encoding};
ghost use Rattle.cb_wire.specs.Messages.{id_json};
ghost use Rattle.cb_wire.specs.Offsets.{IsText, offset, units};
ghost use Rattle.cb_wire.specs.Positions.{IsPlace, IsPosition, line_feeds, place, position};
ghost use Rattle.cb_wire.specs.declared.reply.ErrorCode.{ErrorCode};
ghost use Rattle.cb_wire.specs.Replies.{error_body, log_body, result_body, show_body};
ghost use Rattle.cb_wire.specs.Trees.{error_reply, error_tree, notice_tree, result_reply};
ghost use Rattle.cb_wire.specs.Trees.{result_tree};
ghost use Rattle.cb_wire.specs.Uris.{Below, HasOneForm, IsBelow, IsRoot, begins_with_slash};
ghost use Rattle.cb_wire.specs.Uris.{escaped};
ghost use Rattle.cb_wire.specs.Uris.{escaped_path, name_below, of_folder, of_uri, path_below};
ghost use Rattle.cb_wire.specs.Uris.{path_of, uri_of};
ghost use Rattle.cb_wire.specs.Calls.{call_item_tree, calls_of, side_name};
ghost use Rattle.cb_wire.specs.Completions.{completion_tree};
ghost use Rattle.cb_wire.specs.Edits.{FileEdits, HasEdits, edit_of, edits_of, edits_texts};
ghost use Rattle.cb_wire.specs.Folds.{fold_tree};
ghost use Rattle.cb_wire.specs.Lists.{list_text};
ghost use Rattle.cb_wire.specs.Locations.{highlight_tree, location_tree};
ghost use Rattle.cb_wire.specs.Symbols.{symbol_tree, tree_symbol_tree};
ghost use Rattle.cb_wire.specs.Values.{FitsWords, items_of, range_tree, value_text};
ghost use Rattle.cb_wire.specs.Units.{IsBoundary, IsColumn, column, place_in_line};

/// Within a line: the place of the column of a place is that place, where a character begins there,
/// and the column of the place of a column is that column. Every column names such a place, and
/// every place has such a column.
pub fn columns_are_inverse()
    ensures place { (e : Encoding) (line : List ℕ) (place : ℕ) → IsBoundary e line place
        → place_in_line e line (column e line place) ≡ place }
    ensures column { (e : Encoding) (line : List ℕ) (col : ℕ) → IsColumn e line col
        → column e line (place_in_line e line col) ≡ col }
    ensures names_a_place { (e : Encoding) (line : List ℕ) (col : ℕ)
        → IsBoundary e line (place_in_line e line col) }
    ensures has_a_column { (e : Encoding) (line : List ℕ) (place : ℕ)
        → IsColumn e line (column e line place) }
{}

/// In a text: the place of the position of a place is that place, where a character of a shown line
/// begins there, and the position of the place of a position is that position. Every position on a
/// line of the text names such a place, and every place has such a position.
pub fn positions_are_inverse()
    ensures place { (e : Encoding) (text : List ℕ) (at : ℕ) → IsPlace e text at
        → place e text (position e text at) ≡ at }
    ensures position { (e : Encoding) (text : List ℕ) (p : Position) → IsPosition e text p
        → position e text (place e text p) ≡ p }
    ensures names_a_place { (e : Encoding) (text : List ℕ) (p : Position)
        → p.line ≤ line_feeds text → IsPlace e text (place e text p) }
    ensures has_a_position { (e : Encoding) (text : List ℕ) (at : ℕ)
        → IsPosition e text (position e text at) }
{}

/// An editor walks the units of a text alone: the offset that a position has there is the number of
/// units before the place of the position, in a text in UTF-8 that has no carriage return alone.
pub fn offsets_count_units()
    ensures { (e : Encoding) (text : List ℕ) (p : Position) → IsText text
        → offset (units e text) p ≡ length (units e (take (place e text p) text)) }
{}

/// A folder whose path begins with a slash, no folder, and a file URI are roots.
pub fn roots_are()
    ensures folder { (folder : List ℕ) → All (λ b. b < 256) folder
        → begins_with_slash folder ≡ true → IsRoot (of_folder folder) }
    ensures none { IsRoot (of_folder []) }
    ensures uri { (uri path : List ℕ) → escaped_path uri ≡ Some path → IsRoot (of_uri uri path) }
{}

/// The URI of a name in its one form names the file that has its path, and the name of that path is
/// the name again, unless it begins with a slash and lies below the root. The path of the name of a
/// path is that path, so two files never have one name.
pub fn names_are_read_back()
    ensures path { (root : Below) (name : List ℕ) → IsRoot root → All (λ b. b < 256) name
        → HasOneForm name → path_of (uri_of root name) ≡ Some (path_below root.path name) }
    ensures name { (root name : List ℕ)
        → (begins_with_slash name ≡ true → IsBelow root name → ⊥)
        → name_below root (path_below root name) ≡ name }
    ensures uri { (root : Below) (name : List ℕ) → IsRoot root → All (λ b. b < 256) name
        → HasOneForm name → (begins_with_slash name ≡ true → IsBelow root.path name → ⊥)
        → option_map (name_below root.path) (path_of (uri_of root name)) ≡ Some name }
    ensures path_again { (root path : List ℕ) → begins_with_slash path ≡ true
        → path_below root (name_below root path) ≡ path }
{}

/// What is written is JSON: a reply whose result is the text of a value reads back as the reply
/// with that value, and so do errors, texts that are logged, and those that are shown.
pub fn messages_are_read_back()
    ensures result { (id : Id) (j : Json) → HasNumbers (id_json id) → HasNumbers j
        → depth j < max_depth
        → document (result_body id (print (json_tokens j))) ≡ Some (result_tree id j) }
    ensures error { (id : Id) (code : ErrorCode) (text more : List ℕ) → HasNumbers (id_json id)
        → document (error_body id code text more) ≡ Some (error_tree id code (text ++ more)) }
    ensures log { (text : List ℕ) → document (log_body text)
        ≡ Some (notice_tree (codes "window/logMessage") (codes "1") (codes "cbrowse: " ++ text)) }
    ensures show { (name text : List ℕ) → document (show_body (escape name) text)
        ≡ Some (notice_tree (codes "window/showMessage") (codes "2")
        (codes "cbrowse: " ++ (name ++ (codes ": " ++ text)))) }
{}

/// What is written is the text of a value: of a reply with a result, of one that tells an error, of
/// a text that is logged, and of one that is shown on a name or on a path with escapes.
pub fn messages_are_texts()
    ensures result { (id : Id) (j : Json)
        → result_body id (value_text j) ≡ value_text (result_reply (id_json id) j) }
    ensures error { (id : Id) (code : ErrorCode) (text more : List ℕ)
        → error_body id code text more
        ≡ value_text (error_reply (id_json id) code (text ++ more)) }
    ensures log { (text : List ℕ) → log_body text
        ≡ value_text (notice_tree (codes "window/logMessage") (codes "1")
        (codes "cbrowse: " ++ text)) }
    ensures show { (name text : List ℕ) → show_body (escape name) text
        ≡ value_text (notice_tree (codes "window/showMessage") (codes "2")
        (codes "cbrowse: " ++ (name ++ (codes ": " ++ text)))) }
    ensures path { (path : List ℕ) → escape (escaped path) ≡ escaped path }
{}

/// The texts of values with commas between them, in brackets, are the text of their array. A reply
/// whose result is such a list reads back as the reply with that array.
pub fn lists_are_arrays()
    ensures text { (js : List Json) → value_text (array (items_of js))
        ≡ list_text (codes "[") (codes ",") (codes "]") (map value_text js) }
    ensures reply { (id : Id) (js : List Json)
        → result_body id (list_text (codes "[") (codes ",") (codes "]") (map value_text js))
        ≡ value_text (result_reply (id_json id) (array (items_of js))) }
    ensures numbers { (js : List Json) → All HasNumbers js → HasNumbers (array (items_of js)) }
    ensures depth { (js : List Json) (most : ℕ) → All (λ j. depth j ≤ most) js
        → depth (array (items_of js)) ≤ most + 1 }
    ensures read_back { (id : Id) (js : List Json) → HasNumbers (id_json id) → All HasNumbers js
        → All (λ j. depth j + 1 < max_depth) js
        → document (result_body id
        (list_text (codes "[") (codes ",") (codes "]") (map value_text js)))
        ≡ Some (result_tree id (array (items_of js))) }
{}

/// A range, a location, a range that is marked, a symbol, a function or macro that calls or is
/// called, calls that have one end in common, a name that completes a word, and lines that are
/// folded, are values that can be written and read back.
pub fn places_are_values()
    ensures range { (r : Range) → FitsWords r
        → HasNumbers (range_tree r) × (depth (range_tree r) ≡ 2) }
    ensures location { (l : Location) → FitsWords l.range
        → HasNumbers (location_tree l) × (depth (location_tree l) ≡ 3) }
    ensures highlight { (h : Highlight) → FitsWords h.range
        → HasNumbers (highlight_tree h) × (depth (highlight_tree h) ≡ 3) }
    ensures symbol { (s : Symbol) → s.kind < 2 ^ 64 → FitsWords s.location.range
        → HasNumbers (symbol_tree s) × (depth (symbol_tree s) ≡ 4) }
    ensures tree_symbol { (s : TreeSymbol) → s.kind < 2 ^ 64 → FitsWords s.line
        → FitsWords s.range
        → HasNumbers (tree_symbol_tree s) × (depth (tree_symbol_tree s) ≡ 3) }
    ensures call_item { (i : CallItem) → i.kind < 2 ^ 64 → FitsWords i.line
        → FitsWords i.location.range
        → HasNumbers (call_item_tree i) × (depth (call_item_tree i) ≡ 3) }
    ensures calls { (side : Side) (i : CallItem) (rs : List Range) → i.kind < 2 ^ 64
        → FitsWords i.line → FitsWords i.location.range → All FitsWords rs
        → HasNumbers (calls_of (side_name side) (call_item_tree i) rs)
        × (depth (calls_of (side_name side) (call_item_tree i) rs) ≡ 4) }
    ensures completion { (c : Completion) → c.kind < 2 ^ 64
        → HasNumbers (completion_tree c) × (depth (completion_tree c) ≡ 1) }
    ensures fold { (f : Fold) → f.first < 2 ^ 64 → f.last < 2 ^ 64
        → HasNumbers (fold_tree f) × (depth (fold_tree f) ≡ 1) }
{}

/// The texts of edits, with commas between them, are the text of all edits by file, where each file
/// has one. A reply whose result they are reads back as the reply with those edits.
pub fn edits_are_values()
    ensures edit { (r : Range) (new : List ℕ) → FitsWords r
        → HasNumbers (edit_of r new) × (depth (edit_of r new) ≡ 3) }
    ensures text { (fs : List FileEdits) → AllByRecursion HasEdits fs
        → value_text (edits_of fs)
        ≡ list_text (codes "{\"changes\":{") (codes ",") (codes "}}") (edits_texts fs) }
    ensures reply { (id : Id) (fs : List FileEdits) → AllByRecursion HasEdits fs
        → result_body id (list_text (codes "{\"changes\":{") (codes ",") (codes "}}") (edits_texts fs))
        ≡ value_text (result_reply (id_json id) (edits_of fs)) }
    ensures read_back { (id : Id) (fs : List FileEdits) → HasNumbers (id_json id)
        → AllByRecursion HasEdits fs
        → AllByRecursion (λ (f : FileEdits). All HasNumbers f.edits) fs
        → AllByRecursion (λ (f : FileEdits). All (λ j. depth j ≤ 3) f.edits) fs
        → document (result_body id
        (list_text (codes "{\"changes\":{") (codes ",") (codes "}}") (edits_texts fs)))
        ≡ Some (result_tree id (edits_of fs)) }
{}

/// The bounds of messages by number: the bytes of a body, of a head and of the length in it, and the
/// elements of a list.
pub fn limits_are()
    ensures body { MOST_BODY ≡ 16000000 }
    ensures head { MOST_HEAD ≡ 4096 }
    ensures digits { MOST_DIGITS ≡ 9 }
    ensures elements { MOST_ELEMENTS ≡ 2 ^ 48 }
{}
