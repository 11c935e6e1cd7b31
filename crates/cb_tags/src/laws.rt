//! What holds of addresses and of the lines that they find, and the bounds of names, as functions
//! that do nothing and whose contracts are the laws.
ghost use Rattle.std.specs.Prelude.{◌≡◌, ◌≤◌, ℕ, List, length, Some};
ghost use Rattle.cb_scan.specs.Lines.{lines, line_text};
ghost use Rattle.cb_tags.specs.Addresses.{address, IsAddress, IsOneLine, finds};
ghost use Rattle.cb_tags.specs.declared.name.TheConstants.{LEAST_NAME, MOST_NAME};

/// The address that is written for a text without a line feed is read back with that text; an
/// address has one text; and it is what is written for that text, which has no line feed.
pub fn addresses_are_read_back()
    ensures read_back { (text : List ℕ) → IsOneLine text → IsAddress (address text) text }
    ensures one_text { (bytes s t : List ℕ) → IsAddress bytes s → IsAddress bytes t → s ≡ t }
    ensures written { (bytes text : List ℕ) → IsAddress bytes text
        → (bytes ≡ address text) × IsOneLine text }
{}

/// The address of line `n` of a source is read back, and it finds a line at most `n` with the same
/// shown text.
pub fn addresses_find_their_lines()
    ensures read_back { (source : List ℕ) (n : ℕ)
        → IsAddress (address (line_text source n)) (line_text source n) }
    ensures found { (source : List ℕ) (n : ℕ) → 1 ≤ n → n ≤ length (lines source)
        → (m : ℕ) × (finds source (line_text source n) ≡ Some m) × (1 ≤ m) × (m ≤ n)
        × (line_text source m ≡ line_text source n) }
{}

/// The bounds of a file's name by number: its fewest and its most bytes.
pub fn limits_are()
    ensures least { LEAST_NAME ≡ 2 }
    ensures most { MOST_NAME ≡ 255 }
{}
