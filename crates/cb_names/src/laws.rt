//! What follows from the definitions alone: no code runs here.
ghost use Rattle.std.specs.Prelude.{◌≡◌, ◌<◌, ℕ, true, List, Some, length, option_map};
ghost use Rattle.cb_names.specs.Bindings.{variable_at};
ghost use Rattle.cb_names.specs.Labels.{label_of};
ghost use Rattle.cb_names.specs.Renaming.{AreBoundToThemselves, BindsAsBefore, ForsAreInBlocks};
ghost use Rattle.cb_names.specs.Renaming.{IsNewToAll, IsNewToLabels, IsNewToNames, LabelsAsBefore};
ghost use Rattle.cb_names.specs.Renaming.{UsesAsBefore, bound_in, has, is_label_use, is_use_of};
ghost use Rattle.cb_names.specs.Renaming.{listed, own_words, spans_where, with_label, with_local};
ghost use Rattle.cb_names.specs.Spaces.{is_ordinary};
ghost use Rattle.cb_names.specs.Visible.{has_spelled, is_seen, visible_in};
ghost use Rattle.cb_names.specs.declared.word.Item.{Item};

/// The answer for a name that is bound to a declaration lists the uses of the local declared there.
/// The answer for a label lists the tokens that name it.
pub fn answers_list_the_uses()
    ensures local { (text : List ℕ) (xs : List Item) (m b k d : ℕ) → is_ordinary xs b k ≡ true
        → bound_in (own_words text xs) xs m b k ≡ Some d
        → option_map listed (variable_at text xs m b k)
        ≡ Some (spans_where xs (is_use_of text xs m b d)) }
    ensures label { (text : List ℕ) (xs : List Item) (b k : ℕ)
        → listed (label_of text xs b k) ≡ spans_where xs (is_label_use text xs b k) }
{}

/// Each use of a local has the word of its declaration. Two locals with a use in common have all
/// uses in common: they are one.
pub fn uses_are_apart()
    ensures word { (text : List ℕ) (xs : List Item) (m b d k : ℕ)
        → is_use_of text xs m b d k ≡ true → own_words text xs k ≡ own_words text xs d }
    ensures apart { (text : List ℕ) (xs : List Item) (m b d e k : ℕ)
        → is_use_of text xs m b d k ≡ true → is_use_of text xs m b e k ≡ true
        → (j : ℕ) → is_use_of text xs m b d j ≡ is_use_of text xs m b e j }
{}

/// A name is that of a declaration which is visible at an index exactly if a token with the name,
/// put there, is bound to a declaration before it.
pub fn visible_names_are_bound()
    ensures { (text : List ℕ) (xs : List Item) (m b k : ℕ) (name : List ℕ)
        → has_spelled text (visible_in xs m b k) name ≡ is_seen text xs m b name k }
{}

/// Each declaration of a name is bound to itself if each `for` that is the scope of one stands
/// directly in a block.
///
/// Elsewhere this can fail: in the body of an enumeration, a `for` is a scope for what its
/// parentheses declare, but not for the enumerators behind it.
pub fn declarations_are_bound_to_themselves()
    ensures { (text : List ℕ) (xs : List Item) (m b : ℕ) (name : List ℕ)
        → ForsAreInBlocks text xs m b name → AreBoundToThemselves text xs m b name }
{}

/// A word that no name of a function has is new to its ordinary names and to its labels.
pub fn unused_words_are_new()
    ensures names { (text : List ℕ) (xs : List Item) (b : ℕ) (new : List ℕ)
        → IsNewToAll text xs new → IsNewToNames text xs b new }
    ensures labels { (text : List ℕ) (xs : List Item) (b : ℕ) (new : List ℕ)
        → IsNewToAll text xs new → IsNewToLabels text xs b new }
{}

/// Give the uses of a local a new word that no ordinary name of the function has. Then each
/// ordinary name is bound to the same declaration as before, and the local that it means has the
/// same uses. The names with the new word are exactly those that were edited. Labels stay as they
/// are.
///
/// The declarations of the old name must be bound to themselves, as
/// [`declarations_are_bound_to_themselves`] shows.
///
/// The law is about words. Which tokens are names, which of them declare, and where scopes begin
/// and end is taken to be as before. That a scan of the new text finds the same tokens is not
/// proved here, and names outside the function, as in the bodies of macros, are not looked at.
pub fn renaming_keeps_locals()
    ensures bindings { (text : List ℕ) (xs : List Item) (m b d : ℕ) (new : List ℕ)
        → AreBoundToThemselves text xs m b (own_words text xs d) → IsNewToNames text xs b new
        → BindsAsBefore text xs m b (with_local text xs m b d new) }
    ensures uses { (text : List ℕ) (xs : List Item) (m b d : ℕ) (new : List ℕ)
        → AreBoundToThemselves text xs m b (own_words text xs d) → IsNewToNames text xs b new
        → UsesAsBefore text xs m b (with_local text xs m b d new) }
    ensures exactly { (text : List ℕ) (xs : List Item) (m b d : ℕ) (new : List ℕ)
        → AreBoundToThemselves text xs m b (own_words text xs d) → IsNewToNames text xs b new
        → (k : ℕ) → k < length xs
        → has (with_local text xs m b d new) (is_ordinary xs b) new k ≡ is_use_of text xs m b d k }
    ensures labels { (text : List ℕ) (xs : List Item) (m b d : ℕ) (new : List ℕ)
        → LabelsAsBefore text xs b (with_local text xs m b d new) }
{}

/// Give the tokens that name a label a new word that no label of the function has. Then two tokens
/// name the same label exactly if they did before. Ordinary names are bound as before.
///
/// This law is about words too.
pub fn renaming_keeps_labels()
    ensures labels { (text : List ℕ) (xs : List Item) (b k : ℕ) (new : List ℕ)
        → IsNewToLabels text xs b new → LabelsAsBefore text xs b (with_label text xs b k new) }
    ensures bindings { (text : List ℕ) (xs : List Item) (m b k : ℕ) (new : List ℕ)
        → BindsAsBefore text xs m b (with_label text xs b k new) }
{}
