//! The names that complete a word.
ghost use Rattle.std.specs.Prelude.{◌≡◌, ◌∷◌, ◌<◌, [], MatchOption, length, nat_lt};
ghost use Rattle.std.specs.List.{starts_with};
ghost use Rattle.std.specs.Option.{option_copied};
ghost use Rattle.cb_index.specs.Rows.{tags_by_name};
ghost use Rattle.cb_index.specs.steps.Left.{tag_of_spot};
ghost use Rattle.cb_wire.specs.Completions.{completion_tree};
ghost use Rattle.cb_lsp.specs.Completions.{begin_with, completing, first_of_each, local_item};
ghost use Rattle.cb_lsp.specs.Completions.{session_item};
ghost use Rattle.cb_lsp.specs.declared.completion.TheConstants.{MOST_COMPLETIONS};
ghost use Rattle.cb_lsp.specs.steps.Completions.{completions_left, is_last, names_in, names_left};
ghost use Rattle.cb_lsp.specs.steps.Completions.{others_left, texts_left};

use crate::kind::completion_kind;
use cb_desk::{Desk, TagRows};
use cb_index::TagSpot;
use cb_scan::Kind;
use cb_wire::{Completion, Elements, Rank};
use std::collections::BTreeSet;
use std::collections::btree_set::Iter;

/// The most names that are told.
pub(crate) const MOST_COMPLETIONS: usize = 1_000;

/// The definitions whose names begin with a word, the first one of each name, by name. They take
/// no memory.
#[derive(Drop)]
struct Names<'a> {
    word: &'a [u8],
    /// The definitions behind the last one, by name, none of them below the word.
    rest: TagRows<'a>,
    /// The name of the last one.
    last: Option<&'a [u8]>,
}

/// Whether a name is the last one.
fn is_last(last: Option<&[u8]>, name: &[u8]) -> bool
    ensures { result ≡ is_last (option_copied last.entry) name.now }
{
    match last {
        Some(last) => name == last,
        None => false,
    }
}

impl<'a> Names<'a> {
    /// Those of a desk.
    fn new(desk: &'a Desk, word: &'a [u8]) -> Names<'a>
        ensures { names_left result ≡ first_of_each (begin_with word.now (tags_by_name
            desk.now.timeline.present.profile desk.now.timeline.present.files)) }
    {
        Names {
            word,
            rest: desk.tag_rows_from(word),
            last: None,
        }
    }

    /// Those that are left, a second time.
    fn again(&self) -> Names<'a>
        ensures { names_left result ≡ names_left self.now }
    {
        Names {
            word: self.word,
            rest: self.rest.again(),
            last: self.last,
        }
    }

    /// The next one.
    #[tactic(auto, unfolding(crate::specs::steps::Completions::names_behind))]
    fn next_name(&mut self) -> Option<TagSpot<'a>>
        ensures { MatchOption result (names_left self.old ≡ [])
            (λ spot. names_left self.old ≡ tag_of_spot spot ∷ names_left self.new) }
    {
        'rows: while let Some(spot) = self.rest.next_spot() {
            let name = spot.name();
            if !is_last(self.last, name) {
                if !name.starts_with(self.word) {
                    return None;
                }
                self.last = Some(name);
                return Some(spot);
            }
        }
        None
    }
}

/// A name that a function declares, as it completes a word.
fn local_completion(name: &[u8]) -> Completion<'_>
    ensures { completion_tree result ≡ local_item name.entry.now }
{
    Completion {
        label: name,
        kind: completion_kind(Kind::Variable),
        rank: Rank::Local,
    }
}

/// A definition, as it completes a word.
fn session_completion(spot: TagSpot<'_>) -> Completion<'_>
    ensures { completion_tree result ≡ session_item (tag_of_spot spot.entry) }
{
    let row = spot.row();
    Completion {
        label: row.name,
        kind: completion_kind(row.kind),
        rank: Rank::Session,
    }
}

/// The names that complete a word: those that a function declares, in order, and behind these the
/// names of definitions that are none of them.
#[derive(Drop)]
pub(crate) struct Completions<'s, 'a> {
    /// Those of the function that are left, and all of them.
    own: Iter<'s, &'a [u8]>,
    all: &'s BTreeSet<&'a [u8]>,
    names: Names<'a>,
}

impl<'s, 'a> Completions<'s, 'a> {
    /// Those of a desk and a function.
    pub(crate) fn new(
        desk: &'a Desk,
        own: &'s BTreeSet<&'a [u8]>,
        word: &'a [u8],
    ) -> Completions<'s, 'a>
        ensures { completions_left result ≡ completing desk.now.timeline.present
            (names_in own.now) word.now }
    {
        Completions {
            own: own.iter(),
            all: own,
            names: Names::new(desk, word),
        }
    }

    /// The next definition whose name is none of the function.
    fn next_other(&mut self) -> Option<TagSpot<'a>>
        ensures next { MatchOption result (others_left self.old ≡ [])
            (λ spot. others_left self.old ≡ tag_of_spot spot ∷ others_left self.new) }
        ensures own { self.new.own ≡ self.old.own }
    {
        'names: while let Some(spot) = self.names.next_name() {
            if !self.all.contains(spot.name()) {
                return Some(spot);
            }
        }
        None
    }

    /// The next name.
    fn next_one(&mut self) -> Option<Completion<'a>>
        ensures { MatchOption result (completions_left self.old ≡ [])
            (λ one. completions_left self.old
            ≡ completion_tree one ∷ completions_left self.new) }
    {
        if let Some(name) = self.own.next() {
            return Some(local_completion(*name));
        }
        let spot = self.next_other()?;
        Some(session_completion(spot))
    }

    /// Whether they are more than are told.
    pub(crate) fn are_more(&self) -> bool
        ensures { result ≡ nat_lt MOST_COMPLETIONS (length (completions_left self.now)) }
    {
        let mut left = self.again();
        let mut count = 0;
        'names: while count < MOST_COMPLETIONS {
            match left.next_one() {
                Some(_) => count += 1,
                None => return false,
            }
        }
        left.next_one().is_some()
    }
}

impl<'s, 'a> Elements for Completions<'s, 'a> {
    type Item = Completion<'a>;

    ghost texts = { texts_left };

    fn again(&self) -> Completions<'s, 'a> {
        let own = match self.own.clone() {
            Ok(own) => own,
            Err(_) => unreachable!(),
        };
        Completions {
            own,
            all: self.all,
            names: self.names.again(),
        }
    }

    fn next(&mut self) -> Option<Completion<'a>> {
        self.next_one()
    }
}
