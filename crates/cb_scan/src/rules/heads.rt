//! The tokens since the last stop, as far as the rules on functions ask.
ghost use Rattle.std.specs.Prelude.{◌≡◌, ◌||◌};
ghost use Rattle.cb_scan.specs.Bytes.{equals};
ghost use Rattle.cb_scan.specs.lex.Tokens.{is_mark, is_static};
ghost use Rattle.cb_scan.specs.steps.Heads.{add, called_after, calls_last, declares, def_of};
ghost use Rattle.cb_scan.specs.steps.Heads.{defined, defines, empty_head, listing_after};
ghost use Rattle.cb_scan.specs.steps.Heads.{next_opened, opened, opens};

use crate::facts::{Def, Kind};
use crate::lex::token::{Role, Token, WordKind};

/// How far the list of names has come that follows the first called name.
#[derive(Clone, Copy)]
pub(crate) enum Listing {
    /// No name is called yet.
    Nothing,
    /// A name is to come.
    Open,
    /// A comma or `)` is to come.
    Name,
    /// After `)` a word is to come.
    Closed,
    /// The whole list came, and the word.
    Whole,
    /// Something else came.
    Other,
}

/// The tokens since the last stop.
#[derive(Clone, Copy)]
pub(crate) struct Head {
    pub(crate) last: Option<Token>,
    begins_with_word: bool,
    begins_with_typedef: bool,
    has_equals: bool,
    pub(crate) has_static: bool,
    pub(crate) called: Option<Token>,
    listing: Listing,
}

/// Whether the token is the `(` after a called name.
fn calls_last(last: &Option<Token>, token: &Token) -> bool
    ensures { result ≡ calls_last last.now token.now }
{
    match last {
        Some(name) => token.is_mark(b'(') && name.is_name(),
        None => false,
    }
}

/// Keeps the first called name, after one more token.
fn call(called: &mut Option<Token>, last: &Option<Token>, token: &Token)
    ensures { called.new ≡ called_after called.old last.now token.now }
{
    if called.is_none() && calls_last(last, token) {
        *called = *last;
    }
}

/// How far the list of names has come, after one more token.
fn listing_after(listing: Listing, last: &Option<Token>, token: &Token) -> Listing
    ensures { result ≡ listing_after listing last.now token.now }
{
    match listing {
        Listing::Nothing if calls_last(last, token) => Listing::Open,
        Listing::Open if token.is_name() => Listing::Name,
        Listing::Name if token.is_mark(b',') => Listing::Open,
        Listing::Name if token.is_mark(b')') => Listing::Closed,
        Listing::Closed if token.is_word() => Listing::Whole,
        Listing::Nothing | Listing::Whole => listing,
        Listing::Open | Listing::Name | Listing::Closed | Listing::Other => Listing::Other,
    }
}

/// A function of that name as a definition.
pub(crate) fn def_of(local: bool, name: Token) -> Def
    ensures { result ≡ def_of local name }
{
    Def {
        name: name.span,
        kind: Kind::Function,
        line: name.line,
        local,
        tag: None,
    }
}

impl Head {
    pub(crate) fn new() -> Head
        ensures { result ≡ empty_head }
    {
        Head {
            last: None,
            begins_with_word: false,
            begins_with_typedef: false,
            has_equals: false,
            has_static: false,
            called: None,
            listing: Listing::Nothing,
        }
    }

    /// What the role of one more token tells: an `=`, a `static`, or that the name before is
    /// called.
    fn note(&mut self, token: &Token)
        ensures equal { self.new.has_equals
            ≡ (self.old.has_equals || is_mark equals token.now.role) }
        ensures local { self.new.has_static ≡ (self.old.has_static || is_static token.now.role) }
        ensures called { self.new.called ≡ called_after self.old.called self.old.last token.now }
        ensures others { self.new ≡ record self.old {
          has_equals = self.new.has_equals;
          has_static = self.new.has_static;
          called = self.new.called;
        } }
    {
        match token.role {
            Role::Word(WordKind::Static) => self.has_static = true,
            Role::Mark(b'=') => self.has_equals = true,
            Role::Mark(b'(') => call(&mut self.called, &self.last, token),
            _ => {}
        }
    }

    /// One more token.
    #[inline(always)]
    pub(crate) fn add(&mut self, token: &Token)
        ensures { self.new ≡ add self.old token.now }
    {
        if self.last.is_none() {
            self.begins_with_word = token.is_word();
            self.begins_with_typedef = token.is_typedef();
        }
        self.note(token);
        if !matches!(self.listing, Listing::Whole | Listing::Other) {
            self.listing = listing_after(self.listing, &self.last, token);
        }
        self.last = Some(*token);
    }

    /// The tokens are the head of a function.
    pub(crate) fn defines(&self) -> bool
        ensures { result ≡ defines self.now }
    {
        match self.last {
            Some(last) => {
                !self.begins_with_typedef
                    && !self.has_equals
                    && (last.is_mark(b')') || last.is_name())
            }
            None => false,
        }
    }

    /// The function that the head defines, if it is that of one.
    pub(crate) fn defined(&self) -> Option<Def>
        ensures { result ≡ defined self.now }
    {
        match self.called {
            Some(name) if self.defines() => Some(def_of(self.has_static, name)),
            _ => None,
        }
    }

    /// The tokens open a function in the old style.
    fn opens(&self) -> bool
        ensures { result ≡ opens self.now }
    {
        !self.begins_with_typedef && !self.has_equals && matches!(self.listing, Listing::Whole)
    }

    /// The tokens are a declaration.
    fn declares(&self) -> bool
        ensures { result ≡ declares self.now }
    {
        self.begins_with_word && !self.begins_with_typedef && !self.has_equals
    }

    /// The function that the tokens open.
    fn opened(&self) -> Option<Def>
        ensures { result ≡ opened self.now }
    {
        match self.called {
            Some(name) => Some(def_of(self.has_static, name)),
            None => None,
        }
    }

    /// The function in the old style that is open after a `;` that ends the tokens, where that one
    /// was open before them.
    pub(crate) fn next_opened(&self, before: Option<Def>) -> Option<Def>
        ensures { result ≡ next_opened self.now before }
    {
        if self.opens() {
            self.opened()
        } else if self.declares() {
            before
        } else {
            None
        }
    }
}
