//! The one pass that finds functions: a small state that every token of the code moves.
ghost use Rattle.std.specs.Prelude.{◌≡◌, ◌+◌, ◌<◌, ◌≤◌, ◌^◌, false};
ghost use Rattle.cb_scan.specs.Bytes.{close_brace, open_brace};
ghost use Rattle.cb_scan.specs.lex.Tokens.{is_mark};
ghost use Rattle.cb_scan.specs.steps.Functions.{before_after, called, closed, counts, found, grown};
ghost use Rattle.cb_scan.specs.steps.Functions.{left_open, next, next_body, next_depth, next_open};
ghost use Rattle.cb_scan.specs.steps.Functions.{start, stops};
ghost use Rattle.cb_scan.specs.steps.Typedefs.{ends};

use crate::facts::{Call, Def};
use crate::lex::piece::Span;
use crate::lex::token::{Role, Token, WordKind};
use crate::rules::heads::Head;
use crate::rules::scope::Range;

/// What is directly before a token: `extern`, `extern` and a string, or anything else.
#[derive(Clone, Copy)]
pub(crate) enum Before {
    Anything,
    Extern,
    Linkage,
}

/// The state of the pass: the depth in braces, what is directly before, the head so far, the
/// function in the old style that is open before it, and the name of the function whose body it is
/// in.
#[derive(Clone, Copy)]
pub(crate) struct Machine {
    pub(crate) depth: u32,
    before: Before,
    pub(crate) head: Head,
    opened: Option<Def>,
    body: Option<Span>,
}

/// What is directly before the token after this one.
#[inline(always)]
pub(crate) fn before_after(before: Before, token: &Token) -> Before
    ensures { result ≡ before_after before token.now }
{
    if matches!(token.role, Role::Word(WordKind::Extern)) {
        Before::Extern
    } else if matches!(before, Before::Extern) && matches!(token.role, Role::Str) {
        Before::Linkage
    } else {
        Before::Anything
    }
}

impl Machine {
    /// The beginning of the code.
    pub(crate) fn start() -> Machine
        ensures { result ≡ start }
    {
        Machine {
            depth: 0,
            before: Before::Anything,
            head: Head::new(),
            opened: None,
            body: None,
        }
    }

    fn counts(&self, token: &Token) -> bool
        ensures { result ≡ counts self.now token.now }
    {
        token.is_mark(b'{') && !matches!(self.before, Before::Linkage)
    }

    fn next_depth(&self, token: &Token) -> u32
        requires { self.now.depth + 1 < 2 ^ 32 }
        ensures value { result ≡ next_depth self.now token.now }
        ensures small { result ≤ self.now.depth + 1 }
    {
        if self.counts(token) {
            self.depth + 1
        } else if !token.is_mark(b'}') {
            self.depth
        } else if token.starts_line {
            0
        } else {
            self.depth.saturating_sub(1)
        }
    }

    fn stops(&self, token: &Token, after: u32) -> bool
        requires { after ≡ next_depth self.now token.now }
        ensures { result ≡ stops self.now token.now }
    {
        match token.role {
            Role::Mark(b';') => self.depth == 0,
            Role::Mark(b'}') => after == 0,
            Role::Mark(b'{') => matches!(self.before, Before::Linkage),
            _ => false,
        }
    }

    /// The name of the function whose body the next token is in.
    fn next_body(&self, token: &Token, after: u32) -> Option<Span>
        requires { after ≡ next_depth self.now token.now }
        ensures { result ≡ next_body self.now token.now }
    {
        if self.depth == 0 {
            return match self.found(token) {
                Some(def) => Some(def.name),
                None => None,
            };
        }
        if after == 0 { None } else { self.body }
    }

    /// The function in the old style that is open after a token: a `;` that is a stop may open one,
    /// and every other stop ends it.
    fn next_open(&self, token: &Token, is_stop: bool) -> Option<Def>
        requires { is_stop ≡ stops self.now token.now }
        ensures { result ≡ next_open self.now token.now }
    {
        if !is_stop {
            self.opened
        } else if token.is_mark(b';') {
            self.head.next_opened(self.opened)
        } else {
            None
        }
    }

    /// The head goes on with a token. Deeper in braces only the last token counts, since a stop
    /// comes before the depth is 0 again.
    #[inline(always)]
    fn grow(&mut self, token: &Token)
        ensures { self.new ≡ record self.old { head = grown self.old token.now } }
    {
        if self.depth == 0 {
            self.head.add(token);
        } else {
            self.head.last = Some(token.copied());
        }
    }

    /// After a brace, or a `;` outside of braces.
    #[tactic(auto, unfolding(crate::specs::steps::Functions::next))]
    fn turn(&mut self, token: &Token)
        requires { self.old.depth + 1 < 2 ^ 32 }
        ensures value { self.new ≡ next self.old token.now }
        ensures small { self.new.depth ≤ self.old.depth + 1 }
    {
        let depth = self.next_depth(token);
        let is_stop = self.stops(token, depth);
        let body = self.next_body(token, depth);
        let opened = self.next_open(token, is_stop);
        self.before = before_after(self.before, token);
        if is_stop {
            self.head = Head::new();
        } else {
            self.grow(token);
        }
        self.depth = depth;
        self.opened = opened;
        self.body = body;
    }

    /// After any other token: then the depth stays. Deeper in braces a `;` is one of them.
    #[tactic(auto, unfolding(crate::specs::steps::Functions::next))]
    #[inline(always)]
    pub(crate) fn go_on(&mut self, token: &Token)
        requires no_open_brace { is_mark open_brace token.now.role ≡ false }
        requires no_close_brace { is_mark close_brace token.now.role ≡ false }
        requires no_end { ends self.old token.now ≡ false }
        ensures value { self.new ≡ next self.old token.now }
        ensures same { self.new.depth ≡ self.old.depth }
    {
        self.before = before_after(self.before, token);
        self.grow(token);
        if self.depth == 0 {
            self.body = None;
        }
    }

    /// After a token of the code.
    pub(crate) fn next(&mut self, token: &Token)
        requires { self.old.depth + 1 < 2 ^ 32 }
        ensures value { self.new ≡ next self.old token.now }
        ensures small { self.new.depth ≤ self.old.depth + 1 }
    {
        match token.role {
            Role::Mark(b'{' | b'}') => self.turn(token),
            Role::Mark(b';') if self.depth == 0 => self.turn(token),
            _ => self.go_on(token),
        }
    }

    /// The function whose body the token opens, if it opens one.
    pub(crate) fn found(&self, token: &Token) -> Option<Def>
        ensures { result ≡ found self.now token.now }
    {
        if self.depth != 0 || !self.counts(token) {
            return None;
        }
        if self.head.last.is_none() {
            return self.opened;
        }
        self.head.defined()
    }

    /// The range of the function whose body the token ends, if it ends one.
    pub(crate) fn closed(&self, token: &Token) -> Option<Range>
        ensures { result ≡ closed self.now token.now }
    {
        let name = self.body?;
        let ends = token.is_mark(b'}') && (token.starts_line || self.depth <= 1);
        if ends {
            Some(Range {
                name,
                end: token.span.end,
            })
        } else {
            None
        }
    }

    /// The call of the token before, if it is one.
    pub(crate) fn called(&self, token: &Token) -> Option<Call>
        ensures { result ≡ called self.now token.now }
    {
        match (self.body, self.head.last) {
            (Some(caller), Some(name)) if name.is_name() && token.is_mark(b'(') => Some(Call {
                callee: name.span,
                line: name.line,
                caller,
            }),
            _ => None,
        }
    }

    /// The range of the function whose body the end of the text ends.
    pub(crate) fn left_open(&self, end: u32) -> Option<Range>
        ensures { result ≡ left_open self.now end }
    {
        match self.body {
            Some(name) => Some(Range { name, end }),
            None => None,
        }
    }
}
