//! The names of a part after its last brace and the last `*` outside parentheses and brackets.
ghost use Rattle.std.specs.Prelude.{◌≡◌, true};
ghost use Rattle.cb_scan.specs.steps.wide.Tails.{declared_by, follows_type, is_barred, is_called};
ghost use Rattle.cb_scan.specs.steps.wide.Tails.{is_candidate, is_end, next_tail, outer_tail};
ghost use Rattle.cb_scan.specs.steps.wide.Tails.{prototype_at, tail_start, trails};

use crate::rules::wide::ahead::{encloses_name, opens_twice, rest_encloses_name, second_is};
use crate::rules::wide::token::WideToken;

/// What is known of the tail of a part: whether a type stands before, the token before, whether a
/// trailing word may follow it, the name so far, and that of the first prototype.
#[derive(Clone, Copy)]
pub(crate) struct Tail {
    typed: bool,
    last: Option<WideToken>,
    trailed: bool,
    pub name: Option<WideToken>,
    pub prototype: Option<WideToken>,
}

impl Tail {
    pub(crate) fn new(is_first: bool) -> Tail
        ensures { result ≡ tail_start is_first }
    {
        Tail {
            typed: !is_first,
            last: None,
            trailed: false,
            name: None,
            prototype: None,
        }
    }

    /// The first part begins.
    pub(crate) fn is_new(&self) -> bool
        ensures { result ≡ true → self.now ≡ tail_start true }
    {
        !self.typed
            && self.last.is_none()
            && !self.trailed
            && self.name.is_none()
            && self.prototype.is_none()
    }

    /// After the token before no candidate stands.
    fn is_barred(&self) -> bool
        ensures { result ≡ is_barred self.now }
    {
        match &self.last {
            Some(last) => last.role.is_keyword() || last.role.is_sign(b']'),
            None => false,
        }
    }

    /// The token before may be the end of a type, or the part begins.
    fn follows_type(&self) -> bool
        ensures { result ≡ follows_type self.now }
    {
        match &self.last {
            Some(last) => {
                last.role.is_sign(b'*') || (last.role.is_word() && !last.role.is_specifier())
            }
            None => true,
        }
    }

    /// The first token is a trailing word.
    #[inline(always)]
    fn trails(&self, item: &WideToken) -> bool
        ensures { result ≡ trails self.now item.now }
    {
        item.role.is_underscored() && self.trailed
    }

    /// A name that no `(` follows, behind a type, and neither a tag nor behind `]`.
    #[inline(always)]
    fn is_candidate(&self, ahead: &[WideToken]) -> bool
        ensures { result ≡ is_candidate self.now ahead.now }
    {
        match ahead {
            [first, ..] => {
                first.role.is_name() && self.typed && !second_is(ahead, b'(') && !self.is_barred()
            }
            [] => false,
        }
    }

    /// A called name behind a type that may be a prototype's.
    fn is_called(&self, ahead: &[WideToken]) -> bool
        ensures { result ≡ is_called self.now ahead.now }
    {
        match ahead {
            [first, ..] => {
                first.role.is_name()
                    && self.typed
                    && second_is(ahead, b'(')
                    && !self.trails(first)
                    && !rest_encloses_name(ahead)
                    && self.follows_type()
            }
            [] => false,
        }
    }

    /// The function that a called name declares: the name before it, if double parentheses follow.
    fn declared_by(&self, ahead: &[WideToken], item: &WideToken) -> WideToken
        ensures { result ≡ declared_by self.now ahead.now item.now }
    {
        match &self.last {
            Some(last) if last.role.is_name() && opens_twice(ahead) => *last,
            _ => *item,
        }
    }

    /// The function that is declared at the first of these tokens.
    fn prototype_at(&self, ahead: &[WideToken]) -> Option<WideToken>
        ensures { result ≡ prototype_at self.now ahead.now }
    {
        match ahead {
            [_, second, ..] if self.typed && encloses_name(ahead) => Some(*second),
            [first, ..] if self.is_called(ahead) => Some(self.declared_by(ahead, first)),
            _ => None,
        }
    }

    /// After the first of these tokens, which is outside parentheses and brackets. Whether a type
    /// stands before, and the token before, are left as they are. Without a type before there is no
    /// prototype: that is quickly told, so it is asked before one is looked for.
    #[inline(always)]
    fn add_outer(&mut self, ahead: &[WideToken], item: &WideToken)
        ensures { self.new ≡ outer_tail self.old ahead.now item.now }
    {
        let trails = self.trails(item);
        let is_candidate = self.is_candidate(ahead);
        if self.typed && self.prototype.is_none() {
            if let Some(name) = self.prototype_at(ahead) {
                self.prototype = Some(name);
            }
        }
        if is_candidate && !trails {
            self.name = Some(*item);
        }
        self.trailed = trails || (is_candidate && !item.role.is_underscored());
    }

    /// After the first of these tokens.
    #[inline(always)]
    pub(crate) fn add(&mut self, is_outer: bool, ahead: &[WideToken], item: &WideToken)
        ensures { self.new ≡ next_tail self.old is_outer ahead.now item.now }
    {
        if is_end(is_outer, item) {
            self.trailed = item.counted;
            self.name = None;
            self.prototype = None;
        } else if is_outer {
            self.add_outer(ahead, item);
        } else {
            self.trailed = false;
        }
        self.typed = self.typed || !(item.role.is_specifier() || item.role.is_text());
        self.last = Some(*item);
    }
}

/// A brace, or a `*` outside parentheses and brackets: the tail begins after it.
#[inline(always)]
fn is_end(is_outer: bool, item: &WideToken) -> bool
    ensures { result ≡ is_end is_outer item.now }
{
    item.counted || (is_outer && item.role.is_sign(b'*'))
}
