//! A declaration, a token at a time.
ghost use Rattle.std.specs.Prelude.{◌≡◌, ◌+◌, ◌<◌, ◌≤◌, ◌^◌, true};
ghost use Rattle.cb_scan.specs.steps.wide.Declarations.{before_in_file, closes, declaration_start};
ghost use Rattle.cb_scan.specs.steps.wide.Declarations.{ends_part, grown, is_end, is_linkage};
ghost use Rattle.cb_scan.specs.steps.wide.Declarations.{is_over, may_name, next_in_file};
ghost use Rattle.cb_scan.specs.steps.wide.Declarations.{next_member, next_part_of, noted};

use crate::rules::typedefs::nesting_after;
use crate::rules::wide::part::Part;
use crate::rules::wide::role::WideRole;
use crate::rules::wide::token::WideToken;

/// What is known of a declaration: how many parentheses and brackets are open, what came outside of
/// them, whether the token before is `)` or a brace, and the part that is open.
#[derive(Clone, Copy)]
pub(crate) struct Declaration {
    pub count: u32,
    pub has_equals: bool,
    pub has_static: bool,
    pub has_extern: bool,
    pub has_typedef: bool,
    is_stray: bool,
    closes: bool,
    pub part: Part,
}

/// A `)` or a brace.
#[inline(always)]
fn closes(item: &WideToken) -> bool
    ensures { result ≡ closes item.now }
{
    item.role.is_sign(b')') || item.counted
}

/// A `{` that does not count.
#[inline(always)]
pub(crate) fn is_linkage(item: &WideToken) -> bool
    ensures { result ≡ is_linkage item.now }
{
    item.role.is_sign(b'{') && !item.counted
}

impl Declaration {
    /// Whether a declaration of the file ends with the token that left it so.
    #[inline(always)]
    pub(crate) fn is_end(&self, is_block: bool, item: &WideToken) -> bool
        ensures { result ≡ is_end self.now is_block item.now }
    {
        item.role.is_sign(b';')
            || is_linkage(item)
            || (!self.has_equals && (item.role.is_sign(b'}') || is_block))
    }

    /// Begins a declaration of the file if the token begins one anew.
    #[inline(always)]
    pub(crate) fn begin_in_file(&mut self, item: &WideToken)
        ensures value { self.new ≡ before_in_file self.old item.now }
        ensures small { self.new.count ≤ self.old.count }
    {
        if self.is_over(item) {
            *self = Declaration::new();
        }
    }

    /// Begins the next declaration of the file if the token ends this one.
    #[inline(always)]
    pub(crate) fn end_in_file(&mut self, is_block: bool, item: &WideToken)
        ensures value { self.new ≡ next_in_file self.old is_block item.now }
        ensures small { self.new.count ≤ self.old.count }
    {
        if self.is_end(is_block, item) {
            *self = Declaration::new();
        }
    }

    pub(crate) fn new() -> Declaration
        ensures { result ≡ declaration_start }
    {
        Declaration {
            count: 0,
            has_equals: false,
            has_static: false,
            has_extern: false,
            has_typedef: false,
            is_stray: false,
            closes: false,
            part: Part::new(true),
        }
    }

    /// No token came.
    pub(crate) fn is_new(&self) -> bool
        ensures { result ≡ true → self.now ≡ declaration_start }
    {
        self.part.is_new()
            && self.count == 0
            && !self.has_equals
            && !self.has_static
            && !self.has_extern
            && !self.has_typedef
            && !self.is_stray
            && !self.closes
    }

    /// Whether a declaration of the file begins anew with the token, since a `;` is missing.
    #[inline(always)]
    pub(crate) fn is_over(&self, item: &WideToken) -> bool
        ensures { result ≡ is_over self.now item.now }
    {
        self.count == 0 && self.closes && matches!(item.role, WideRole::Static | WideRole::Extern)
    }

    /// Whether the token ends a part.
    #[inline(always)]
    pub(crate) fn ends_part(&self, item: &WideToken) -> bool
        ensures { result ≡ ends_part self.now item.now }
    {
        match item.role {
            WideRole::Mark(b';') => true,
            WideRole::Mark(b',') => self.count == 0,
            _ => false,
        }
    }

    /// Whether the part that is open can name something.
    #[inline(always)]
    pub(crate) fn may_name(&self) -> bool
        ensures { result ≡ may_name self.now }
    {
        !self.is_stray && !self.part.is_stray
    }

    /// After a token that ends a part.
    pub(crate) fn begin_part(&mut self, item: &WideToken)
        requires { self.old.count + 1 < 2 ^ 32 }
        ensures value { self.new ≡ next_part_of self.old item.now }
        ensures small { self.new.count ≤ self.old.count + 1 }
    {
        self.is_stray = self.is_stray || self.part.is_stray;
        self.closes = closes(item);
        self.part = Part::new(false);
        self.count = nesting_after(&item.token, self.count);
    }

    /// The same on the level of a structure or union, where a `;` ends the declaration.
    pub(crate) fn begin_member(&mut self, item: &WideToken)
        requires { self.old.count + 1 < 2 ^ 32 }
        ensures value { self.new ≡ next_member self.old item.now }
        ensures small { self.new.count ≤ self.old.count + 1 }
    {
        if item.role.is_sign(b';') {
            *self = Declaration::new();
        } else {
            self.begin_part(item);
        }
    }

    /// What a token outside parentheses and brackets tells of the whole declaration.
    #[inline(always)]
    fn note(&mut self, item: &WideToken)
        ensures { self.new ≡ noted self.old item.now }
    {
        match item.role {
            WideRole::Mark(b'=') => self.has_equals = true,
            WideRole::Static => self.has_static = true,
            WideRole::Extern => self.has_extern = true,
            WideRole::Typedef => self.has_typedef = true,
            _ => {}
        }
    }

    /// After the first of these tokens, which ends no part.
    #[inline(always)]
    pub(crate) fn add(&mut self, ahead: &[WideToken], item: &WideToken)
        requires { self.old.count + 1 < 2 ^ 32 }
        ensures value { self.new ≡ grown self.old ahead.now item.now }
        ensures small { self.new.count ≤ self.old.count + 1 }
    {
        let is_outer = self.count == 0;
        self.closes = closes(item);
        self.count = nesting_after(&item.token, self.count);
        if is_outer {
            self.note(item);
            self.part.add(ahead, item, true);
        } else {
            self.part.add(ahead, item, false);
        }
    }
}
