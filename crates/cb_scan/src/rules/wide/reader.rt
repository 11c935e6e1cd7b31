//! The pass of the wide profile over all tokens of the code. Tokens that may be of an attribute, or
//! ahead of which more is to be seen, are held back.
ghost use Rattle.std.specs.Prelude.{◌≡◌, ◌+◌, ◌<◌, ◌≤◌, ◌^◌, ◌∷◌, [], drop, length, IfOk};
ghost use Rattle.cb_scan.specs.declared.rules.wide.reader.TheConstants.{FULL};
ghost use Rattle.cb_scan.specs.rules.wide.Attributes.{ends_attribute};
ghost use Rattle.cb_scan.specs.steps.wide.Attributes.{open_count};
ghost use Rattle.cb_scan.specs.steps.wide.Contents.{are_in_block};
ghost use Rattle.cb_scan.specs.steps.wide.Pass.{most_in, take_all, take_first};
ghost use Rattle.cb_scan.specs.steps.wide.Reading.{all_taken, closes_block, emptied, first_taken};
ghost use Rattle.cb_scan.specs.steps.wide.Reading.{held, held_len, is_mark_of_blocks};
ghost use Rattle.cb_scan.specs.steps.wide.Reading.{most_left_out, opens_block, read_next, read_on};
ghost use Rattle.cb_scan.specs.steps.wide.Reading.{reader_after, reader_start, released, settled};
ghost use Rattle.cb_scan.specs.steps.wide.Reading.{taken_after, taken_at_end, taken_if_full};
ghost use Rattle.cb_scan.specs.steps.wide.Reading.{taken_next, taken_on, the_taken, turned};
ghost use Rattle.cb_scan.specs.steps.wide.Reading.{with_bare};
ghost use Rattle.cb_scan.specs.steps.wide.Tokens.{token_after};

use crate::lex::token::{Role, Token};
use crate::rules::functions::{Before, before_after};
use crate::rules::wide::attribute::{Attribute, ends_attribute};
use crate::rules::wide::found::Found;
use crate::rules::wide::joint::Joint;
use crate::rules::wide::role::wide_role;
use crate::rules::wide::sight::Watch;
use crate::rules::wide::token::{WideToken, token_as};
use crate::rules::wide::window::Window;
use std::alloc::AllocError;

/// So many tokens that are of no attribute are held back before the first of them is taken. Five
/// would do; but most declarations are shorter than this, and their tokens are quickly taken one
/// right after the other, where a `;` or a brace ends them.
const FULL: usize = 28;

/// What is directly before the next token, how far an attribute has come, what a `{` would open
/// inside a block, and the tokens that are held back.
#[derive(Drop)]
pub(crate) struct Reader {
    before: Before,
    attribute: Attribute,
    sight: Watch,
    window: Window,
}

/// A `;` or a brace.
#[inline(always)]
fn is_mark_of_blocks(token: &Token) -> bool
    ensures { result ≡ is_mark_of_blocks token.now.role }
{
    matches!(token.role, Role::Mark(b';' | b'{' | b'}'))
}

/// A `{` that opens a block in a block.
#[inline(always)]
fn opens_block(before: Before, sight: &Watch, token: &Token) -> bool
    ensures { result ≡ opens_block before sight.now token.now }
{
    token.is_mark(b'{') && !matches!(before, Before::Linkage) && sight.opening().is_none()
}

/// A `}` that closes the innermost brace alone.
#[inline(always)]
fn closes_block(token: &Token) -> bool
    ensures { result ≡ closes_block token.now }
{
    token.is_mark(b'}') && !token.starts_line
}

impl Reader {
    /// The beginning of the code.
    pub(crate) fn new() -> Reader
        ensures { result ≡ reader_start }
    {
        Reader {
            before: Before::Anything,
            attribute: Attribute::Outside,
            sight: Watch::new(),
            window: Window::new(),
        }
    }

    /// Leaves the first token out, or keeps it.
    #[inline(always)]
    fn settle(&mut self)
        requires some { 1 ≤ length self.old.window.raw }
        requires small { open_count self.old.attribute + 1 < 2 ^ 32 }
        ensures value { self.new ≡ settled self.old }
        ensures small { open_count self.new.attribute ≤ open_count self.old.attribute + 1 }
        ensures fewer { length self.new.window.raw + 1 ≡ length self.old.window.raw }
        ensures more { length self.new.window.bare ≤ length self.old.window.bare + 1 }
    {
        let (attribute, is_left_out) = self.attribute.step(self.window.raw());
        self.attribute = attribute;
        if is_left_out {
            self.window.leave_out();
        } else {
            self.window.keep();
        }
    }

    /// One more token.
    #[inline(always)]
    fn hold(&mut self, item: WideToken)
        requires raw { length self.old.window.raw ≤ 2 }
        requires bare { length self.old.window.bare < FULL }
        requires small { open_count self.old.attribute + 1 < 2 ^ 32 }
        ensures value { self.new ≡ held self.old item }
        ensures small { open_count self.new.attribute ≤ open_count self.old.attribute + 1 }
        ensures raw { length self.new.window.raw ≤ 2 }
        ensures bare { length self.new.window.bare ≤ FULL }
        ensures more { held_len self.new ≤ held_len self.old + 1 }
    {
        self.window.push(item);
        if self.window.raw().len() == 3 {
            self.settle();
        }
    }

    /// Leaves out or keeps all of them, where nothing that is to come is seen from them.
    fn release(&mut self)
        requires raw { length self.old.window.raw ≤ 2 }
        requires bare { length self.old.window.bare < FULL }
        requires small { open_count self.old.attribute + 2 < 2 ^ 32 }
        ensures value { self.new ≡ released self.old }
        ensures more { length self.new.window.bare ≤ held_len self.old }
    {
        'settled: while !self.window.raw().is_empty() {
            self.settle();
        }
        self.attribute = Attribute::Outside;
    }

    /// Takes all that are of no attribute.
    #[inline(never)]
    fn take_bare(&mut self, pass: &mut Joint, found: &mut Found) -> Result<(), AllocError>
        requires { most_in pass.old + length self.old.window.bare < 2 ^ 32 }
        ensures reader { IfOk result (λ _. self.new ≡ with_bare self.old []) }
        ensures taken { IfOk result
            (λ _. the_taken pass.new found.new
            ≡ take_all (the_taken pass.old found.old) self.old.window.bare) }
        ensures small { IfOk result
            (λ _. most_in pass.new ≤ most_in pass.old + length self.old.window.bare) }
    {
        let mut rest = self.window.bare();
        'taken: while let [item, later @ ..] = rest {
            pass.take(found, rest, item)?;
            rest = later;
        }
        self.window.clear();
        Ok(())
    }

    /// Takes the first of them.
    #[inline(never)]
    fn take_first(&mut self, pass: &mut Joint, found: &mut Found) -> Result<(), AllocError>
        requires some { 1 ≤ length self.old.window.bare }
        requires small { most_in pass.old + 1 < 2 ^ 32 }
        ensures reader { IfOk result
            (λ _. self.new ≡ with_bare self.old (drop 1 self.old.window.bare)) }
        ensures taken { IfOk result
            (λ _. the_taken pass.new found.new
            ≡ first_taken (the_taken pass.old found.old) self.old.window.bare) }
        ensures small { IfOk result (λ _. most_in pass.new ≤ most_in pass.old + 1) }
    {
        if let [item, ..] = self.window.bare() {
            pass.take(found, self.window.bare(), item)?;
        }
        self.window.pop();
        Ok(())
    }

    /// One more token, which is no brace and no `;`, outside of blocks.
    #[inline(always)]
    fn read(
        &mut self,
        pass: &mut Joint,
        found: &mut Found,
        item: WideToken,
    ) -> Result<(), AllocError>
        requires raw { length self.old.window.raw ≤ 2 }
        requires bare { length self.old.window.bare < FULL }
        requires small { most_in pass.old + held_len self.old + 1 < 2 ^ 32 }
        requires left_out { open_count self.old.attribute + 1 < 2 ^ 32 }
        ensures reader { IfOk result (λ _. self.new ≡ emptied (held self.old item)) }
        ensures taken { IfOk result
            (λ _. the_taken pass.new found.new
            ≡ taken_if_full (held self.old item) (the_taken pass.old found.old)) }
        ensures small { IfOk result
            (λ _. most_in pass.new + held_len self.new
            ≤ most_in pass.old + held_len self.old + 1) }
        ensures left_out { IfOk result
            (λ _. open_count self.new.attribute ≤ open_count self.old.attribute + 1) }
        ensures raw { IfOk result (λ _. length self.new.window.raw ≤ 2) }
        ensures bare { IfOk result (λ _. length self.new.window.bare < FULL) }
    {
        self.hold(item);
        if self.window.bare().len() == FULL {
            self.take_first(pass, found)?;
        }
        Ok(())
    }

    /// A brace or a `;`, before which all that is held back is taken.
    #[inline(never)]
    fn turn(
        &mut self,
        pass: &mut Joint,
        found: &mut Found,
        in_block: bool,
        item: &WideToken,
    ) -> Result<(), AllocError>
        requires raw { length self.old.window.raw ≤ 2 }
        requires bare { length self.old.window.bare < FULL }
        requires small { most_in pass.old + held_len self.old + 1 < 2 ^ 32 }
        requires left_out { open_count self.old.attribute + 2 < 2 ^ 32 }
        ensures reader { IfOk result (λ _. self.new ≡ turned in_block self.old) }
        ensures taken { IfOk result
            (λ _. the_taken pass.new found.new
            ≡ take_first (all_taken in_block self.old (the_taken pass.old found.old))
            (item.now ∷ []) item.now) }
        ensures small { IfOk result
            (λ _. most_in pass.new + held_len self.new
            ≤ most_in pass.old + held_len self.old + 1) }
        ensures left_out { IfOk result
            (λ _. open_count self.new.attribute ≤ open_count self.old.attribute) }
        ensures raw { IfOk result (λ _. length self.new.window.raw ≤ 2) }
        ensures bare { IfOk result (λ _. length self.new.window.bare < FULL) }
    {
        if in_block {
            pass.open(self.sight.opening());
        } else {
            self.release();
            self.take_bare(pass, found)?;
        }
        let ahead = [*item];
        pass.take(found, &ahead, item)?;
        self.sight.restart();
        Ok(())
    }

    /// Any other token.
    #[inline(always)]
    fn go_on(
        &mut self,
        pass: &mut Joint,
        found: &mut Found,
        in_block: bool,
        item: WideToken,
    ) -> Result<(), AllocError>
        requires raw { length self.old.window.raw ≤ 2 }
        requires bare { length self.old.window.bare < FULL }
        requires small { most_in pass.old + held_len self.old + 1 < 2 ^ 32 }
        requires left_out { most_left_out self.old + 1 < 2 ^ 32 }
        ensures reader { IfOk result (λ _. self.new ≡ read_on in_block self.old item) }
        ensures taken { IfOk result
            (λ _. the_taken pass.new found.new
            ≡ taken_on in_block self.old (the_taken pass.old found.old) item) }
        ensures small { IfOk result
            (λ _. most_in pass.new + held_len self.new
            ≤ most_in pass.old + held_len self.old + 1) }
        ensures left_out { IfOk result
            (λ _. most_left_out self.new ≤ most_left_out self.old + 1) }
        ensures raw { IfOk result (λ _. length self.new.window.raw ≤ 2) }
        ensures bare { IfOk result (λ _. length self.new.window.bare < FULL) }
    {
        if in_block {
            self.sight.look(&item);
            Ok(())
        } else {
            self.read(pass, found, item)
        }
    }

    /// A token of a text, by what is directly before it, as the pass reads it. The token is made in
    /// each branch by itself: so one that is held back can be made in its place, without a copy.
    fn read_after(
        &mut self,
        pass: &mut Joint,
        found: &mut Found,
        text: &[u8],
        before: Before,
        in_block: bool,
        token: &Token,
    ) -> Result<(), AllocError>
        requires order { token.now.span.start ≤ token.now.span.end }
        requires end { token.now.span.end ≤ length text.now }
        requires raw { length self.old.window.raw ≤ 2 }
        requires bare { length self.old.window.bare < FULL }
        requires small { most_in pass.old + held_len self.old + 1 < 2 ^ 32 }
        requires left_out { most_left_out self.old + 2 < 2 ^ 32 }
        ensures reader { IfOk result (λ _. self.new
            ≡ read_next in_block self.old (token_after text.now before token.now)) }
        ensures taken { IfOk result
            (λ _. the_taken pass.new found.new
            ≡ taken_next in_block self.old (the_taken pass.old found.old)
            (token_after text.now before token.now)) }
        ensures small { IfOk result
            (λ _. most_in pass.new + held_len self.new
            ≤ most_in pass.old + held_len self.old + 1) }
        ensures left_out { IfOk result
            (λ _. most_left_out self.new ≤ most_left_out self.old + 1) }
        ensures raw { IfOk result (λ _. length self.new.window.raw ≤ 2) }
        ensures bare { IfOk result (λ _. length self.new.window.bare < FULL) }
    {
        let role = wide_role(text, token);
        if ends_attribute(role) {
            let item = token_as(role, before, token);
            self.turn(pass, found, in_block, &item)
        } else {
            self.go_on(pass, found, in_block, token_as(role, before, token))
        }
    }

    /// A token of the code.
    pub(crate) fn add(
        &mut self,
        pass: &mut Joint,
        found: &mut Found,
        text: &[u8],
        token: &Token,
    ) -> Result<(), AllocError>
        requires order { token.now.span.start ≤ token.now.span.end }
        requires end { token.now.span.end ≤ length text.now }
        requires raw { length self.old.window.raw ≤ 2 }
        requires bare { length self.old.window.bare < FULL }
        requires small { most_in pass.old + held_len self.old + 1 < 2 ^ 32 }
        requires left_out { most_left_out self.old + 2 < 2 ^ 32 }
        ensures reader { IfOk result (λ _. self.new
            ≡ reader_after text.now self.old (the_taken pass.old found.old) token.now) }
        ensures taken { IfOk result
            (λ _. the_taken pass.new found.new
            ≡ taken_after text.now self.old (the_taken pass.old found.old) token.now) }
        ensures small { IfOk result
            (λ _. most_in pass.new + held_len self.new
            ≤ most_in pass.old + held_len self.old + 1) }
        ensures left_out { IfOk result
            (λ _. most_left_out self.new ≤ most_left_out self.old + 1) }
        ensures raw { IfOk result (λ _. length self.new.window.raw ≤ 2) }
        ensures bare { IfOk result (λ _. length self.new.window.bare < FULL) }
    {
        let before = self.before;
        let in_block = pass.are_in_block();
        self.before = before_after(before, token);
        if in_block && !is_mark_of_blocks(token) {
            self.sight.glance(text, before, token);
            return Ok(());
        }
        if in_block && token.is_mark(b';') && !pass.is_in_file() {
            pass.open(None);
            self.sight.restart();
            return Ok(());
        }
        if in_block && opens_block(before, &self.sight, token) && !pass.is_in_file() {
            pass.enter()?;
            self.sight.restart();
            return Ok(());
        }
        if in_block && closes_block(token) && pass.is_nested() {
            pass.leave();
            self.sight.restart();
            return Ok(());
        }
        self.read_after(pass, found, text, before, in_block, token)
    }

    /// The end of the code.
    pub(crate) fn finish(&mut self, pass: &mut Joint, found: &mut Found) -> Result<(), AllocError>
        requires raw { length self.old.window.raw ≤ 2 }
        requires bare { length self.old.window.bare < FULL }
        requires small { most_in pass.old + held_len self.old + 1 < 2 ^ 32 }
        requires left_out { most_left_out self.old + 2 < 2 ^ 32 }
        ensures { IfOk result
            (λ _. the_taken pass.new found.new
            ≡ taken_at_end self.old (the_taken pass.old found.old)) }
    {
        if !pass.are_in_block() {
            self.release();
            self.take_bare(pass, found)?;
        }
        Ok(())
    }
}
