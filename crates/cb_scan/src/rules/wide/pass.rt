//! The pass of the wide profile over the tokens that are of no attribute.
ghost use Rattle.std.specs.Prelude.{◌≡◌, ◌+◌, ◌<◌, ◌≤◌, ◌^◌, ◌++◌, ◌∷◌, ◌==◌, None, false};
ghost use Rattle.std.specs.Prelude.{true, IfOk};
ghost use Rattle.std.specs.Prelude.{if◌then◌else◌};
ghost use Rattle.std.specs.List.{flat_map};
ghost use Rattle.std.specs.Option.{option_map};
ghost use Rattle.cb_scan.specs.steps.Functions.{range_to};
ghost use Rattle.cb_scan.specs.steps.wide.Contents.{defined_by, first_goes_on, most_open};
ghost use Rattle.cb_scan.specs.steps.wide.Contents.{next_levels, tag_inside};
ghost use Rattle.cb_scan.specs.steps.wide.Functions.{next_depth};
ghost use Rattle.cb_scan.specs.steps.wide.Levels.{opened};
ghost use Rattle.cb_scan.specs.steps.wide.Givens.{object_given, typedef_given};
ghost use Rattle.cb_scan.specs.steps.wide.Joint.{next_together, pass_with, stays_together};
ghost use Rattle.cb_scan.specs.steps.wide.Joint.{together_on};
ghost use Rattle.cb_scan.specs.steps.wide.Openings.{next_opening};
ghost use Rattle.cb_scan.specs.steps.wide.Pass.{entered, function_found, is_block, is_brace};
ghost use Rattle.cb_scan.specs.steps.wide.Pass.{is_in_file, left, lists_inside, most_in, next_body};
ghost use Rattle.cb_scan.specs.steps.wide.Pass.{next_file, next_lists, next_of_file, next_pass};
ghost use Rattle.cb_scan.specs.steps.wide.Pass.{part_at, parts_here, pass_inside, pass_start};
ghost use Rattle.cb_scan.specs.steps.wide.Pass.{range_closed};

use crate::facts::Def;
use crate::lex::piece::Span;
use crate::lex::token::Role;
use crate::rules::scope::Range;
use crate::rules::wide::declaration::Declaration;
use crate::rules::wide::found::Found;
use crate::rules::wide::level::opened;
use crate::rules::wide::levels::Levels;
use crate::rules::wide::machine::WideMachine;
use crate::rules::wide::opening::{Opening, next_opening, opening_tag};
use crate::rules::wide::role::WideRole;
use crate::rules::wide::token::WideToken;
use std::alloc::{AllocError, Global};

/// What is known before a token: what a `{` would open, the functions, the declaration of the file,
/// the name of the function whose body the token is in, and the levels that are open.
#[derive(Drop)]
pub(crate) struct Pass {
    pub opening: Option<Opening>,
    pub machine: WideMachine,
    pub file: Declaration,
    pub body: Option<Span>,
    pub levels: Levels,
}

/// A brace, by its role or by its token.
#[inline(always)]
pub(crate) fn is_brace(item: &WideToken) -> bool
    ensures { result ≡ is_brace item.now }
{
    match (item.role, item.token.role) {
        (WideRole::Mark(b'{' | b'}'), _) | (_, Role::Mark(b'}')) => true,
        _ => item.counted,
    }
}

impl Declaration {
    /// On the level of the file, after the first of these tokens, which is a block or none.
    #[inline(always)]
    fn next_of_file(&mut self, is_block: bool, ahead: &[WideToken], item: &WideToken)
        requires { self.old.count + 1 < 2 ^ 32 }
        ensures value { self.new ≡ next_of_file self.old is_block ahead.now item.now }
        ensures small { self.new.count ≤ self.old.count + 1 }
    {
        if self.ends_part(item) {
            self.begin_part(item);
        } else {
            self.add(ahead, item);
        }
        self.end_in_file(is_block, item);
    }
}

impl Pass {
    /// The beginning of the code.
    pub(crate) fn new(alloc: Global) -> Pass
        ensures { result ≡ pass_start }
    {
        Pass {
            opening: None,
            machine: WideMachine::new(),
            file: Declaration::new(),
            body: None,
            levels: Levels::new(alloc),
        }
    }

    /// No brace is open.
    #[inline(always)]
    pub(crate) fn is_in_file(&self) -> bool
        ensures { result ≡ is_in_file self.now }
    {
        self.machine.depth == 0
    }

    /// More than one brace is open.
    #[inline(always)]
    pub(crate) fn is_nested(&self) -> bool
        ensures { result ≡ true → 2 ≤ self.now.machine.depth }
    {
        self.machine.depth >= 2
    }

    /// After a `{` in a block that opens one.
    #[inline(always)]
    pub(crate) fn enter(&mut self) -> Result<(), AllocError>
        requires { self.old.machine.depth + 1 < 2 ^ 32 }
        ensures { IfOk result (λ _. self.new ≡ entered self.old) }
    {
        self.levels.open_block()?;
        self.machine.depth += 1;
        self.opening = None;
        Ok(())
    }

    /// After a `}` of a block, which leaves a brace open.
    #[inline(always)]
    pub(crate) fn leave(&mut self)
        requires { 2 ≤ self.old.machine.depth }
        ensures { self.new ≡ left self.old }
    {
        self.levels.leave();
        self.machine.depth -= 1;
        self.opening = None;
    }

    /// The token is a brace that opens no body.
    #[inline(always)]
    fn is_block(&self, item: &WideToken) -> bool
        ensures { result ≡ is_block self.now item.now }
    {
        item.counted && self.opening.is_none()
    }

    /// The function whose `{` the token is, if one is.
    fn function_found(&self, item: &WideToken) -> Option<Def>
        ensures { result ≡ function_found self.now item.now }
    {
        self.machine.found(self.is_block(item))
    }

    /// The name of the function whose body the next token is in.
    fn next_body(&self, item: &WideToken) -> Option<Span>
        requires { self.now.machine.depth + 1 < 2 ^ 32 }
        ensures { result ≡ next_body self.now item.now }
    {
        if self.is_in_file() {
            return match self.function_found(item) {
                Some(def) => Some(def.name),
                None => None,
            };
        }
        self.body_inside(item)
    }

    /// The range of the function whose body the token ends, if it ends one.
    fn range_closed(&self, item: &WideToken) -> Option<Range>
        requires { self.now.machine.depth + 1 < 2 ^ 32 }
        ensures { result ≡ range_closed self.now item.now }
    {
        let name = self.body?;
        if item.role.is_sign(b'}') && self.machine.next_depth(item) == 0 {
            Some(Range {
                name,
                end: item.token.span.end,
            })
        } else {
            None
        }
    }

    /// The range of the function whose body the end of the text ends.
    pub(crate) fn left_open(&self, end: u32) -> Option<Range>
        ensures { result ≡ option_map (range_to end) self.now.body }
    {
        match self.body {
            Some(name) => Some(Range { name, end }),
            None => None,
        }
    }

    /// The declaration of the file goes on, and gives what its part names that ends here.
    #[inline(always)]
    fn in_file(
        &mut self,
        found: &mut Found,
        ahead: &[WideToken],
        item: &WideToken,
    ) -> Result<(), AllocError>
        requires { self.old.file.count + 1 < 2 ^ 32 }
        ensures file { IfOk result
            (λ _. self.new ≡ record self.old { file = next_file self.old ahead.now item.now }) }
        ensures small { IfOk result (λ _. self.new.file.count ≤ self.old.file.count + 1) }
        ensures found { IfOk result (λ _. found.new ≡ record found.old {
          defs = found.old.defs ++ flat_map typedef_given (parts_here self.old item.now);
          objects = found.old.objects ++ flat_map object_given (parts_here self.old item.now);
        }) }
    {
        if !self.is_in_file() {
            return Ok(());
        }
        let is_block = self.is_block(item);
        self.file.begin_in_file(item);
        found.end_part(&self.file, item)?;
        self.file.next_of_file(is_block, ahead, item);
        Ok(())
    }

    /// What a `{` would open after the token. Mostly it is none before and after it.
    #[inline(always)]
    fn see(&mut self, item: &WideToken)
        ensures { self.new
            ≡ record self.old { opening = next_opening self.old.opening item.now } }
    {
        if self.opening.is_some() || item.role.is_keyword() {
            self.opening = next_opening(self.opening, item);
        }
    }

    /// The levels after the first of these tokens, which is a `{` that counts. Most open a block.
    #[inline(always)]
    fn open_level(&mut self, ahead: &[WideToken], item: &WideToken) -> Result<(), AllocError>
        requires { most_open self.old.levels + 1 < 2 ^ 32 }
        ensures levels { IfOk result (λ _. self.new ≡ record self.old {
          levels = opened self.old.opening (tag_inside self.old.levels)
              ∷ first_goes_on self.old.levels ahead.now item.now;
        }) }
        ensures small { IfOk result
            (λ _. most_open self.new.levels ≤ most_open self.old.levels + 1) }
    {
        if self.opening.is_none() {
            self.levels.add(ahead, item);
            return self.levels.open_block();
        }
        let level = opened(self.opening, self.levels.tag_inside());
        self.levels.add(ahead, item);
        self.levels.open(level)
    }

    /// The levels after the first of these tokens.
    fn go_on(&mut self, ahead: &[WideToken], item: &WideToken) -> Result<(), AllocError>
        requires { most_open self.old.levels + 1 < 2 ^ 32 }
        ensures levels { IfOk result (λ _. self.new ≡ record self.old {
          levels = next_levels self.old.opening self.old.levels ahead.now item.now;
        }) }
        ensures small { IfOk result
            (λ _. most_open self.new.levels ≤ most_open self.old.levels + 1) }
    {
        if item.counted {
            self.open_level(ahead, item)?;
        } else if item.role.is_sign(b'}') {
            self.levels.close(item);
        } else {
            self.levels.add(ahead, item);
        }
        Ok(())
    }

    /// The name of the function whose body the next token is in, deeper in braces.
    #[inline(always)]
    fn body_inside(&self, item: &WideToken) -> Option<Span>
        requires { self.now.machine.depth + 1 < 2 ^ 32 }
        ensures { result
            ≡ if next_depth self.now.machine item.now == 0 then None else self.now.body }
    {
        if self.machine.next_depth(item) == 0 {
            None
        } else {
            self.body
        }
    }

    /// Takes the first of these tokens, which is a brace, deeper in braces.
    fn take_inside(
        &mut self,
        found: &mut Found,
        ahead: &[WideToken],
        item: &WideToken,
    ) -> Result<(), AllocError>
        requires { most_in self.old + 1 < 2 ^ 32 }
        ensures pass { IfOk result (λ _. self.new ≡ pass_inside self.old ahead.now item.now) }
        ensures small { IfOk result (λ _. most_in self.new ≤ most_in self.old + 1) }
        ensures found { IfOk result
            (λ _. found.new ≡ lists_inside found.old self.old ahead.now item.now) }
    {
        let body = self.body_inside(item);
        let range = self.range_closed(item);
        if item.counted {
            found.define(opening_tag(&self.opening))?;
        }
        found.define(self.levels.found(ahead, item))?;
        found.end_function(range)?;
        self.go_on(ahead, item)?;
        self.machine.next_inside(item);
        self.body = body;
        self.opening = next_opening(self.opening, item);
        Ok(())
    }

    /// Takes the first of these tokens, which is a brace.
    fn take_brace(
        &mut self,
        found: &mut Found,
        ahead: &[WideToken],
        item: &WideToken,
    ) -> Result<(), AllocError>
        requires { most_in self.old + 1 < 2 ^ 32 }
        ensures pass { IfOk result (λ _. self.new ≡ next_pass self.old ahead.now item.now) }
        ensures small { IfOk result (λ _. most_in self.new ≤ most_in self.old + 1) }
        ensures found { IfOk result
            (λ _. found.new ≡ next_lists found.old self.old ahead.now item.now) }
    {
        if !self.is_in_file() {
            return self.take_inside(found, ahead, item);
        }
        let body = self.next_body(item);
        let function = self.function_found(item);
        let range = self.range_closed(item);
        self.in_file(found, ahead, item)?;
        if item.counted {
            found.define(opening_tag(&self.opening))?;
        }
        found.define(self.levels.found(ahead, item))?;
        found.begin_function(function)?;
        found.end_function(range)?;
        self.go_on(ahead, item)?;
        self.machine.next(ahead, item);
        self.body = body;
        self.opening = next_opening(self.opening, item);
        Ok(())
    }

    /// The innermost level goes on with the first of these tokens, which is of it, and gives what
    /// it defines there.
    fn add_inside(
        &mut self,
        found: &mut Found,
        ahead: &[WideToken],
        item: &WideToken,
    ) -> Result<(), AllocError>
        requires { most_open self.old.levels + 1 < 2 ^ 32 }
        ensures pass { IfOk result (λ _. self.new
            ≡ record self.old { levels = first_goes_on self.old.levels ahead.now item.now }) }
        ensures small { IfOk result
            (λ _. most_open self.new.levels ≤ most_open self.old.levels + 1) }
        ensures found { IfOk result (λ _. found.new ≡ record found.old {
          defs = found.old.defs ++ defined_by self.old.levels ahead.now item.now;
        }) }
    {
        found.define(self.levels.found(ahead, item))?;
        self.levels.add(ahead, item);
        Ok(())
    }

    /// The same in the file, where mostly there is no level.
    #[inline(always)]
    fn add_in_file(
        &mut self,
        found: &mut Found,
        ahead: &[WideToken],
        item: &WideToken,
    ) -> Result<(), AllocError>
        requires { most_open self.old.levels + 1 < 2 ^ 32 }
        ensures pass { IfOk result (λ _. self.new
            ≡ record self.old { levels = first_goes_on self.old.levels ahead.now item.now }) }
        ensures small { IfOk result
            (λ _. most_open self.new.levels ≤ most_open self.old.levels + 1) }
        ensures found { IfOk result (λ _. found.new ≡ record found.old {
          defs = found.old.defs ++ defined_by self.old.levels ahead.now item.now;
        }) }
    {
        if self.levels.are_none() {
            return Ok(());
        }
        self.add_inside(found, ahead, item)
    }

    /// Takes the first of these tokens, which is no brace: it opens and closes nothing.
    #[inline(always)]
    fn take_other(
        &mut self,
        found: &mut Found,
        ahead: &[WideToken],
        item: &WideToken,
    ) -> Result<(), AllocError>
        requires small { most_in self.old + 1 < 2 ^ 32 }
        requires other { is_brace item.now ≡ false }
        ensures pass { IfOk result (λ _. self.new ≡ next_pass self.old ahead.now item.now) }
        ensures small { IfOk result (λ _. most_in self.new ≤ most_in self.old + 1) }
        ensures found { IfOk result
            (λ _. found.new ≡ next_lists found.old self.old ahead.now item.now) }
    {
        if self.is_in_file() {
            self.in_file(found, ahead, item)?;
            self.machine.next(ahead, item);
            self.body = None;
        }
        self.add_inside(found, ahead, item)?;
        self.see(item);
        Ok(())
    }

    /// The head and the declaration of the file go on with the token as they are.
    #[inline(always)]
    pub(crate) fn stays_together(&self, item: &WideToken) -> bool
        ensures { result ≡ stays_together self.now item.now }
    {
        self.is_in_file() && !is_brace(item) && !self.file.is_over(item)
    }

    /// The head gets the open part of the declaration of the file.
    pub(crate) fn part(&mut self)
        ensures { self.new ≡ pass_with true self.old }
    {
        self.machine.parts.part_from(&self.file);
    }

    /// No brace is open, and both the head and the declaration of the file begin: their open parts
    /// are the same.
    pub(crate) fn is_new(&self) -> bool
        ensures { pass_with result self.now ≡ self.now }
    {
        self.is_in_file() && self.file.is_new() && self.machine.parts.is_new()
    }

    /// The head and the declaration of the file go on together, and give what the part names that
    /// ends here. Most tokens end none.
    #[inline(always)]
    fn go_on_together(
        &mut self,
        found: &mut Found,
        ahead: &[WideToken],
        item: &WideToken,
    ) -> Result<(), AllocError>
        requires deep { self.old.machine.depth + 1 < 2 ^ 32 }
        requires open { self.old.file.count + 1 < 2 ^ 32 }
        requires stays { stays_together self.old item.now ≡ true }
        ensures pass { IfOk result
            (λ _. self.new ≡ together_on self.old ahead.now item.now) }
        ensures deep { IfOk result (λ _. self.new.machine.depth ≤ self.old.machine.depth + 1) }
        ensures open { IfOk result (λ _. self.new.file.count ≤ self.old.file.count + 1) }
        ensures found { IfOk result (λ _. found.new ≡ record found.old {
          defs = found.old.defs
              ++ flat_map typedef_given (part_at self.old.file item.now);
          objects = found.old.objects
              ++ flat_map object_given (part_at self.old.file item.now);
        }) }
    {
        if self.file.ends_part(item) {
            found.end_part(&self.file, item)?;
            self.machine.next_beside(&self.file, item);
            self.file.next_of_file(false, ahead, item);
        } else {
            self.machine.go_on(item);
            self.file.add(ahead, item);
        }
        Ok(())
    }

    /// Takes the first of these tokens, a token of the file that is no brace and begins no
    /// declaration anew, where the head has the open part of the declaration.
    #[inline(always)]
    pub(crate) fn take_together(
        &mut self,
        found: &mut Found,
        ahead: &[WideToken],
        item: &WideToken,
    ) -> Result<(), AllocError>
        requires small { most_in (pass_with true self.old) + 1 < 2 ^ 32 }
        requires stays { stays_together self.old item.now ≡ true }
        ensures pass { IfOk result (λ _. self.new ≡ next_together self.old ahead.now item.now) }
        ensures small { IfOk result
            (λ _. most_in (pass_with true self.new) ≤ most_in (pass_with true self.old) + 1) }
        ensures found { IfOk result (λ _. found.new
            ≡ next_lists found.old (pass_with true self.old) ahead.now item.now) }
    {
        self.go_on_together(found, ahead, item)?;
        self.body = None;
        self.add_in_file(found, ahead, item)?;
        self.see(item);
        Ok(())
    }

    /// Takes the first of these tokens.
    pub(crate) fn take(
        &mut self,
        found: &mut Found,
        ahead: &[WideToken],
        item: &WideToken,
    ) -> Result<(), AllocError>
        requires { most_in self.old + 1 < 2 ^ 32 }
        ensures pass { IfOk result (λ _. self.new ≡ next_pass self.old ahead.now item.now) }
        ensures small { IfOk result (λ _. most_in self.new ≤ most_in self.old + 1) }
        ensures found { IfOk result
            (λ _. found.new ≡ next_lists found.old self.old ahead.now item.now) }
    {
        if is_brace(item) {
            self.take_brace(found, ahead, item)
        } else {
            self.take_other(found, ahead, item)
        }
    }
}
