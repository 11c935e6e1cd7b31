//! The pass of the wide profile, where the head of a function and the declaration of the file
//! mostly go together: then what is known of their open part is kept once.
ghost use Rattle.std.specs.Prelude.{◌≡◌, ◌+◌, ◌<◌, ◌≤◌, ◌^◌, true, IfOk};
ghost use Rattle.std.specs.Option.{option_map};
ghost use Rattle.cb_scan.specs.steps.Functions.{range_to};
ghost use Rattle.cb_scan.specs.steps.wide.Contents.{are_in_block};
ghost use Rattle.cb_scan.specs.steps.wide.Pass.{entered, is_in_file, left, most_in, next_lists};
ghost use Rattle.cb_scan.specs.steps.wide.Pass.{next_pass, pass_start};

use crate::lex::piece::Span;
use crate::rules::scope::Range;
use crate::rules::wide::found::Found;
use crate::rules::wide::opening::Opening;
use crate::rules::wide::pass::Pass;
use crate::rules::wide::token::WideToken;
use std::alloc::{AllocError, Global};
use std::marker::Model;

/// The pass, and whether the head of a function has the open part of the declaration of the file.
#[derive(Drop)]
pub(crate) struct Joint {
    pass: Pass,
    together: bool,
}

impl Model for Joint {
    ghost use Rattle.cb_scan.specs.declared.rules.wide.pass.Pass.{Pass};
    ghost use Rattle.cb_scan.specs.steps.wide.Joint.{pass_with};

    ghost Value = { Pass };

    ghost view = { λ j. pass_with j.together j.pass };
}

impl Joint {
    /// The beginning of the code.
    pub(crate) fn new(alloc: Global) -> Joint
        ensures { result ≡ pass_start }
    {
        Joint {
            pass: Pass::new(alloc),
            together: true,
        }
    }

    /// The innermost level is a block.
    #[inline(always)]
    pub(crate) fn are_in_block(&self) -> bool
        ensures { result ≡ are_in_block self.now.levels }
    {
        self.pass.levels.are_in_block()
    }

    /// No brace is open.
    #[inline(always)]
    pub(crate) fn is_in_file(&self) -> bool
        ensures { result ≡ is_in_file self.now }
    {
        self.pass.is_in_file()
    }

    /// More than one brace is open.
    #[inline(always)]
    pub(crate) fn is_nested(&self) -> bool
        ensures { result ≡ true → 2 ≤ self.now.machine.depth }
    {
        self.pass.is_nested()
    }

    /// After a `{` in a block that opens one.
    #[inline(always)]
    pub(crate) fn enter(&mut self) -> Result<(), AllocError>
        requires { self.old.machine.depth + 1 < 2 ^ 32 }
        ensures { IfOk result (λ _. self.new ≡ entered self.old) }
    {
        self.pass.enter()
    }

    /// After a `}` of a block, which leaves a brace open.
    #[inline(always)]
    pub(crate) fn leave(&mut self)
        requires { 2 ≤ self.old.machine.depth }
        ensures { self.new ≡ left self.old }
    {
        self.pass.leave();
    }

    /// The name of the function whose body the next token is in.
    #[inline(always)]
    pub(crate) fn body(&self) -> Option<Span>
        ensures { result ≡ self.now.body }
    {
        self.pass.body
    }

    /// The range of the function whose body the end of the text ends.
    pub(crate) fn left_open(&self, end: u32) -> Option<Range>
        ensures { result ≡ option_map (range_to end) self.now.body }
    {
        self.pass.left_open(end)
    }

    /// A `{` that comes next opens this.
    #[inline(always)]
    pub(crate) fn open(&mut self, opening: Option<Opening>)
        ensures { self.new ≡ record self.old { opening = opening } }
    {
        self.pass.opening = opening;
    }

    /// Takes the first of these tokens, with which the two may go apart. It stands apart, so that
    /// the short way, which most tokens take, need not save registers.
    #[inline(never)]
    fn take_apart(
        &mut self,
        found: &mut Found,
        ahead: &[WideToken],
        item: &WideToken,
    ) -> Result<(), AllocError>
        requires { most_in self.old + 1 < 2 ^ 32 }
        ensures pass { IfOk result (λ _. self.new ≡ next_pass self.old ahead.now item.now) }
        ensures small { IfOk result (λ _. most_in self.new ≤ most_in self.old + 1) }
        ensures found { IfOk result
            (λ _. found.new ≡ next_lists found.old self.old ahead.now item.now) }
    {
        if self.together {
            self.pass.part();
            self.together = false;
        }
        self.pass.take(found, ahead, item)?;
        self.together = self.pass.is_new();
        Ok(())
    }

    /// Takes the first of these tokens.
    #[inline(always)]
    pub(crate) fn take(
        &mut self,
        found: &mut Found,
        ahead: &[WideToken],
        item: &WideToken,
    ) -> Result<(), AllocError>
        requires { most_in self.old + 1 < 2 ^ 32 }
        ensures pass { IfOk result (λ _. self.new ≡ next_pass self.old ahead.now item.now) }
        ensures small { IfOk result (λ _. most_in self.new ≤ most_in self.old + 1) }
        ensures found { IfOk result
            (λ _. found.new ≡ next_lists found.old self.old ahead.now item.now) }
    {
        if self.together && self.pass.stays_together(item) {
            return self.pass.take_together(found, ahead, item);
        }
        self.take_apart(found, ahead, item)
    }
}
