//! The levels that are open, the innermost first.
ghost use Rattle.std.specs.Prelude.{◌≡◌, ◌+◌, ◌<◌, ◌≤◌, ◌^◌, ◌∷◌, [], drop, false, true};
ghost use Rattle.std.specs.Prelude.{IfOk};
ghost use Rattle.std.specs.Option.{option_to_list};
ghost use Rattle.cb_scan.specs.steps.wide.Contents.{are_in_block, closed_by, defined_by};
ghost use Rattle.cb_scan.specs.steps.wide.Contents.{first_goes_on, most_open, tag_inside};

use crate::facts::{Def, Tag};
use crate::rules::wide::level::Level;
use crate::rules::wide::token::WideToken;
use std::alloc::{AllocError, Global};
use std::marker::Model;

/// A body that is open, and how many blocks are directly around it.
#[derive(Clone, Copy)]
pub(crate) struct Body {
    level: Level,
    blocks: u32,
}

/// How many blocks are open inside the innermost body, that body, and those around it, the
/// outermost first. A block is counted alone, so that braces in braces take no memory.
#[derive(Drop)]
pub(crate) struct Levels {
    blocks: u32,
    first: Option<Body>,
    around: Vec<Body>,
}

impl Model for Levels {
    ghost use Rattle.std.specs.Prelude.{List};
    ghost use Rattle.cb_scan.specs.declared.rules.wide.level.Level.{Level};
    ghost use Rattle.cb_scan.specs.steps.wide.Contents.{AreBodies, levels_of};

    ghost Value = { List Level };

    ghost view = { λ l. levels_of l.blocks l.first l.around.items };

    ghost invariant = { λ l. AreBodies l.first l.around.items };
}

impl Levels {
    pub(crate) fn new(alloc: Global) -> Levels
        ensures { result ≡ [] }
    {
        Levels {
            blocks: 0,
            first: None,
            around: Vec::new(alloc),
        }
    }

    /// No level is open.
    #[inline(always)]
    pub(crate) fn are_none(&self) -> bool
        ensures { result ≡ true → self.now ≡ [] }
    {
        self.blocks == 0 && self.first.is_none()
    }

    /// The innermost level is a block.
    #[inline(always)]
    pub(crate) fn are_in_block(&self) -> bool
        ensures { result ≡ are_in_block self.now }
    {
        self.blocks > 0
    }

    /// The tag around members that are directly inside.
    pub(crate) fn tag_inside(&self) -> Option<Tag>
        ensures { result ≡ tag_inside self.now }
    {
        match &self.first {
            Some(body) if self.blocks == 0 => body.level.member_tag(),
            _ => None,
        }
    }

    /// After a `{` that makes a level.
    pub(crate) fn open(&mut self, level: Level) -> Result<(), AllocError>
        ensures { IfOk result (λ _. self.new ≡ level ∷ self.old) }
    {
        if matches!(level, Level::Block) {
            return self.open_block();
        }
        if let Some(around) = self.first {
            self.around.push(around)?;
        }
        self.first = Some(Body {
            level,
            blocks: self.blocks,
        });
        self.blocks = 0;
        Ok(())
    }

    /// After a `{` that makes a block. More than can be counted are refused, as memory is.
    #[inline(always)]
    pub(crate) fn open_block(&mut self) -> Result<(), AllocError>
        ensures { IfOk result (λ _. self.new ≡ Level.Block ∷ self.old) }
    {
        self.blocks = self.blocks.checked_add(1).ok_or(AllocError)?;
        Ok(())
    }

    /// Without the innermost body, where no block is open in it.
    #[inline(never)]
    fn leave_body(&mut self)
        requires { are_in_block self.old ≡ false }
        ensures { self.new ≡ drop 1 self.old }
    {
        if let Some(body) = self.first {
            self.blocks = body.blocks;
            self.first = self.around.pop();
        }
    }

    /// Without the innermost level, which is mostly a block.
    #[inline(always)]
    pub(crate) fn leave(&mut self)
        ensures { self.new ≡ drop 1 self.old }
    {
        if self.blocks > 0 {
            self.blocks -= 1;
        } else {
            self.leave_body();
        }
    }

    /// After a `}`: one in the first column closes all.
    pub(crate) fn close(&mut self, item: &WideToken)
        ensures { self.new ≡ closed_by item.now self.old }
    {
        if item.token.starts_line {
            self.blocks = 0;
            self.first = None;
            self.around.clear();
        } else {
            self.leave();
        }
    }

    /// What the innermost level defines at the first of these tokens.
    #[inline(always)]
    pub(crate) fn found(&self, ahead: &[WideToken], item: &WideToken) -> Option<Def>
        ensures { option_to_list result ≡ defined_by self.now ahead.now item.now }
    {
        match &self.first {
            Some(body) if self.blocks == 0 && !item.role.is_sign(b'}') => {
                body.level.found(ahead, item)
            }
            _ => None,
        }
    }

    /// After the first of these tokens, which is of the innermost level.
    #[inline(always)]
    pub(crate) fn add(&mut self, ahead: &[WideToken], item: &WideToken)
        requires { most_open self.old + 1 < 2 ^ 32 }
        ensures value { self.new ≡ first_goes_on self.old ahead.now item.now }
        ensures small { most_open self.new ≤ most_open self.old + 1 }
    {
        match &mut self.first {
            Some(body) if self.blocks == 0 => body.level.add(ahead, item),
            _ => {}
        }
    }
}
