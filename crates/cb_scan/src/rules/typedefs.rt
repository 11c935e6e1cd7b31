//! The names that typedefs define: a small state beside that of the functions, which every token of
//! the code moves.
ghost use Rattle.std.specs.Prelude.{◌≡◌, ◌+◌, ◌<◌, ◌≤◌, ◌^◌, ◌++◌, false, map, IfOk, Some};
ghost use Rattle.std.specs.Option.{option_to_list};
ghost use Rattle.cb_scan.specs.Definitions.{typedef_def};
ghost use Rattle.cb_scan.specs.rules.Typedefs.{nesting_after};
ghost use Rattle.cb_scan.specs.steps.Typedefs.{after, all_names, begins, declaration_start};
ghost use Rattle.cb_scan.specs.steps.Typedefs.{ended_name, ends, name_of, nesting_of};
ghost use Rattle.cb_scan.specs.steps.Typedefs.{next_declaration, next_pending, parts_at};
ghost use Rattle.cb_scan.specs.steps.Typedefs.{pointer_after, reach_after, stays, takes};
ghost use Rattle.cb_scan.specs.steps.Typedefs.{typedefs_out};

use crate::facts::{Def, Kind};
use crate::lex::token::{Role, Token};
use crate::rules::functions::Machine;
use std::alloc::AllocError;

/// How far `(`, one or more `*` and a name have come.
#[derive(Clone, Copy)]
pub(crate) enum Reach {
    Nothing,
    Paren,
    Stars,
}

/// A part of an open typedef: how many parentheses and brackets are open, how far `(`, `*` and a
/// name have come, the first name that did, and the last name outside parentheses and brackets.
#[derive(Clone, Copy)]
pub(crate) struct Declaration {
    nesting: u32,
    reach: Reach,
    pointer: Option<Token>,
    last: Option<Token>,
}

/// The parentheses and brackets that are open after a token.
pub(crate) fn nesting_after(token: &Token, nesting: u32) -> u32
    requires { nesting + 1 < 2 ^ 32 }
    ensures value { result ≡ nesting_after token.now nesting }
    ensures small { result ≤ nesting + 1 }
{
    match token.role {
        Role::Mark(b'(' | b'[') => nesting + 1,
        Role::Mark(b')' | b']') => nesting.saturating_sub(1),
        _ => nesting,
    }
}

fn reach_after(reach: Reach, token: &Token) -> Reach
    ensures { result ≡ reach_after reach token.now }
{
    match (token.role, reach) {
        (Role::Mark(b'('), _) => Reach::Paren,
        (Role::Mark(b'*'), Reach::Paren | Reach::Stars) => Reach::Stars,
        _ => Reach::Nothing,
    }
}

/// Keeps the first name that `(` and `*` lead to, after one more token.
fn point(pointer: &mut Option<Token>, reach: Reach, token: &Token)
    ensures { pointer.new ≡ pointer_after pointer.old reach token.now }
{
    if pointer.is_none() && matches!(reach, Reach::Stars) && token.is_name() {
        *pointer = Some(*token);
    }
}

impl Declaration {
    /// The beginning of a part.
    fn start() -> Declaration
        ensures { result ≡ declaration_start }
    {
        Declaration {
            nesting: 0,
            reach: Reach::Nothing,
            pointer: None,
            last: None,
        }
    }

    /// The token is a comma outside parentheses and brackets.
    fn parts_at(&self, token: &Token) -> bool
        ensures { result ≡ parts_at self.now.nesting token.now }
    {
        token.is_mark(b',') && self.nesting == 0
    }

    /// After a token: a comma outside parentheses and brackets begins the next part.
    #[tactic(auto, unfolding(crate::specs::steps::Typedefs::after))]
    fn next(&mut self, token: &Token)
        requires { self.old.nesting + 1 < 2 ^ 32 }
        ensures value { self.new ≡ after self.old token.now }
        ensures small { self.new.nesting ≤ self.old.nesting + 1 }
    {
        if self.parts_at(token) {
            *self = Declaration::start();
            return;
        }
        if token.is_name() && self.nesting == 0 {
            self.last = Some(*token);
        }
        point(&mut self.pointer, self.reach, token);
        self.reach = reach_after(self.reach, token);
        self.nesting = nesting_after(token, self.nesting);
    }

    /// The name that the part defines.
    fn name(&self) -> Option<Token>
        ensures { result ≡ name_of self.now }
    {
        match self.pointer {
            Some(name) => Some(name),
            None => self.last,
        }
    }
}

/// The token is a `typedef` that directly follows a stop.
fn begins(machine: &Machine, token: &Token) -> bool
    ensures { result ≡ begins machine.now token.now }
{
    token.is_typedef() && machine.head.last.is_none()
}

/// The token is a `;` at depth 0.
fn ends(machine: &Machine, token: &Token) -> bool
    ensures { result ≡ ends machine.now token.now }
{
    token.is_mark(b';') && machine.depth == 0
}

/// The token is at depth 0 and is no brace.
fn takes(machine: &Machine, token: &Token) -> bool
    ensures { result ≡ takes machine.now token.now }
{
    machine.depth == 0 && !token.is_mark(b'{') && !token.is_mark(b'}')
}

fn typedef_def(name: Token) -> Def
    ensures { result ≡ typedef_def name }
{
    Def {
        name: name.span,
        kind: Kind::Typedef,
        line: name.line,
        local: false,
        tag: None,
    }
}

/// The names become definitions.
fn define(names: &[Token], out: &mut Vec<Def>) -> Result<(), AllocError>
    ensures { IfOk result (λ _. out.new.items ≡ out.old.items ++ map typedef_def names.now) }
{
    for name in names {
        out.push(typedef_def(*name))?;
    }
    Ok(())
}

/// The names of a typedef that ends, with that of its last part, become definitions.
fn define_all(
    state: &Option<Declaration>,
    pending: &mut Vec<Token>,
    out: &mut Vec<Def>,
) -> Result<(), AllocError>
    ensures { IfOk result (λ _. out.new.items ≡ out.old.items
        ++ map typedef_def (all_names state.now pending.old.items)) }
{
    let Some(open) = state else {
        return Ok(());
    };
    if let Some(name) = open.name() {
        pending.push(name)?;
    }
    define(pending.as_slice(), out)
}

/// The names of finished parts are held back until the typedef ends.
fn hold(name: Option<Token>, pending: &mut Vec<Token>) -> Result<(), AllocError>
    ensures { IfOk result (λ _. pending.new.items ≡ pending.old.items ++ option_to_list name) }
{
    if let Some(name) = name {
        pending.push(name)?;
    }
    Ok(())
}

/// A token that neither ends nor begins a typedef, in one that is open: the name of the part that a
/// comma ends is held back.
fn go_on(
    machine: &Machine,
    declaration: &mut Declaration,
    token: &Token,
    pending: &mut Vec<Token>,
) -> Result<(), AllocError>
    requires { declaration.old.nesting + 1 < 2 ^ 32 }
    ensures state { IfOk result
        (λ _. declaration.new ≡ stays machine.now token.now declaration.old) }
    ensures small { IfOk result (λ _. declaration.new.nesting ≤ declaration.old.nesting + 1) }
    ensures held { IfOk result (λ _. pending.new.items ≡ pending.old.items
        ++ option_to_list (ended_name machine.now (Some declaration.old) token.now)) }
{
    if takes(machine, token) {
        if declaration.parts_at(token) {
            hold(declaration.name(), pending)?;
        }
        declaration.next(token);
    }
    Ok(())
}

/// A token that ends no typedef: the names that are held back, and the typedef that is open after
/// it.
#[inline(always)]
pub(crate) fn pass_token(
    machine: &Machine,
    state: &mut Option<Declaration>,
    token: &Token,
    pending: &mut Vec<Token>,
) -> Result<(), AllocError>
    requires open { ends machine.now token.now ≡ false }
    requires nested { nesting_of state.old + 1 < 2 ^ 32 }
    ensures state { IfOk result
        (λ _. state.new ≡ next_declaration machine.now state.old token.now) }
    ensures small { IfOk result (λ _. nesting_of state.new ≤ nesting_of state.old + 1) }
    ensures held { IfOk result (λ _. pending.new.items
        ≡ next_pending machine.now state.old pending.old.items token.now) }
{
    if begins(machine, token) {
        pending.clear();
        *state = Some(Declaration::start());
    } else if let Some(open) = state {
        go_on(machine, open, token, pending)?;
    }
    Ok(())
}

/// One token of the code: what it defines, the names that are held back, and the typedef that is
/// open after it.
pub(crate) fn take_token(
    machine: &Machine,
    state: &mut Option<Declaration>,
    token: &Token,
    pending: &mut Vec<Token>,
    out: &mut Vec<Def>,
) -> Result<(), AllocError>
    requires { nesting_of state.old + 1 < 2 ^ 32 }
    ensures state { IfOk result
        (λ _. state.new ≡ next_declaration machine.now state.old token.now) }
    ensures small { IfOk result (λ _. nesting_of state.new ≤ nesting_of state.old + 1) }
    ensures held { IfOk result (λ _. pending.new.items
        ≡ next_pending machine.now state.old pending.old.items token.now) }
    ensures made { IfOk result (λ _. out.new.items ≡ out.old.items
        ++ typedefs_out machine.now state.old pending.old.items token.now) }
{
    if ends(machine, token) {
        define_all(state, pending, out)?;
        pending.clear();
        *state = None;
        Ok(())
    } else {
        pass_token(machine, state, token, pending)
    }
}
