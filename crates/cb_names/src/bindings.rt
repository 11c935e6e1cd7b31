//! To which declaration a name is bound, and all tokens that are bound to the same.
ghost use Rattle.cb_names.specs.Tables.{IsTable};
ghost use Rattle.cb_names.specs.steps.Namings.{IsNamed};
ghost use Rattle.cb_names.specs.steps.Telling.{IsTold};
ghost use Rattle.std.specs.List.{AllByRecursion};
ghost use Rattle.std.specs.Prelude.{IfOk, IfSome, ℕ, ◌<◌, ◌≡◌};
ghost use Rattle.cb_names.specs.Bindings.{binding, declares_in, inner, sees, use_of, variable_by};
ghost use Rattle.cb_names.specs.Functions.{IsItemOf};
ghost use Rattle.cb_names.specs.Locals.{uses_where};
ghost use Rattle.cb_names.specs.Scoped.{own_list};
ghost use Rattle.cb_names.specs.steps.Binding.{larger, named_by, scope_by};
ghost use Rattle.cb_names.specs.steps.Namings.{declares_of, is_label_of, named_of, own_by};
ghost use Rattle.cb_names.specs.OwnNames.{own_in};
ghost use Rattle.std.specs.Prelude.{if◌then◌else◌, length};
ghost use Rattle.cb_names.specs.Bindings.{variable_at};
ghost use Rattle.std.specs.Prelude.{nat_le, ◌&&◌};
ghost use Rattle.cb_names.specs.Bindings.{is_bound_in};
ghost use Rattle.std.specs.Prelude.{◌++◌, ◌||◌, nat_lt, suc};
ghost use Rattle.std.specs.Prelude.{not};

use crate::accesses::access;
use crate::declared::Told;
use crate::labels::{begins, bytes_at, is_spelled, names_label, span_at};
use crate::local::{Local, LocalUse, push_if};
use crate::names::push_span_if;
use crate::scopes::{Scope, flag, scopes_of};
use crate::shape::Shape;
use crate::spaces::is_ordinary;
use cb_scan::Span;
use std::alloc::{AllocError, Global};

/// The scope of what a token declares.
pub(crate) fn scope_at(scopes: &[Scope], index: u32) -> Scope
    ensures { result ≡ scope_by scopes.now index }
{
    match scopes.get(index as usize) {
        Some(scope) => *scope,
        None => Scope { first: 0, last: 0 },
    }
}

/// What is known of the names of a function that have these bytes.
#[derive(Clone, Copy)]
struct Named<'a> {
    text: &'a [u8],
    shape: &'a Shape,
    starts: &'a [bool],
    declares: &'a [bool],
    scopes: &'a [Scope],
    name: &'a [u8],
}

/// The first of two declarations, if the second one is in a scope around it.
fn inner_of(early: u32, later: u32, first: u32, second: u32) -> u32
    ensures { result ≡ (if nat_le first second then later else early) }
{
    if first <= second { later } else { early }
}

fn larger(first: usize, second: usize) -> usize
    ensures { result ≡ larger first second }
{
    if first < second { second } else { first }
}

impl Named<'_> {
    /// Whether a token is an ordinary name with the bytes.
    fn is_named(&self, index: u32) -> bool
        requires named { IsNamed self.now }
        requires within { index < length self.now.shape.now.items.items }
        ensures { result ≡ named_by self.now.text.now self.now.shape.now.items.items
            self.now.starts.now self.now.name.now index }
    {
        let items = self.shape.items.as_slice();
        is_ordinary(items, self.starts, index) && bytes_at(self.text, items, index) == self.name
    }

    /// Whether a token declares the name.
    fn declares_name(&self, index: u32) -> bool
        requires named { IsNamed self.now }
        requires within { index < length self.now.shape.now.items.items }
        ensures { result ≡ declares_of self.now index }
    {
        self.is_named(index) && flag(self.declares, index)
    }

    /// The scope of what a token declares.
    fn scope(&self, index: u32) -> Scope
        ensures { result ≡ scope_by self.now.scopes.now index }
    {
        scope_at(self.scopes, index)
    }

    /// Of two declarations the one in the inner scope, or the later one.
    fn inner(&self, before: Option<u32>, later: u32) -> u32
        ensures { result ≡ inner (scope_by self.now.scopes.now) before later }
    {
        match before {
            Some(early) => {
                inner_of(
                    early,
                    later,
                    self.scope(early).first,
                    self.scope(later).first,
                )
            }
            None => later,
        }
    }

    /// Whether a token sees the declaration at an index, which is not behind it.
    fn sees(&self, index: u32, declared: u32) -> bool
        requires named { IsNamed self.now }
        requires within { declared < length self.now.shape.now.items.items }
        ensures { result ≡ sees (declares_of self.now) (scope_by self.now.scopes.now) index
            declared }
    {
        self.declares_name(declared) && index <= self.scope(declared).last
    }

    /// Of the declarations up to one that a token sees, the last one in the innermost scope.
    fn seen_with(&self, index: u32, declared: u32, before: Option<u32>) -> Option<u32>
        requires named { IsNamed self.now }
        requires within { declared < length self.now.shape.now.items.items }
        ensures { result ≡ (if sees (declares_of self.now) (scope_by self.now.scopes.now) index
            declared then Some (inner (scope_by self.now.scopes.now) before declared)
            else before) }
    {
        if self.sees(index, declared) {
            Some(self.inner(before, declared))
        } else {
            before
        }
    }

    /// The declaration to which the name is bound at a token.
    #[tactic(auto, unfolding(crate::specs::Bindings::seen_before))]
    fn binding(&self, index: u32) -> Option<u32>
        requires named { IsNamed self.now }
        requires within { index < length self.now.shape.now.items.items }
        ensures value { result ≡ binding (declares_of self.now) (scope_by self.now.scopes.now)
            index }
        ensures within { IfSome result (λ d. d < length self.now.shape.now.items.items) }
    {
        let mut found = None;
        for at in 0..index + 1 {
            found = self.seen_with(index, at, found);
        }
        found
    }

    /// Whether a token declares the name in the scope that begins with a token.
    fn declares_in(&self, first: u32, index: u32) -> bool
        requires named { IsNamed self.now }
        requires within { index < length self.now.shape.now.items.items }
        ensures { result ≡ declares_in (declares_of self.now) (scope_by self.now.scopes.now) first
            index }
    {
        self.declares_name(index) && self.scope(index).first == first
    }

    /// How far declarations are seen, in the scopes that begin at an index or behind it, after one
    /// more.
    fn farther(&self, first: usize, index: u32, far: usize) -> usize
        requires named { IsNamed self.now }
        requires within { index < length self.now.shape.now.items.items }
        ensures { result ≡ (if declares_of self.now index
            && nat_le first (scope_by self.now.scopes.now index).first
            then larger far (suc (scope_by self.now.scopes.now index).last) else far) }
    {
        if self.declares_name(index) && first <= self.scope(index).first as usize {
            larger(far, self.scope(index).last as usize + 1)
        } else {
            far
        }
    }

    fn use_of(&self, first: u32, index: u32) -> LocalUse
        requires named { IsNamed self.now }
        requires within { index < length self.now.shape.now.items.items }
        ensures { result ≡ use_of self.now.shape.now.items.items (declares_of self.now)
            (scope_by self.now.scopes.now) first index }
    {
        let is_declared = self.declares_in(first, index);
        LocalUse {
            name: span_at(self.shape.items.as_slice(), index),
            access: access(self.shape, is_declared, index),
            declares: is_declared,
        }
    }

    /// Whether a token names what is declared in a scope, by how far declarations in it or in inner
    /// ones are seen, and those in inner ones.
    fn is_use(&self, index: u32, far: usize, hidden: usize) -> bool
        requires named { IsNamed self.now }
        requires within { index < length self.now.shape.now.items.items }
        ensures { result ≡ (named_of self.now index
            && (nat_lt index far && not (nat_lt index hidden))) }
    {
        self.is_named(index) && (index as usize) < far && !((index as usize) < hidden)
    }

    /// All tokens that name what is declared in the scope that begins with a token.
    fn uses(&self, alloc: Global, first: u32) -> Result<Vec<LocalUse>, AllocError>
        requires { IsNamed self.now }
        ensures { IfOk result (λ uses. uses.items ≡ uses_where
            (use_of self.now.shape.now.items.items (declares_of self.now)
            (scope_by self.now.scopes.now) first)
            (λ k. named_of self.now k && is_bound_in (declares_of self.now)
            (scope_by self.now.scopes.now) first k)
            (length self.now.shape.now.items.items)) }
    {
        let mut uses = Vec::new(alloc);
        let mut far = 0;
        let mut hidden = 0;
        for at in 0..self.shape.items.len() as u32 {
            far = self.farther(first as usize, at, far);
            hidden = self.farther(first as usize + 1, at, hidden);
            push_if(
                self.is_use(at, far, hidden),
                self.use_of(first, at),
                &mut uses,
            )?;
        }
        Ok(uses)
    }

    /// Whether a token names a label, or what is declared in the function, by how far declarations are
    /// seen.
    fn is_own(&self, index: u32, far: usize) -> bool
        requires named { IsNamed self.now }
        requires within { index < length self.now.shape.now.items.items }
        ensures { result ≡ (is_label_of self.now index
            || (named_of self.now index && nat_lt index far)) }
    {
        self.is_label(index) || (self.is_named(index) && (index as usize) < far)
    }

    /// Whether a token with the bytes names a label.
    fn is_label(&self, index: u32) -> bool
        requires named { IsNamed self.now }
        requires within { index < length self.now.shape.now.items.items }
        ensures { result ≡ is_label_of self.now index }
    {
        let items = self.shape.items.as_slice();
        names_label(items, begins(self.starts, index), index)
            && is_spelled(self.text, items, index, self.name)
    }

    /// Appends all tokens with the bytes that name a label, or what is declared in the function.
    fn push_own(&self, found: &mut Vec<Span>) -> Result<(), AllocError>
        requires { IsNamed self.now }
        ensures { IfOk result (λ _. found.new.items ≡ found.old.items
            ++ own_by self.now (length self.now.shape.now.items.items)) }
    {
        let mut far = 0;
        for at in 0..self.shape.items.len() as u32 {
            far = self.farther(0, at, far);
            push_span_if(
                self.is_own(at, far),
                span_at(self.shape.items.as_slice(), at),
                found,
            )?;
        }
        Ok(())
    }

    /// The local that a token names, if it names one.
    fn local(&self, alloc: Global, index: u32) -> Result<Option<Local>, AllocError>
        requires named { IsNamed self.now }
        requires within { index < length self.now.shape.now.items.items }
        ensures { IfOk result (λ found. found ≡ variable_by self.now.shape.now.items.items
            (named_of self.now) (declares_of self.now) (scope_by self.now.scopes.now) index) }
    {
        let Some(declared) = self.binding(index) else {
            return Ok(None);
        };
        let uses = self.uses(alloc, self.scope(declared).first)?;
        Ok(Some(Local {
            definition: Some(span_at(self.shape.items.as_slice(), declared)),
            uses,
            is_label: false,
        }))
    }
}

/// The local that a token of a function names, if it names one.
pub(crate) fn variable_at(
    alloc: Global,
    text: &[u8],
    told: Told<'_>,
    index: u32,
) -> Result<Option<Local>, AllocError>
    requires told { IsTold told }
    requires within { AllByRecursion (IsItemOf text.now) told.shape.now.items.items }
    requires index { index < length told.shape.now.items.items }
    ensures { (m : ℕ) → told.entry.own ≡ own_list told.entry.shape.now.items.items m
        → IfOk result (λ found. found ≡ variable_at text.now told.entry.shape.now.items.items m
        told.entry.shape.now.body index) }
{
    let items = told.shape.items.as_slice();
    if !is_ordinary(items, told.starts, index) {
        return Ok(None);
    }
    let declared = told.declared(alloc)?;
    let scopes = scopes_of(alloc, told.shape, declared.lists.as_slice())?;
    let named = Named {
        text,
        shape: told.shape,
        starts: told.starts,
        declares: declared.names.as_slice(),
        scopes: scopes.as_slice(),
        name: bytes_at(text, items, index),
    };
    match named.local(alloc, index) {
        Ok(found) => Ok(found),
        Err(error) => Err(error),
    }
}

/// Appends all tokens of a function with these bytes that name a label, or what is declared in it.
pub(crate) fn push_own(
    alloc: Global,
    text: &[u8],
    told: Told<'_>,
    name: &[u8],
    found: &mut Vec<Span>,
) -> Result<(), AllocError>
    requires told { IsTold told }
    requires within { AllByRecursion (IsItemOf text.now) told.shape.now.items.items }
    ensures { (m : ℕ) → told.entry.own ≡ own_list told.entry.shape.now.items.items m
        → IfOk result (λ _. found.new.items ≡ found.old.items
        ++ own_in text.now told.entry.shape.now.items.items m told.entry.shape.now.body
        name.now) }
{
    let declared = told.declared(alloc)?;
    let scopes = scopes_of(alloc, told.shape, declared.lists.as_slice())?;
    let named = Named {
        text,
        shape: told.shape,
        starts: told.starts,
        declares: declared.names.as_slice(),
        scopes: scopes.as_slice(),
        name,
    };
    named.push_own(found)?;
    Ok(())
}
