//! Which names a function declares, and which of its parentheses are lists of parameters that are
//! scopes.
ghost use Rattle.cb_names.specs.Tables.{IsTable};
ghost use Rattle.cb_names.specs.Shapes.{IsShape};
ghost use Rattle.cb_names.specs.steps.Declaring.{IsCodes};
ghost use Rattle.cb_names.specs.steps.Telling.{IsTold};
ghost use Rattle.std.specs.Prelude.{IfOk, length, ◌<◌, ◌≡◌};
ghost use Rattle.cb_names.specs.Declarators.{both};
ghost use Rattle.cb_names.specs.Scoped.{begins_declaration, begins_old, behind_for, contains};
ghost use Rattle.cb_names.specs.Scoped.{follows_comma, follows_enum, follows_stop, if_list};
ghost use Rattle.cb_names.specs.Scoped.{is_bare, is_behind, is_body, is_enum, is_enumerator};
ghost use Rattle.cb_names.specs.Scoped.{is_head_list, is_in_own, is_old, is_outside, own_list};
ghost use Rattle.cb_names.specs.steps.Telling.{set_all, set_one};
ghost use Rattle.std.specs.List.{list_any};
ghost use Rattle.std.specs.Option.{option_map_or};
ghost use Rattle.std.specs.Prelude.{replicate, ℕ, ◌^◌};
ghost use Rattle.cb_names.specs.Braces.{kind_at};
ghost use Rattle.cb_names.specs.Pairs.{at, is_at};
ghost use Rattle.cb_names.specs.Scoped.{found, found_at};
ghost use Rattle.std.specs.Prelude.{Bool, false, ◌&&◌, ◌==◌};
ghost use Rattle.cb_names.specs.Pairs.{innermost};
ghost use Rattle.cb_scan.specs.Bytes.{semicolon};
ghost use Rattle.std.specs.Prelude.{◌||◌};
ghost use Rattle.cb_names.specs.Braces.{is_name_at};
ghost use Rattle.std.specs.List.{range_with_len};
ghost use Rattle.std.specs.Prelude.{slice_index_or};

use crate::braces::{Brace, is_name_at};
use crate::declaration::is_declaration;
use crate::declarators::{Codes, Found, codes_of};
use crate::pairs::sign;
use crate::scopes::{flag, for_of};
use crate::shape::Shape;
use crate::word::Item;
use cb_scan::WideRole;
use std::alloc::{AllocError, Global};

/// A function: its tokens, with which of them a statement begins, and its own list of parameters;
/// whether it is of the old style; and which tokens follow `enum` and names.
#[derive(Clone, Copy)]
pub(crate) struct Told<'a> {
    pub shape: &'a Shape,
    pub starts: &'a [bool],
    own: Option<u32>,
    is_old: bool,
    enums: &'a [bool],
}

/// Which names a function declares, and which of its parentheses are lists that are scopes.
#[derive(Drop)]
pub(crate) struct Declared {
    pub names: Vec<bool>,
    pub lists: Vec<bool>,
}

/// An index, if parentheses begin there.
fn if_list(shape: &Shape, index: u32) -> Option<u32>
    requires { IsShape shape.now }
    ensures { result ≡ if_list shape.now.items.items index }
{
    if sign(shape.items.as_slice(), index) == b'(' && shape.partner(index).is_some() {
        Some(index)
    } else {
        None
    }
}

/// The list that directly follows the name of a function, or a `)` directly behind that.
#[tactic(auto, using(crate::proofs::SignLemmas::close_within, crate::proofs::DeclaredLemmas::own_out))]
pub(crate) fn own_list(shape: &Shape, name: u32) -> Option<u32>
    requires { IsShape shape.now }
    ensures { result ≡ own_list shape.now.items.items name }
{
    if name as usize >= shape.items.len() {
        return None;
    }
    if sign(shape.items.as_slice(), name + 1) == b')' {
        if_list(shape, name + 2)
    } else {
        if_list(shape, name + 1)
    }
}

/// Whether a token is behind the pair of a bracket.
fn is_behind(shape: &Shape, bracket: u32, index: u32) -> bool
    requires { IsShape shape.now }
    ensures { result ≡ is_behind shape.now.items.items bracket index }
{
    match shape.partner(bracket) {
        Some(end) => end < index,
        None => false,
    }
}

/// Whether a token is a `;` behind the pair of a bracket.
fn is_stop(shape: &Shape, bracket: u32, index: u32) -> bool
    requires { IsShape shape.now }
    ensures { result ≡ (is_at semicolon shape.now.items.items index
        && is_behind shape.now.items.items bracket index) }
{
    sign(shape.items.as_slice(), index) == b';' && is_behind(shape, bracket, index)
}

/// Whether a `;` stands behind the pair of a bracket, before a token.
fn has_stop(shape: &Shape, bracket: u32, body: u32) -> bool
    requires { IsShape shape.now }
    ensures { result ≡ list_any (λ k. is_at semicolon shape.now.items.items k
        && is_behind shape.now.items.items bracket k) (range_with_len 0 body) }
{
    for at in 0..body {
        if is_stop(shape, bracket, at) {
            return true;
        }
    }
    false
}

/// Whether a `;` stands in the head behind the list of the function.
pub(crate) fn is_old(shape: &Shape, own: Option<u32>) -> bool
    requires { IsShape shape.now }
    ensures { result ≡ is_old shape.now.items.items own shape.now.body }
{
    match own {
        Some(list) => has_stop(shape, list, shape.body),
        None => false,
    }
}

/// Whether a token is `enum`.
fn is_enum_at(items: &[Item], index: u32) -> bool
    ensures { result ≡ is_enum (at items.now index).token.role }
{
    match items.get(index as usize) {
        Some(item) => matches!(item.token.role, WideRole::Enum),
        None => false,
    }
}

/// Whether `enum` is directly before the token behind this one, or before the names there.
fn enum_after(items: &[Item], index: u32, follows: bool) -> bool
    ensures { result ≡ (is_enum (at items.now index).token.role
        || (is_name_at items.now index && follows)) }
{
    is_enum_at(items, index) || (is_name_at(items, index) && follows)
}

/// Of each token whether `enum` is directly before it, or directly before the names there.
pub(crate) fn enums_of(alloc: Global, items: &[Item]) -> Result<Vec<bool>, AllocError>
    requires { length items.now < 2 ^ 32 }
    ensures { IfOk result (λ enums. IsTable (follows_enum items.now) (length items.now) enums.items) }
{
    let mut enums = Vec::with_capacity(alloc, items.len())?;
    let mut follows = false;
    for at in 0..items.len() as u32 {
        enums.push(follows)?;
        follows = enum_after(items, at, follows);
    }
    Ok(enums)
}

/// So many flags that are not set.
fn unset(alloc: Global, count: usize) -> Result<Vec<bool>, AllocError>
    ensures { IfOk result (λ flags. flags.items ≡ replicate count false) }
{
    let mut flags = Vec::with_capacity(alloc, count)?;
    for _i in 0..count {
        flags.push(false)?;
    }
    Ok(flags)
}

/// Sets the flag of an index, if there is one.
fn set_one(flags: &mut Vec<bool>, index: u32)
    ensures { flags.new.items ≡ set_one flags.old.items index }
{
    if (index as usize) < flags.len() {
        flags[index as usize] = true;
    }
}

/// Sets the flags of some indices.
#[tactic(auto, unfolding(crate::specs::steps::Telling::set_all))]
fn set_all(flags: &mut Vec<bool>, indices: &[u32])
    ensures { flags.new.items ≡ set_all flags.old.items indices.now }
{
    for (_i, index) in indices.iter().enumerate() {
        set_one(flags, *index);
    }
}

impl<'a> Told<'a> {
    /// What is known of a function.
    pub(crate) fn new(
        shape: &'a Shape,
        starts: &'a [bool],
        enums: &'a [bool],
        name: u32,
    ) -> Told<'a>
        requires { IsShape shape.now }
        ensures shape { result.shape.now ≡ shape.now }
        ensures starts { result.starts.now ≡ starts.now }
        ensures enums { result.enums.now ≡ enums.now }
        ensures own { result.own ≡ own_list shape.now.items.items name }
        ensures old { result.is_old ≡ is_old shape.now.items.items
            (own_list shape.now.items.items name) shape.now.body }
    {
        let own = own_list(shape, name);
        Told {
            shape,
            starts,
            own,
            is_old: is_old(shape, own),
            enums,
        }
    }

    /// Whether no bracket is around a token.
    fn is_outside(&self, index: u32) -> bool
        requires told { IsTold self.now }
        requires within { index < length self.now.shape.now.items.items }
        ensures { result ≡ is_outside self.now.shape.now.items.items index }
    {
        self.shape.around(index).is_none()
    }

    /// Whether parentheses of the head are a list of the function.
    fn is_listed(&self, index: u32) -> bool
        requires told { IsTold self.now }
        requires within { index < length self.now.shape.now.items.items }
        ensures { result ≡ option_map_or (λ j. index == j
            || (is_outside self.now.shape.now.items.items index
            && is_behind self.now.shape.now.items.items j index)) self.now.own
            (is_outside self.now.shape.now.items.items index) }
    {
        match self.own {
            Some(list) => {
                index == list || (self.is_outside(index) && is_behind(self.shape, list, index))
            }
            None => self.is_outside(index),
        }
    }

    /// Whether a list of the function begins with a token.
    fn is_head_list(&self, index: u32) -> bool
        requires told { IsTold self.now }
        requires within { index < length self.now.shape.now.items.items }
        ensures { result ≡ is_head_list self.now.shape.now.items.items self.now.own
            self.now.shape.now.body index }
    {
        index < self.shape.body
            && sign(self.shape.items.as_slice(), index) == b'('
            && self.shape.partner(index).is_some()
            && self.is_listed(index)
    }

    /// Whether a token is directly behind a `;` or the pair of a bracket.
    #[tactic(auto, unfolding(crate::specs::Scoped::follows_stop))]
    fn follows_stop(&self, bracket: u32, index: u32) -> bool
        requires { IsTold self.now }
        ensures { result ≡ follows_stop self.now.shape.now.items.items bracket index }
    {
        index > 0
            && (sign(self.shape.items.as_slice(), index - 1) == b';'
                || self.shape.partner(bracket) == Some(index - 1))
    }

    /// Whether a declaration of parameters may begin with a token.
    fn follows_own(&self, index: u32) -> bool
        requires { IsTold self.now }
        ensures { result ≡ option_map_or (λ j. is_behind self.now.shape.now.items.items j index
            && follows_stop self.now.shape.now.items.items j index) self.now.own false }
    {
        match self.own {
            Some(list) => is_behind(self.shape, list, index) && self.follows_stop(list, index),
            None => false,
        }
    }

    /// Whether a declaration of parameters begins with a token.
    fn begins_old(&self, index: u32) -> bool
        requires { IsTold self.now }
        ensures { result ≡ begins_old self.now.shape.now.items.items self.now.own
            self.now.shape.now.body index }
    {
        index < self.shape.body && self.follows_own(index) && self.is_old
    }

    /// Whether this byte or a comma is directly before a token.
    #[tactic(auto, unfolding(crate::specs::Scoped::follows_comma))]
    fn follows_comma(&self, byte: u8, index: u32) -> bool
        ensures { result ≡ follows_comma self.now.shape.now.items.items byte index }
    {
        index > 0
            && (sign(self.shape.items.as_slice(), index - 1) == byte
                || sign(self.shape.items.as_slice(), index - 1) == b',')
    }

    /// Whether the innermost bracket around a token is that of the list of the function.
    fn is_in_own(&self, index: u32) -> bool
        requires told { IsTold self.now }
        requires within { index < length self.now.shape.now.items.items }
        ensures { result ≡ is_in_own self.now.shape.now.items.items self.now.own index }
    {
        match self.own {
            Some(list) => self.shape.around(index) == Some(list),
            None => false,
        }
    }

    /// Whether a token is a parameter by its name alone.
    fn is_bare(&self, index: u32) -> bool
        requires told { IsTold self.now }
        requires within { index < length self.now.shape.now.items.items }
        ensures { result ≡ is_bare self.now.shape.now.items.items self.now.own
            self.now.shape.now.body index }
    {
        let items = self.shape.items.as_slice();
        is_name_at(items, index)
            && self.is_in_own(index)
            && self.follows_comma(b'(', index)
            && (sign(items, index + 1) == b',' || sign(items, index + 1) == b')')
            && self.is_old
    }

    /// Whether a bracket is the `{` of an enumeration.
    fn opens_enumeration(&self, bracket: u32) -> bool
        requires told { IsTold self.now }
        requires within { bracket < length self.now.shape.now.items.items }
        ensures { result ≡ (is_body (kind_at self.now.shape.now.items.items self.now.shape.now.body
            bracket) && follows_enum self.now.shape.now.items.items bracket) }
    {
        matches!(self.shape.kinds.as_slice()[bracket as usize], Brace::Body)
            && flag(self.enums, bracket)
    }

    /// Whether the innermost bracket around a token is the `{` of an enumeration.
    fn is_in_enumeration(&self, index: u32) -> bool
        requires told { IsTold self.now }
        requires within { index < length self.now.shape.now.items.items }
        ensures { result ≡ option_map_or (λ j. is_body (kind_at self.now.shape.now.items.items
            self.now.shape.now.body j) && follows_enum self.now.shape.now.items.items j)
            (innermost self.now.shape.now.items.items index) false }
    {
        match self.shape.around(index) {
            Some(bracket) => self.opens_enumeration(bracket),
            None => false,
        }
    }

    /// Whether a token is an enumerator.
    fn is_enumerator(&self, index: u32) -> bool
        requires told { IsTold self.now }
        requires within { index < length self.now.shape.now.items.items }
        ensures { result ≡ is_enumerator self.now.shape.now.items.items self.now.shape.now.body
            index }
    {
        is_name_at(self.shape.items.as_slice(), index)
            && !(sign(self.shape.items.as_slice(), index + 1) == b'(')
            && self.follows_comma(b'{', index)
            && self.is_in_enumeration(index)
    }

    /// Whether a token is directly behind `for (`.
    #[tactic(auto, unfolding(crate::specs::Scoped::behind_for))]
    fn behind_for(&self, index: u32) -> bool
        ensures { result ≡ behind_for self.now.shape.now.items.items index }
    {
        index > 0 && for_of(self.shape.items.as_slice(), index - 1).is_some()
    }

    /// Whether a declaration of a block, or behind `for (`, begins with a token.
    fn begins_declaration(&self, index: u32) -> bool
        requires told { IsTold self.now }
        requires within { index < length self.now.shape.now.items.items }
        ensures { result ≡ begins_declaration self.now.shape.now.items.items
            self.now.shape.now.body index }
    {
        let items = self.shape.items.as_slice();
        (flag(self.starts, index) || self.behind_for(index))
            && is_declaration(items, self.shape.pairs.partner.as_slice(), index)
    }

    /// Appends what is found at a token, where a list begins with it or not.
    fn push_found(
        &self,
        alloc: Global,
        codes: Codes<'_>,
        is_list: bool,
        index: u32,
        found: &mut Found,
    ) -> Result<(), AllocError>
        requires told { IsTold self.now }
        requires codes { IsCodes codes }
        requires same { codes.shape.now ≡ self.now.shape.now }
        requires within { index < length self.now.shape.now.items.items }
        ensures { IfOk result (λ _. found.new ≡ both found.old (found_at
            self.now.shape.now.items.items self.now.own self.now.shape.now.body is_list index)) }
    {
        if self.begins_declaration(index) {
            return codes.push_declaration(alloc, index, false, found);
        }
        if self.begins_old(index) {
            return codes.push_declaration(alloc, index, true, found);
        }
        if self.is_head_list(index) || is_list {
            codes.push_list(alloc, index, found)
        } else {
            Ok(())
        }
    }

    /// What is found in the function: which names are declared, and which lists are scopes.
    fn found(&self, alloc: Global, codes: Codes<'_>) -> Result<Declared, AllocError>
        requires told { IsTold self.now }
        requires codes { IsCodes codes }
        requires same { codes.shape.now ≡ self.now.shape.now }
        ensures names { IfOk result (λ d. IsTable (contains (found self.now.shape.now.items.items
            self.now.own self.now.shape.now.body).names) (length self.now.shape.now.items.items)
            d.names.items) }
        ensures lists { IfOk result (λ d. IsTable (contains (found self.now.shape.now.items.items
            self.now.own self.now.shape.now.body).lists) (length self.now.shape.now.items.items)
            d.lists.items) }
    {
        let mut names = unset(alloc, self.shape.items.len())?;
        let mut lists = unset(alloc, self.shape.items.len())?;
        for at in 0..self.shape.items.len() as u32 {
            let mut found = Found::new(alloc);
            let is_list = flag(lists.as_slice(), at);
            self.push_found(alloc, codes, is_list, at, &mut found)?;
            set_all(&mut names, found.names());
            set_all(&mut lists, found.lists());
        }
        Ok(Declared { names, lists })
    }

    /// Whether a token declares a name, where those of declarations and lists are known.
    fn declares(&self, found: &[bool], index: u32) -> bool
        requires told { IsTold self.now }
        requires within { index < length self.now.shape.now.items.items }
        ensures { result ≡ (slice_index_or found.now index false
            || is_bare self.now.shape.now.items.items self.now.own self.now.shape.now.body index
            || is_enumerator self.now.shape.now.items.items self.now.shape.now.body index) }
    {
        flag(found, index) || self.is_bare(index) || self.is_enumerator(index)
    }

    /// Which tokens declare a name, where those of declarations and lists are known.
    fn names(&self, alloc: Global, found: &[bool]) -> Result<Vec<bool>, AllocError>
        requires { IsTold self.now }
        ensures { IfOk result (λ names. (f : ℕ → Bool)
            → IsTable f (length self.now.shape.now.items.items) found.now
            → IsTable (λ k. f k || is_bare self.now.shape.now.items.items self.now.own
            self.now.shape.now.body k || is_enumerator self.now.shape.now.items.items
            self.now.shape.now.body k) (length self.now.shape.now.items.items) names.items) }
    {
        let mut names = Vec::with_capacity(alloc, self.shape.items.len())?;
        for at in 0..self.shape.items.len() as u32 {
            names.push(self.declares(found, at))?;
        }
        Ok(names)
    }

    /// What the function declares.
    pub(crate) fn declared(&self, alloc: Global) -> Result<Declared, AllocError>
        requires { IsTold self.now }
        ensures names { IfOk result (λ d. IsTable (λ k. contains (found
            self.now.shape.now.items.items self.now.own self.now.shape.now.body).names k
            || is_bare self.now.shape.now.items.items self.now.own self.now.shape.now.body k
            || is_enumerator self.now.shape.now.items.items self.now.shape.now.body k)
            (length self.now.shape.now.items.items) d.names.items) }
        ensures lists { IfOk result (λ d. IsTable (contains (found self.now.shape.now.items.items
            self.now.own self.now.shape.now.body).lists) (length self.now.shape.now.items.items)
            d.lists.items) }
    {
        let tokens = codes_of(alloc, self.shape.items.as_slice())?;
        let codes = Codes {
            shape: self.shape,
            codes: tokens.as_slice(),
        };
        let found = self.found(alloc, codes)?;
        let names = self.names(alloc, found.names.as_slice())?;
        Ok(Declared {
            names,
            lists: found.lists,
        })
    }
}
