//! What declarations and lists of parameters declare, and the lists of parameters in them.
ghost use Rattle.cb_names.specs.Tables.{IsTable};
ghost use Rattle.cb_names.specs.Declarators.{nothing};
ghost use Rattle.cb_names.specs.Declarators.{some_of};
ghost use Rattle.cb_names.specs.Shapes.{IsShape};
ghost use Rattle.cb_names.specs.steps.Declaring.{IsCodes};
ghost use Rattle.std.specs.Prelude.{IfOk, length, ◌+◌, ◌<◌, ◌≡◌, ◌≤◌};
ghost use Rattle.cb_names.specs.Declarators.{begins_list, behind_pair, both, comma_from};
ghost use Rattle.cb_names.specs.Declarators.{is_external, is_kept, is_one_of, is_stop, is_typeof};
ghost use Rattle.cb_names.specs.Declarators.{next_token, one_end, open_behind, outer_len};
ghost use Rattle.cb_names.specs.Declarators.{place_in, pointer_end, stop, tokens_between};
ghost use Rattle.cb_names.specs.Declarators.{tokens_of};
ghost use Rattle.cb_names.specs.Pairs.{at, is_at};
ghost use Rattle.cb_scan.specs.CodeTokens.{first_attribute};
ghost use Rattle.cb_scan.specs.rules.wide.Words.{is_extern_word};
ghost use Rattle.std.specs.Option.{option_map_or};
ghost use Rattle.std.specs.Prelude.{find, map, not, ◌++◌, ◌-◌, ◌^◌};
ghost use Rattle.cb_names.specs.Declarators.{found_in_declaration, found_in_list};
ghost use Rattle.cb_names.specs.Declarators.{found_in_parameter, found_in_parameters};
ghost use Rattle.cb_names.specs.Declarators.{found_in_parts, found_unless_stray, if_so};
ghost use Rattle.cb_names.specs.Declarators.{is_stray_part, is_token, lists_behind};
ghost use Rattle.cb_names.specs.Pairs.{partner};
ghost use Rattle.cb_scan.specs.Bytes.{comma, star};
ghost use Rattle.std.specs.Prelude.{drop, take};
ghost use Rattle.std.specs.Prelude.{if◌then◌else◌};
ghost use Rattle.cb_names.specs.Declarators.{attribute_at, unvalued_len};
ghost use Rattle.std.specs.Prelude.{[], slice_index_or, suc, ◌&&◌};
ghost use Rattle.cb_names.specs.Pairs.{is_index};
ghost use Rattle.std.specs.Prelude.{true, ◌==◌};
ghost use Rattle.cb_names.specs.Pairs.{innermost};
ghost use Rattle.std.specs.Prelude.{IfSome};
ghost use Rattle.cb_names.specs.Declarators.{begins_typeof};
ghost use Rattle.std.specs.Prelude.{unwrap_or};

use crate::declaration::from;
use crate::pairs::{opens, sign};
use crate::shape::Shape;
use crate::spaces::start_at;
use crate::word::{Item, Word};
use cb_scan::{Role, Span, Token, WideRole, WideToken, attribute_len, part_names};
use std::alloc::{AllocError, Global};
use std::marker::Model;

/// What is found in declarations: the indices of the names that they declare, and of lists of
/// parameters.
#[derive(Drop)]
pub(crate) struct Found {
    names: Vec<u32>,
    lists: Vec<u32>,
}

impl Model for Found {
    ghost use Rattle.cb_names.specs.Declarators.{Finding};

    ghost Value = { Finding };

    ghost view = { λ f. record { names = f.names.items; lists = f.lists.items } };
}

impl Found {
    /// Nothing.
    pub(crate) fn new(alloc: Global) -> Found
        ensures { result ≡ nothing }
    {
        Found {
            names: Vec::new(alloc),
            lists: Vec::new(alloc),
        }
    }

    /// The names.
    pub(crate) fn names(&self) -> &[u32]
        ensures { result.now ≡ self.now.names }
    {
        self.names.as_slice()
    }

    /// The lists.
    pub(crate) fn lists(&self) -> &[u32]
        ensures { result.now ≡ self.now.lists }
    {
        self.lists.as_slice()
    }
}

/// The index behind a token, or behind its pair.
fn behind_pair(shape: &Shape, index: u32) -> u32
    requires shape { IsShape shape.now }
    requires within { index < length shape.now.items.items }
    ensures value { result ≡ behind_pair shape.now.items.items index }
    ensures within { result ≤ length shape.now.items.items }
{
    if opens(shape.items.as_slice(), index) {
        match shape.partner(index) {
            Some(end) => end + 1,
            None => index + 1,
        }
    } else {
        index + 1
    }
}

/// Whether a token closes a bracket or is a `;`.
fn is_stop(items: &[Item], index: u32) -> bool
    ensures { result ≡ is_stop items.now index }
{
    matches!(sign(items, index), b';' | b')' | b']' | b'}')
}

/// The first `;` or bracket that closes from a token on, pairs left out.
#[tactic(auto, unfolding(crate::specs::Declarators::stop_from))]
fn stop(shape: &Shape, index: u32) -> u32
    requires shape { IsShape shape.now }
    requires within { index ≤ length shape.now.items.items }
    ensures value { result ≡ stop shape.now.items.items index }
    ensures within { result ≤ length shape.now.items.items }
{
    let mut left = index;
    'tokens: for step in 0..shape.items.len() {
        let _step = step;
        if left as usize >= shape.items.len() {
            return left;
        }
        if is_stop(shape.items.as_slice(), left) {
            return left;
        }
        left = behind_pair(shape, left);
    }
    left
}

fn is_typeof(items: &[Item], index: u32) -> bool
    ensures { result ≡ is_typeof (at items.now index).word }
{
    match items.get(index as usize) {
        Some(item) => matches!(item.word, Word::Typeof),
        None => false,
    }
}

/// Whether `typeof` and parentheses begin with a token.
fn begins_typeof(items: &[Item], index: u32) -> bool
    requires { index + 1 < 2 ^ 32 }
    ensures { result ≡ begins_typeof items.now index }
{
    is_typeof(items, index) && sign(items, index + 1) == b'('
}

/// The end of a brace, or of all.
fn brace_end(shape: &Shape, index: u32) -> u32
    requires shape { IsShape shape.now }
    requires within { index < length shape.now.items.items }
    ensures value { result ≡ unwrap_or (partner shape.now.items.items index)
        (length shape.now.items.items - 1) }
    ensures within { result < length shape.now.items.items }
{
    match shape.partner(index) {
        Some(end) => end,
        None => shape.items.len() as u32 - 1,
    }
}

/// The last token of what stands for one: `typeof` with its parentheses, and a brace with all up to
/// its end.
fn one_end(shape: &Shape, index: u32) -> Option<u32>
    requires shape { IsShape shape.now }
    requires within { index < length shape.now.items.items }
    ensures value { result ≡ one_end shape.now.items.items index }
    ensures within { IfSome result (λ p. p < length shape.now.items.items) }
{
    if begins_typeof(shape.items.as_slice(), index) {
        return shape.partner(index + 1);
    }
    if sign(shape.items.as_slice(), index) == b'{' {
        Some(brace_end(shape, index))
    } else {
        None
    }
}

/// How many tokens from an index on are of an attribute that begins there.
fn attribute_at(codes: &[WideToken], index: u32) -> usize
    ensures value { result ≡ first_attribute (drop index codes.now) }
    ensures within { result ≤ length codes.now - index }
{
    if index as usize <= codes.len() {
        attribute_len(&codes[index as usize..])
    } else {
        0
    }
}

/// A function, and its tokens without what the word of each is.
#[derive(Clone, Copy)]
pub(crate) struct Codes<'a> {
    pub shape: &'a Shape,
    pub codes: &'a [WideToken],
}

fn token_of(item: &Item) -> WideToken
    ensures { result ≡ item.now.token }
{
    item.token
}

/// The tokens of a function.
pub(crate) fn codes_of(alloc: Global, items: &[Item]) -> Result<Vec<WideToken>, AllocError>
    ensures { IfOk result (λ codes. codes.items ≡ map (λ (x : Item). x.token) items.now) }
{
    let mut codes = Vec::with_capacity(alloc, items.len())?;
    for i in 0..items.len() {
        codes.push(token_of(&items[i]))?;
    }
    Ok(codes)
}

/// Appends an index, if it is wanted.
fn push_if(is_wanted: bool, index: u32, indices: &mut Vec<u32>) -> Result<(), AllocError>
    ensures value { IfOk result
        (λ _. indices.new.items ≡ indices.old.items ++ if_so is_wanted index) }
    ensures few { IfOk result (λ _. length indices.new.items ≤ length indices.old.items + 1) }
{
    if is_wanted {
        indices.push(index)?;
    }
    Ok(())
}

impl Codes<'_> {
    /// How many tokens from an index on are of an attribute that begins there.
    fn attribute(&self, index: u32) -> usize
        requires { IsCodes self.now }
        ensures value { result ≡ attribute_at self.now.shape.now.items.items index }
        ensures within { result ≤ length self.now.shape.now.items.items - index }
    {
        attribute_at(self.codes, index)
    }

    /// Whether a token is not of an attribute.
    fn is_kept(&self, index: u32) -> bool
        requires codes { IsCodes self.now }
        requires within { index < length self.now.shape.now.items.items }
        ensures { result ≡ is_kept self.now.shape.now.items.items index }
    {
        match one_end(self.shape, index) {
            Some(_) => true,
            None => self.attribute(index) == 0,
        }
    }

    /// The index behind an attribute, or behind a token.
    fn behind_attribute(&self, index: u32) -> u32
        requires codes { IsCodes self.now }
        requires within { index < length self.now.shape.now.items.items }
        ensures { result ≡ (if attribute_at self.now.shape.now.items.items index == 0 then suc index
            else index + attribute_at self.now.shape.now.items.items index) }
    {
        let len = self.attribute(index);
        if len == 0 {
            index + 1
        } else {
            index + len as u32
        }
    }

    /// The index behind what stands for one token, or behind an attribute.
    fn next_token(&self, index: u32) -> u32
        requires codes { IsCodes self.now }
        requires within { index < length self.now.shape.now.items.items }
        ensures { result ≡ next_token self.now.shape.now.items.items index }
    {
        match one_end(self.shape, index) {
            Some(end) => end + 1,
            None => self.behind_attribute(index),
        }
    }

    /// The indices from one up to an end without attributes.
    #[tactic(auto, unfolding(crate::specs::Declarators::tokens_from))]
    fn tokens_between(&self, alloc: Global, start: u32, end: u32) -> Result<Vec<u32>, AllocError>
        requires codes { IsCodes self.now }
        requires within { end ≤ length self.now.shape.now.items.items }
        ensures value { IfOk result (λ found. found.items
            ≡ tokens_between self.now.shape.now.items.items start end) }
        ensures few { IfOk result (λ found. length found.items ≤ end) }
    {
        let mut found = Vec::new(alloc);
        let mut left = start;
        'tokens: for step in 0..end {
            let _step = step;
            if left >= end {
                return Ok(found);
            }
            push_if(self.is_kept(left), left, &mut found)?;
            left = self.next_token(left);
        }
        Ok(found)
    }
}

const NO_TOKEN: WideToken = WideToken {
    token: Token {
        role: Role::Other,
        span: Span { start: 0, end: 0 },
        line: 0,
        starts_line: false,
    },
    role: WideRole::Number,
    counted: false,
};

/// The token at an index.
fn token_at(items: &[Item], index: u32) -> WideToken
    ensures { result ≡ (at items.now index).token }
{
    match items.get(index as usize) {
        Some(item) => item.token,
        None => NO_TOKEN,
    }
}

/// The tokens at some indices.
fn tokens_of(alloc: Global, items: &[Item], places: &[u32]) -> Result<Vec<WideToken>, AllocError>
    ensures { IfOk result (λ found. found.items ≡ tokens_of items.now places.now) }
{
    let mut found = Vec::with_capacity(alloc, places.len())?;
    for i in 0..places.len() {
        found.push(token_at(items, places[i]))?;
    }
    Ok(found)
}

/// How many parentheses and brackets are open behind a token.
fn open_behind(items: &[Item], depth: u32, index: u32) -> u32
    requires { depth + 1 < 2 ^ 32 }
    ensures value { result ≡ open_behind items.now depth index }
    ensures small { result ≤ depth + 1 }
{
    match token_at(items, index).token.role {
        Role::Mark(b'(' | b'[') => depth + 1,
        Role::Mark(b')' | b']') => depth.saturating_sub(1),
        _ => depth,
    }
}

/// How many tokens there are before the first one outside parentheses and brackets that is one of two
/// bytes.
#[tactic(auto, unfolding(crate::specs::Declarators::outer_len))]
fn outer_len(items: &[Item], places: &[u32], first: u8, second: u8) -> usize
    requires { length places.now < 2 ^ 32 }
    ensures value { result ≡ outer_len first second items.now 0 places.now }
    ensures within { result ≤ length places.now }
{
    let mut depth = 0;
    for (i, place) in places.iter().enumerate() {
        if depth == 0 && (sign(items, *place) == first || sign(items, *place) == second) {
            return i;
        }
        depth = open_behind(items, depth, *place);
    }
    places.len()
}

/// The index of a token among these.
fn place_of(items: &[Item], places: &[u32], token: WideToken) -> Option<u32>
    ensures { result ≡ find (is_token items.now token) places.now }
{
    for (_i, place) in places.iter().enumerate() {
        if start_at(items, *place as usize) == token.token.span.start {
            return Some(*place);
        }
    }
    None
}

fn place_in(items: &[Item], places: &[u32], token: Option<WideToken>) -> Option<u32>
    ensures { result ≡ place_in items.now places.now token }
{
    match token {
        Some(token) => place_of(items, places, token),
        None => None,
    }
}

/// Whether the first of these indices is a `*`.
fn is_star_at(items: &[Item], places: &[u32]) -> bool
    requires { length items.now < 2 ^ 32 }
    ensures { result ≡ is_at star items.now (slice_index_or places.now 0 (length items.now)) }
{
    match places {
        [first, ..] => sign(items, *first) == b'*',
        [] => sign(items, items.len() as u32) == b'*',
    }
}

/// The `)` of a pointer: of the first parenthesis outside others behind which a `*` stands.
#[tactic(auto, unfolding(crate::specs::Declarators::pointer_end))]
fn pointer_end(shape: &Shape, places: &[u32]) -> Option<u32>
    requires shape { IsShape shape.now }
    requires few { length places.now < 2 ^ 32 }
    ensures { result ≡ pointer_end shape.now.items.items 0 places.now }
{
    let items = shape.items.as_slice();
    let mut depth = 0;
    for (i, place) in places.iter().enumerate() {
        if depth == 0 && sign(items, *place) == b'(' && is_star_at(items, &places[i + 1..]) {
            return shape.partner(*place);
        }
        depth = open_behind(items, depth, *place);
    }
    None
}

/// What the lists of a part are told by: its name, its name as a function, and the `)` of its
/// pointer.
#[derive(Clone, Copy)]
struct Heads {
    name: Option<u32>,
    function: Option<u32>,
    pointer: Option<u32>,
}

impl Heads {
    /// Whether an index is that of a name.
    fn is_one_of(&self, index: u32) -> bool
        ensures { result ≡ is_one_of self.now.name self.now.function index }
    {
        self.name == Some(index) || self.function == Some(index)
    }

    /// Whether a list begins with a token, before which two others stand.
    fn begins_list(&self, shape: &Shape, second: u32, first: u32, index: u32) -> bool
        requires { IsShape shape.now }
        ensures { result ≡ begins_list shape.now.items.items self.now.name self.now.function
            self.now.pointer second first index }
    {
        sign(shape.items.as_slice(), index) == b'('
            && shape.partner(index).is_some()
            && (self.is_one_of(first)
                || (sign(shape.items.as_slice(), first) == b')' && self.is_one_of(second))
                || self.pointer == Some(first))
    }

    /// Appends the lists among some tokens.
    #[tactic(auto, unfolding(crate::specs::Declarators::lists_behind))]
    fn push_lists(
        &self,
        shape: &Shape,
        places: &[u32],
        lists: &mut Vec<u32>,
    ) -> Result<(), AllocError>
        requires { IsShape shape.now }
        ensures { IfOk result (λ _. lists.new.items ≡ lists.old.items
            ++ lists_behind (begins_list shape.now.items.items self.now.name self.now.function
            self.now.pointer) (length shape.now.items.items) (length shape.now.items.items)
            places.now) }
    {
        let mut second = shape.items.len() as u32;
        let mut first = second;
        for (_i, place) in places.iter().enumerate() {
            push_if(
                self.begins_list(shape, second, first, *place),
                *place,
                lists,
            )?;
            second = first;
            first = *place;
        }
        Ok(())
    }
}

/// Appends an index, if there is one.
fn push_some(index: Option<u32>, indices: &mut Vec<u32>) -> Result<(), AllocError>
    ensures { IfOk result (λ _. indices.new.items ≡ indices.old.items ++ some_of index) }
{
    if let Some(index) = index {
        indices.push(index)?;
    }
    Ok(())
}

/// What the lists of a part are told by.
fn heads_of(
    shape: &Shape,
    places: &[u32],
    name: Option<WideToken>,
    function: Option<WideToken>,
) -> Heads
    requires shape { IsShape shape.now }
    requires few { length places.now < 2 ^ 32 }
    ensures name { result.name ≡ place_in shape.now.items.items places.now name }
    ensures function { result.function ≡ place_in shape.now.items.items places.now function }
    ensures pointer { result.pointer ≡ pointer_end shape.now.items.items 0
        (take (unvalued_len shape.now.items.items places.now) places.now) }
{
    let items = shape.items.as_slice();
    let unvalued = &places[..outer_len(items, places, b'=', b':')];
    Heads {
        name: place_in(items, places, name),
        function: place_in(items, places, function),
        pointer: pointer_end(shape, unvalued),
    }
}

/// The name that a part declares: of a list, or of a declaration, where it is no function.
fn declared_by(of_list: bool, heads: &Heads) -> Option<u32>
    ensures { some_of result ≡ (if of_list then some_of heads.now.name
        else option_map_or (λ f. []) heads.now.function (some_of heads.now.name)) }
{
    if of_list {
        return heads.name;
    }
    match heads.function {
        Some(_) => None,
        None => heads.name,
    }
}

/// Appends what a part declares.
fn push_part(
    shape: &Shape,
    places: &[u32],
    of_list: bool,
    heads: &Heads,
    found: &mut Found,
) -> Result<(), AllocError>
    requires shape { IsShape shape.now }
    requires few { length places.now < 2 ^ 32 }
    ensures { IfOk result (λ _. found.new ≡ both found.old (record {
      names = if of_list then some_of heads.now.name
          else option_map_or (λ f. []) heads.now.function (some_of heads.now.name);
      lists = lists_behind (begins_list shape.now.items.items heads.now.name heads.now.function
          heads.now.pointer) (length shape.now.items.items) (length shape.now.items.items)
          (take (unvalued_len shape.now.items.items places.now) places.now);
    })) }
{
    push_some(declared_by(of_list, heads), &mut found.names)?;
    let unvalued = &places[..outer_len(shape.items.as_slice(), places, b'=', b':')];
    heads.push_lists(shape, unvalued, &mut found.lists)
}

/// Appends what a part declares, unless it has a token of no declaration; whether it has none.
fn push_unless_stray(
    alloc: Global,
    shape: &Shape,
    places: &[u32],
    of_list: bool,
    is_first: bool,
    found: &mut Found,
) -> Result<bool, AllocError>
    requires shape { IsShape shape.now }
    requires few { length places.now < 2 ^ 32 }
    ensures found { IfOk result (λ _. found.new ≡ both found.old
        (found_unless_stray shape.now.items.items of_list is_first places.now)) }
    ensures stray { IfOk result (λ b. b ≡ not (is_stray_part shape.now.items.items places.now)) }
{
    let tokens = tokens_of(alloc, shape.items.as_slice(), places)?;
    let names = part_names(tokens.as_slice(), is_first);
    if names.is_stray {
        return Ok(false);
    }
    let heads = heads_of(shape, places, names.name, names.function);
    push_part(shape, places, of_list, &heads, found)?;
    Ok(true)
}

/// The indices from one on.
fn behind(places: &[u32], count: usize) -> &[u32]
    requires { count ≤ length places.now }
    ensures value { result.now ≡ drop count places.now }
    ensures within { length result.now ≤ length places.now }
{
    &places[count..]
}

/// Appends what the parts of a declaration declare.
#[tactic(auto, unfolding(crate::specs::Declarators::found_in_parts))]
fn push_parts(
    alloc: Global,
    shape: &Shape,
    places: &[u32],
    of_list: bool,
    found: &mut Found,
) -> Result<(), AllocError>
    requires shape { IsShape shape.now }
    requires few { length places.now < 2 ^ 32 }
    ensures { IfOk result (λ _. found.new ≡ both found.old (found_in_parts shape.now.items.items
        of_list (suc (length places.now)) true places.now)) }
{
    let mut rest = places;
    let mut is_first = true;
    'parts: for step in 0..places.len() + 1 {
        let _step = step;
        let len = outer_len(shape.items.as_slice(), rest, b',', b',');
        if !push_unless_stray(alloc, shape, &rest[..len], of_list, is_first, found)? {
            return Ok(());
        }
        if len >= rest.len() {
            return Ok(());
        }
        rest = behind(rest, len + 1);
        is_first = false;
    }
    Ok(())
}

fn is_extern_at(items: &[Item], index: u32) -> bool
    ensures { result ≡ is_extern_word (at items.now index).token.role }
{
    matches!(token_at(items, index).role, WideRole::Extern)
}

/// Whether `extern` stands outside parentheses and brackets.
#[tactic(auto, unfolding(crate::specs::Declarators::is_external))]
fn is_external(items: &[Item], places: &[u32]) -> bool
    requires { length places.now < 2 ^ 32 }
    ensures { result ≡ is_external items.now 0 places.now }
{
    let mut depth = 0;
    for (_i, place) in places.iter().enumerate() {
        if depth == 0 && is_extern_at(items, *place) {
            return true;
        }
        depth = open_behind(items, depth, *place);
    }
    false
}

/// The first indices of some, if so.
fn keep_if(is_external: bool, count: usize, names: &mut Vec<u32>)
    ensures { names.new.items ≡ (if is_external then take count names.old.items
        else names.old.items) }
{
    if is_external {
        names.truncate(count);
    }
}

impl Codes<'_> {
    /// Appends what the declaration declares that begins with a token.
    pub(crate) fn push_declaration(
        &self,
        alloc: Global,
        index: u32,
        of_list: bool,
        found: &mut Found,
    ) -> Result<(), AllocError>
        requires codes { IsCodes self.now }
        requires within { index < length self.now.shape.now.items.items }
        ensures { IfOk result (λ _. found.new ≡ both found.old
            (found_in_declaration self.now.shape.now.items.items of_list index)) }
    {
        let end = stop(self.shape, index);
        let places = self.tokens_between(alloc, index, end)?;
        let own = found.names.len();
        push_parts(alloc, self.shape, places.as_slice(), of_list, found)?;
        let is_external = !of_list && is_external(self.shape.items.as_slice(), places.as_slice());
        keep_if(is_external, own, &mut found.names);
        Ok(())
    }

    /// Appends the parameter from a token up to an end.
    fn push_parameter(
        &self,
        alloc: Global,
        start: u32,
        end: u32,
        found: &mut Found,
    ) -> Result<(), AllocError>
        requires codes { IsCodes self.now }
        requires within { end ≤ length self.now.shape.now.items.items }
        ensures { IfOk result (λ _. found.new ≡ both found.old
            (found_in_parameter self.now.shape.now.items.items start end)) }
    {
        let all = self.tokens_between(alloc, start, end)?;
        let places = all.as_slice();
        let part = &places[..outer_len(self.shape.items.as_slice(), places, b',', b',')];
        match push_unless_stray(alloc, self.shape, part, true, true, found) {
            Ok(_) => Ok(()),
            Err(error) => Err(error),
        }
    }

    /// Whether a token is a comma of a list.
    fn is_comma(&self, list: u32, index: u32) -> bool
        requires codes { IsCodes self.now }
        requires within { index < length self.now.shape.now.items.items }
        ensures { result ≡ (is_at comma self.now.shape.now.items.items index
            && is_index list (innermost self.now.shape.now.items.items index)) }
    {
        sign(self.shape.items.as_slice(), index) == b',' && self.shape.around(index) == Some(list)
    }

    /// The first comma of a list from a token on, or its end.
    #[tactic(auto, unfolding(crate::specs::Declarators::comma_from))]
    fn comma_from(&self, list: u32, end: u32, index: u32) -> u32
        requires codes { IsCodes self.now }
        requires within { end ≤ length self.now.shape.now.items.items }
        ensures value { result ≡ comma_from self.now.shape.now.items.items list end end index }
        ensures within { result ≤ end }
    {
        let mut left = index;
        'tokens: for step in 0..end {
            let _step = step;
            if left >= end {
                return end;
            }
            if self.is_comma(list, left) {
                return left;
            }
            left += 1;
        }
        end
    }

    /// Appends the parameters of a list up to its end.
    #[tactic(auto, unfolding(crate::specs::Declarators::found_in_parameters))]
    fn push_parameters(
        &self,
        alloc: Global,
        list: u32,
        end: u32,
        found: &mut Found,
    ) -> Result<(), AllocError>
        requires codes { IsCodes self.now }
        requires within { list < length self.now.shape.now.items.items }
        requires end { end < length self.now.shape.now.items.items }
        ensures { IfOk result (λ _. found.new ≡ both found.old (found_in_parameters
            self.now.shape.now.items.items list end (suc end) (suc list))) }
    {
        let mut left = list + 1;
        'parameters: for step in 0..end + 1 {
            let _step = step;
            let comma = self.comma_from(list, end, left);
            self.push_parameter(alloc, left, comma, found)?;
            if comma >= end {
                return Ok(());
            }
            left = comma + 1;
        }
        Ok(())
    }

    /// Appends the parameters of a list.
    pub(crate) fn push_list(
        &self,
        alloc: Global,
        list: u32,
        found: &mut Found,
    ) -> Result<(), AllocError>
        requires codes { IsCodes self.now }
        requires within { list < length self.now.shape.now.items.items }
        ensures { IfOk result (λ _. found.new ≡ both found.old
            (found_in_list self.now.shape.now.items.items list)) }
    {
        match self.shape.partner(list) {
            Some(end) => self.push_parameters(alloc, list, end, found),
            None => Ok(()),
        }
    }
}
