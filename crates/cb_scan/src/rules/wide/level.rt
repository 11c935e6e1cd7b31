//! The levels that open braces make.
ghost use Rattle.std.specs.Prelude.{◌≡◌, ◌+◌, ◌<◌, ◌≤◌, ◌^◌};
ghost use Rattle.std.specs.Option.{option_to_list};
ghost use Rattle.cb_scan.specs.steps.wide.Contents.{count_of, level_out, member_here, next_level};
ghost use Rattle.cb_scan.specs.steps.wide.Contents.{next_of_members};
ghost use Rattle.cb_scan.specs.steps.wide.Levels.{member_tag, opened, opened_body};

use crate::facts::{Def, Kind, Tag};
use crate::rules::wide::declaration::Declaration;
use crate::rules::wide::def::def_in;
use crate::rules::wide::enumeration::Enumeration;
use crate::rules::wide::opening::Opening;
use crate::rules::wide::token::WideToken;

/// The level that an open `{` makes.
#[derive(Clone, Copy)]
pub(crate) enum Level {
    /// The body of a structure or union, with the tag around its members.
    Members(Option<Tag>, Declaration),
    /// The body of an enumeration, with its tag.
    Enumerators(Option<Tag>, Enumeration),
    /// Any other brace.
    Block,
}

/// The member of the part that ends here, if it can name something.
fn member_here(tag: Option<Tag>, declaration: &Declaration) -> Option<Def>
    ensures { option_to_list result ≡ member_here tag declaration.now }
{
    if !declaration.may_name() || declaration.has_typedef {
        return None;
    }
    match declaration.part.named() {
        Some(name) => Some(def_in(Kind::Member, tag, &name.token)),
        None => None,
    }
}

impl Declaration {
    /// On the level of a structure or union, after the first of these tokens.
    fn next_of_members(&mut self, ahead: &[WideToken], item: &WideToken)
        requires { self.old.count + 1 < 2 ^ 32 }
        ensures value { self.new ≡ next_of_members self.old ahead.now item.now }
        ensures small { self.new.count ≤ self.old.count + 1 }
    {
        if self.ends_part(item) {
            self.begin_member(item);
        } else {
            self.add(ahead, item);
        }
    }
}

impl Level {
    /// What the level defines at the first of these tokens.
    pub(crate) fn found(&self, ahead: &[WideToken], item: &WideToken) -> Option<Def>
        ensures { option_to_list result ≡ level_out self.now ahead.now item.now }
    {
        match self {
            Level::Members(tag, declaration) if declaration.ends_part(item) => {
                member_here(*tag, declaration)
            }
            Level::Enumerators(tag, body) if body.finds(ahead) => {
                Some(def_in(Kind::Enumerator, *tag, &item.token))
            }
            _ => None,
        }
    }

    /// The level after the first of these tokens.
    pub(crate) fn add(&mut self, ahead: &[WideToken], item: &WideToken)
        requires { count_of self.old + 1 < 2 ^ 32 }
        ensures value { self.new ≡ next_level self.old ahead.now item.now }
        ensures small { count_of self.new ≤ count_of self.old + 1 }
    {
        match self {
            Level::Members(_, declaration) => declaration.next_of_members(ahead, item),
            Level::Enumerators(_, body) => *body = body.next(item),
            Level::Block => {}
        }
    }

    /// The tag around the members of a body that has none and is directly inside.
    pub(crate) fn member_tag(&self) -> Option<Tag>
        ensures { result ≡ member_tag self.now }
    {
        match self {
            Level::Members(tag, _) => *tag,
            Level::Enumerators(_, _) | Level::Block => None,
        }
    }
}

/// The body that an opening begins, where members around have this tag.
fn opened_body(opening: &Opening, around: Option<Tag>) -> Level
    ensures value { result ≡ opened_body opening.now around }
    ensures empty { count_of result ≡ 0 }
{
    let own = opening.tag_of();
    match (opening.kind, own) {
        (Kind::Enum, _) => Level::Enumerators(own, Enumeration::new()),
        (_, Some(tag)) => Level::Members(Some(tag), Declaration::new()),
        (_, None) => Level::Members(around, Declaration::new()),
    }
}

/// The level that a `{` makes, where members around have this tag.
pub(crate) fn opened(opening: Option<Opening>, around: Option<Tag>) -> Level
    ensures value { result ≡ opened opening around }
    ensures empty { count_of result ≡ 0 }
{
    match opening {
        Some(opening) => opened_body(&opening, around),
        None => Level::Block,
    }
}
