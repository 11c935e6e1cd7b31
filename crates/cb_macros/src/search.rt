//! The macros that are met from some names on, and the first of them that has what is sought.
ghost use Rattle.std.specs.Prelude.{◌≡◌, ◌<◌, [], IfOk, ◌&&◌, ◌||◌, drop, length, map};
ghost use Rattle.std.specs.Option.{option_copied, option_map};
ghost use Rattle.std.specs.List.{list_any};
ghost use Rattle.std.specs.Str.{bytes_eq};
ghost use Rattle.cb_names.specs.Macros.{macro_parts};
ghost use Rattle.cb_names.specs.declared.macros.MacroName.{MacroName as OwnName};
ghost use Rattle.cb_scan.specs.declared.lex.piece.Span.{Span as CodeSpan};
ghost use Rattle.cb_scan.specs.lex.Tokens.{bytes_of};
ghost use Rattle.cb_tags.specs.TagLines.{tag_of};
ghost use Rattle.cb_macros.specs.Meeting.{first_of, first_through, found_in, has_either, is_macro};
ghost use Rattle.cb_macros.specs.Meeting.{has_parameters};
ghost use Rattle.cb_macros.specs.Meeting.{is_macro_kind, makes_other, meet, meet_all, met_by};
ghost use Rattle.cb_macros.specs.Meeting.{met_first, met_from, met_through, named_by, names_in};
ghost use Rattle.cb_macros.specs.Meeting.{rest_if, round, rounds, texts, through_of};
ghost use Rattle.cb_macros.specs.steps.Meetings.{met_of, nothing_seen, seen_of, sought_in};

use crate::met::{Met, Seen, has_met};
use cb_desk::Desk;
use cb_names::{Macro, macro_at};
use cb_scan::{Kind, Source, Span};
use cb_tags::TagRow;
use std::alloc::{AllocError, Global};

/// What is sought in the texts of macros.
#[derive(Clone, Copy)]
pub enum Sought<'a> {
    /// One of two names, neither as a parameter nor as a member or tag.
    Either(&'a [u8], &'a [u8]),
    /// What may make something else of the arguments: a text, a part of a name, a member, a tag or
    /// a label.
    Makes,
    /// Parameters.
    Takes,
    /// A parameter that is called.
    Calls,
}

fn is_macro_kind(kind: Kind) -> bool
    ensures { result ≡ is_macro_kind kind }
{
    matches!(kind, Kind::Macro)
}

/// Whether a macro has a name.
fn is_macro(desk: &Desk, name: &[u8]) -> bool
    ensures { result ≡ is_macro desk.now.timeline.present name.now }
{
    let mut left = desk.definitions(name);
    'rows: while let Some(row) = left.next() {
        if is_macro_kind(row.kind) {
            return true;
        }
    }
    false
}

/// The bytes of a span of a text.
fn bytes_of(text: &[u8], span: Span) -> &[u8]
    ensures { result.now ≡ bytes_of text.now span }
{
    let (start, end) = (span.start as usize, span.end as usize);
    let rest = text.split_at(start.min(text.len())).1;
    rest.split_at(end.saturating_sub(start).min(rest.len())).0
}

/// The same of a source.
fn name_of(source: &Source, span: Span) -> &[u8]
    ensures { result.now ≡ bytes_of source.now span }
{
    bytes_of(source.bytes(), span)
}

/// A text from a place on.
fn rest_of(source: &Source, place: u32) -> &[u8]
    ensures { result.now ≡ drop place source.now }
{
    let text = source.bytes();
    &text[text.len().min(place as usize)..]
}

/// A macro is met, unless it is none or was met before.
fn meet<'a>(desk: &Desk, seen: &mut Seen<'a>, met: Met<'a>) -> Result<(), AllocError>
    ensures { IfOk result (λ _. seen_of seen.new
        ≡ meet desk.now.timeline.present (seen_of seen.old) (met_of met.entry)) }
{
    if is_macro(desk, met.name) && !has_met(seen.all.as_slice(), met.name) {
        seen.all.push(met)?;
        seen.fresh.push(met)?;
    }
    Ok(())
}

/// The names of the text of a macro are met.
fn meet_names<'a>(
    desk: &Desk,
    seen: &mut Seen<'a>,
    rest: &'a [u8],
    parts: &Macro,
    through: &'a [u8],
) -> Result<(), AllocError>
    ensures { IfOk result (λ _. seen_of seen.new ≡ meet_all desk.now.timeline.present
        (seen_of seen.old) (met_through through.entry.now
        (map (λ (n : OwnName). bytes_of rest.entry.now n.name) parts.now.names))) }
{
    let names = parts.names();
    for i in 0..names.len() {
        let name = bytes_of(rest, names[i].name);
        meet(desk, seen, Met { name, through })?;
    }
    Ok(())
}

/// What the text of a macro names, which begins at a place, is met.
fn meet_text<'a>(
    alloc: Global,
    desk: &Desk,
    seen: &mut Seen<'a>,
    source: &'a Source,
    place: u32,
    through: &'a [u8],
) -> Result<(), AllocError>
    ensures { IfOk result (λ _. seen_of seen.new ≡ meet_all desk.now.timeline.present
        (seen_of seen.old) (met_through through.entry.now
        (names_in (drop place source.entry.now)))) }
{
    let Ok(parts) = macro_at(alloc, source, place) else {
        return Err(AllocError);
    };
    match meet_names(desk, seen, rest_of(source, place), &parts, through) {
        Ok(()) => Ok(()),
        Err(error) => Err(error),
    }
}

/// What a definition names, if it is one of a macro, is met.
fn meet_row<'a>(
    alloc: Global,
    desk: &'a Desk,
    seen: &mut Seen<'a>,
    row: &TagRow<'a>,
    through: &'a [u8],
) -> Result<(), AllocError>
    ensures { IfOk result (λ _. seen_of seen.new ≡ meet_all desk.entry.now.timeline.present
        (seen_of seen.old) (met_by through.entry.now
        (rest_if desk.entry.now.timeline.present (tag_of row.now)))) }
{
    if !is_macro_kind(row.kind) {
        return Ok(());
    }
    match desk.source(row.file) {
        Some(source) => meet_text(alloc, desk, seen, source, row.place, through),
        None => Ok(()),
    }
}

/// What the texts of a macro name is met.
fn meet_named<'a>(
    alloc: Global,
    desk: &'a Desk,
    seen: &mut Seen<'a>,
    met: Met<'a>,
) -> Result<(), AllocError>
    ensures { IfOk result (λ _. seen_of seen.new ≡ meet_all desk.entry.now.timeline.present
        (seen_of seen.old) (named_by desk.entry.now.timeline.present (met_of met.entry))) }
{
    let mut left = desk.definitions(met.name);
    'rows: while let Some(row) = left.next() {
        meet_row(alloc, desk, seen, &row, met.through)?;
    }
    Ok(())
}

/// One more round.
fn round<'a>(alloc: Global, desk: &'a Desk, seen: Seen<'a>) -> Result<Seen<'a>, AllocError>
    ensures { IfOk result (λ next. seen_of next
        ≡ round desk.entry.now.timeline.present (seen_of seen.entry)) }
{
    let Seen { all, fresh } = seen;
    let mut next = Seen {
        all,
        fresh: Vec::new(alloc),
    };
    for i in 0..fresh.len() {
        meet_named(alloc, desk, &mut next, fresh[i])?;
    }
    Ok(next)
}

/// How many rounds there are.
const ROUNDS: u32 = 16;

/// All rounds.
fn rounds<'a>(alloc: Global, desk: &'a Desk, seen: Seen<'a>) -> Result<Seen<'a>, AllocError>
    ensures { IfOk result (λ next. seen_of next
        ≡ rounds desk.entry.now.timeline.present 16 (seen_of seen.entry)) }
{
    let mut seen = seen;
    for i in 0..ROUNDS {
        let _left = ROUNDS - i;
        seen = round(alloc, desk, seen)?;
    }
    Ok(seen)
}

/// The macros among some names of a text.
fn met_first<'a>(
    alloc: Global,
    desk: &'a Desk,
    source: &'a Source,
    names: &[Span],
) -> Result<Seen<'a>, AllocError>
    ensures { IfOk result (λ seen. seen_of seen ≡ meet_all desk.entry.now.timeline.present
        nothing_seen (met_first (map (bytes_of source.entry.now) names.now))) }
{
    let mut seen = Seen {
        all: Vec::new(alloc),
        fresh: Vec::new(alloc),
    };
    for i in 0..names.len() {
        let name = name_of(source, names[i]);
        meet(
            desk,
            &mut seen,
            Met {
                name,
                through: name,
            },
        )?;
    }
    Ok(seen)
}

/// Whether the text of a macro has one of two names, neither as a parameter nor as a member or tag.
fn has_either(rest: &[u8], parts: &Macro, one: &[u8], other: &[u8]) -> bool
    requires { parts.now ≡ macro_parts rest.now }
    ensures { result ≡ has_either one.now other.now rest.now }
{
    let names = parts.names();
    for i in 0..names.len() {
        let name = bytes_of(rest, names[i].name);
        if names[i].free && (name == one || name == other) {
            return true;
        }
    }
    false
}

/// Whether the text of a macro has what is sought.
fn is_sought(rest: &[u8], parts: &Macro, sought: Sought<'_>) -> bool
    requires { parts.now ≡ macro_parts rest.now }
    ensures { result ≡ sought_in sought.entry rest.now }
{
    match sought {
        Sought::Either(one, other) => has_either(rest, parts, one, other),
        Sought::Makes => parts.is_odd(),
        Sought::Takes => parts.takes_arguments(),
        Sought::Calls => parts.calls_parameter(),
    }
}

/// The same of the text that begins at a place.
fn is_sought_at(
    alloc: Global,
    source: &Source,
    place: u32,
    sought: Sought<'_>,
) -> Result<bool, AllocError>
    ensures { IfOk result (λ is. is ≡ sought_in sought.entry (drop place source.now)) }
{
    match macro_at(alloc, source, place) {
        Ok(parts) => Ok(is_sought(rest_of(source, place), &parts, sought)),
        Err(_) => Err(AllocError),
    }
}

/// The same of a definition, if it is one of a macro.
fn is_sought_in(
    alloc: Global,
    desk: &Desk,
    row: &TagRow<'_>,
    sought: Sought<'_>,
) -> Result<bool, AllocError>
    ensures { IfOk result (λ is. is ≡ list_any (sought_in sought.entry)
        (rest_if desk.now.timeline.present (tag_of row.now))) }
{
    if !is_macro_kind(row.kind) {
        return Ok(false);
    }
    match desk.source(row.file) {
        Some(source) => is_sought_at(alloc, source, row.place, sought),
        None => Ok(false),
    }
}

/// Whether a text of the macro with a name has it.
fn has_sought(
    alloc: Global,
    desk: &Desk,
    name: &[u8],
    sought: Sought<'_>,
) -> Result<bool, AllocError>
    ensures { IfOk result (λ is. is ≡ list_any (sought_in sought.entry)
        (texts desk.now.timeline.present name.now)) }
{
    let mut left = desk.definitions(name);
    'rows: while let Some(row) = left.next() {
        if is_sought_in(alloc, desk, &row, sought)? {
            return Ok(true);
        }
    }
    Ok(false)
}

/// The first macro that has it; else the first of the last round.
fn found_in<'a>(
    alloc: Global,
    desk: &'a Desk,
    seen: &Seen<'a>,
    sought: Sought<'_>,
) -> Result<Option<Met<'a>>, AllocError>
    ensures { IfOk result (λ found. option_map met_of found
        ≡ found_in desk.entry.now.timeline.present (sought_in sought.entry) (seen_of seen.now)) }
{
    for i in 0..seen.all.len() {
        if has_sought(alloc, desk, seen.all[i].name, sought)? {
            return Ok(Some(seen.all[i]));
        }
    }
    match seen.fresh.as_slice() {
        [first, ..] => Ok(Some(*first)),
        [] => Ok(None),
    }
}

/// Whether the macro with a name takes arguments, by any of its definitions. Refused memory is the
/// only error. Time in proportion to the lines on which it is defined.
pub fn has_parameters(alloc: Global, desk: &Desk, name: &[u8]) -> Result<bool, AllocError>
    ensures { IfOk result (λ has. has ≡ has_parameters desk.now.timeline.present name.now) }
{
    has_sought(alloc, desk, name, Sought::Takes)
}

/// Of some names of a text the one through which the first macro is met whose text has what is
/// sought: from the macros among them on, in sixteen rounds, those that the texts of the last round
/// name. Where the last round still meets one, the name through which that is. None where there is
/// none. Refused memory is the only error. Time in proportion to the texts of the macros that are
/// met, and to their number squared.
pub fn first_through<'a>(
    alloc: Global,
    desk: &'a Desk,
    source: &'a Source,
    names: &[Span],
    sought: Sought<'_>,
) -> Result<Option<&'a [u8]>, AllocError>
    ensures { IfOk result (λ found. option_copied found
        ≡ first_through desk.entry.now.timeline.present (sought_in sought.entry)
        (map (bytes_of source.entry.now) names.now)) }
{
    let first = met_first(alloc, desk, source, names)?;
    let seen = rounds(alloc, desk, first)?;
    match found_in(alloc, desk, &seen, sought) {
        Ok(Some(met)) => Ok(Some(met.through)),
        Ok(None) => Ok(None),
        Err(error) => Err(error),
    }
}
