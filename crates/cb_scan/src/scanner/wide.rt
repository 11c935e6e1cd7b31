//! What the wide profile finds: one pass over the pieces of a text.
ghost use Rattle.std.specs.Prelude.{◌≡◌, ◌≤◌, [], length, map, IfOk};
ghost use Rattle.cb_scan.specs.declared.source.TheConstants.{MOST_BYTES};
ghost use Rattle.std.specs.List.{flat_map};
ghost use Rattle.std.specs.List.Sorted.{IsPermutation};
ghost use Rattle.cb_scan.specs.Definitions.{macro_def};
ghost use Rattle.cb_scan.specs.Profiles.{all_facts, kept, wanted_of};
ghost use Rattle.cb_scan.specs.rules.Code.{code, directives, logical_lines};
ghost use Rattle.cb_scan.specs.rules.Macros.{macro_names, macros};
ghost use Rattle.cb_scan.specs.rules.Scope.{macro_ranges, ranges_of};
ghost use Rattle.cb_scan.specs.rules.Uses.{calls_in, include_of, macro_calls, used};
ghost use Rattle.cb_scan.specs.rules.wide.Kinds.{functions_of, wide_function_def};
ghost use Rattle.cb_scan.specs.steps.Cut.{pieces};
ghost use Rattle.cb_scan.specs.steps.Functions.{call_before, callable};
ghost use Rattle.cb_scan.specs.steps.wide.Gathering.{declared_in, objects_in, rules_with};
ghost use Rattle.cb_scan.specs.steps.wide.Pass.{pass_start};

use crate::facts::{Call, Facts};
use crate::gather::{LineLists, push_some};
use crate::lex::lined::lined_pieces;
use crate::lex::piece::Span;
use crate::lex::token::{Token, token_of};
use crate::profile::Wanted;
use crate::rules::directives::Stage;
use crate::rules::order::ordered_defs;
use crate::rules::scope::Range;
use crate::rules::wide::beside::staying;
use crate::rules::wide::found::Found;
use crate::rules::wide::joint::Joint;
use crate::rules::wide::reader::Reader;
use crate::scanner::together::facts_with;
use crate::scanner::{is_newline, is_significant};
use std::alloc::{AllocError, Global};

/// What one pass gathers: what the code defines, its calls, and the lists of all lines.
#[derive(Drop)]
struct Gathered {
    found: Found,
    calls: Vec<Call>,
    lines: LineLists,
}

/// The call of the token before in a body, if it is one.
#[inline(always)]
fn call_before(body: Option<Span>, last: Option<Token>, token: &Token) -> Option<Call>
    ensures { result ≡ call_before body last token.now }
{
    if !token.is_mark(b'(') {
        return None;
    }
    match (body, last) {
        (Some(caller), Some(name)) if name.is_name() => Some(Call {
            callee: name.span,
            line: name.line,
            caller,
        }),
        _ => None,
    }
}

/// The token if it is a name: only a name can be called. Most tokens are then not copied.
#[inline(always)]
fn callable(token: Token) -> Option<Token>
    ensures { result ≡ callable token }
{
    if token.is_name() { Some(token) } else { None }
}

/// The one pass over a text: each piece is looked at once. What it gathers is handed in empty.
fn fill(uses: bool, text: &[u8], pass: &mut Joint, made: &mut Gathered) -> Result<(), AllocError>
    requires text { length text.now ≤ MOST_BYTES }
    requires start { pass.old ≡ pass_start }
    requires found { made.old.found
        ≡ record { functions = []; ranges = []; defs = []; objects = [] } }
    requires calls { made.old.calls.items ≡ [] }
    requires names { made.old.lines.names.items ≡ [] }
    requires macros { made.old.lines.macros.items ≡ [] }
    requires macro_ranges { made.old.lines.ranges.items ≡ [] }
    requires macro_calls { made.old.lines.calls.items ≡ [] }
    requires includes { made.old.lines.includes.items ≡ [] }
    ensures functions { IfOk result
        (λ _. made.new.found.functions
        ≡ map wide_function_def (functions_of text.now (pieces text.now))) }
    ensures ranges { IfOk result
        (λ _. made.new.found.ranges
        ≡ ranges_of text.now (pieces text.now) (functions_of text.now (pieces text.now))) }
    ensures defs { IfOk result
        (λ _. IsPermutation made.new.found.defs (declared_in text.now (pieces text.now))) }
    ensures objects { IfOk result
        (λ _. made.new.found.objects ≡ objects_in text.now (pieces text.now)) }
    ensures calls { IfOk result
        (λ _. made.new.calls.items ≡ calls_in (code text.now (pieces text.now))
        (functions_of text.now (pieces text.now))) }
    ensures names { IfOk result
        (λ _. made.new.lines.names.items
        ≡ kept uses (flat_map used (logical_lines text.now (pieces text.now)))) }
    ensures macros { IfOk result
        (λ _. made.new.lines.macros.items
        ≡ map macro_def (macro_names text.now (pieces text.now))) }
    ensures macro_ranges { IfOk result
        (λ _. made.new.lines.ranges.items ≡ macro_ranges text.now (pieces text.now)) }
    ensures macro_calls { IfOk result
        (λ _. made.new.lines.calls.items ≡ macro_calls (macros text.now (pieces text.now))) }
    ensures includes { IfOk result
        (λ _. made.new.lines.includes.items
        ≡ flat_map (include_of text.now) (directives text.now (pieces text.now))) }
{
    let mut reader = Reader::new();
    let mut last = None;
    let mut line = Stage::Start;
    for lined in lined_pieces(text) {
        if is_significant(lined.piece.class) {
            let token = token_of(text, &lined);
            made.lines.add(uses, text, &mut line, &token)?;
            if line.is_code() {
                push_some(&mut made.calls, call_before(pass.body(), last, &token))?;
                reader.add(pass, &mut made.found, text, &token)?;
                last = callable(token);
            }
        } else if is_newline(lined.piece.class) {
            made.lines.end(&line, lined.piece.span.start)?;
            line = Stage::Start;
        }
    }
    made.lines.end(&line, text.len() as u32)?;
    reader.finish(pass, &mut made.found)?;
    made.found.end_function(pass.left_open(text.len() as u32))?;
    Ok(())
}

/// What is gathered of a text.
fn gather(alloc: Global, uses: bool, text: &[u8]) -> Result<Gathered, AllocError>
    requires { length text.now ≤ MOST_BYTES }
    ensures functions { IfOk result
        (λ g. g.found.functions
        ≡ map wide_function_def (functions_of text.now (pieces text.now))) }
    ensures ranges { IfOk result
        (λ g. g.found.ranges
        ≡ ranges_of text.now (pieces text.now) (functions_of text.now (pieces text.now))) }
    ensures defs { IfOk result
        (λ g. IsPermutation g.found.defs (declared_in text.now (pieces text.now))) }
    ensures objects { IfOk result
        (λ g. g.found.objects ≡ objects_in text.now (pieces text.now)) }
    ensures calls { IfOk result
        (λ g. g.calls.items ≡ calls_in (code text.now (pieces text.now))
        (functions_of text.now (pieces text.now))) }
    ensures names { IfOk result
        (λ g. g.lines.names.items
        ≡ kept uses (flat_map used (logical_lines text.now (pieces text.now)))) }
    ensures macros { IfOk result
        (λ g. g.lines.macros.items ≡ map macro_def (macro_names text.now (pieces text.now))) }
    ensures macro_ranges { IfOk result
        (λ g. g.lines.ranges.items ≡ macro_ranges text.now (pieces text.now)) }
    ensures macro_calls { IfOk result
        (λ g. g.lines.calls.items ≡ macro_calls (macros text.now (pieces text.now))) }
    ensures includes { IfOk result
        (λ g. g.lines.includes.items
        ≡ flat_map (include_of text.now) (directives text.now (pieces text.now))) }
{
    let mut pass = Joint::new(alloc);
    let mut gathered = Gathered {
        found: Found::new(alloc),
        calls: Vec::new(alloc),
        lines: LineLists::new(alloc),
    };
    fill(uses, text, &mut pass, &mut gathered)?;
    Ok(gathered)
}

/// What is wanted of what the wide rules find in a text, with or without external declarations and
/// prototypes.
pub(crate) fn facts_in(
    alloc: Global,
    wanted: Wanted,
    prototypes: bool,
    text: &[u8],
) -> Result<Facts, AllocError>
    requires { length text.now ≤ MOST_BYTES }
    ensures { IfOk result (λ f. f ≡ wanted_of wanted (all_facts (rules_with prototypes) text.now)) }
{
    let gathered = gather(alloc, wanted.uses, text)?;
    let found = &gathered.found;
    let all = ordered_defs(
        alloc,
        found.functions.as_slice(),
        gathered.lines.macros.as_slice(),
        found.defs.as_slice(),
        found.objects.as_slice(),
    )?;
    let defs = staying(alloc, prototypes, found.ranges.as_slice(), all.as_slice())?;
    let facts = facts_with(
        alloc,
        wanted,
        defs,
        found.ranges.as_slice(),
        gathered.calls.as_slice(),
        &gathered.lines,
    )?;
    Ok(facts)
}

/// The ranges of the functions that the wide rules find in a text.
pub(crate) fn ranges_in(alloc: Global, text: &[u8]) -> Result<Vec<Range>, AllocError>
    requires { length text.now ≤ MOST_BYTES }
    ensures { IfOk result (λ rs. rs.items
        ≡ ranges_of text.now (pieces text.now) (functions_of text.now (pieces text.now))) }
{
    let gathered = gather(alloc, false, text)?;
    Ok(gathered.found.into_ranges())
}
