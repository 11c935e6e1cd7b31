//! What the standard profile finds: one pass over the pieces of a text.
ghost use Rattle.std.specs.Prelude.{◌≡◌, ◌≤◌, length, map, IfOk};
ghost use Rattle.cb_scan.specs.declared.profile.Rules.TheVariants.{Standard};
ghost use Rattle.cb_scan.specs.declared.source.TheConstants.{MOST_BYTES};
ghost use Rattle.std.specs.List.{flat_map};
ghost use Rattle.cb_scan.specs.rules.Code.{code, directives, logical_lines};
ghost use Rattle.cb_scan.specs.Definitions.{function_def, macro_def, structure_def, typedef_def};
ghost use Rattle.cb_scan.specs.rules.Functions.{functions};
ghost use Rattle.cb_scan.specs.rules.Macros.{macro_names, macros};
ghost use Rattle.cb_scan.specs.rules.Scope.{function_ranges, macro_ranges};
ghost use Rattle.cb_scan.specs.rules.Structures.{structures};
ghost use Rattle.cb_scan.specs.rules.Typedefs.{typedefs};
ghost use Rattle.cb_scan.specs.rules.Uses.{function_calls, include_of, macro_calls, used};
ghost use Rattle.cb_scan.specs.steps.Cut.{pieces};
ghost use Rattle.cb_scan.specs.Profiles.{all_facts, kept, wanted_of};

use crate::facts::Facts;
use crate::gather::{CodeLists, CodeState, LineLists};
use crate::lex::lined::lined_pieces;
use crate::lex::token::token_of;
use crate::profile::Wanted;
use crate::rules::directives::Stage;
use crate::rules::functions::Machine;
use crate::rules::order::ordered_defs;
use crate::rules::scope::Range;
use crate::rules::structures::Naming;
use crate::scanner::together::facts_with;
use crate::scanner::{is_newline, is_significant};
use std::alloc::{AllocError, Global};

/// What one pass gathers.
#[derive(Drop)]
struct Gathered {
    code: CodeLists,
    lines: LineLists,
}

/// The one pass over a text: each piece is looked at once.
fn gather(alloc: Global, uses: bool, text: &[u8]) -> Result<Gathered, AllocError>
    requires { length text.now ≤ MOST_BYTES }
    ensures functions { IfOk result
        (λ g. g.code.functions.items
        ≡ map function_def (functions (code text.now (pieces text.now)))) }
    ensures function_ranges { IfOk result
        (λ g. g.code.ranges.items ≡ function_ranges text.now (pieces text.now)) }
    ensures function_calls { IfOk result
        (λ g. g.code.calls.items ≡ function_calls (code text.now (pieces text.now))) }
    ensures typedefs { IfOk result
        (λ g. g.code.typedefs.items
        ≡ map typedef_def (typedefs (code text.now (pieces text.now)))) }
    ensures structures { IfOk result
        (λ g. g.code.structures.items
        ≡ map structure_def (structures (code text.now (pieces text.now)))) }
    ensures names { IfOk result
        (λ g. g.lines.names.items
        ≡ kept uses (flat_map used (logical_lines text.now (pieces text.now)))) }
    ensures macros { IfOk result
        (λ g. g.lines.macros.items ≡ map macro_def (macro_names text.now (pieces text.now))) }
    ensures macro_ranges { IfOk result
        (λ g. g.lines.ranges.items ≡ macro_ranges text.now (pieces text.now)) }
    ensures macro_calls { IfOk result
        (λ g. g.lines.calls.items ≡ macro_calls (macros text.now (pieces text.now))) }
    ensures includes { IfOk result
        (λ g. g.lines.includes.items
        ≡ flat_map (include_of text.now) (directives text.now (pieces text.now))) }
{
    let mut code = CodeLists::new(alloc);
    let mut lines = LineLists::new(alloc);
    let mut line = Stage::Start;
    let mut state = CodeState {
        machine: Machine::start(),
        declared: None,
        naming: Naming::Nothing,
    };
    for lined in lined_pieces(text) {
        if is_significant(lined.piece.class) {
            let token = token_of(text, &lined);
            lines.add(uses, text, &mut line, &token)?;
            if line.is_code() {
                code.add(&mut state, &token)?;
            }
        } else if is_newline(lined.piece.class) {
            lines.end(&line, lined.piece.span.start)?;
            line = Stage::Start;
        }
    }
    lines.end(&line, text.len() as u32)?;
    code.end(&state.machine, text.len() as u32)?;
    Ok(Gathered { code, lines })
}

/// What is wanted of what the standard rules find in a text.
pub(crate) fn facts_in(alloc: Global, wanted: Wanted, text: &[u8]) -> Result<Facts, AllocError>
    requires { length text.now ≤ MOST_BYTES }
    ensures { IfOk result (λ f. f ≡ wanted_of wanted (all_facts Standard text.now)) }
{
    let gathered = gather(alloc, wanted.uses, text)?;
    let code = &gathered.code;
    let defs = ordered_defs(
        alloc,
        code.functions.as_slice(),
        gathered.lines.macros.as_slice(),
        code.typedefs.as_slice(),
        code.structures.as_slice(),
    )?;
    let facts = facts_with(
        alloc,
        wanted,
        defs,
        code.ranges.as_slice(),
        code.calls.as_slice(),
        &gathered.lines,
    )?;
    Ok(facts)
}

/// The ranges of the functions that the standard rules find in a text.
pub(crate) fn ranges_in(alloc: Global, text: &[u8]) -> Result<Vec<Range>, AllocError>
    requires { length text.now ≤ MOST_BYTES }
    ensures { IfOk result (λ rs. rs.items ≡ function_ranges text.now (pieces text.now)) }
{
    let gathered = gather(alloc, false, text)?;
    Ok(gathered.code.ranges)
}
