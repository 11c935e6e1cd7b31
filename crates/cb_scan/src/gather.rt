//! What one pass over a text gathers, list by list.
ghost use Rattle.std.specs.Prelude.{◌≡◌, ◌≤◌, ◌<◌, ◌+◌, ◌++◌, ◌^◌, [], false, length, IfOk};
ghost use Rattle.cb_scan.specs.Bytes.{close_brace, open_brace, open_paren};
ghost use Rattle.cb_scan.specs.lex.Tokens.{is_mark};
ghost use Rattle.cb_scan.specs.declared.source.TheConstants.{MOST_BYTES};
ghost use Rattle.cb_scan.specs.Profiles.{kept};
ghost use Rattle.std.specs.Option.{option_to_list};
ghost use Rattle.cb_scan.specs.steps.Directives.{include_out, macro_call_out, macro_out};
ghost use Rattle.cb_scan.specs.steps.Directives.{next_stage, range_finish, use_out};
ghost use Rattle.cb_scan.specs.steps.Functions.{called, closed, found, left_open, next};
ghost use Rattle.cb_scan.specs.steps.Structures.{next_naming, structure_found};
ghost use Rattle.cb_scan.specs.steps.Typedefs.{ends, nesting_of, next_declaration, next_pending};
ghost use Rattle.cb_scan.specs.steps.Typedefs.{typedefs_out};

use crate::facts::{Call, Def, Include};
use crate::lex::token::{Role, Token};
use crate::rules::directives::Stage;
use crate::rules::functions::Machine;
use crate::rules::scope::Range;
use crate::rules::structures::Naming;
use crate::rules::typedefs::{Declaration, pass_token, take_token};
use std::alloc::{AllocError, Global};

/// The state of the pass over the code: depth, head and body, the typedef that is open, and the
/// structure whose name may have come.
#[derive(Clone, Copy)]
pub(crate) struct CodeState {
    pub machine: Machine,
    pub declared: Option<Declaration>,
    pub naming: Naming,
}

/// What the code gives: its functions, their ranges and calls, the names of its typedefs, and its
/// structures, unions and enumerations. The names of a typedef that is still open are held back.
#[derive(Drop)]
pub(crate) struct CodeLists {
    pub functions: Vec<Def>,
    pub ranges: Vec<Range>,
    pub calls: Vec<Call>,
    pub typedefs: Vec<Def>,
    pub pending: Vec<Token>,
    pub structures: Vec<Def>,
}

/// What all lines give: the names that they use, and of directives the macros, their ranges and
/// calls, and the includes.
#[derive(Drop)]
pub(crate) struct LineLists {
    pub names: Vec<Token>,
    pub macros: Vec<Def>,
    pub ranges: Vec<Range>,
    pub calls: Vec<Call>,
    pub includes: Vec<Include>,
}

pub(crate) fn push_some<T: Drop>(list: &mut Vec<T>, item: Option<T>) -> Result<(), AllocError>
    ensures { IfOk result (λ _. list.new.items ≡ list.old.items ++ option_to_list item) }
{
    if let Some(item) = item {
        list.push(item)?;
    }
    Ok(())
}

impl CodeLists {
    pub(crate) fn new(alloc: Global) -> CodeLists
        ensures functions { result.functions.items ≡ [] }
        ensures ranges { result.ranges.items ≡ [] }
        ensures calls { result.calls.items ≡ [] }
        ensures typedefs { result.typedefs.items ≡ [] }
        ensures pending { result.pending.items ≡ [] }
        ensures structures { result.structures.items ≡ [] }
    {
        CodeLists {
            functions: Vec::new(alloc),
            ranges: Vec::new(alloc),
            calls: Vec::new(alloc),
            typedefs: Vec::new(alloc),
            pending: Vec::new(alloc),
            structures: Vec::new(alloc),
        }
    }

    /// What a brace gives at once, in the state of the pass before it.
    fn find(&mut self, state: &CodeState, token: &Token) -> Result<(), AllocError>
        ensures functions { IfOk result
            (λ _. self.new.functions.items ≡ self.old.functions.items
            ++ option_to_list (found state.now.machine token.now)) }
        ensures ranges { IfOk result
            (λ _. self.new.ranges.items ≡ self.old.ranges.items
            ++ option_to_list (closed state.now.machine token.now)) }
        ensures structures { IfOk result
            (λ _. self.new.structures.items ≡ self.old.structures.items
            ++ option_to_list (structure_found state.now.naming token.now)) }
        ensures others { IfOk result (λ _. self.new ≡ record self.old {
          functions = self.new.functions;
          ranges = self.new.ranges;
          structures = self.new.structures;
        }) }
    {
        match token.role {
            Role::Mark(b'{') => {
                push_some(&mut self.functions, state.machine.found(token))?;
                push_some(&mut self.structures, state.naming.found(token))
            }
            Role::Mark(b'}') => push_some(&mut self.ranges, state.machine.closed(token)),
            _ => Ok(()),
        }
    }

    /// A token that is no brace and ends no declaration.
    #[inline(always)]
    fn pass(&mut self, state: &mut CodeState, token: &Token) -> Result<(), AllocError>
        requires nested { nesting_of state.old.declared + 1 < 2 ^ 32 }
        requires no_open_brace { is_mark open_brace token.now.role ≡ false }
        requires no_close_brace { is_mark close_brace token.now.role ≡ false }
        requires no_end { ends state.old.machine token.now ≡ false }
        ensures machine { IfOk result (λ _. state.new.machine ≡ next state.old.machine token.now) }
        ensures same { IfOk result (λ _. state.new.machine.depth ≡ state.old.machine.depth) }
        ensures declared { IfOk result
            (λ _. state.new.declared
            ≡ next_declaration state.old.machine state.old.declared token.now) }
        ensures nested { IfOk result
            (λ _. nesting_of state.new.declared ≤ nesting_of state.old.declared + 1) }
        ensures naming { IfOk result
            (λ _. state.new.naming ≡ next_naming state.old.naming token.now) }
        ensures pending { IfOk result
            (λ _. self.new.pending.items ≡ next_pending state.old.machine state.old.declared
            self.old.pending.items token.now) }
        ensures others { IfOk result
            (λ _. self.new ≡ record self.old { pending = self.new.pending }) }
    {
        pass_token(
            &state.machine,
            &mut state.declared,
            token,
            &mut self.pending,
        )?;
        state.machine.go_on(token);
        state.naming.next(token);
        Ok(())
    }

    /// A brace, or a `;` outside of braces.
    fn turn(&mut self, state: &mut CodeState, token: &Token) -> Result<(), AllocError>
        requires no_open_paren { is_mark open_paren token.now.role ≡ false }
        requires deep { state.old.machine.depth + 1 < 2 ^ 32 }
        requires nested { nesting_of state.old.declared + 1 < 2 ^ 32 }
        ensures machine { IfOk result (λ _. state.new.machine ≡ next state.old.machine token.now) }
        ensures deep { IfOk result
            (λ _. state.new.machine.depth ≤ state.old.machine.depth + 1) }
        ensures declared { IfOk result
            (λ _. state.new.declared
            ≡ next_declaration state.old.machine state.old.declared token.now) }
        ensures nested { IfOk result
            (λ _. nesting_of state.new.declared ≤ nesting_of state.old.declared + 1) }
        ensures naming { IfOk result
            (λ _. state.new.naming ≡ next_naming state.old.naming token.now) }
        ensures functions { IfOk result
            (λ _. self.new.functions.items ≡ self.old.functions.items
            ++ option_to_list (found state.old.machine token.now)) }
        ensures ranges { IfOk result
            (λ _. self.new.ranges.items ≡ self.old.ranges.items
            ++ option_to_list (closed state.old.machine token.now)) }
        ensures calls { IfOk result (λ _. self.new.calls.items ≡ self.old.calls.items) }
        ensures pending { IfOk result
            (λ _. self.new.pending.items ≡ next_pending state.old.machine state.old.declared
            self.old.pending.items token.now) }
        ensures typedefs { IfOk result
            (λ _. self.new.typedefs.items ≡ self.old.typedefs.items
            ++ typedefs_out state.old.machine state.old.declared self.old.pending.items token.now) }
        ensures structures { IfOk result
            (λ _. self.new.structures.items ≡ self.old.structures.items
            ++ option_to_list (structure_found state.old.naming token.now)) }
    {
        self.find(state, token)?;
        take_token(
            &state.machine,
            &mut state.declared,
            token,
            &mut self.pending,
            &mut self.typedefs,
        )?;
        state.machine.next(token);
        state.naming.next(token);
        Ok(())
    }

    /// A token of the code, which moves the state of the pass. Most are passed over.
    #[inline(always)]
    pub(crate) fn add(&mut self, state: &mut CodeState, token: &Token) -> Result<(), AllocError>
        requires deep { state.old.machine.depth + 1 < 2 ^ 32 }
        requires nested { nesting_of state.old.declared + 1 < 2 ^ 32 }
        ensures machine { IfOk result (λ _. state.new.machine ≡ next state.old.machine token.now) }
        ensures deep { IfOk result
            (λ _. state.new.machine.depth ≤ state.old.machine.depth + 1) }
        ensures declared { IfOk result
            (λ _. state.new.declared
            ≡ next_declaration state.old.machine state.old.declared token.now) }
        ensures nested { IfOk result
            (λ _. nesting_of state.new.declared ≤ nesting_of state.old.declared + 1) }
        ensures naming { IfOk result
            (λ _. state.new.naming ≡ next_naming state.old.naming token.now) }
        ensures functions { IfOk result
            (λ _. self.new.functions.items ≡ self.old.functions.items
            ++ option_to_list (found state.old.machine token.now)) }
        ensures ranges { IfOk result
            (λ _. self.new.ranges.items ≡ self.old.ranges.items
            ++ option_to_list (closed state.old.machine token.now)) }
        ensures calls { IfOk result
            (λ _. self.new.calls.items ≡ self.old.calls.items
            ++ option_to_list (called state.old.machine token.now)) }
        ensures pending { IfOk result
            (λ _. self.new.pending.items ≡ next_pending state.old.machine state.old.declared
            self.old.pending.items token.now) }
        ensures typedefs { IfOk result
            (λ _. self.new.typedefs.items ≡ self.old.typedefs.items
            ++ typedefs_out state.old.machine state.old.declared self.old.pending.items token.now) }
        ensures structures { IfOk result
            (λ _. self.new.structures.items ≡ self.old.structures.items
            ++ option_to_list (structure_found state.old.naming token.now)) }
    {
        match token.role {
            Role::Mark(b'{' | b'}') => self.turn(state, token),
            Role::Mark(b';') if state.machine.depth == 0 => self.turn(state, token),
            Role::Mark(b'(') => {
                push_some(&mut self.calls, state.machine.called(token))?;
                self.pass(state, token)
            }
            _ => self.pass(state, token),
        }
    }

    /// The end of the text, in the state of the pass there.
    pub(crate) fn end(&mut self, machine: &Machine, end: u32) -> Result<(), AllocError>
        ensures ranges { IfOk result
            (λ _. self.new.ranges.items ≡ self.old.ranges.items
            ++ option_to_list (left_open machine.now end)) }
        ensures others { IfOk result
            (λ _. self.new ≡ record self.old { ranges = self.new.ranges }) }
    {
        push_some(&mut self.ranges, machine.left_open(end))
    }
}

impl LineLists {
    pub(crate) fn new(alloc: Global) -> LineLists
        ensures names { result.names.items ≡ [] }
        ensures macros { result.macros.items ≡ [] }
        ensures ranges { result.ranges.items ≡ [] }
        ensures calls { result.calls.items ≡ [] }
        ensures includes { result.includes.items ≡ [] }
    {
        LineLists {
            names: Vec::new(alloc),
            macros: Vec::new(alloc),
            ranges: Vec::new(alloc),
            calls: Vec::new(alloc),
            includes: Vec::new(alloc),
        }
    }

    /// A token, which moves the state of its line. A line of code stays one, and gives its uses
    /// alone, where uses are wanted.
    #[inline(always)]
    pub(crate) fn add(
        &mut self,
        uses: bool,
        text: &[u8],
        line: &mut Stage,
        token: &Token,
    ) -> Result<(), AllocError>
        requires some { token.now.span.start < token.now.span.end }
        requires within { token.now.span.end ≤ length text.now }
        requires few { length text.now ≤ MOST_BYTES }
        ensures line { IfOk result (λ _. line.new ≡ next_stage line.old token.now) }
        ensures names { IfOk result
            (λ _. self.new.names.items
            ≡ self.old.names.items ++ kept uses (use_out line.old token.now)) }
        ensures macros { IfOk result
            (λ _. self.new.macros.items ≡ self.old.macros.items ++ macro_out line.old token.now) }
        ensures calls { IfOk result
            (λ _. self.new.calls.items
            ≡ self.old.calls.items ++ macro_call_out line.old token.now) }
        ensures includes { IfOk result
            (λ _. self.new.includes.items ≡ self.old.includes.items
            ++ include_out text.now line.old token.now) }
        ensures ranges { IfOk result (λ _. self.new.ranges.items ≡ self.old.ranges.items) }
    {
        if uses && line.is_use(token) {
            self.names.push(token.copied())?;
        }
        if line.is_code() {
            return Ok(());
        }
        push_some(&mut self.macros, line.macro_found(token))?;
        push_some(&mut self.calls, line.macro_call(token))?;
        push_some(&mut self.includes, line.include_found(text, token))?;
        line.next(token);
        Ok(())
    }

    /// The end of a line that came so far, and the place where it ends.
    pub(crate) fn end(&mut self, line: &Stage, end: u32) -> Result<(), AllocError>
        ensures ranges { IfOk result
            (λ _. self.new.ranges.items ≡ self.old.ranges.items ++ range_finish line.now end) }
        ensures others { IfOk result
            (λ _. self.new ≡ record self.old { ranges = self.new.ranges }) }
    {
        push_some(&mut self.ranges, line.macro_ended(end))
    }
}
