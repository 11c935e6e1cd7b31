//! Locals that are renamed: the edits of their uses, or why there are none.
ghost use Rattle.std.specs.Prelude.{◌≡◌, ◌<◌, Bool, IfOk, None, Some};
ghost use Rattle.std.specs.Prelude.{false, map, take};
ghost use Rattle.std.specs.Option.{option_map};
ghost use Rattle.cb_names.specs.FunctionNames.{function_names};
ghost use Rattle.cb_names.specs.declared.local.LocalUse.{LocalUse as OwnUse};
ghost use Rattle.cb_scan.specs.Profiles.{facts_in};
ghost use Rattle.cb_scan.specs.lex.Tokens.{bytes_of};
ghost use Rattle.cb_tags.specs.Writing.{Puts};
ghost use Rattle.cb_wire.specs.Edits.{edits_of};
ghost use Rattle.cb_wire.specs.Messages.{id_json};
ghost use Rattle.cb_wire.specs.Texts.{frame};
ghost use Rattle.cb_wire.specs.Trees.{result_reply};
ghost use Rattle.cb_wire.specs.Values.{value_text};
ghost use Rattle.cb_lsp.specs.Answers.{reply_with};
ghost use Rattle.cb_lsp.specs.Bodies.{Replies};
ghost use Rattle.cb_lsp.specs.Documents.{Oracle};
ghost use Rattle.cb_lsp.specs.LocalRenames.{callers, edited_unless};
ghost use Rattle.cb_lsp.specs.LocalRenames.{is_bad, is_hidden};
ghost use Rattle.cb_lsp.specs.LocalRenames.{is_taken, is_used_in};
ghost use Rattle.cb_lsp.specs.LocalRenames.{local_edits, renamed_local, renamed_parameter};
ghost use Rattle.cb_lsp.specs.LocalRenames.{unless_arguments, unless_parameter};
ghost use Rattle.cb_lsp.specs.LocalRenames.{unless_alone, unless_bytes, unless_given, unless_handed};
ghost use Rattle.cb_lsp.specs.LocalRenames.{unless_included};
ghost use Rattle.cb_lsp.specs.LocalRenames.{unless_local};
ghost use Rattle.cb_lsp.specs.LocalRenames.{touched, unless_macro, unless_names, unless_seen};
ghost use Rattle.cb_lsp.specs.Messages.{reply_unless};
ghost use Rattle.cb_lsp.specs.steps.LocalRenames.{ends, local_edits_left};
ghost use Rattle.cb_wire.specs.declared.list.TheConstants.{MOST_ELEMENTS};
ghost use Rattle.cb_lsp.specs.steps.Located.{client_in};
ghost use Rattle.cb_lsp.specs.steps.Renames.{reason_of, work_in};

use crate::alike::is_counted_alike;
use crate::columns::Positions;
use crate::disk::Disk;
use crate::place::bytes_of;
use crate::rename::{Renaming, Unedited, put_unedited};
use crate::renamed_text::{
    callers, first_included, first_odd, handed, has_named, is_bad, is_hidden, is_taken, is_used_in,
    member_taker, spans_of, touched,
};
use crate::written::{put_refusal, put_refused};
use cb_macros::{Sought, first_through};
use cb_names::{Code, FunctionNames, Local, LocalUse, Parameter};
use cb_scan::Span;
use cb_tags::{Sink, WriteFault};
use cb_wire::{Elements, FileEdit, Id, Location, MOST_ELEMENTS, Part, Root, put_list_result};
use std::alloc::{AllocError, Global};
use std::io::Write;

/// Whether no use is left.
fn ends(uses: &[LocalUse]) -> bool
    ensures { result ≡ ends uses.now }
{
    match uses {
        [] => true,
        [_, ..] => false,
    }
}

/// Of some uses as many as a reply tells.
fn told(uses: &[LocalUse]) -> &[LocalUse]
    ensures { result.now ≡ take MOST_ELEMENTS uses.now }
{
    &uses[..MOST_ELEMENTS.min(uses.len())]
}

/// The edits of uses in one file. They take no memory.
#[derive(Drop)]
pub(crate) struct LocalEdits<'a, 'l> {
    root: &'a Root,
    file: &'a [u8],
    positions: Positions<'a>,
    new_name: &'a [u8],
    rest: &'l [LocalUse],
    /// The next one is the first one.
    opens: bool,
}

impl<'a, 'l> Elements for LocalEdits<'a, 'l> {
    type Item = FileEdit<'a>;

    ghost texts = { local_edits_left };

    fn again(&self) -> LocalEdits<'a, 'l> {
        LocalEdits {
            root: self.root,
            file: self.file,
            positions: Positions::new(self.positions.encoding(), self.positions.source()),
            new_name: self.new_name,
            rest: self.rest,
            opens: self.opens,
        }
    }

    fn next(&mut self) -> Option<FileEdit<'a>> {
        let (one, rest) = self.rest.split_first()?;
        let opens = self.opens;
        self.rest = rest;
        self.opens = false;
        let range = self
            .positions
            .range(one.name.start as usize, one.name.end as usize);
        Some(FileEdit {
            location: Location {
                root: self.root,
                name: self.file,
                range,
            },
            new_text: self.new_name,
            opens,
            closes: ends(rest),
        })
    }
}

impl<'a> Renaming<'a> {
    /// Why a local is not renamed by the names alone.
    fn unless_names(&self, extent: Span, old: &[u8]) -> Option<Unedited<'a>>
        ensures { option_map reason_of result ≡ unless_names (work_in self.now).world
            self.now.asked.source.now extent self.now.asked.facts.now.uses old.now
            self.now.new_name.now }
    {
        let asked = self.asked;
        let new = self.new_name;
        if is_bad(old, new) {
            return Some(Unedited::BadName);
        }
        if is_used_in(asked.source, extent, asked.facts.uses(), new) {
            return Some(Unedited::UsedAlready);
        }
        if is_taken(asked.desk, new) || is_taken(asked.desk, old) {
            Some(Unedited::MacroOrType)
        } else {
            None
        }
    }

    /// Why it is not by a macro that the function names.
    fn unless_macro(
        &self,
        alloc: Global,
        function: &FunctionNames,
        old: &[u8],
    ) -> Result<Option<Unedited<'a>>, AllocError>
        ensures { IfOk result (λ why. option_map reason_of why ≡ unless_macro
            (work_in self.now).world self.now.asked.source.now function.now old.now
            self.now.new_name.now) }
    {
        let asked = self.asked;
        let sought = Sought::Either(old, self.new_name);
        match first_through(alloc, asked.desk, asked.source, function.names(), sought)? {
            Some(name) => Ok(Some(Unedited::InMacro(name))),
            None => Ok(None),
        }
    }

    /// Why it is not by what the rules do not see of the function, or cannot tell of the name.
    fn unless_seen(&self, function: &FunctionNames, old: &'a [u8]) -> Option<Unedited<'a>>
        ensures { option_map reason_of result ≡ unless_seen self.now.asked.name.now
            self.now.asked.source.now function.now self.now.asked.facts.now.uses old.entry.now }
    {
        let asked = self.asked;
        if !function.is_whole() {
            return Some(Unedited::FromOutside(asked.name));
        }
        if is_hidden(asked.source, function, asked.facts.uses(), old)
            || has_named(asked.source, function.unsure(), old)
        {
            Some(Unedited::InMacro(old))
        } else {
            None
        }
    }

    /// Why it is not by what becomes of the arguments of these names.
    fn unless_called(
        &self,
        alloc: Global,
        callers: &[Span],
    ) -> Result<Option<Unedited<'a>>, AllocError>
        ensures { IfOk result (λ why. option_map reason_of why ≡ unless_arguments
            (work_in self.now).world self.now.asked.source.now callers.now) }
    {
        let asked = self.asked;
        if let Some(name) = member_taker(asked.source, callers) {
            return Ok(Some(Unedited::InArguments(name)));
        }
        match first_through(alloc, asked.desk, asked.source, callers, Sought::Makes)? {
            Some(name) => Ok(Some(Unedited::InArguments(name))),
            None => Ok(None),
        }
    }

    /// Why it is not by what macros with parameters make of arguments, whose names stand alone.
    fn unless_alone(&self, alloc: Global, lone: &[Span]) -> Result<Option<Unedited<'a>>, AllocError>
        ensures { IfOk result (λ why. option_map reason_of why ≡ unless_alone
            (work_in self.now).world self.now.asked.source.now lone.now) }
    {
        let asked = self.asked;
        let handed = handed(alloc, asked.desk, asked.source, lone)?;
        match first_through(
            alloc,
            asked.desk,
            asked.source,
            handed.as_slice(),
            Sought::Makes,
        )? {
            Some(name) => Ok(Some(Unedited::InArguments(name))),
            None => Ok(None),
        }
    }

    /// Why it is not by these, where one of some names leads to a macro that calls a parameter.
    fn unless_handed(
        &self,
        alloc: Global,
        callers: &[Span],
        lone: &[Span],
    ) -> Result<Option<Unedited<'a>>, AllocError>
        ensures { IfOk result (λ why. option_map reason_of why ≡ unless_handed
            (work_in self.now).world self.now.asked.source.now callers.now lone.now) }
    {
        let asked = self.asked;
        match first_through(alloc, asked.desk, asked.source, callers, Sought::Calls)? {
            Some(_) => self.unless_alone(alloc, lone),
            None => Ok(None),
        }
    }

    /// Why it is not by arguments of some names, or by a macro that is handed to one.
    fn unless_given(
        &self,
        alloc: Global,
        callers: &[Span],
        lone: &[Span],
    ) -> Result<Option<Unedited<'a>>, AllocError>
        ensures { IfOk result (λ why. option_map reason_of why ≡ unless_given
            (work_in self.now).world self.now.asked.source.now callers.now lone.now) }
    {
        match self.unless_called(alloc, callers)? {
            Some(why) => Ok(Some(why)),
            None => self.unless_handed(alloc, callers, lone),
        }
    }

    /// Why it is not by arguments that hold what must not be touched.
    fn unless_arguments(
        &self,
        alloc: Global,
        function: &FunctionNames,
        own: &Local,
        old: &[u8],
    ) -> Result<Option<Unedited<'a>>, AllocError>
        ensures { IfOk result (λ why. option_map reason_of why ≡ unless_given
            (work_in self.now).world self.now.asked.source.now
            (callers (touched self.now.asked.source.now function.now own.now old.now)
            function.now.arguments) function.now.lone) }
    {
        let touched = touched(alloc, self.asked.source, function, own, old)?;
        let callers = callers(alloc, touched.as_slice(), function.arguments())?;
        match self.unless_given(alloc, callers.as_slice(), function.lone()) {
            Ok(why) => Ok(why),
            Err(error) => Err(error),
        }
    }

    /// Why it is not by a file that is included in the function.
    fn unless_included(&self, extent: Span) -> Option<Unedited<'a>>
        ensures { option_map reason_of result ≡ unless_included self.now.asked.source.now extent
            self.now.asked.facts.now.includes }
    {
        match first_included(self.asked.facts.includes(), extent) {
            Some(header) => Some(Unedited::FromOutside(bytes_of(self.asked.source, header))),
            None => None,
        }
    }

    /// Why it is not by the bytes of the file.
    fn unless_bytes(&self, uses: &[LocalUse]) -> Option<Unedited<'a>>
        ensures { option_map reason_of result ≡ unless_bytes self.now.asked.name.now
            self.now.asked.source.now uses.now }
    {
        let asked = self.asked;
        let text = asked.source.bytes();
        match first_odd(text, uses) {
            Some(one) => {
                let line = asked.source.line_of(one.name.start);
                Some(Unedited::OddBytes(asked.name, line))
            }
            None => {
                if is_counted_alike(text) {
                    None
                } else {
                    Some(Unedited::NotText(asked.name))
                }
            }
        }
    }

    /// Why a local of this name is not renamed in a function.
    fn unless_local(
        &self,
        alloc: Global,
        function: &FunctionNames,
        old: &'a [u8],
        own: &Local,
    ) -> Result<Option<Unedited<'a>>, AllocError>
        ensures { IfOk result (λ why. option_map reason_of why ≡ unless_local
            (work_in self.now).world self.now.asked.name.now self.now.asked.source.now
            function.now self.now.asked.facts.now old.entry.now self.now.new_name.now own.now) }
    {
        if let Some(why) = self.unless_names(function.extent(), old) {
            return Ok(Some(why));
        }
        if let Some(why) = self.unless_macro(alloc, function, old)? {
            return Ok(Some(why));
        }
        if let Some(why) = self.unless_seen(function, old) {
            return Ok(Some(why));
        }
        if let Some(why) = self.unless_arguments(alloc, function, own, old)? {
            return Ok(Some(why));
        }
        match self.unless_included(function.extent()) {
            Some(why) => Ok(Some(why)),
            None => Ok(self.unless_bytes(own.uses())),
        }
    }

    /// Why a parameter of a macro is not renamed by what becomes of arguments that hold it.
    fn unless_held(
        &self,
        alloc: Global,
        parameter: &Parameter,
    ) -> Result<Option<Unedited<'a>>, AllocError>
        ensures { IfOk result (λ why. option_map reason_of why ≡ unless_arguments
            (work_in self.now).world self.now.asked.source.now (callers
            (map (λ (u : OwnUse). u.name) parameter.now.name.uses) parameter.now.arguments)) }
    {
        let touched = spans_of(alloc, parameter.local().uses())?;
        let callers = callers(alloc, touched.as_slice(), parameter.arguments())?;
        match self.unless_called(alloc, callers.as_slice()) {
            Ok(why) => Ok(why),
            Err(error) => Err(error),
        }
    }

    /// Why a parameter of a macro is not renamed.
    fn unless_parameter(
        &self,
        alloc: Global,
        parameter: &Parameter,
        old: &[u8],
    ) -> Result<Option<Unedited<'a>>, AllocError>
        ensures { IfOk result (λ why. option_map reason_of why ≡ unless_parameter
            (work_in self.now).world self.now.asked.name.now self.now.asked.source.now
            self.now.asked.facts.now.uses old.now self.now.new_name.now parameter.now) }
    {
        if let Some(why) = self.unless_names(parameter.extent(), old) {
            return Ok(Some(why));
        }
        match self.unless_held(alloc, parameter)? {
            Some(why) => Ok(Some(why)),
            None => Ok(self.unless_bytes(parameter.local().uses())),
        }
    }

    /// Writes the edits of some uses.
    fn put_local_edits<W: Write>(
        &self,
        out: &mut Sink<W>,
        id: Id<'_>,
        uses: &[LocalUse],
    ) -> Result<(), WriteFault>
        ensures { Puts out.old out.new result (frame (value_text (result_reply (id_json id.entry)
            (edits_of (local_edits (client_in self.now.asked.forms) self.now.asked.name.now
            self.now.asked.source.now self.now.new_name.now uses.now))))) }
    {
        let edits = LocalEdits {
            root: self.asked.forms.root,
            file: self.asked.name,
            positions: Positions::new(self.asked.forms.encoding, self.asked.source),
            new_name: self.new_name,
            rest: told(uses),
            opens: true,
        };
        put_list_result(
            out,
            id,
            b"{\"changes\":{",
            b",",
            &[Part::Raw(b"}}")],
            MOST_ELEMENTS,
            edits,
        )
    }

    /// Writes the edits of some uses of the file, if it is edited.
    fn put_if_edited<D: Disk, W: Write>(
        &self,
        alloc: Global,
        disk: &D,
        out: &mut Sink<W>,
        id: Id<'_>,
        uses: &[LocalUse],
    ) -> Result<(), WriteFault>
        ensures { (o : Oracle) × Replies (D.finds disk.now) (reply_with (id_json id.entry)
            (edited_unless o (client_in self.now.asked.forms) (work_in self.now)
            self.now.asked.name.now self.now.asked.source.now self.now.new_name.now uses.now
            None)) out.old out.new result }
    {
        let is_open = self.documents.is_open(self.asked.name);
        match self.unedited(alloc, disk, is_open, self.asked.name) {
            Some(why) => put_unedited(out, id, why),
            None => self.put_local_edits(out, id, uses),
        }
    }

    /// Writes how a parameter of a macro that is defined at a span is renamed.
    fn put_parameter_from<D: Disk, W: Write>(
        &self,
        alloc: Global,
        disk: &D,
        out: &mut Sink<W>,
        id: Id<'_>,
        parameter: &Parameter,
        definition: Span,
    ) -> Result<(), WriteFault>
        requires { self.now.asked.facts.now
            ≡ facts_in (work_in self.now).world.profile self.now.asked.source.now }
        ensures { (no_memory : Bool) × (o : Oracle) × Replies (D.finds disk.now)
            (reply_unless no_memory (id_json id.entry)
            (renamed_parameter o (client_in self.now.asked.forms) (work_in self.now)
            self.now.asked.name.now self.now.asked.source.now self.now.new_name.now
            parameter.now (Some definition))) out.old out.new result }
    {
        let old = bytes_of(self.asked.source, definition);
        match self.unless_parameter(alloc, parameter, old) {
            Ok(Some(why)) => put_unedited(out, id, why),
            Ok(None) => self.put_if_edited(alloc, disk, out, id, parameter.local().uses()),
            Err(_) => put_refusal(out, id),
        }
    }

    /// Writes how a parameter of a macro is renamed.
    pub(crate) fn put_parameter<D: Disk, W: Write>(
        &self,
        alloc: Global,
        disk: &D,
        out: &mut Sink<W>,
        id: Id<'_>,
        parameter: &Parameter,
    ) -> Result<(), WriteFault>
        requires { self.now.asked.facts.now
            ≡ facts_in (work_in self.now).world.profile self.now.asked.source.now }
        ensures { (no_memory : Bool) × (o : Oracle) × Replies (D.finds disk.now)
            (reply_unless no_memory (id_json id.entry)
            (renamed_parameter o (client_in self.now.asked.forms) (work_in self.now)
            self.now.asked.name.now self.now.asked.source.now self.now.new_name.now
            parameter.now parameter.now.name.definition)) out.old out.new result }
    {
        match parameter.local().definition() {
            Some(definition) => {
                self.put_parameter_from(alloc, disk, out, id, parameter, definition)
            }
            None => put_refused(out, id, b"no such definition"),
        }
    }

    /// Writes how a local that is defined at a span is renamed in a function.
    fn put_in_function<D: Disk, W: Write>(
        &self,
        alloc: Global,
        disk: &D,
        out: &mut Sink<W>,
        id: Id<'_>,
        own: &Local,
        definition: Span,
        function: &FunctionNames,
    ) -> Result<(), WriteFault>
        requires { self.now.asked.facts.now
            ≡ facts_in (work_in self.now).world.profile self.now.asked.source.now }
        ensures { (no_memory : Bool) × (o : Oracle) × Replies (D.finds disk.now)
            (reply_unless no_memory (id_json id.entry)
            (renamed_local o (client_in self.now.asked.forms) (work_in self.now)
            self.now.asked.name.now self.now.asked.source.now self.now.new_name.now own.now
            (Some definition) (Some function.now))) out.old out.new result }
    {
        let old = bytes_of(self.asked.source, definition);
        match self.unless_local(alloc, function, old, own) {
            Ok(Some(why)) => put_unedited(out, id, why),
            Ok(None) => self.put_if_edited(alloc, disk, out, id, own.uses()),
            Err(_) => put_refusal(out, id),
        }
    }

    /// Writes how a local that stands at a place is renamed.
    pub(crate) fn put_local<D: Disk, W: Write>(
        &self,
        alloc: Global,
        disk: &D,
        out: &mut Sink<W>,
        id: Id<'_>,
        code: &Code<'_>,
        place: u32,
        own: &Local,
    ) -> Result<(), WriteFault>
        requires code { code.now ≡ self.now.asked.source.now }
        requires facts { self.now.asked.facts.now
            ≡ facts_in (work_in self.now).world.profile self.now.asked.source.now }
        ensures { (no_memory : Bool) × (o : Oracle) × Replies (D.finds disk.now)
            (reply_unless no_memory (id_json id.entry)
            (renamed_local o (client_in self.now.asked.forms) (work_in self.now)
            self.now.asked.name.now self.now.asked.source.now self.now.new_name.now own.now
            own.now.definition (function_names self.now.asked.source.now place)))
            out.old out.new result }
    {
        let Some(definition) = own.definition() else {
            return put_refused(out, id, b"no such definition");
        };
        match code.function_names(alloc, place) {
            Ok(Some(function)) => {
                self.put_in_function(alloc, disk, out, id, own, definition, &function)
            }
            Ok(None) => put_refused(out, id, b"no such definition"),
            Err(_) => put_refusal(out, id),
        }
    }
}
