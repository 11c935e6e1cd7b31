//! Names that are changed: the edits of their uses.
ghost use Rattle.std.specs.Prelude.{◌≡◌, ◌≤◌, Bool, Err, Some, length, take};
ghost use Rattle.std.specs.Option.{option_map};
ghost use Rattle.cb_desk.specs.World.{text_of_file};
ghost use Rattle.cb_index.specs.Rows.{uses_of};
ghost use Rattle.cb_names.specs.Meanings.{local_at};
ghost use Rattle.cb_scan.specs.Profiles.{facts_in};
ghost use Rattle.cb_tags.specs.Writing.{Puts};
ghost use Rattle.cb_wire.specs.Messages.{id_json};
ghost use Rattle.cb_wire.specs.Positions.{place};
ghost use Rattle.cb_wire.specs.Texts.{frame};
ghost use Rattle.cb_wire.specs.Trees.{result_reply};
ghost use Rattle.cb_wire.specs.Values.{value_text};
ghost use Rattle.cb_lsp.specs.Answers.{answer_reply, reply_with};
ghost use Rattle.cb_lsp.specs.Bodies.{Replies};
ghost use Rattle.cb_lsp.specs.Documents.{Oracle, Reading};
ghost use Rattle.cb_lsp.specs.NameRenames.{renamed_name, renamed_there};
ghost use Rattle.cb_lsp.specs.Messages.{reply_unless};
ghost use Rattle.cb_lsp.specs.Models.{found_in};
ghost use Rattle.cb_lsp.specs.Names.{is_outside, leads_down};
ghost use Rattle.cb_lsp.specs.Parameters.{parameter_there};
ghost use Rattle.cb_lsp.specs.Renames.{all_edits, are_open, check, checked, is_never_edited};
ghost use Rattle.cb_lsp.specs.Renames.{is_some_use, renamed_all};
ghost use Rattle.cb_lsp.specs.Renames.{unless_found, unless_linked};
ghost use Rattle.cb_lsp.specs.steps.Located.{client_in};
ghost use Rattle.cb_lsp.specs.steps.References.{UsesAreByPlace};
ghost use Rattle.cb_lsp.specs.steps.Same.{spots_left};
ghost use Rattle.cb_lsp.specs.steps.Renames.{check_if, edits_left, is_last_of, reason_of, work_in};
ghost use Rattle.cb_lsp.specs.steps.Renames.{ComesTo};
ghost use Rattle.cb_lsp.specs.steps.Works.{one_change};

use crate::alike::is_counted_alike;
use crate::answers::FileAsked;
use crate::disk::{Disk, Found, has_text, most_read};
use crate::documents::Documents;
use crate::location::Located;
use crate::spots::Spots;
use crate::written::{put_because, put_odd_bytes, put_refusal, put_refused, put_unknown_type};
use cb_desk::Desk;
use cb_names::Code;
use cb_tags::{Sink, WriteFault};
use cb_wire::{Elements, FileEdit, Id, MOST_ELEMENTS, Part, Position, put_list_result};
use std::alloc::Global;
use std::io::Write;

/// Whether a use in a file is the last one there, before others.
fn is_last_of(file: &[u8], most: usize, rest: &Spots<'_, '_>) -> bool
    ensures { result ≡ is_last_of file.now (take most (spots_left rest.now)) }
{
    if most == 0 {
        return true;
    }
    let mut left = rest.again();
    match left.next() {
        Some(spot) => spot.file != file,
        None => true,
    }
}

/// The edits of uses that are renamed, by file. They take no memory.
#[derive(Drop)]
pub(crate) struct UseEdits<'a, 'p> {
    places: Located<'a>,
    rest: Spots<'a, 'p>,
    /// So many are left at most.
    most: usize,
    new_name: &'a [u8],
    /// The next one is the first one of its file.
    opens: bool,
}

impl<'a, 'p> Elements for UseEdits<'a, 'p> {
    type Item = FileEdit<'a>;

    ghost texts = { edits_left };

    fn again(&self) -> UseEdits<'a, 'p> {
        UseEdits {
            places: self.places.again(),
            rest: self.rest.again(),
            most: self.most,
            new_name: self.new_name,
            opens: self.opens,
        }
    }

    fn next(&mut self) -> Option<FileEdit<'a>> {
        if self.most == 0 {
            return None;
        }
        let Some(spot) = self.rest.next() else {
            return None;
        };
        self.most -= 1;
        let opens = self.opens;
        let closes = is_last_of(spot.file, self.most, &self.rest);
        self.opens = closes;
        Some(FileEdit {
            location: self.places.use_place(&spot),
            new_text: self.new_name,
            opens,
            closes,
        })
    }
}

/// Why a name is not renamed.
#[derive(Clone, Copy, Debug)]
pub(crate) enum Unedited<'a> {
    /// The editor may have another text than the server.
    NotOpen(&'a [u8]),
    /// The editor has it open under a second name.
    SecondName(&'a [u8]),
    /// Memory was refused where a file was read again.
    NoMemory,
    /// The old name or the new one is none that a rename takes or gives.
    BadName,
    /// The new name stands where the old one does.
    UsedAlready,
    /// A macro or a typedef has one of them.
    MacroOrType,
    /// A macro that the function names leads to one of them.
    InMacro(&'a [u8]),
    /// A macro may make something else of arguments that hold it.
    InArguments(&'a [u8]),
    /// This header is included in the function.
    FromOutside(&'a [u8]),
    /// Beside a use, on this line, stands a byte that may be one of a name.
    OddBytes(&'a [u8], u32),
    /// Editors count columns of the file in different ways.
    NotText(&'a [u8]),
    /// The member on this line may be that of several types.
    UnknownType(&'a [u8], u32),
}

/// Writes why a name is not renamed.
pub(crate) fn put_unedited<W: Write>(
    out: &mut Sink<W>,
    id: Id<'_>,
    why: Unedited<'_>,
) -> Result<(), WriteFault>
    ensures { Puts out.old out.new result (frame (value_text (answer_reply (id_json id.entry)
        (Err (reason_of why.entry))))) }
{
    match why {
        Unedited::NotOpen(file) => put_because(out, id, b"not open: ", file),
        Unedited::SecondName(file) => put_because(out, id, b"open under a second name: ", file),
        Unedited::NoMemory => put_refusal(out, id),
        Unedited::BadName => put_refused(out, id, b"bad name"),
        Unedited::UsedAlready => put_refused(out, id, b"name is used already"),
        Unedited::MacroOrType => put_refused(out, id, b"a macro or type has this name"),
        Unedited::InMacro(name) => put_because(out, id, b"used in a macro: ", name),
        Unedited::InArguments(name) => {
            put_because(out, id, b"in the arguments of a macro: ", name)
        }
        Unedited::FromOutside(header) => put_because(out, id, b"used from outside: ", header),
        Unedited::OddBytes(file, line) => put_odd_bytes(out, id, file, line),
        Unedited::NotText(file) => put_because(out, id, b"not text: ", file),
        Unedited::UnknownType(file, line) => put_unknown_type(out, id, file, line),
    }
}

/// Whether a segment of a name leads further down.
fn leads_down(segment: &[u8]) -> bool
    ensures { result ≡ leads_down segment.now }
{
    !(segment == b"".as_slice() || segment == b".".as_slice()) && !(segment == b"..".as_slice())
}

/// Whether a name is not the one that a file below the root has.
fn is_outside(name: &[u8]) -> bool
    ensures { result ≡ is_outside name.now }
{
    !name
        .split(|byte| *byte == b'/')
        .all(|segment| leads_down(segment))
}

/// Whether a name has a use.
pub(crate) fn is_used(desk: &Desk, name: &[u8]) -> bool
    ensures { result ≡ is_some_use (uses_of desk.now.timeline.present.profile name.now
        desk.now.timeline.present.files) }
{
    let mut uses = desk.uses(name);
    match uses.next() {
        Some(_) => true,
        None => false,
    }
}

/// A new name for a word of a file, and the documents that are open.
#[derive(Clone, Copy)]
pub(crate) struct Renaming<'a> {
    pub(crate) asked: FileAsked<'a>,
    pub(crate) documents: &'a Documents,
    pub(crate) new_name: &'a [u8],
}

impl<'a> Renaming<'a> {
    /// Why a file that is not open is not edited, by what is found of it.
    fn unless_found(&self, file: &'a [u8], found: Found) -> Option<Unedited<'a>>
        ensures { option_map reason_of result ≡ unless_found file.entry.now
            (text_of_file (work_in self.now).world.files file.entry.now) (found_in found) }
    {
        match found {
            Found::Holds(text) => {
                let same = has_text(self.asked.desk, file, text.as_slice());
                if same && is_counted_alike(text.as_slice()) {
                    None
                } else {
                    Some(Unedited::NotOpen(file))
                }
            }
            Found::NoRoom => Some(Unedited::NoMemory),
            Found::Gone => Some(Unedited::NotOpen(file)),
            Found::Linked => Some(Unedited::NotOpen(file)),
            Found::Unreadable => Some(Unedited::NotOpen(file)),
        }
    }

    /// Why a file that is open is not edited, by what is found of it.
    fn unless_linked(&self, file: &'a [u8], found: Found) -> Option<Unedited<'a>>
        ensures { option_map reason_of result ≡ unless_linked file.entry.now (found_in found) }
    {
        match found {
            Found::Linked => Some(Unedited::SecondName(file)),
            Found::Gone | Found::Unreadable | Found::Holds(_) => None,
            Found::NoRoom => Some(Unedited::NoMemory),
        }
    }

    /// Whether a file is outside the root, or out of date.
    fn is_never_edited(&self, file: &[u8]) -> bool
        ensures { result ≡ is_never_edited (work_in self.now).documents file.now }
    {
        is_outside(file) || self.documents.is_lost(file)
    }

    /// Why a file is not edited. It is read again, unless all files are open.
    pub(crate) fn unedited<D: Disk>(
        &self,
        alloc: Global,
        disk: &D,
        all_open: bool,
        file: &'a [u8],
    ) -> Option<Unedited<'a>>
        ensures { (no_path : Bool) × (found : Reading) × ComesTo (D.finds disk.now)
            (check (one_change no_path found) (client_in self.now.asked.forms) (work_in self.now)
            all_open file.entry.now) result }
    {
        if self.is_never_edited(file) {
            return Some(Unedited::NotOpen(file));
        }
        if all_open {
            return None;
        }
        let path = match self.asked.forms.root.path_of(alloc, file) {
            Ok(path) => path,
            Err(_) => return Some(Unedited::NoMemory),
        };
        let most = most_read(self.asked.desk);
        let found = disk.read(alloc, path.as_slice(), most, file.len());
        if self.documents.is_open(file) {
            self.unless_linked(file, found)
        } else {
            self.unless_found(file, found)
        }
    }

    /// The same for the file of a use, if it is the first one of its file.
    fn unedited_if<D: Disk>(
        &self,
        alloc: Global,
        disk: &D,
        all_open: bool,
        opens: bool,
        file: &'a [u8],
    ) -> Option<Unedited<'a>>
        ensures { (no_path : Bool) × (found : Reading) × ComesTo (D.finds disk.now)
            (check_if opens (one_change no_path found) (client_in self.now.asked.forms)
            (work_in self.now) all_open file.entry.now) result }
    {
        if opens {
            self.unedited(alloc, disk, all_open, file)
        } else {
            None
        }
    }

    /// Whether the files of uses are open.
    fn are_open(&self, uses: Spots<'a, '_>) -> bool
        ensures { result ≡ are_open (work_in self.now).documents (spots_left uses.entry) }
    {
        let mut left = uses;
        'uses: while let Some(spot) = left.next() {
            if !self.documents.is_open(spot.file) {
                return false;
            }
        }
        true
    }

    /// Why the first file that is not edited is not.
    fn first_unedited<D: Disk>(
        &self,
        alloc: Global,
        disk: &D,
        uses: Spots<'a, '_>,
    ) -> Option<Unedited<'a>>
        requires { UsesAreByPlace (spots_left uses) }
        ensures { (o : Oracle) × ComesTo (D.finds disk.now) (checked o
            (client_in self.now.asked.forms) (work_in self.now) (spots_left uses.entry)) result }
    {
        let all_open = self.are_open(uses.again());
        let mut left = uses;
        let mut opens = true;
        'uses: while let Some(spot) = left.next() {
            match self.unedited_if(alloc, disk, all_open, opens, spot.file) {
                Some(why) => return Some(why),
                None => opens = is_last_of(spot.file, 1, &left),
            }
        }
        None
    }

    /// Writes the edits of uses.
    fn put_edits<W: Write>(
        &self,
        out: &mut Sink<W>,
        id: Id<'_>,
        uses: Spots<'a, '_>,
    ) -> Result<(), WriteFault>
        requires { UsesAreByPlace (spots_left uses) }
        ensures { Puts out.old out.new result (frame (value_text (result_reply (id_json id.entry)
            (all_edits (client_in self.now.asked.forms) (work_in self.now).world.files
            self.now.new_name.now (spots_left uses.entry))))) }
    {
        let edits = UseEdits {
            places: Located::new(self.asked.forms, self.asked.desk),
            rest: uses,
            most: MOST_ELEMENTS,
            new_name: self.new_name,
            opens: true,
        };
        put_list_result(
            out,
            id,
            b"{\"changes\":{",
            b",",
            &[Part::Raw(b"}}")],
            MOST_ELEMENTS,
            edits,
        )
    }

    /// Writes how uses are renamed, where each of their files is edited.
    pub(crate) fn put_all<D: Disk, W: Write>(
        &self,
        alloc: Global,
        disk: &D,
        out: &mut Sink<W>,
        id: Id<'_>,
        uses: Spots<'a, '_>,
    ) -> Result<(), WriteFault>
        requires { UsesAreByPlace (spots_left uses) }
        ensures { (o : Oracle) × Replies (D.finds disk.now) (reply_with (id_json id.entry)
            (renamed_all o (client_in self.now.asked.forms) (work_in self.now)
            self.now.new_name.now (spots_left uses.entry))) out.old out.new result }
    {
        match self.first_unedited(alloc, disk, uses.again()) {
            Some(why) => put_unedited(out, id, why),
            None => self.put_edits(out, id, uses),
        }
    }

    /// Writes how what stands at a place of the code is renamed.
    fn put_code<D: Disk, W: Write>(
        &self,
        alloc: Global,
        disk: &D,
        out: &mut Sink<W>,
        id: Id<'_>,
        code: &Code<'_>,
        place: u32,
    ) -> Result<(), WriteFault>
        requires code { code.now ≡ self.now.asked.source.now }
        requires place { place ≤ length self.now.asked.source.now }
        requires facts { self.now.asked.facts.now
            ≡ facts_in (work_in self.now).world.profile self.now.asked.source.now }
        ensures { (no_memory : Bool) × (o : Oracle) × Replies (D.finds disk.now)
            (reply_unless no_memory (id_json id.entry)
            (renamed_name o (client_in self.now.asked.forms) (work_in self.now)
            self.now.asked.name.now self.now.asked.source.now self.now.new_name.now place
            (local_at self.now.asked.source.now place))) out.old out.new result }
    {
        match code.local_at(alloc, place) {
            Ok(None) => self.put_name(alloc, disk, out, id, code, place),
            Ok(Some(own)) => self.put_local(alloc, disk, out, id, code, place, &own),
            Err(_) => put_refusal(out, id),
        }
    }

    /// The same, where the code is not read yet.
    fn put_text<D: Disk, W: Write>(
        &self,
        alloc: Global,
        disk: &D,
        out: &mut Sink<W>,
        id: Id<'_>,
        place: u32,
    ) -> Result<(), WriteFault>
        requires place { place ≤ length self.now.asked.source.now }
        requires facts { self.now.asked.facts.now
            ≡ facts_in (work_in self.now).world.profile self.now.asked.source.now }
        ensures { (no_memory : Bool) × (o : Oracle) × Replies (D.finds disk.now)
            (reply_unless no_memory (id_json id.entry)
            (renamed_name o (client_in self.now.asked.forms) (work_in self.now)
            self.now.asked.name.now self.now.asked.source.now self.now.new_name.now place
            (local_at self.now.asked.source.now place))) out.old out.new result }
    {
        match Code::new(alloc, self.asked.source) {
            Ok(code) => self.put_code(alloc, disk, out, id, &code, place),
            Err(_) => put_refusal(out, id),
        }
    }

    /// Writes how what stands at a position is renamed.
    pub(crate) fn put<D: Disk, W: Write>(
        &self,
        alloc: Global,
        disk: &D,
        out: &mut Sink<W>,
        id: Id<'_>,
        position: Position,
    ) -> Result<(), WriteFault>
        requires { self.now.asked.facts.now
            ≡ facts_in (work_in self.now).world.profile self.now.asked.source.now }
        ensures { (no_memory : Bool) × (o : Oracle) × Replies (D.finds disk.now)
            (reply_unless no_memory (id_json id.entry)
            (let at = place self.now.asked.forms.encoding self.now.asked.source.now position in
            renamed_there o (client_in self.now.asked.forms) (work_in self.now)
            self.now.asked.name.now self.now.asked.source.now self.now.new_name.now at
            (parameter_there (facts_in (work_in self.now).world.profile
            self.now.asked.source.now).defs self.now.asked.source.now at))) out.old out.new
            result }
    {
        let place = self.asked.place(position);
        match self.asked.parameter_there(place) {
            Ok(None) => self.put_text(alloc, disk, out, id, place),
            Ok(Some(parameter)) => self.put_parameter(alloc, disk, out, id, &parameter),
            Err(_) => put_refusal(out, id),
        }
    }
}
