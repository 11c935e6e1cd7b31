//! Names of the files that are renamed: the edits of their uses, or why there are none.
ghost use Rattle.std.specs.Prelude.{◌≡◌, ◌≤◌, Bool, IfOk, IfSome, None, Some, find, length, map, not};
ghost use Rattle.std.specs.List.{list_any};
ghost use Rattle.std.specs.Option.{option_map};
ghost use Rattle.cb_desk.specs.World.{text_of_file};
ghost use Rattle.cb_index.specs.steps.Left.{fact_of_spot};
ghost use Rattle.cb_scan.specs.Profiles.{facts_in};
ghost use Rattle.cb_tags.specs.Writing.{Puts};
ghost use Rattle.cb_wire.specs.Messages.{id_json};
ghost use Rattle.cb_lsp.specs.Alike.{is_counted_alike};
ghost use Rattle.cb_lsp.specs.Bodies.{Replies};
ghost use Rattle.cb_lsp.specs.Documents.{Oracle};
ghost use Rattle.cb_lsp.specs.Messages.{reply_unless};
ghost use Rattle.cb_lsp.specs.NameRenames.{is_mixed, is_odd_use, is_unlike_use, renamed_name};
ghost use Rattle.cb_lsp.specs.NameRenames.{renamed_sort, renamed_uses, renamed_word, unless_odd};
ghost use Rattle.cb_lsp.specs.NameRenames.{unless_typed, unless_unlike, unless_uses, unless_word};
ghost use Rattle.cb_lsp.specs.NameRenames.{first_outside, has_kind, is_kept, renamed_found};
ghost use Rattle.cb_lsp.specs.NameRenames.{unless_kept, untyped};
ghost use Rattle.cb_lsp.specs.Renames.{from_outside};
ghost use Rattle.cb_index.specs.Rows.{Fact};
ghost use Rattle.std.specs.Str.{bytes_eq};
ghost use Rattle.std.specs.Option.{option_copied};
ghost use Rattle.std.specs.Prelude.{if◌then◌else◌};
ghost use Rattle.cb_tags.specs.TagLines.{tag_of};
ghost use Rattle.cb_lsp.specs.Parameters.{is_macro};
ghost use Rattle.cb_index.specs.Rows.{tags_named};
ghost use Rattle.cb_tags.specs.TagLines.{Tag};
ghost use Rattle.cb_scan.specs.Lines.{line_of};
ghost use Rattle.cb_lsp.specs.Answers.{reply_with};
ghost use Rattle.std.specs.Prelude.{true};
ghost use Rattle.cb_lsp.specs.WordUses.{references_in};
ghost use Rattle.cb_lsp.specs.steps.Completions.{is_last};
ghost use Rattle.cb_lsp.specs.steps.Located.{client_in};
ghost use Rattle.cb_lsp.specs.steps.References.{UsesAreByPlace};
ghost use Rattle.cb_lsp.specs.steps.Renames.{reason_of, work_in};

use crate::alike::is_counted_alike;
use crate::disk::Disk;
use crate::nearest::is_private;
use crate::place::bytes_of;
use crate::rename::{Renaming, Unedited, is_used, put_unedited};
use crate::renamed_text::{is_bad, is_beside_odd};
use crate::same::Sort;
use crate::spots::Spots;
use crate::word::word_at;
use crate::written::{put_refusal, put_refused};
use cb_desk::Desk;
use cb_index::FactSpot;
use cb_names::{Code, Space};
use cb_scan::{Kind, Span};
use cb_tags::{Sink, TagRow, WriteFault};
use cb_wire::Id;
use std::alloc::{AllocError, Global};
use std::io::Write;

fn is_macro(kind: Kind) -> bool
    ensures { result ≡ is_macro kind }
{
    matches!(kind, Kind::Macro)
}

/// Whether one of the definitions of a name is that of a macro.
fn has_macro(desk: &Desk, name: &[u8]) -> bool
    ensures { result ≡ list_any (λ (t : Tag). is_macro t.kind) (tags_named
        desk.now.timeline.present.profile name.now desk.now.timeline.present.files) }
{
    let mut left = desk.definitions(name);
    'rows: while let Some(row) = left.next() {
        if is_macro(row.kind) {
            return true;
        }
    }
    false
}

/// Whether one of them is not.
fn has_other(desk: &Desk, name: &[u8]) -> bool
    ensures { result ≡ list_any (λ (t : Tag). not (is_macro t.kind)) (tags_named
        desk.now.timeline.present.profile name.now desk.now.timeline.present.files) }
{
    let mut left = desk.definitions(name);
    'rows: while let Some(row) = left.next() {
        if !is_macro(row.kind) {
            return true;
        }
    }
    false
}

/// Whether a name is that of a macro and of something else.
fn is_mixed(desk: &Desk, name: &[u8]) -> bool
    ensures { result ≡ is_mixed (tags_named desk.now.timeline.present.profile name.now
        desk.now.timeline.present.files) }
{
    has_macro(desk, name) && has_other(desk, name)
}

/// Whether definitions of a kind are of a sort.
fn has_kind(sort: Sort, kind: Kind) -> bool
    ensures { result ≡ has_kind sort kind }
{
    match sort {
        Sort::All => is_macro(kind),
        Sort::Members => false,
        Sort::Tags => matches!(kind, Kind::Struct | Kind::Union | Kind::Enum),
        Sort::Ordinary => {
            !matches!(kind, Kind::Member | Kind::Struct | Kind::Union | Kind::Enum)
        }
    }
}

/// Whether a definition is of a sort, and private to its file.
fn is_kept(sort: Sort, row: &TagRow<'_>) -> bool
    ensures { result ≡ is_kept sort (tag_of row.now) }
{
    has_kind(sort, row.kind) && is_private(row)
}

/// Whether one of some uses is in a file.
fn has_file(file: &[u8], spots: &[FactSpot<'_>]) -> bool
    ensures { result ≡ list_any (λ (u : Fact). bytes_eq u.file file.now)
        (map fact_of_spot spots.now) }
{
    let mut rest = spots;
    'spots: while let [spot, more @ ..] = rest {
        if spot.file == file {
            return true;
        }
        rest = more;
    }
    false
}

/// The file of the first use that is in another one.
fn other_file<'a>(file: &[u8], spots: &[FactSpot<'a>]) -> Option<&'a [u8]>
    ensures { option_copied result ≡ option_map (λ (u : Fact). u.file)
        (find (λ (u : Fact). not (bytes_eq u.file file.now)) (map fact_of_spot spots.now)) }
{
    let mut rest = spots;
    'spots: while let [spot, more @ ..] = rest {
        if spot.file != file {
            return Some(spot.file);
        }
        rest = more;
    }
    None
}

/// Where some uses are in a file, that of the first which is not.
fn file_outside<'a>(file: &[u8], spots: &[FactSpot<'a>]) -> Option<&'a [u8]>
    ensures { option_copied result ≡ option_map (λ (u : Fact). u.file)
        (first_outside file.now (map fact_of_spot spots.now)) }
{
    if has_file(file, spots) {
        other_file(file, spots)
    } else {
        None
    }
}

/// The same for the file to which a definition of a sort is private.
fn kept_outside<'a>(sort: Sort, row: &TagRow<'_>, spots: &[FactSpot<'a>]) -> Option<&'a [u8]>
    ensures { option_map (λ f. from_outside f.now) result ≡ (if is_kept sort (tag_of row.now)
        then option_map (λ (u : Fact). from_outside u.file)
        (first_outside (tag_of row.now).file (map fact_of_spot spots.now)) else None) }
{
    if is_kept(sort, row) {
        file_outside(row.file, spots)
    } else {
        None
    }
}

impl<'a> Renaming<'a> {
    /// The bytes of a file.
    fn text(&self, file: &[u8]) -> &'a [u8]
        ensures { result.now ≡ text_of_file (work_in self.now).world.files file.now }
    {
        match self.asked.desk.source(file) {
            Some(source) => source.bytes(),
            None => &[],
        }
    }

    /// The line of a place of a file.
    fn line(&self, file: &[u8], place: u32) -> u32
        ensures { result ≡ line_of (text_of_file (work_in self.now).world.files file.now) place }
    {
        match self.asked.desk.source(file) {
            Some(source) => source.line_of(place),
            None => 1,
        }
    }

    /// Why a name is not renamed, by the names alone.
    fn unless_word(&self, old: &[u8]) -> Option<Unedited<'a>>
        ensures { option_map reason_of result ≡ unless_word (work_in self.now).world old.now
            self.now.new_name.now }
    {
        if is_bad(old, self.new_name) {
            return Some(Unedited::BadName);
        }
        if is_used(self.asked.desk, self.new_name) {
            return Some(Unedited::UsedAlready);
        }
        if is_mixed(self.asked.desk, old) {
            Some(Unedited::MacroOrType)
        } else {
            None
        }
    }

    /// Why a member is not, by its uses that are no declarations, or by the word that is asked about.
    fn untyped(&self, word: Span, spots: &[FactSpot<'a>]) -> Unedited<'a>
        ensures { reason_of result ≡ untyped (work_in self.now).world self.now.asked.name.now
            self.now.asked.source.now word (map fact_of_spot spots.now) }
    {
        match spots {
            [spot, ..] => Unedited::UnknownType(spot.file, self.line(spot.file, spot.place)),
            [] => {
                let line = self.asked.source.line_of(word.start);
                Unedited::UnknownType(self.asked.name, line)
            }
        }
    }

    /// Why a word is not renamed, by what is asked about it.
    fn unless_typed(&self, sort: Sort, word: Span) -> Result<Option<Unedited<'a>>, AllocError>
        ensures { IfOk result (λ why. option_map reason_of why ≡ unless_typed
            (work_in self.now).world self.now.asked.name.now self.now.asked.source.now sort
            word) }
    {
        match sort {
            Sort::Members => {
                let spots = self.asked.uses_of_sort(Sort::Members, word, false)?;
                Ok(Some(self.untyped(word, spots.as_slice())))
            }
            _ => Ok(None),
        }
    }

    /// Why uses of a word are not, of which some would be renamed with a definition that is private
    /// to the file of others.
    #[tactic(auto, unfolding(crate::specs::NameRenames::unless_kept))]
    fn unless_kept(&self, sort: Sort, name: &[u8], spots: &[FactSpot<'a>]) -> Option<Unedited<'a>>
        ensures { option_map reason_of result ≡ unless_kept sort (tags_named
            (work_in self.now).world.profile name.now (work_in self.now).world.files)
            (map fact_of_spot spots.now) }
    {
        let mut left = self.asked.desk.definitions(name);
        'rows: while let Some(row) = left.next() {
            if let Some(file) = kept_outside(sort, &row, spots) {
                return Some(Unedited::FromOutside(file));
            }
        }
        None
    }

    fn is_odd_use(&self, spot: &FactSpot<'a>) -> bool
        ensures { result ≡ is_odd_use (work_in self.now).world (fact_of_spot spot.now) }
    {
        let start = spot.place as usize;
        is_beside_odd(self.text(spot.file), start, start + spot.name.len())
    }

    fn is_unlike_use(&self, spot: &FactSpot<'a>) -> bool
        ensures { result ≡ is_unlike_use (work_in self.now).world (fact_of_spot spot.now) }
    {
        !is_counted_alike(self.text(spot.file))
    }

    /// Why uses are not renamed, by the bytes beside them.
    fn unless_odd(&self, spots: &[FactSpot<'a>]) -> Option<Unedited<'a>>
        ensures { option_map reason_of result
            ≡ unless_odd (work_in self.now).world (map fact_of_spot spots.now) }
    {
        let mut rest = spots;
        'spots: while let [spot, more @ ..] = rest {
            if self.is_odd_use(spot) {
                return Some(Unedited::OddBytes(spot.file, self.line(spot.file, spot.place)));
            }
            rest = more;
        }
        None
    }

    /// Whether a use is in the file of another one, if there is one, or in one that editors count
    /// alike.
    fn is_like(&self, last: Option<&'a [u8]>, spot: &FactSpot<'a>) -> bool
        requires { IfSome last (λ f. is_counted_alike
            (text_of_file (work_in self.now).world.files f.now) ≡ true) }
        ensures { result ≡ not (is_unlike_use (work_in self.now).world (fact_of_spot spot.now)) }
    {
        if let Some(file) = last {
            if file == spot.file {
                return true;
            }
        }
        !self.is_unlike_use(spot)
    }

    /// Why they are not, by the bytes of their files.
    fn unless_unlike(&self, spots: &[FactSpot<'a>]) -> Option<Unedited<'a>>
        ensures { option_map reason_of result
            ≡ unless_unlike (work_in self.now).world (map fact_of_spot spots.now) }
    {
        let mut last = None;
        let mut rest = spots;
        'spots: while let [spot, more @ ..] = rest {
            if !self.is_like(last, spot) {
                return Some(Unedited::NotText(spot.file));
            }
            last = Some(spot.file);
            rest = more;
        }
        None
    }

    fn unless_uses(&self, spots: &[FactSpot<'a>]) -> Option<Unedited<'a>>
        ensures { option_map reason_of result
            ≡ unless_uses (work_in self.now).world (map fact_of_spot spots.now) }
    {
        match self.unless_odd(spots) {
            Some(why) => Some(why),
            None => self.unless_unlike(spots),
        }
    }

    /// Writes how uses are renamed, or why not.
    fn put_spots<D: Disk, W: Write>(
        &self,
        alloc: Global,
        disk: &D,
        out: &mut Sink<W>,
        id: Id<'_>,
        spots: &[FactSpot<'a>],
    ) -> Result<(), WriteFault>
        requires { UsesAreByPlace (map fact_of_spot spots.now) }
        ensures { (o : Oracle) × Replies (D.finds disk.now) (reply_with (id_json id.entry)
            (renamed_uses o (client_in self.now.asked.forms) (work_in self.now)
            self.now.new_name.now (map fact_of_spot spots.now))) out.old out.new result }
    {
        match self.unless_uses(spots) {
            Some(why) => put_unedited(out, id, why),
            None => self.put_all(alloc, disk, out, id, Spots { rest: spots }),
        }
    }

    /// Writes how uses of a word are renamed that are of a sort, or why not.
    fn put_found<D: Disk, W: Write>(
        &self,
        alloc: Global,
        disk: &D,
        out: &mut Sink<W>,
        id: Id<'_>,
        word: Span,
        sort: Sort,
        spots: &[FactSpot<'a>],
    ) -> Result<(), WriteFault>
        requires { UsesAreByPlace (map fact_of_spot spots.now) }
        ensures { (o : Oracle) × Replies (D.finds disk.now) (reply_with (id_json id.entry)
            (renamed_found o (client_in self.now.asked.forms) (work_in self.now)
            self.now.asked.source.now self.now.new_name.now sort word
            (map fact_of_spot spots.now))) out.old out.new result }
    {
        match self.unless_kept(sort, bytes_of(self.asked.source, word), spots) {
            Some(why) => put_unedited(out, id, why),
            None => self.put_spots(alloc, disk, out, id, spots),
        }
    }

    /// Writes how the uses of a word are renamed that are of a sort.
    fn put_sort<D: Disk, W: Write>(
        &self,
        alloc: Global,
        disk: &D,
        out: &mut Sink<W>,
        id: Id<'_>,
        word: Span,
        sort: Sort,
    ) -> Result<(), WriteFault>
        ensures { (no_memory : Bool) × (o : Oracle) × Replies (D.finds disk.now) (reply_unless
            no_memory (id_json id.entry) (renamed_found o (client_in self.now.asked.forms)
            (work_in self.now) self.now.asked.source.now self.now.new_name.now sort word
            (references_in (work_in self.now).world self.now.asked.name.now
            self.now.asked.source.now sort word true))) out.old out.new result }
    {
        match self.asked.uses_of_sort(sort, word, true) {
            Ok(spots) => self.put_found(alloc, disk, out, id, word, sort, spots.as_slice()),
            Err(_) => put_refusal(out, id),
        }
    }

    /// Writes how a word is renamed that is of a sort.
    fn put_sorted<D: Disk, W: Write>(
        &self,
        alloc: Global,
        disk: &D,
        out: &mut Sink<W>,
        id: Id<'_>,
        word: Span,
        sort: Sort,
    ) -> Result<(), WriteFault>
        ensures { (no_memory : Bool) × (o : Oracle) × Replies (D.finds disk.now) (reply_unless
            no_memory (id_json id.entry) (renamed_sort o (client_in self.now.asked.forms)
            (work_in self.now) self.now.asked.name.now self.now.asked.source.now
            self.now.new_name.now sort word)) out.old out.new result }
    {
        match self.unless_typed(sort, word) {
            Ok(None) => self.put_sort(alloc, disk, out, id, word, sort),
            Ok(Some(why)) => put_unedited(out, id, why),
            Err(_) => put_refusal(out, id),
        }
    }

    /// Writes how a word is renamed, whose name has this space.
    fn put_named<D: Disk, W: Write>(
        &self,
        alloc: Global,
        disk: &D,
        out: &mut Sink<W>,
        id: Id<'_>,
        word: Span,
        space: Option<Space>,
    ) -> Result<(), WriteFault>
        ensures { (no_memory : Bool) × (o : Oracle) × Replies (D.finds disk.now) (reply_unless
            no_memory (id_json id.entry) (renamed_word o (client_in self.now.asked.forms)
            (work_in self.now) self.now.asked.name.now self.now.asked.source.now space
            self.now.new_name.now (Some word))) out.old out.new result }
    {
        if let Some(why) = self.unless_word(bytes_of(self.asked.source, word)) {
            return put_unedited(out, id, why);
        }
        match self.asked.sort(word, space) {
            Ok(sort) => self.put_sorted(alloc, disk, out, id, word, sort),
            Err(_) => put_refusal(out, id),
        }
    }

    /// Writes how a word is renamed, if there is one.
    fn put_word<D: Disk, W: Write>(
        &self,
        alloc: Global,
        disk: &D,
        out: &mut Sink<W>,
        id: Id<'_>,
        word: Option<Span>,
        space: Option<Space>,
    ) -> Result<(), WriteFault>
        ensures { (no_memory : Bool) × (o : Oracle) × Replies (D.finds disk.now) (reply_unless
            no_memory (id_json id.entry) (renamed_word o (client_in self.now.asked.forms)
            (work_in self.now) self.now.asked.name.now self.now.asked.source.now space
            self.now.new_name.now word)) out.old out.new result }
    {
        match word {
            Some(word) => self.put_named(alloc, disk, out, id, word, space),
            None => put_refused(out, id, b"no such definition"),
        }
    }

    /// Writes how the name at a place of the code is renamed, which means nothing in its function
    /// alone.
    pub(crate) fn put_name<D: Disk, W: Write>(
        &self,
        alloc: Global,
        disk: &D,
        out: &mut Sink<W>,
        id: Id<'_>,
        code: &Code<'_>,
        place: u32,
    ) -> Result<(), WriteFault>
        requires code { code.now ≡ self.now.asked.source.now }
        requires place { place ≤ length self.now.asked.source.now }
        requires facts { self.now.asked.facts.now
            ≡ facts_in (work_in self.now).world.profile self.now.asked.source.now }
        ensures { (no_memory : Bool) × (o : Oracle) × Replies (D.finds disk.now) (reply_unless
            no_memory (id_json id.entry) (renamed_name o (client_in self.now.asked.forms)
            (work_in self.now) self.now.asked.name.now self.now.asked.source.now
            self.now.new_name.now place None)) out.old out.new result }
    {
        let word = word_at(self.asked.source, place as usize);
        match self.asked.space_there(code, place, word) {
            Ok(space) => { self.put_word(alloc, disk, out, id, self.asked.renamable(word), space) }
            Err(_) => put_refusal(out, id),
        }
    }
}
