//! What is kept: names, and versions with what is found in them, each under a number; and the
//! bytes of these that spans name, with their order.
ghost use Rattle.std.specs.Prelude.{◌≡◌, ◌<◌, ◌≤◌, ◌+◌, ◌++◌, ◌∷◌, [], IfOk, OnOk, false, length};
ghost use Rattle.std.specs.Prelude.{map, slice_index_or, take};
ghost use Rattle.std.specs.Cmp.Lexicographic.{slice_cmp};
ghost use Rattle.std.specs.List.{All, AllByRecursion, swap_remove};
ghost use Rattle.std.specs.Option.{option_copied};
ghost use Rattle.std.specs.Ordering.{nat_cmp};
ghost use Rattle.cb_scan.specs.Profiles.{facts_in};
ghost use Rattle.cb_index.specs.Archived.{AreBytes, name_of, text_at, text_of};
ghost use Rattle.cb_index.specs.Bytes.{bytes_at, cut, place_at};
ghost use Rattle.cb_index.specs.Columns.{HasNone, column_of};
ghost use Rattle.cb_index.specs.declared.entry.FactKind.{FactKind};
ghost use Rattle.cb_index.specs.Scanned.{facts_of};

use crate::blocks::Place;
use crate::columns::{Cell, Columns};
use crate::entry::FactKind;
use cb_scan::{Facts, Profile, Source, Span, key_prefix};
use std::alloc::Global;
use std::cmp::Ordering;
use std::marker::Model;

/// A growth was refused.
#[derive(Clone, Copy, Debug, PartialEq, Eq)]
pub struct OutOfMemory;

/// The bytes of a span, cut at the end of the text.
pub(crate) fn cut(text: &[u8], span: Span) -> &[u8]
    ensures { result.now ≡ cut text.now span }
{
    let end = (span.end as usize).min(text.len());
    let start = (span.start as usize).min(end);
    &text[start..end]
}

/// The bytes of a span; none where there is no span.
pub(crate) fn bytes_at(text: &[u8], span: Option<Span>) -> &[u8]
    ensures { result.now ≡ bytes_at text.now span }
{
    match span {
        Some(span) => cut(text, span),
        None => &[],
    }
}

/// Where a span begins; nowhere where there is no span.
pub(crate) fn place_at(span: Option<Span>) -> Option<u32>
    ensures { result ≡ place_at span }
{
    match span {
        Some(span) => Some(span.start),
        None => None,
    }
}

/// Says that the elements of a text are bytes. It does nothing.
pub(crate) fn read_bytes(text: &[u8])
    ensures { All (λ b. b < 256) text.now }
{
    for byte in text {
        let _byte = *byte;
    }
}

/// The order of two keys by their bytes, eight of them at a time where both have as many.
pub(crate) fn compare_by_words(a: &[u8], b: &[u8]) -> Ordering
    ensures { result ≡ slice_cmp nat_cmp a.now b.now }
{
    let mut left = a;
    let mut right = b;
    'words: while left.len() >= 8 && right.len() >= 8 {
        read_bytes(left);
        read_bytes(right);
        let (one, other) = (key_prefix(left), key_prefix(right));
        if one != other {
            return one.cmp(&other);
        }
        left = &left[8..];
        right = &right[8..];
    }
    left.cmp(right)
}

/// A source with what its profile finds in it. Its value is the profile and the text.
#[derive(Debug, Drop)]
pub(crate) struct ScannedSource {
    profile: Profile,
    source: Source,
    facts: Facts,
}

impl Model for ScannedSource {
    ghost use Rattle.std.specs.Prelude.{◌≡◌};
    ghost use Rattle.cb_scan.specs.Profiles.{facts_in};
    ghost use Rattle.cb_index.specs.Scanned.{Scanned};

    ghost Value = { Scanned };

    ghost view = { λ s. record { profile = s.profile; bytes = s.source } };

    ghost invariant = { λ s. s.facts ≡ facts_in s.profile s.source };
}

impl ScannedSource {
    pub(crate) fn new(profile: Profile, source: Source, facts: Facts) -> ScannedSource
        requires { facts ≡ facts_in profile source }
        ensures profile { result.profile ≡ profile }
        ensures bytes { result.bytes ≡ source }
    {
        ScannedSource {
            profile,
            source,
            facts,
        }
    }

    pub(crate) fn profile(&self) -> Profile
        ensures { result ≡ self.now.profile }
    {
        self.profile
    }

    pub(crate) fn source(&self) -> &Source
        ensures { result.now ≡ self.now.bytes }
    {
        &self.source
    }

    /// What is found in it.
    pub(crate) fn facts(&self) -> &Facts
        ensures { result.now ≡ facts_of self.now }
    {
        &self.facts
    }
}

/// A source with what its profile finds in it, and the columns of its uses and calls. Its value is
/// the profile and the text.
#[derive(Debug, Drop)]
pub struct Version {
    text: ScannedSource,
    columns: Columns,
    /// Where it is likely to stand in the list of what is shown.
    place: Place,
}

impl Model for Version {
    ghost use Rattle.cb_index.specs.Columns.{AreColumns};
    ghost use Rattle.cb_index.specs.Scanned.{Scanned};

    ghost Value = { Scanned };

    ghost view = { λ v. v.text };

    ghost invariant = { λ v. AreColumns v.text v.columns };
}

impl Version {
    /// The version of a source, with what a profile finds in it.
    pub fn new(
        alloc: Global,
        profile: Profile,
        source: Source,
        facts: Facts,
    ) -> Result<Version, OutOfMemory>
        requires { facts ≡ facts_in profile source }
        ensures profile { IfOk result (λ version. version.profile ≡ profile) }
        ensures bytes { IfOk result (λ version. version.bytes ≡ source) }
    {
        let text = ScannedSource::new(profile, source, facts);
        let columns = Columns::new(alloc, &text)?;
        Ok(Version {
            text,
            columns,
            place: Place { block: 0, at: 0 },
        })
    }

    /// Notes where it stands in the list of what is shown.
    fn note_place(&mut self, place: Place)
        ensures { self.new ≡ self.old }
    {
        self.place = place;
    }

    /// The source with its facts.
    pub(crate) fn text(&self) -> &ScannedSource
        ensures { result.now ≡ self.now }
    {
        &self.text
    }

    /// The profile by which it was scanned.
    pub fn profile(&self) -> Profile
        ensures { result ≡ self.now.profile }
    {
        self.text.profile()
    }

    pub fn source(&self) -> &Source
        ensures { result.now ≡ self.now.bytes }
    {
        self.text.source()
    }

    /// What is found in its text.
    pub fn facts(&self) -> &Facts
        ensures { result.now ≡ facts_of self.now }
    {
        self.text.facts()
    }

    /// Whether a use or a call of it may have a name or a caller of a hash.
    pub(crate) fn may_have(&self, hash: u32) -> bool
        ensures { (sort : FactKind) → result ≡ false → HasNone hash (column_of sort self.now) }
    {
        self.columns.may_have(hash)
    }

    /// The column of its uses or calls.
    pub(crate) fn column(&self, sort: FactKind) -> &[Cell]
        ensures { result.now ≡ column_of sort self.now }
    {
        self.columns.of(sort)
    }
}

/// File names, and versions of texts with what one profile finds in them, each under a number,
/// from 0.
#[derive(Debug, Drop)]
pub struct Archive {
    profile: Profile,
    names: Vec<Vec<u8>>,
    versions: Vec<Version>,
}

impl Model for Archive {
    ghost use Rattle.std.specs.Prelude.{map, min, vec_capacity};
    ghost use Rattle.std.specs.List.{AllByRecursion};
    ghost use Rattle.cb_index.specs.Archived.{Archived, IsVersionBy};

    ghost Value = { Archived };

    ghost view = { λ a. record {
      profile = a.profile;
      names = map (λ n. n.items) a.names.items;
      texts = map (λ v. v.bytes) a.versions.items;
      name_room = min (vec_capacity a.names) 4294967295;
      version_room = min (vec_capacity a.versions) 4294967295;
    } };

    ghost invariant = { λ a. AllByRecursion (IsVersionBy a.profile) a.versions.items };
}

impl Archive {
    /// An archive for texts that are scanned by a profile; it keeps nothing. It takes no memory.
    pub fn new(alloc: Global, profile: Profile) -> Archive
        ensures profile { result.profile ≡ profile }
        ensures names { result.names ≡ [] }
        ensures texts { result.texts ≡ [] }
    {
        Archive {
            profile,
            names: Vec::new(alloc),
            versions: Vec::new(alloc),
        }
    }

    /// The profile by which all its texts are scanned.
    pub fn profile(&self) -> Profile
        ensures { result ≡ self.now.profile }
    {
        self.profile
    }

    /// Makes room for that many names and versions in all. What is kept stays, also where memory is
    /// refused.
    pub fn reserve(&mut self, names: u32, versions: u32) -> Result<(), OutOfMemory>
        ensures names { OnOk result (names ≤ self.new.name_room) }
        ensures versions { OnOk result (versions ≤ self.new.version_room) }
        ensures same_profile { self.new.profile ≡ self.old.profile }
        ensures same_names { self.new.names ≡ self.old.names }
        ensures same_texts { self.new.texts ≡ self.old.texts }
        ensures name_room { self.old.name_room ≤ self.new.name_room }
        ensures version_room { self.old.version_room ≤ self.new.version_room }
    {
        let more_names = (names as usize).saturating_sub(self.names.len());
        if self.names.reserve(more_names).is_err() {
            return Err(OutOfMemory);
        }
        let more_versions = (versions as usize).saturating_sub(self.versions.len());
        match self.versions.reserve(more_versions) {
            Ok(()) => Ok(()),
            Err(_) => Err(OutOfMemory),
        }
    }

    /// Keeps a name under the number that is answered: the count of names before.
    pub fn push_name(&mut self, name: Vec<u8>) -> u32
        requires { length self.old.names < self.old.name_room }
        ensures value { result ≡ length self.old.names }
        ensures profile { self.new.profile ≡ self.old.profile }
        ensures names { self.new.names ≡ self.old.names ++ name.items ∷ [] }
        ensures texts { self.new.texts ≡ self.old.texts }
        ensures room { self.old.name_room ≤ self.new.name_room }
        ensures version_room { self.new.version_room ≡ self.old.version_room }
    {
        let number = self.names.len() as u32;
        if self.names.push(name).is_err() {
            unreachable!()
        }
        number
    }

    /// Keeps a version under the number that is answered: the count of versions before.
    pub fn push_version(&mut self, version: Version) -> u32
        requires profile { version.profile ≡ self.old.profile }
        requires room { length self.old.texts < self.old.version_room }
        ensures value { result ≡ length self.old.texts }
        ensures profile { self.new.profile ≡ self.old.profile }
        ensures texts { self.new.texts ≡ self.old.texts ++ version.bytes ∷ [] }
        ensures names { self.new.names ≡ self.old.names }
        ensures room { self.old.version_room ≤ self.new.version_room }
        ensures name_room { self.new.name_room ≡ self.old.name_room }
    {
        let number = self.versions.len() as u32;
        read_bytes(version.source().bytes());
        if self.versions.push(version).is_err() {
            unreachable!()
        }
        number
    }

    /// Keeps only the first `versions` versions and the first `names` names.
    pub fn truncate(&mut self, versions: u32, names: u32)
        ensures profile { self.new.profile ≡ self.old.profile }
        ensures texts { self.new.texts ≡ take versions self.old.texts }
        ensures names { self.new.names ≡ take names self.old.names }
        ensures name_room { self.new.name_room ≡ self.old.name_room }
        ensures version_room { self.new.version_room ≡ self.old.version_room }
    {
        self.versions.truncate(versions as usize);
        self.names.truncate(names as usize);
    }

    /// Lets a version go. The last one, if that is another, gets its number.
    pub(crate) fn remove(&mut self, version: usize)
        requires { version < length self.old.texts }
        ensures profile { self.new.profile ≡ self.old.profile }
        ensures names { self.new.names ≡ self.old.names }
        ensures texts { self.new.texts ≡ swap_remove self.old.texts version [] }
        ensures name_room { self.new.name_room ≡ self.old.name_room }
        ensures version_room { self.new.version_room ≡ self.old.version_room }
    {
        let _gone = self.versions.swap_remove(version);
    }

    /// Says that all texts are lists of bytes. It does nothing.
    pub(crate) fn read_texts(&self)
        ensures { AllByRecursion AreBytes self.now.texts }
    {
        let _versions = self.versions.len();
    }

    /// How many names are kept.
    pub fn name_count(&self) -> usize
        ensures { result ≡ length self.now.names }
    {
        self.names.len()
    }

    /// How many versions are kept.
    pub fn version_count(&self) -> usize
        ensures { result ≡ length self.now.texts }
    {
        self.versions.len()
    }

    /// The name under a number; empty where there is none.
    pub fn name(&self, name: u32) -> &[u8]
        ensures { result.now ≡ name_of self.now name }
    {
        if (name as usize) < self.names.len() {
            self.names[name as usize].as_slice()
        } else {
            &[]
        }
    }

    /// The source under a number.
    pub fn source(&self, version: u32) -> &Source
        requires { version < length self.now.texts }
        ensures { result.now ≡ slice_index_or self.now.texts version [] }
    {
        self.versions[version as usize].source()
    }

    /// The facts of the source under a number.
    pub fn facts(&self, version: u32) -> &Facts
        requires { version < length self.now.texts }
        ensures { result.now ≡ facts_of (text_of self.now version) }
    {
        self.versions[version as usize].facts()
    }

    /// Notes where a version stands in the list of what is shown.
    pub(crate) fn note_place(&mut self, version: u32, place: Place)
        ensures { self.new ≡ self.old }
    {
        if (version as usize) < self.versions.len() {
            self.versions[version as usize].note_place(place);
        }
    }

    /// Where a version is likely to stand in the list of what is shown.
    pub(crate) fn likely_place(&self, version: usize) -> Place {
        match self.versions.get(version) {
            Some(version) => version.place,
            None => Place { block: 0, at: 0 },
        }
    }

    /// The version under a number, if it is there.
    pub(crate) fn version(&self, version: u32) -> Option<&Version>
        ensures { option_copied result ≡ text_at self.now version }
    {
        self.versions.get(version as usize)
    }
}
