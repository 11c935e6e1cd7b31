//! What a change brings and does, before anything moves: texts as versions, which are scanned and
//! counted, and what leads from one world to another.
ghost use Rattle.std.specs.Prelude.{◌≡◌, ◌<◌, ◌≤◌, ◌+◌, ◌^◌, ◌++◌, ◌∷◌, [], IfOk, MatchOption};
ghost use Rattle.std.specs.Prelude.{MatchResult, length, map, slice_get, slice_index_or, take};
ghost use Rattle.std.specs.Option.{option_copied, option_map};
ghost use Rattle.cb_scan.specs.Profiles.{facts_in};
ghost use Rattle.cb_index.specs.Shelved.{KeepsRoom};
ghost use Rattle.cb_desk.specs.Desk.{CountsUpTo};
ghost use Rattle.cb_desk.specs.declared.bounds.TheConstants.{MOST_BYTES};
ghost use Rattle.cb_desk.specs.steps.Room.{AreCounted, AreMore, AreTooMany, fact_count, facts_with};
ghost use Rattle.cb_desk.specs.steps.Room.{with_texts};

use crate::edits::PlaceEdits;
use cb_index::{Archive, Shelf, Shown, Totals, Version};
use cb_scan::{Facts, Meter, Profile, Source, scan};
use std::alloc::{AllocError, Global};
use std::marker::Model;

// ---- texts as versions

/// The version of a source, which is scanned by a profile.
pub(crate) fn scanned_source(
    alloc: Global,
    meter: &mut Meter,
    profile: Profile,
    source: Source,
) -> Result<Version, AllocError>
    ensures profile { IfOk result (λ version. version.profile ≡ profile) }
    ensures value { IfOk result (λ version. version.bytes ≡ source) }
    ensures meter { CountsUpTo (length source) meter.old meter.new result }
{
    let _counted = meter.read();
    let Ok(facts) = scan(alloc, meter, profile, &source) else {
        return Err(AllocError);
    };
    match Version::new(alloc, profile, source, facts) {
        Ok(version) => Ok(version),
        Err(_) => Err(AllocError),
    }
}

/// The version of a text, which is scanned by a profile.
pub(crate) fn scanned(
    alloc: Global,
    meter: &mut Meter,
    profile: Profile,
    text: Vec<u8>,
) -> Result<Version, AllocError>
    requires { length text.items ≤ MOST_BYTES }
    ensures profile { IfOk result (λ version. version.profile ≡ profile) }
    ensures value { IfOk result (λ version. version.bytes ≡ text.items) }
    ensures meter { CountsUpTo (length text.items) meter.old meter.new result }
{
    let _counted = meter.read();
    let Ok(source) = Source::new(alloc, text) else {
        return Err(AllocError);
    };
    scanned_source(alloc, meter, profile, source)
}

/// Versions of one profile.
#[derive(Drop)]
pub(crate) struct NewVersions {
    profile: Profile,
    list: Vec<Version>,
}

impl Model for NewVersions {
    ghost use Rattle.std.specs.Prelude.{map};
    ghost use Rattle.std.specs.List.{AllByRecursion};
    ghost use Rattle.cb_desk.specs.steps.Plans.{IsOf, NewTexts};

    ghost Value = { NewTexts };

    ghost view = { λ n. record {
      profile = n.profile;
      texts = map (λ v. v.bytes) n.list.items;
    } };

    ghost invariant = { λ n. AllByRecursion (IsOf n.profile) n.list.items };
}

impl NewVersions {
    /// No version. It takes no memory.
    pub(crate) fn none(alloc: Global, profile: Profile) -> NewVersions
        ensures profile { result.profile ≡ profile }
        ensures texts { result.texts ≡ [] }
    {
        NewVersions {
            profile,
            list: Vec::new(alloc),
        }
    }

    /// Adds a version of the same profile.
    pub(crate) fn push(&mut self, version: Version) -> Result<(), AllocError>
        requires { version.profile ≡ self.old.profile }
        ensures profile { self.new.profile ≡ self.old.profile }
        ensures texts { MatchResult result
            (λ _. self.new.texts ≡ self.old.texts ++ version.bytes ∷ [])
            (λ _. self.new.texts ≡ self.old.texts) }
    {
        self.list.push(version)?;
        Ok(())
    }

    /// One version.
    pub(crate) fn one(alloc: Global, version: Version) -> Result<NewVersions, AllocError>
        ensures profile { IfOk result (λ one. one.profile ≡ version.profile) }
        ensures texts { IfOk result (λ one. one.texts ≡ version.bytes ∷ []) }
    {
        let mut one = NewVersions::none(alloc, version.profile());
        one.push(version)?;
        Ok(one)
    }

    /// How many there are.
    pub(crate) fn len(&self) -> usize
        ensures { result ≡ length self.now.texts }
    {
        self.list.len()
    }

    /// The source under a number.
    pub(crate) fn source(&self, number: usize) -> &Source
        requires { number < length self.now.texts }
        ensures { result.now ≡ slice_index_or self.now.texts number [] }
    {
        self.list[number].source()
    }

    /// What is found in the source under a number, if it is there.
    pub(crate) fn facts(&self, number: usize) -> Option<&Facts>
        ensures { option_copied result
            ≡ option_map (facts_in self.now.profile) (slice_get self.now.texts number) }
    {
        let version = self.list.get(number)?;
        Some(version.facts())
    }

    /// Has a shelf keep them, in the room that is there.
    pub(crate) fn keep_in(self, shelf: &mut Shelf)
        requires profile { self.profile ≡ shelf.old.archive.profile }
        requires room { length shelf.old.archive.texts + length self.texts
            ≤ shelf.old.archive.version_room }
        ensures profile { shelf.new.archive.profile ≡ shelf.old.archive.profile }
        ensures texts { shelf.new.archive.texts ≡ shelf.old.archive.texts ++ self.texts }
        ensures names { shelf.new.archive.names ≡ shelf.old.archive.names }
        ensures shown { shelf.new.shown ≡ shelf.old.shown }
        ensures turns { shelf.new.turns ≡ shelf.old.turns }
        ensures room { KeepsRoom shelf.old shelf.new }
    {
        for version in self.list {
            let _ = shelf.push_version(version);
        }
    }
}

// ---- how many facts versions have

/// The facts of a version: one of the first `kept`, or one that is new.
fn facts_at<'a>(
    archive: &'a Archive,
    kept: u32,
    news: &'a NewVersions,
    version: u32,
) -> Option<&'a Facts>
    requires kept { kept ≤ length archive.now.texts }
    requires profile { news.now.profile ≡ archive.now.profile }
    ensures { option_copied result ≡ option_map (facts_in archive.now.profile)
        (slice_get (take kept archive.now.texts ++ news.now.texts) version) }
{
    if version < kept {
        return Some(archive.facts(version));
    }
    news.facts((version - kept) as usize)
}

/// The totals with facts added, if they are numbers.
fn with_facts(totals: Totals, facts: &Facts) -> Option<Totals>
    ensures { MatchOption result (AreTooMany facts.now totals) (AreMore facts.now totals) }
{
    Some(Totals {
        defs: totals.defs.checked_add(facts.defs().len() as u64)?,
        uses: totals.uses.checked_add(facts.uses().len() as u64)?,
        calls: totals.calls.checked_add(facts.calls().len() as u64)?,
    })
}

/// The totals with the facts of versions added, if they are numbers. A version is one of the first
/// `kept`, or one that is new.
pub(crate) fn with_versions(
    archive: &Archive,
    kept: u32,
    news: &NewVersions,
    shown: &[Shown],
    before: Totals,
) -> Option<Totals>
    requires kept { kept ≤ length archive.now.texts }
    requires profile { news.now.profile ≡ archive.now.profile }
    ensures { MatchOption result
        (2 ^ 64 ≤ facts_with before (fact_count (with_texts archive.now.profile
        (take kept archive.now.texts ++ news.now.texts)) shown.now))
        (AreCounted (with_texts archive.now.profile
        (take kept archive.now.texts ++ news.now.texts)) shown.now before) }
{
    let mut totals = before;
    for s in shown {
        if let Some(facts) = facts_at(archive, kept, news, s.version) {
            totals = with_facts(totals, facts)?;
        }
    }
    Some(totals)
}

// ---- records and plans

/// What is hidden and then shown, which text is wanted if it is another, the edits of the marks and
/// of the frames, and how many names and versions of the archive the other world uses. A record
/// leads to the other world; once it is made it leads back.
#[derive(Drop)]
pub(crate) struct Record {
    pub(crate) hides: Vec<Shown>,
    pub(crate) shows: Vec<Shown>,
    pub(crate) wanted: Option<Option<Vec<u8>>>,
    pub(crate) marks: PlaceEdits,
    pub(crate) frames: PlaceEdits,
    pub(crate) names: u32,
    pub(crate) versions: u32,
}

impl Model for Record {
    ghost use Rattle.cb_desk.specs.steps.Records.{Turn};
    ghost use Rattle.cb_desk.specs.steps.Texts.{bytes_if_other};

    ghost Value = { Turn };

    ghost view = { λ r. record {
      hides = r.hides.items;
      shows = r.shows.items;
      wanted = bytes_if_other r.wanted;
      marks = r.marks;
      frames = r.frames;
      names = r.names;
      versions = r.versions;
    } };
}

/// Names and versions that the archive is to keep, and the record that leads to the new world.
#[derive(Drop)]
pub(crate) struct Plan {
    pub(crate) names: Vec<Vec<u8>>,
    pub(crate) versions: NewVersions,
    pub(crate) record: Record,
}

impl Model for Plan {
    ghost use Rattle.std.specs.Prelude.{map};
    ghost use Rattle.cb_desk.specs.steps.Plans.{Planned};

    ghost Value = { Planned };

    ghost view = { λ p. record {
      profile = p.versions.profile;
      names = map (λ n. n.items) p.names.items;
      texts = p.versions.texts;
      turn = p.record;
    } };
}
