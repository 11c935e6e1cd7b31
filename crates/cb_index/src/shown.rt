//! The list of what is shown, by file name; what is asked of lists of versions under file names,
//! and of numbers of names.
ghost use Rattle.std.specs.Prelude.{◌≡◌, ◌<◌, ◌≤◌, ◌+◌, ◌&&◌, ◌++◌, ◌∷◌, [], ⊤, MatchOption};
ghost use Rattle.std.specs.Prelude.{false, filter, length, nat_eq, nat_lt, not, take, true};
ghost use Rattle.std.specs.Cmp.Lexicographic.{slice_cmp};
ghost use Rattle.std.specs.List.{AllByRecursion, list_all, list_any, prefix_len};
ghost use Rattle.std.specs.List.Sorted.{IsStrictlyIncreasing};
ghost use Rattle.std.specs.Ordering.{is_lt, nat_cmp};
ghost use Rattle.std.specs.Str.{bytes_eq};
ghost use Rattle.cb_scan.specs.Order.{in_order, put};
ghost use Rattle.cb_index.specs.Archived.{name_of};
ghost use Rattle.cb_index.specs.Blocks.{joined};
ghost use Rattle.cb_index.specs.Compact.{shows_version};
ghost use Rattle.cb_index.specs.Files.{AreApart, AreAscending, IsThere, is_shown, shown_key};
ghost use Rattle.cb_index.specs.Files.{shown_name, shown_under};
ghost use Rattle.cb_index.specs.Names.{AreSingle, names_of};
ghost use Rattle.cb_index.specs.declared.entry.Shown.{Shown};
ghost use Rattle.cb_index.specs.steps.Compact.{IsAmong};
ghost use Rattle.cb_index.specs.steps.ShownIn.{shown_in};

use crate::archive::{Archive, compare_by_words};
use crate::blocks::{Block, BlockList, Blocks, Bound, Place, lower_bound};
use crate::entry::Shown;
use crate::files::ShownFiles;
use std::cmp::Ordering;

// ---- numbers of names

/// Whether the number of each name is below that of the next, as `Shelf::hide_all` asks.
pub fn are_rising(files: &[Shown]) -> bool
    ensures { result ≡ true → IsStrictlyIncreasing (names_of files.now) }
{
    files.is_sorted_by(
        |a: &Shown, b: &Shown| -> bool
            ensures { result ≡ nat_lt a.now.name b.now.name }
        { a.name < b.name },
    )
}

// ---- files by name

/// What stands behind the files whose names are below a name.
#[derive(Clone, Copy)]
pub(crate) struct BeforeName<'a, 'n> {
    pub(crate) archive: &'a Archive,
    pub(crate) name: &'n [u8],
}

impl<'a, 'n> Bound<Shown> for BeforeName<'a, 'n> {
    ghost use Rattle.cb_index.specs.steps.Bounds.{is_below};

    ghost is_ahead = { λ b. is_below b.archive.now b.name.now };

    fn is_ahead(&self, one: Shown) -> bool {
        self.archive.name(one.name).cmp(self.name) == Ordering::Less
    }
}

/// What stands behind the files whose names are not above a name.
#[derive(Clone, Copy)]
pub(crate) struct AfterName<'a, 'n> {
    pub(crate) archive: &'a Archive,
    pub(crate) name: &'n [u8],
}

impl<'a, 'n> Bound<Shown> for AfterName<'a, 'n> {
    ghost use Rattle.cb_index.specs.steps.Bounds.{is_up_to};

    ghost is_ahead = { λ b. is_up_to b.archive.now b.name.now };

    fn is_ahead(&self, one: Shown) -> bool {
        self.archive.name(one.name).cmp(self.name) != Ordering::Greater
    }
}

// ---- lists of versions

fn numbers(shown: Shown) -> [u32; 2]
    ensures { result ≡ shown.name ∷ shown.version ∷ [] }
{
    [shown.name, shown.version]
}

/// The order of two versions by file name, and then by their numbers.
fn compare_shown(archive: &Archive, a: Shown, b: Shown) -> Ordering
    ensures { result ≡ slice_cmp nat_cmp (shown_key archive.now a) (shown_key archive.now b) }
{
    match compare_by_words(archive.name(a.name), archive.name(b.name)) {
        Ordering::Equal => numbers(a).cmp(&numbers(b)),
        settled => settled,
    }
}

/// Puts versions in order by file name.
fn sort_shown(archive: &Archive, shown: &mut [Shown])
    requires { AreApart archive.now shown.old }
    ensures { shown.new ≡ in_order (shown_name archive.now) shown.old }
{
    shown.sort_unstable_by(
        |a: &Shown, b: &Shown| -> Ordering
            ensures { result ≡ slice_cmp nat_cmp (shown_key archive.entry.now a.now)
                (shown_key archive.entry.now b.now) }
        { compare_shown(archive, *a, *b) },
    );
}

/// Whether a file of this name is shown, by binary search.
fn has_name(archive: &Archive, name: u32, shown: ShownFiles<'_>) -> bool
    requires { AreAscending archive.now (shown_in shown) }
    ensures { result ≡ list_any (λ (t : Shown). bytes_eq (name_of archive.now name)
        (name_of archive.now t.name)) (shown_in shown.entry) }
{
    let name = archive.name(name);
    match shown.from_name(archive, name).split_first() {
        Some((one, _)) => name == archive.name(one.name),
        None => false,
    }
}

/// How many versions stand before the one under the number of a name; all where none does. A place
/// where it is likely to stand is looked at first.
pub(crate) fn place_of_name(name: u32, likely: usize, listed: &[Shown]) -> usize
    requires { AreSingle listed.now }
    ensures place { result ≡ prefix_len (λ (s : Shown). not (nat_eq s.name name)) listed.now }
    ensures bound { result ≤ length listed.now }
{
    if likely < listed.len() && listed[likely].name == name {
        return likely;
    }
    listed.iter().take_while(|s| s.name != name).count()
}

/// Whether a file of the name of one of these is shown.
pub(crate) fn has_any_name(archive: &Archive, news: &[Shown], shown: ShownFiles<'_>) -> bool
    requires { AreAscending archive.now (shown_in shown) }
    ensures { result ≡ list_any (is_shown archive.now (shown_in shown.entry)) news.now }
{
    for one in news {
        if has_name(archive, one.name, shown) {
            return true;
        }
    }
    false
}

/// Whether the numbers of these are below the counts of names and versions.
fn are_below(archive: &Archive, news: &[Shown]) -> bool
    ensures { result ≡ list_all (λ (s : Shown). nat_lt s.name (length archive.now.names)
        && nat_lt s.version (length archive.now.texts)) news.now }
{
    news.iter().all(|s| {
        (s.name as usize) < archive.name_count() && (s.version as usize) < archive.version_count()
    })
}

/// Whether the names and versions of these are there.
pub(crate) fn are_there(archive: &Archive, news: &[Shown]) -> bool
    ensures there { result ≡ true → AllByRecursion (IsThere archive.now) news.now }
    ensures missing { AllByRecursion (IsThere archive.now) news.now → result ≡ true }
{
    are_below(archive, news)
}

/// Whether the file names of these ascend, so that no two of them have one.
pub(crate) fn ascend(archive: &Archive, news: &[Shown]) -> bool
    ensures apart { result ≡ true → AreApart archive.now news.now }
    ensures ascending { AreAscending archive.now news.now → result ≡ true }
{
    news.is_sorted_by(
        |s: &Shown, t: &Shown| -> bool
            ensures { result ≡ is_lt (slice_cmp nat_cmp (name_of archive.entry.now s.now.name)
                (name_of archive.entry.now t.now.name)) }
        { archive.name(s.name).cmp(archive.name(t.name)) == Ordering::Less },
    )
}

// ---- all that is shown

/// Puts a version among the others, by file name; not where a block is wanted and none is left.
fn try_put(archive: &Archive, one: Shown, blocks: &mut Blocks<Shown>) -> bool
    requires { AreAscending archive.now (joined blocks.old.used) }
    ensures put { result ≡ true → joined blocks.new.used
        ≡ put (shown_name archive.now) one (joined blocks.old.used) }
    ensures len { result ≡ true
        → length (joined blocks.new.used) ≡ length (joined blocks.old.used) + 1 }
    ensures stays { result ≡ false → blocks.new.used ≡ blocks.old.used }
    ensures count { blocks.new.count ≡ blocks.old.count }
{
    let bound = BeforeName {
        archive,
        name: archive.name(one.name),
    };
    let place = lower_bound(&bound, blocks.used());
    blocks.try_insert(place, one)
}

/// What stands at a place, if it is there.
fn at_place(place: Place, blocks: &[Block<Shown>]) -> Option<Shown>
    ensures { MatchOption result ⊤ (λ s. IsAmong (joined blocks.now) s) }
{
    if place.block >= blocks.len() {
        return None;
    }
    let items = blocks[place.block].items();
    if place.at >= items.len() {
        return None;
    }
    Some(items[place.at])
}

/// Notes in an archive where each version of a block stands.
fn note_block(block: usize, shown: &[Shown], archive: &mut Archive)
    ensures { archive.new ≡ archive.old }
{
    for (at, one) in shown.iter().enumerate() {
        archive.note_place(one.version, Place { block, at });
    }
}

/// Takes what is shown under the number of a name away. It is looked for by its file name.
fn take(archive: &Archive, name: u32, blocks: &mut Blocks<Shown>) -> Option<Shown>
    requires { AreAscending archive.now (joined blocks.old.used) }
    ensures taken { (result ≡ shown_under name (joined blocks.old.used))
        × (joined blocks.new.used
        ≡ filter (λ (s : Shown). not (nat_eq s.name name)) (joined blocks.old.used)) }
    ensures count { blocks.new.count ≡ blocks.old.count }
{
    let bound = AfterName {
        archive,
        name: archive.name(name),
    };
    let used = blocks.used();
    let place = lower_bound(&bound, used);
    if place.at == 0 {
        return None;
    }
    let one = used[place.block].items()[place.at - 1];
    if one.name != name {
        return None;
    }
    blocks.remove(Place {
        block: place.block,
        at: place.at - 1,
    });
    Some(one)
}

/// What is shown, by file name.
impl BlockList<Shown> {
    /// What is listed.
    pub(crate) fn files(&self) -> ShownFiles<'_>
        ensures { shown_in result ≡ self.now.items }
    {
        let _room = self.scratch.capacity();
        ShownFiles::whole(self.blocks.used())
    }

    /// A file that shows a version, if one does. It is looked for first where it is likely to
    /// stand.
    pub(crate) fn with_version(&self, version: usize, likely: Place) -> Option<Shown>
        ensures { MatchOption result (shows_version version self.now.items ≡ false)
            (λ s. (s.version ≡ version) × IsAmong self.now.items s) }
    {
        if let Some(one) = at_place(likely, self.blocks.used())
            && one.version as usize == version
        {
            return Some(one);
        }
        self.files().with_version(version)
    }

    /// Notes in an archive where each version stands.
    pub(crate) fn note_places(&self, archive: &mut Archive)
        ensures { archive.new ≡ archive.old }
    {
        for (block, shown) in self.blocks.used().iter().enumerate() {
            note_block(block, shown.items(), archive);
        }
    }

    /// Puts versions among the others: one at its place, more by one sort. No two of them have one
    /// file name. It takes no memory.
    pub(crate) fn put_all(&mut self, archive: &Archive, news: &[Shown])
        requires ascending { AreAscending archive.now self.old.items }
        requires apart { AreApart archive.now (self.old.items ++ news.now) }
        requires room { length self.old.items + length news.now ≤ self.old.room }
        ensures files { self.new.items
            ≡ in_order (shown_name archive.now) (self.old.items ++ news.now) }
        ensures room { self.old.room ≤ self.new.room }
    {
        if news.is_empty() {
            return;
        }
        if let [one] = news
            && try_put(archive, *one, &mut self.blocks)
        {
            return;
        }
        self.scratch.truncate(0);
        self.blocks.lift(&mut self.scratch);
        if self.scratch.extend_from_slice(news).is_err() {
            unreachable!()
        }
        sort_shown(archive, self.scratch.as_mut_slice());
        self.blocks.deal(self.scratch.as_slice());
    }

    /// Takes what is shown under the number of a name away. It takes no memory.
    pub(crate) fn take_under(&mut self, archive: &Archive, name: u32) -> Option<Shown>
        requires { AreAscending archive.now self.old.items }
        ensures value { result ≡ shown_under name self.old.items }
        ensures files { self.new.items
            ≡ filter (λ (s : Shown). not (nat_eq s.name name)) self.old.items }
        ensures room { self.old.room ≤ self.new.room }
    {
        take(archive, name, &mut self.blocks)
    }
}
