//! The file that a header means, and the files that a file includes by way of others.
ghost use Rattle.std.specs.Prelude.{◌≡◌, ◌++◌, ◌∷◌, ℕ, IfOk, List, [], OnOk, false, filter, map};
ghost use Rattle.std.specs.Prelude.{true};
ghost use Rattle.std.specs.List.{list_any};
ghost use Rattle.std.specs.Option.{option_map, option_map_or};
ghost use Rattle.std.specs.Str.{bytes_eq};
ghost use Rattle.cb_desk.specs.Answer.{is_header};
ghost use Rattle.cb_lsp.specs.Closures.{folder_around, folder_from, includes, is_in_closure};
ghost use Rattle.cb_lsp.specs.Closures.{means, meant, nearer, nearest_of};
ghost use Rattle.cb_lsp.specs.steps.Closures.{Finds, Lists, begins_above, beside_among, has_last};
ghost use Rattle.cb_lsp.specs.steps.Closures.{if_among, is_held, is_one_of, last_of, listed};
ghost use Rattle.cb_lsp.specs.steps.Closures.{names_of};

use crate::header::{after_dots, folder_length, folder_of, is_in_folder, without_dots};
use crate::nearest::apart;
use crate::place::bytes_of;
use cb_desk::{Desk, is_header};
use cb_scan::{Include, Source};
use std::alloc::{AllocError, Global};
use std::collections::{BTreeMap, BTreeSet};

// ---- the file that a header means

/// The folder around a folder, with its slash.
fn folder_around(folder: &[u8]) -> Option<&[u8]>
    ensures { option_map (λ around. around.now) result ≡ folder_around folder.now }
{
    if folder.len() <= 1 {
        None
    } else {
        Some(folder_of(folder.split_at(folder.len() - 1).0))
    }
}

/// Whether a header begins with `../`.
fn begins_above(header: &[u8]) -> bool
    ensures { result ≡ begins_above header.now }
{
    matches!(header, [b'.', b'.', b'/', ..])
}

/// The folder to which `./` and `../` at the front of a header lead from a folder.
fn folder_from<'a>(header: &[u8], folder: &'a [u8]) -> Option<&'a [u8]>
    ensures { option_map (λ base. base.now) result ≡ folder_from header.now folder.now }
{
    let (mut rest, mut base) = (header, folder);
    'parts: while let Some(more) = after_dots(rest) {
        if begins_above(rest) {
            base = folder_around(base)?;
        }
        rest = more;
    }
    Some(base)
}

/// The file of a header in a folder, if it is one of these.
fn named_in<'a>(names: &[&'a [u8]], folder: &[u8], header: &[u8]) -> Option<&'a [u8]>
    ensures { option_map (λ name. name.now) result
        ≡ if_among (map (λ name. name.now) names.now) (folder.now ++ header.now) }
{
    for name in names {
        if is_in_folder(folder, header, name) {
            return Some(*name);
        }
    }
    None
}

/// The file of a header that is named from a folder, if it is one of these.
fn beside<'a>(names: &[&'a [u8]], folder: &[u8], header: &[u8]) -> Option<&'a [u8]>
    ensures { option_map (λ name. name.now) result ≡ beside_among
        (map (λ name. name.now) names.now) folder.now header.now }
{
    let base = folder_from(header, folder)?;
    named_in(names, base, without_dots(header))
}

/// The nearer of two files; the first, if both are as near.
fn nearer<'a>(from: &[u8], one: &'a [u8], other: &'a [u8]) -> &'a [u8]
    ensures { result.now ≡ nearer from.now one.now other.now }
{
    if apart(from, other) < apart(from, one) {
        other
    } else {
        one
    }
}

/// The nearest of the files that are called like a header; of several, the first.
fn nearest_named<'a>(names: &[&'a [u8]], from: &[u8], header: &[u8]) -> Option<&'a [u8]>
    ensures { option_map (λ name. name.now) result ≡ nearest_of from.now
        (filter (is_header header.now) (map (λ name. name.now) names.now)) }
{
    let mut best: Option<&'a [u8]> = None;
    for name in names {
        if is_header(header, name) {
            best = match best {
                Some(one) => Some(nearer(from, one, name)),
                None => Some(*name),
            };
        }
    }
    best
}

/// The last part of a name: what follows its last slash.
fn last_of(name: &[u8]) -> &[u8]
    ensures { result.now ≡ last_of name.now }
{
    name.split_at(folder_length(name)).1
}

/// The names of files, by their last parts.
#[derive(Drop)]
struct Lasts<'a> {
    names: BTreeMap<&'a [u8], Vec<&'a [u8]>>,
}

impl<'a> Lasts<'a> {
    /// Adds a name.
    fn add(&mut self, alloc: Global, name: &'a [u8]) -> Result<(), AllocError>
        ensures { OnOk result ((last : List ℕ) → listed self.new last
            ≡ listed self.old last ++ filter (has_last last) (name.entry.now ∷ [])) }
    {
        let last = last_of(name);
        if let Some(names) = self.names.get_mut(last) {
            names.push(name)?;
            return Ok(());
        }
        let mut names = Vec::new(alloc);
        names.push(name)?;
        self.names.insert(last, names)?;
        Ok(())
    }

    /// Those with this last part.
    fn of(&self, last: &[u8]) -> Option<&[&'a [u8]]>
        ensures { option_map_or (λ names. map (λ name. name.now) names.now) result []
            ≡ listed self.now last.now }
    {
        let names = self.names.get(last)?;
        Some(names.as_slice())
    }
}

/// The names of the files of a desk. A header is compared only with those that have its last part.
#[derive(Drop)]
struct Names<'a> {
    desk: &'a Desk,
    lasts: Lasts<'a>,
    ghost all: { Lists lasts (names_of desk.now.timeline.present.files) },
}

impl<'a> Names<'a> {
    /// Those of a desk. They are sorted once, and then serve all headers.
    fn new(alloc: Global, desk: &'a Desk) -> Result<Names<'a>, AllocError>
        ensures { IfOk result (λ names. names.desk ≡ desk.entry) }
    {
        let mut lasts = Lasts {
            names: BTreeMap::new(alloc),
        };
        let mut files = desk.files();
        'files: while let Some((name, _)) = files.next() {
            lasts.add(alloc, name)?;
        }
        Ok(Names { desk, lasts })
    }

    /// The file that a header means in a file.
    fn meant(&self, from: &[u8], header: &[u8]) -> Option<&'a [u8]>
        ensures { option_map (λ name. name.now) result
            ≡ meant self.now.desk.now.timeline.present.files from.now header.now }
    {
        let rest = without_dots(header);
        let names = self.lasts.of(last_of(rest))?;
        match beside(names, folder_of(from), header) {
            Some(name) => Some(name),
            None => nearest_named(names, from, rest),
        }
    }
}

// ---- what a file includes

/// The files that are found, and those of them whose headers are still to be followed.
#[derive(Drop)]
struct Search<'a> {
    found: BTreeSet<&'a [u8]>,
    left: Vec<&'a [u8]>,
}

impl<'a> Search<'a> {
    /// Takes in a file, unless it is found already.
    fn add(&mut self, name: &'a [u8]) -> Result<(), AllocError>
        ensures { OnOk result ((names : List (List ℕ)) → is_one_of names name.entry.now ≡ true
            → Finds names (λ other. bytes_eq other name.entry.now) self.old self.new) }
    {
        if self.found.insert(name)? {
            self.left.push(name)?;
        }
        Ok(())
    }

    /// Takes in the file that a header of a file means, if it means one.
    fn add_header(
        &mut self,
        names: &Names<'a>,
        from: &[u8],
        header: &[u8],
    ) -> Result<(), AllocError>
        ensures { OnOk result (Finds (names_of names.now.desk.now.timeline.present.files)
            (λ name. option_map_or (bytes_eq name) (meant names.now.desk.now.timeline.present.files
            from.now header.now) false) self.old self.new) }
    {
        if let Some(name) = names.meant(from, header) {
            self.add(name)?;
        }
        Ok(())
    }

    /// Takes in the files that headers of a file mean.
    fn add_headers(
        &mut self,
        names: &Names<'a>,
        from: &[u8],
        source: &Source,
        includes: &[Include],
    ) -> Result<(), AllocError>
        ensures { OnOk result (Finds (names_of names.now.desk.now.timeline.present.files)
            (λ name. list_any (means names.now.desk.now.timeline.present.files from.now source.now
            name) includes.now) self.old self.new) }
    {
        for include in includes {
            self.add_header(names, from, bytes_of(source, include.header))?;
        }
        Ok(())
    }

    /// Takes in the files that a file includes.
    fn add_includes(&mut self, names: &Names<'a>, from: &[u8]) -> Result<(), AllocError>
        ensures { OnOk result (Finds (names_of names.now.desk.now.timeline.present.files)
            (includes names.now.desk.now.timeline.present from.now) self.old self.new) }
    {
        match names.desk.scanned(from) {
            Some((source, facts)) => self.add_headers(names, from, source, facts.includes()),
            None => Ok(()),
        }
    }
}

/// The files that a file includes, by way of others too, and the file itself.
#[derive(Drop)]
pub(crate) struct Closure<'a> {
    files: BTreeSet<&'a [u8]>,
}

impl Closure<'_> {
    /// Whether a file of this name is one of them.
    pub(crate) fn has(&self, name: &[u8]) -> bool
        ensures { result ≡ is_held self.now name.now }
    {
        self.files.contains(name)
    }
}

/// The closure of a file of a desk. Refused memory is the only error.
pub(crate) fn closure_of<'a>(
    alloc: Global,
    desk: &'a Desk,
    from: &'a [u8],
) -> Result<Closure<'a>, AllocError>
    ensures { IfOk result (λ c. (name : List ℕ) → is_held c name
        ≡ is_in_closure desk.now.timeline.present from.now name) }
{
    let names = Names::new(alloc, desk)?;
    let mut search = Search {
        found: BTreeSet::new(alloc),
        left: Vec::new(alloc),
    };
    search.add(from)?;
    'files: while let Some(name) = search.left.pop() {
        search.add_includes(&names, name)?;
    }
    Ok(Closure {
        files: search.found,
    })
}
