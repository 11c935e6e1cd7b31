//! What is kept of the files.

use crate::failed::Failed;
use cb_index::{Room, Shelf, Shown, Version};
use cb_scan::{Facts, Meter, Profile, Rules, Source, scan};
use std::alloc::Global;

/// More files than are measured.
const MOST: u32 = 100_000;

/// Room for files that are kept and not shown.
const KEPT: Room = Room {
    versions: MOST,
    names: MOST,
    entries: 0,
    defs: 0,
    uses: 0,
    calls: 0,
};

/// How much is kept.
#[derive(Clone, Copy)]
struct Counts {
    bytes: u64,
    defs: u64,
    uses: u64,
    calls: u64,
}

impl Counts {
    fn add(&mut self, source: &Source, facts: &Facts) {
        let defs = facts.defs().len() as u64;
        self.bytes = self.bytes.saturating_add(source.bytes().len() as u64);
        self.defs = self.defs.saturating_add(defs);
        self.uses = self.uses.saturating_add(facts.uses().len() as u64);
        self.calls = self.calls.saturating_add(facts.calls().len() as u64);
    }
}

/// A shelf, and what it keeps and can show.
#[derive(Drop)]
pub(crate) struct Kept {
    pub(crate) shelf: Shelf,
    pub(crate) files: Vec<Shown>,
    counts: Counts,
}

impl Kept {
    pub(crate) fn new(alloc: Global) -> Kept {
        Kept {
            shelf: Shelf::new(alloc, Profile::all_by(Rules::Standard)),
            files: Vec::new(alloc),
            counts: Counts {
                bytes: 0,
                defs: 0,
                uses: 0,
                calls: 0,
            },
        }
    }

    /// Keeps a file.
    pub(crate) fn keep(
        &mut self,
        alloc: Global,
        name: &[u8],
        bytes: Vec<u8>,
    ) -> Result<(), Failed> {
        let source = Source::new(alloc, bytes)?;
        let facts = scan(
            alloc,
            &mut Meter::new(),
            Profile::all_by(Rules::Standard),
            &source,
        )?;
        self.counts.add(&source, &facts);
        let name = push_name(&mut self.shelf, name.to_vec(alloc)?)?;
        let version = Version::new(alloc, Profile::all_by(Rules::Standard), source, facts)?;
        let version = push_version(&mut self.shelf, version)?;
        self.files.push(Shown { name, version })?;
        Ok(())
    }

    /// Makes room to show all files.
    pub(crate) fn make_room(&mut self) -> Result<(), Failed> {
        let room = Room {
            versions: MOST,
            names: MOST,
            entries: MOST,
            defs: self.counts.defs,
            uses: self.counts.uses,
            calls: self.counts.calls,
        };
        self.shelf.reserve(&room)?;
        Ok(())
    }

    /// The file of a name.
    pub(crate) fn find(&self, name: &[u8]) -> Result<Shown, Failed> {
        for one in self.files.as_slice() {
            if self.shelf.archive().name(one.name) == name {
                return Ok(*one);
            }
        }
        Err(Failed)
    }

    pub(crate) fn put_counts<R: Print>(&self, rt: &R) -> Result<(), Failed> {
        println!(rt; "files {}", self.files.len())?;
        println!(rt; "bytes {}", self.counts.bytes)?;
        println!(rt; "defs {}", self.counts.defs)?;
        println!(rt; "uses {}", self.counts.uses)?;
        println!(rt; "calls {}", self.counts.calls)?;
        Ok(())
    }
}

fn push_name(shelf: &mut Shelf, name: Vec<u8>) -> Result<u32, Failed> {
    if shelf.archive().name_count() >= MOST as usize {
        return Err(Failed);
    }
    match shelf.reserve(&KEPT) {
        Ok(()) => {}
        Err(_) => return Err(Failed),
    }
    Ok(shelf.push_name(name))
}

/// Keeps a version.
fn push_version(shelf: &mut Shelf, version: Version) -> Result<u32, Failed> {
    if shelf.archive().version_count() >= MOST as usize
        || version.profile() != shelf.archive().profile()
    {
        return Err(Failed);
    }
    match shelf.reserve(&KEPT) {
        Ok(()) => {}
        Err(_) => return Err(Failed),
    }
    Ok(shelf.push_version(version))
}
