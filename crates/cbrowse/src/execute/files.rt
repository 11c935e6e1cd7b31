//! The operands of a job, which are read before anything is done.
ghost use Rattle.std.specs.Prelude.{◌≡◌, ◌<◌, ◌^◌, [], IfOk, MatchResult, map, string_bytes};
ghost use Rattle.std.specs.Option.{option_map};
ghost use Rattle.cb_wire.specs.Uris.{given_name};
ghost use Rattle.cb_session.specs.Operands.{file_of_operand};
ghost use Rattle.cbrowse.specs.Files.{IsFound};
ghost use Rattle.cbrowse.specs.Program.{AreFound, StopsAt, StopsReading, file_below, files_named};
ghost use Rattle.cbrowse.specs.Program.{most_read, names_of, root_path};

use crate::execute::finish::Finish;
use cb_desk::Bounds;
use cb_lsp::{Disk, Found};
use cb_session::{Ended, Fault, Operand, Operands};
use cb_wire::{Root, given_name};
use cb_words::Job;
use std::alloc::{AllocError, Global};

/// The end of a job for which memory was refused.
pub(crate) const OUT_OF_MEMORY: Finish = Finish::Ran(Ended::Fault(Fault::Memory));

/// One more than the most bytes of a file, so that a larger one is seen to be too large.
fn most_read(bounds: Bounds) -> u64
    ensures value { result ≡ most_read bounds }
    ensures small { result < 2 ^ 33 }
{
    bounds.file_bytes() as u64 + 1
}

/// Reads the file at a place.
fn read_operand<D: Disk>(
    alloc: Global,
    disk: &D,
    bounds: Bounds,
    place: usize,
    name: &str,
) -> Result<Operand, Finish>
    ensures { MatchResult result
        (λ o. (o.name.items ≡ name.now)
        × IsFound (D.finds disk.now) (most_read bounds) (file_of_operand o))
        (StopsAt (D.finds disk.now) (most_read bounds) name.now place) }
{
    match disk.read(alloc, name.as_bytes(), most_read(bounds), 0) {
        Found::Holds(bytes) => match Vec::from_slice(alloc, name.as_bytes()) {
            Ok(name) => Ok(Operand { name, bytes }),
            Err(_) => Err(OUT_OF_MEMORY),
        },
        Found::NoRoom => Err(OUT_OF_MEMORY),
        Found::Gone | Found::Linked | Found::Unreadable => Err(Finish::Unreadable(place)),
    }
}

/// The root of a language server, if one was given.
fn root_of(alloc: Global, root: &Option<String>) -> Result<Option<Root>, AllocError>
    ensures { IfOk result (λ given. option_map (λ r. r.path) given ≡ root_path root.now) }
{
    match root {
        Some(folder) => Ok(Some(Root::of_folder(alloc, folder.as_bytes())?)),
        None => Ok(None),
    }
}

/// An operand under the name that its path has below a root.
fn operand_named(
    alloc: Global,
    root: Option<&Root>,
    operand: Operand,
) -> Result<Operand, AllocError>
    ensures { IfOk result (λ its. file_of_operand its ≡ file_below
        (option_map (λ r. r.now.path) root.entry) (file_of_operand operand)) }
{
    let name = given_name(alloc, root, operand.name.as_slice())?;
    Ok(Operand {
        name,
        bytes: operand.bytes,
    })
}

/// Operands under the names that their paths have below a root.
fn operands_below(
    alloc: Global,
    root: Option<&Root>,
    operands: Operands,
) -> Result<Operands, AllocError>
    ensures { IfOk result (λ its. map file_of_operand its.items ≡ map (file_below
        (option_map (λ r. r.now.path) root.entry)) (map file_of_operand operands.items)) }
{
    let mut its = Vec::with_capacity(alloc, operands.len())?;
    for operand in operands {
        its.push(operand_named(alloc, root, operand)?)?;
    }
    Ok(its)
}

/// The operands of a job under their names.
pub(crate) fn operands_of(
    alloc: Global,
    job: &Job,
    operands: Operands,
) -> Result<Operands, AllocError>
    ensures { IfOk result (λ its. map file_of_operand its.items
        ≡ files_named job.now (map file_of_operand operands.items)) }
{
    match job {
        Job::Lsp { root, .. } => {
            let root = root_of(alloc, root)?;
            operands_below(alloc, root.as_ref(), operands)
        }
        Job::Line { .. } => Ok(operands),
        Job::Find { .. } => Ok(operands),
        Job::Tags { .. } => Ok(operands),
    }
}

/// Reads files in order. The first that cannot be read ends it.
pub(crate) fn read_operands<D: Disk>(
    alloc: Global,
    disk: &D,
    bounds: Bounds,
    files: &[String],
    operands: &mut Operands,
) -> Result<(), Finish>
    requires { operands.old.items ≡ [] }
    ensures { MatchResult result
        (λ _. (names_of operands.new.items ≡ map string_bytes files.now)
        × AreFound (D.finds disk.now) (most_read bounds) operands.new.items)
        (StopsReading (D.finds disk.now) (most_read bounds) (map string_bytes files.now)) }
{
    let mut place = 0;
    for name in files {
        let operand = match read_operand(alloc, disk, bounds, place, name.as_str()) {
            Ok(operand) => operand,
            Err(end) => return Err(end),
        };
        if operands.push(operand).is_err() {
            return Err(OUT_OF_MEMORY);
        }
        place += 1;
    }
    Ok(())
}
