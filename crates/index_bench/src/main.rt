//! Measures the indexes of `cb_index` on files: times in nanoseconds of processor time, and memory.
//!
//! `bench/index.py` runs it and says what the figures mean. The words are the names of a file of
//! median size and of the largest, and then those of all files, ascending. Each line of the output
//! is a word and a number, or a word and what the system says of the memory.
#![tactic(auto)]

mod asked;
mod failed;
mod files;
mod kept;
mod timed;

use crate::failed::Failed;
use crate::files::{keep_files, put_memory};
use crate::kept::Kept;
use cb_index::Shown;
use std::rt::Files;
use std::time::CpuClock;
use std::{env, io};

/// How often a step is done.
const TIMES: u32 = 7;

fn main(rt: HostRuntime) -> io::Result<()> {
    let words: Vec<String> = env::args(&rt)?.collect(rt.alloc())?;
    run(&rt, words.as_slice())
}

/// Measures, and says so where that fails; without files it does nothing.
fn run<R: Files + Print + CpuClock + AllocGlobal>(rt: &R, words: &[String]) -> io::Result<()> {
    if words.len() < 4 {
        return Ok(());
    }
    match measure(rt, words[1].as_str(), words[2].as_str(), &words[3..]) {
        Ok(()) => Ok(()),
        Err(Failed) => println!(rt; "failed 1"),
    }
}

/// All measurements on these files.
fn measure<R: Files + Print + CpuClock + AllocGlobal>(
    rt: &R,
    median: &str,
    largest: &str,
    files: &[String],
) -> Result<(), Failed> {
    let mut kept = Kept::new(rt.alloc());
    keep_files(rt, files, &mut kept)?;
    measure_kept(rt, median, largest, &mut kept)
}

/// All measurements on the files that are kept.
fn measure_kept<R: Files + Print + CpuClock + AllocGlobal>(
    rt: &R,
    median: &str,
    largest: &str,
    kept: &mut Kept,
) -> Result<(), Failed> {
    kept.put_counts(rt)?;
    measure_memory(rt, kept)?;
    measure_together(rt, kept)?;
    asked::ask(rt, &mut kept.shelf)?;
    measure_one(rt, "median", median, kept)?;
    measure_one(rt, "largest", largest, kept)?;
    measure_each(rt, kept)
}

/// The memory before and after all files are shown.
fn measure_memory<R: Files + Print + CpuClock + AllocGlobal>(
    rt: &R,
    kept: &mut Kept,
) -> Result<(), Failed> {
    put_memory(rt, "kept")?;
    kept.make_room()?;
    put_memory(rt, "reserved")?;
    timed::put_show_all(rt, kept.files.as_slice(), &mut kept.shelf)?;
    put_memory(rt, "shown")
}

/// All files hidden and shown together.
fn measure_together<R: Print + CpuClock>(rt: &R, kept: &mut Kept) -> Result<(), Failed> {
    for _ in 0..TIMES {
        timed::put_hide_all(rt, kept.files.as_slice(), &mut kept.shelf)?;
        timed::put_show_all(rt, kept.files.as_slice(), &mut kept.shelf)?;
    }
    Ok(())
}

/// One file hidden and shown.
fn measure_one<R: Print + CpuClock>(
    rt: &R,
    label: &str,
    name: &str,
    kept: &mut Kept,
) -> Result<(), Failed> {
    let one: Shown = kept.find(name.as_bytes())?;
    println!(rt; "one {label}")?;
    for _ in 0..TIMES {
        timed::put_one(rt, one, &mut kept.shelf)?;
    }
    Ok(())
}

/// All files hidden together, and shown one after the other.
fn measure_each<R: Print + CpuClock>(rt: &R, kept: &mut Kept) -> Result<(), Failed> {
    timed::put_hide_all(rt, kept.files.as_slice(), &mut kept.shelf)?;
    timed::put_show_each(rt, kept.files.as_slice(), &mut kept.shelf)
}
