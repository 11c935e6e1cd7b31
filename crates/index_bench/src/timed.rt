//! Files that are shown and hidden by the clock. What is shown is put in order by the clock too.
use crate::failed::Failed;
use cb_index::{Shelf, Shown, are_rising};
use std::time::{CpuClock, Duration};

/// The nanoseconds of a time; the greatest number where they are more.
fn nanos(time: Duration) -> u64 {
    time.as_secs()
        .saturating_mul(1_000_000_000)
        .saturating_add(time.subsec_nanos() as u64)
}

/// The processor time that this thread has used, in nanoseconds.
pub(crate) fn clock<R: CpuClock>(rt: &R) -> Result<u64, Failed> {
    Ok(nanos(rt.thread_cpu_time()?))
}

/// Puts the definitions that are pending in order.
pub(crate) fn flush_all(shelf: &mut Shelf) {
    shelf.flush(false);
    shelf.flush(true);
}

fn show_all<R: CpuClock>(rt: &R, files: &[Shown], shelf: &mut Shelf) -> Result<u64, Failed> {
    if !shelf.can_show(files) {
        return Err(Failed);
    }
    let start = clock(rt)?;
    shelf.show_all(files);
    flush_all(shelf);
    let end = clock(rt)?;
    Ok(end.saturating_sub(start))
}

fn hide_all<R: CpuClock>(rt: &R, files: &[Shown], shelf: &mut Shelf) -> Result<u64, Failed> {
    if !are_rising(files) {
        return Err(Failed);
    }
    let start = clock(rt)?;
    shelf.hide_all(files);
    let end = clock(rt)?;
    Ok(end.saturating_sub(start))
}

fn show<R: CpuClock>(rt: &R, one: Shown, shelf: &mut Shelf) -> Result<u64, Failed> {
    if !shelf.can_show(&[one]) {
        return Err(Failed);
    }
    let start = clock(rt)?;
    shelf.show(one.name, one.version);
    flush_all(shelf);
    let end = clock(rt)?;
    Ok(end.saturating_sub(start))
}

fn hide<R: CpuClock>(rt: &R, one: Shown, shelf: &mut Shelf) -> Result<u64, Failed> {
    let start = clock(rt)?;
    shelf.hide(one.name);
    let end = clock(rt)?;
    Ok(end.saturating_sub(start))
}

/// Prints a label and a number.
pub(crate) fn put<R: Print>(rt: &R, label: &str, number: u64) -> Result<(), Failed> {
    println!(rt; "{label} {number}")?;
    Ok(())
}

/// Shows all files together.
pub(crate) fn put_show_all<R: Print + CpuClock>(
    rt: &R,
    files: &[Shown],
    shelf: &mut Shelf,
) -> Result<(), Failed> {
    let time = show_all(rt, files, shelf)?;
    put(rt, "show_all", time)
}

/// Hides all files together.
pub(crate) fn put_hide_all<R: Print + CpuClock>(
    rt: &R,
    files: &[Shown],
    shelf: &mut Shelf,
) -> Result<(), Failed> {
    let time = hide_all(rt, files, shelf)?;
    put(rt, "hide_all", time)
}

/// Hides a file that is shown, and shows it again.
pub(crate) fn put_one<R: Print + CpuClock>(
    rt: &R,
    one: Shown,
    shelf: &mut Shelf,
) -> Result<(), Failed> {
    let hidden = hide(rt, one, shelf)?;
    put(rt, "hide", hidden)?;
    let shown = show(rt, one, shelf)?;
    put(rt, "show", shown)
}

/// Shows files one after the other.
pub(crate) fn put_show_each<R: Print + CpuClock>(
    rt: &R,
    files: &[Shown],
    shelf: &mut Shelf,
) -> Result<(), Failed> {
    let mut sum: u64 = 0;
    for one in files {
        let time = show(rt, *one, shelf)?;
        sum = sum.saturating_add(time);
    }
    put(rt, "show_each", sum)
}
