//! Files that are read, and what the system says of the memory.
use crate::failed::Failed;
use crate::kept::Kept;
use std::fs;
use std::io::Read;
use std::rt::Files;

/// The most bytes that are read of a file.
const MOST_READ: u64 = 1_000_001;

fn read_file<R: Files + AllocGlobal>(rt: &R, path: &str) -> Result<Vec<u8>, Failed> {
    let mut bytes = Vec::new(rt.alloc());
    let file = fs::open(rt, path)?;
    file.take(MOST_READ).read_to_end(&mut bytes)?;
    Ok(bytes)
}

/// Keeps files under their names.
pub(crate) fn keep_files<R: Files + AllocGlobal>(
    rt: &R,
    files: &[String],
    kept: &mut Kept,
) -> Result<(), Failed> {
    for name in files {
        let bytes = read_file(rt, name.as_str())?;
        kept.keep(rt.alloc(), name.as_bytes(), bytes)?;
    }
    Ok(())
}

/// Prints the resident memory, as Linux has it in `statm`.
pub(crate) fn put_memory<R: Files + Print + AllocGlobal>(
    rt: &R,
    label: &str,
) -> Result<(), Failed> {
    let bytes = read_file(rt, "/proc/self/statm")?;
    let text = match String::from_utf8(bytes) {
        Ok(text) => text,
        Err(_) => return Err(Failed),
    };
    print!(rt; "memory_{label} {}", text.as_str())?;
    Ok(())
}
