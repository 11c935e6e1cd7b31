//! Names that are asked for.
use crate::failed::Failed;
use crate::timed::{clock, flush_all, put};
use cb_index::Shelf;
use std::time::CpuClock;

/// So many definitions are passed over before one gives a name to ask for.
const EACH: u32 = 30;

/// The times of questions.
#[derive(Clone, Copy)]
struct Times {
    sum: u64,
    most: u64,
    count: u64,
    found: u64,
}

impl Times {
    fn new() -> Times {
        Times {
            sum: 0,
            most: 0,
            count: 0,
            found: 0,
        }
    }

    fn add(&mut self, time: u64, found: bool) {
        self.sum = self.sum.saturating_add(time);
        self.most = self.most.max(time);
        self.count = self.count.saturating_add(1);
        if found {
            self.found = self.found.saturating_add(1);
        }
    }

    fn put<R: Print>(&self, rt: &R, label: &str) -> Result<(), Failed> {
        put(rt, label, self.sum)?;
        put(rt, "most", self.most)?;
        put(rt, "count", self.count)?;
        put(rt, "found", self.found)
    }
}

/// What is asked of a name.
#[derive(Clone, Copy)]
enum Question {
    Defs,
    Uses,
    Calling,
    CalledBy,
}

/// Whether a question has a first row.
fn has_first(shelf: &Shelf, question: Question, name: &[u8]) -> bool
{
    match question {
        Question::Defs => shelf.defs(name).next().is_some(),
        Question::Uses => shelf.uses(name).next().is_some(),
        Question::Calling => shelf.calling(name).next().is_some(),
        Question::CalledBy => shelf.called_by(name).next().is_some(),
    }
}

/// Asks for one name.
fn ask_name<R: CpuClock>(
    rt: &R,
    shelf: &Shelf,
    question: Question,
    name: &[u8],
    times: &mut Times,
) -> Result<(), Failed>
{
    let start = clock(rt)?;
    let found = has_first(shelf, question, name);
    let end = clock(rt)?;
    times.add(end.saturating_sub(start), found);
    Ok(())
}

/// Asks for the names of some definitions.
fn ask_names<R: Print + CpuClock>(
    rt: &R,
    shelf: &Shelf,
    question: Question,
    label: &str,
) -> Result<(), Failed>
{
    let mut times = Times::new();
    let mut skipped = 0;
    for row in shelf.all_defs() {
        if skipped < EACH {
            skipped += 1;
        } else {
            skipped = 0;
            ask_name(rt, shelf, question, row.name, &mut times)?;
        }
    }
    times.put(rt, label)
}

/// Asks all questions, once nothing is pending.
pub(crate) fn ask<R: Print + CpuClock>(rt: &R, shelf: &mut Shelf) -> Result<(), Failed> {
    flush_all(shelf);
    ask_names(rt, shelf, Question::Defs, "first_defs")?;
    ask_names(rt, shelf, Question::Uses, "first_uses")?;
    ask_names(rt, shelf, Question::Calling, "first_calling")?;
    ask_names(rt, shelf, Question::CalledBy, "first_called_by")
}
