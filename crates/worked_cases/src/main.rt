//! Compares what sessions write, and what is found in texts, with what was worked out by hand.
//!
//! The words are names of files in `data/`, whose form README tells: a name that begins with
//! `facts` is that of a file of texts, each other one of a file of sessions. A line of the output is
//! such a file and how many of its cases were right; the exit status is 1 where one was not.
#![tactic(auto)]

mod case;
mod devices;
mod ended;
mod escapes;
mod facts;
mod failed;
mod script;

use crate::case::Case;
use crate::facts::Text;
use crate::failed::Failed;
use crate::script::{take_line, take_text};
use bstr::ByteSlice;
use std::process::ExitCode;
use std::rt::Files;
use std::{env, fs, io};

fn main(rt: HostRuntime) -> io::Result<ExitCode> {
    let words: Vec<String> = env::args(&rt)?.collect(rt.alloc())?;
    match run_files(&rt, words.as_slice()) {
        Ok(true) => Ok(ExitCode::from(0)),
        Ok(false) => Ok(ExitCode::from(1)),
        Err(Failed) => {
            println!(rt; "failed")?;
            Ok(ExitCode::from(1))
        }
    }
}

/// How many cases of a file were right and wrong.
#[derive(Drop)]
struct Counts {
    right: u64,
    wrong: u64,
}

/// Runs the cases of these files, the first word aside. Whether all were right.
fn run_files<R: Files + Print + AllocGlobal>(rt: &R, words: &[String]) -> Result<bool, Failed> {
    let mut is_right = true;
    for name in words.iter().skip(1) {
        let text = fs::read(rt, name.as_str())?;
        let mut counts = Counts { right: 0, wrong: 0 };
        if name.as_str().starts_with("facts") {
            run_texts(rt, text.as_slice(), &mut counts)?;
        } else {
            run_sessions(rt, text.as_slice(), &mut counts)?;
        }
        println!(rt;
            "{}: {} right, {} wrong",
            name.as_str(),
            counts.right,
            counts.wrong
        )?;
        is_right = is_right && counts.wrong == 0;
    }
    Ok(is_right)
}

/// Counts a case, and says what came where it was wrong.
fn count<R: Print + AllocGlobal>(
    rt: &R,
    counts: &mut Counts,
    is_right: bool,
    name: &[u8],
    came: &[u8],
) -> Result<(), Failed> {
    if is_right {
        counts.right = counts.right.saturating_add(1);
        return Ok(());
    }
    counts.wrong = counts.wrong.saturating_add(1);
    let name = String::from_utf8_lossy(rt.alloc(), name)?;
    let came = String::from_utf8_lossy(rt.alloc(), came)?;
    println!(rt; "{} is wrong:\n{}", name.as_str(), came.as_str())?;
    Ok(())
}

/// Runs a session, once its lines are over. What stands before the first has no name.
fn end_case<R: Print + AllocGlobal>(
    rt: &R,
    case: &mut Case,
    counts: &mut Counts,
) -> Result<(), Failed> {
    if case.name().is_empty() {
        return Ok(());
    }
    let is_right = case.is_right()?;
    count(rt, counts, is_right, case.name(), case.written())
}

/// Runs the sessions of a file.
fn run_sessions<R: Files + Print + AllocGlobal>(
    rt: &R,
    text: &[u8],
    counts: &mut Counts,
) -> Result<(), Failed> {
    let mut case = Case::new(rt.alloc());
    for line in text.lines() {
        match line.strip_prefix(b"== ".as_slice()) {
            Some(name) => {
                end_case(rt, &mut case, counts)?;
                case.begin(name)?;
            }
            None => take_line(rt, &mut case, line)?,
        }
    }
    end_case(rt, &mut case, counts)
}

/// Scans the texts of a file. Each line that says what is found is a case.
fn run_texts<R: Print + AllocGlobal>(
    rt: &R,
    lines: &[u8],
    counts: &mut Counts,
) -> Result<(), Failed> {
    let mut text = Text::new(rt.alloc());
    for line in lines.lines() {
        if line == b"==".as_slice() {
            text.clear();
        } else if !take_text(rt.alloc(), &mut text, line)? {
            count(rt, counts, false, line, text.found())?;
        } else if !line.is_empty() && !line.starts_with(b"|") && !line.starts_with(b"#") {
            count(rt, counts, true, line, b"")?;
        }
    }
    Ok(())
}
