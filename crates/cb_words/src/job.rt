//! What the words of the command line ask for.
ghost use Rattle.std.specs.Prelude.{◌≡◌, MatchResult, map, string_bytes};
ghost use Rattle.clap.specs.Words.{kind_of, subcommand_of, subcommand_rows_of};
ghost use Rattle.cb_words.specs.Jobs.{browse_app, IsJobOf};
ghost use Rattle.cb_words.specs.Usages.{IsUsageOf, TellsKind, no_job_text};

mod command;
mod matched;

use cb_desk::{Bounds, Field, Format};
use cb_scan::Rules;
use clap::error::ErrorKind;
use clap::{ArgMatches, Error};
use std::alloc::{AllocError, Global};

/// The version of the program.
pub const VERSION: &str = "0.1.0";

/// What the program is to do, within which bounds, and by which rules. A list is a file with the
/// names of more files, one a line.
#[derive(Debug, Drop)]
pub enum Job {
    /// A session over standard input and output, with these files loaded first. Its list is not `-`.
    Line {
        bounds: Bounds,
        rules: Rules,
        list: Option<String>,
        files: Vec<String>,
    },
    /// The rows that answer a question about these files. The pattern is not empty. The list `-` is
    /// standard input.
    Find {
        bounds: Bounds,
        rules: Rules,
        field: Field,
        pattern: String,
        list: Option<String>,
        files: Vec<String>,
    },
    /// The tags of these files: a listing on standard output, or else a tags file of this name and
    /// form, by force in the place of any file. The list `-` is standard input.
    Tags {
        bounds: Bounds,
        rules: Rules,
        listing: bool,
        tagsfile: String,
        force: bool,
        format: Format,
        list: Option<String>,
        files: Vec<String>,
    },
    /// A language server over standard input and output, with these files loaded first. Their names
    /// are relative to the root, whose path begins with a slash; without one, to that of the
    /// client. Its list is not `-`.
    Lsp {
        bounds: Bounds,
        rules: Rules,
        root: Option<String>,
        list: Option<String>,
        files: Vec<String>,
    },
}

/// Why there is no job.
#[derive(Debug, Drop)]
pub enum Usage {
    /// Help or the version was asked for: its text.
    Help(String),
    /// The words are wrong: the text that says why.
    Wrong(String),
    /// The number of a search is not that of a field.
    BadField,
    /// The pattern of a search is empty.
    NoPattern,
    /// A growth of memory was refused.
    Memory,
}

impl From<AllocError> for Usage {
    ghost use Rattle.cb_words.specs.declared.job.Usage.TheVariants.{Memory};

    ghost from_gives = { λ _ usage. usage ≡ Memory };

    fn from(_error: AllocError) -> Usage {
        Usage::Memory
    }
}

/// The job of the words, of which the first is the program's name.
pub fn job_of(alloc: Global, words: &[String]) -> Result<Job, Usage>
    ensures { MatchResult result (IsJobOf (subcommand_of browse_app (map string_bytes words.now)))
        (IsUsageOf (map string_bytes words.now)) }
{
    let mut command = command::browse_command(alloc)?;
    let matches = match command.try_get_matches_from_mut(words) {
        Ok(matches) => matches,
        Err(error) => return Err(usage_of(alloc, &error)),
    };
    let found = match matched::found_job(alloc, &matches) {
        Ok(found) => found,
        Err(usage) => return Err(usage),
    };
    match found {
        Some(job) => Ok(job),
        None => Err(Usage::Wrong(String::from_str(alloc, no_job_text(&matches))?)),
    }
}

/// What is said of words that clap takes and that give no job: clap refuses other formats and
/// bounds, so what they lack is `--wide` or a file, or they ask for a list on an input that has
/// commands or messages, or for a root that is no path from `/`.
fn no_job_text(matches: &ArgMatches<'_>) -> &'static str
    ensures { result.now ≡ no_job_text (subcommand_rows_of matches.now) }
{
    match matches.subcommand() {
        Some((_, found)) if matched::rules_of(found).is_none() =>
            "error: the following required arguments were not provided:\n  --wide\n\nFor more information, try '--help'.\n",
        Some(("line", _)) =>
            "error: invalid value '-' for '--files-from <LIST>': standard input has the commands\n\nFor more information, try '--help'.\n",
        Some(("lsp", found)) if matched::reads_input(found) =>
            "error: invalid value '-' for '--files-from <LIST>': standard input has the messages\n\nFor more information, try '--help'.\n",
        Some(("lsp", _)) =>
            "error: invalid value for '--root <DIR>': it must begin with '/'\n\nFor more information, try '--help'.\n",
        _ =>
            "error: the following required arguments were not provided:\n  <FILE>... or --files-from <LIST>\n\nFor more information, try '--help'.\n",
    }
}

/// The text that clap gives, as help or as what is wrong.
fn usage_of(alloc: Global, error: &Error) -> Usage
    ensures { TellsKind (kind_of error.now) result }
{
    match (error.kind(), error.to_string(alloc)) {
        (ErrorKind::OutOfMemory, _) => Usage::Memory,
        (_, Err(_)) => Usage::Memory,
        (ErrorKind::DisplayHelp, Ok(text)) => Usage::Help(text),
        (ErrorKind::DisplayVersion, Ok(text)) => Usage::Help(text),
        (_, Ok(text)) => Usage::Wrong(text),
    }
}
