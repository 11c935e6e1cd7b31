//! The job of what clap found in the words.
ghost use Rattle.std.specs.Prelude.{◌≡◌, ◌≤◌, ℕ, IfOk, MatchResult, Some, codes, is_some, map};
ghost use Rattle.std.specs.Prelude.{string_bytes};
ghost use Rattle.std.specs.Option.{MatchOption, option_map};
ghost use Rattle.clap.specs.Words.{all_of, first_of, subcommand_rows_of};
ghost use Rattle.cb_desk.specs.World.{WorldBounds};
ghost use Rattle.cb_words.specs.Jobs.{AreBoundsOf, IsJobOf, Writes, all_or_none, field_of};
ghost use Rattle.cb_words.specs.Jobs.{first_or, format_number, history_of, is_absolute, is_set};
ghost use Rattle.cb_words.specs.Jobs.{list_in, most_files, names_files, rules_in, reads_input};
ghost use Rattle.cb_words.specs.Usages.{IsBadSearch};
ghost use Rattle.cb_words.specs.declared.job.Job.{Job};
ghost use Rattle.cb_desk.specs.declared.rows.Format.{Format};
ghost use Rattle.cb_words.specs.Commands.{rows_in};

use crate::job::{Job, Usage};
use cb_desk::{Bounds, Field, Format, MOST_BYTES, MOST_FILES};
use cb_scan::Rules;
use clap::ArgMatches;
use std::alloc::{AllocError, Global};

/// The job of the subcommand that was found, or `None` where there is no such subcommand, format or
/// bound.
pub(crate) fn found_job(alloc: Global, matches: &ArgMatches<'_>) -> Result<Option<Job>, Usage>
    ensures { MatchResult result
        (λ found. MatchOption found ((job : Job) → IsJobOf (subcommand_rows_of matches.now) job → ⊥)
        (IsJobOf (subcommand_rows_of matches.now)))
        (IsBadSearch (subcommand_rows_of matches.now)) }
{
    match matches.subcommand() {
        Some(("line", found)) => Ok(line_job(alloc, found)?),
        Some(("find", found)) => find_job(alloc, found),
        Some(("tags", found)) => Ok(tags_job(alloc, found)?),
        Some(("lsp", found)) => Ok(lsp_job(alloc, found)?),
        _ => Ok(None),
    }
}

/// The search that was asked for, or `None` where there is no file or no such bound or rules. Its
/// number is judged after the file, and then its pattern.
fn find_job(alloc: Global, found: &ArgMatches<'_>) -> Result<Option<Job>, Usage>
    ensures { MatchResult result (λ job. MatchOption job
        ((job : Job) → IsJobOf (Some (codes "find", rows_in found.now)) job → ⊥)
        (IsJobOf (Some (codes "find", rows_in found.now))))
        (IsBadSearch (Some (codes "find", rows_in found.now))) }
{
    if !names_files(found) {
        return Ok(None);
    }
    let Some(field) = field_of(value_or(found, "num", "")) else {
        return Err(Usage::BadField);
    };
    let pattern = value_or(found, "pattern", "");
    if pattern.is_empty() {
        return Err(Usage::NoPattern);
    }
    let Some(bounds) = bounds_of(found) else {
        return Ok(None);
    };
    let Some(rules) = rules_of(found) else {
        return Ok(None);
    };
    Ok(Some(Job::Find {
        bounds,
        rules,
        field,
        pattern: String::from_str(alloc, pattern)?,
        list: text_of(alloc, found, "files_from")?,
        files: files_of(alloc, found)?,
    }))
}

/// The field of this number.
fn field_of(num: &str) -> Option<Field>
    ensures { result ≡ field_of num.now }
{
    match num.as_bytes() {
        [digit] => Field::of_digit(*digit),
        _ => None,
    }
}

/// The session that was asked for, or `None` where its list would be standard input, or there is no
/// such bound or rules.
fn line_job(alloc: Global, found: &ArgMatches<'_>) -> Result<Option<Job>, AllocError>
    ensures { IfOk result (λ job. MatchOption job
        ((job : Job) → IsJobOf (Some (codes "line", rows_in found.now)) job → ⊥)
        (IsJobOf (Some (codes "line", rows_in found.now)))) }
{
    if reads_input(found) {
        return Ok(None);
    }
    let Some(bounds) = bounds_of(found) else {
        return Ok(None);
    };
    let Some(rules) = rules_of(found) else {
        return Ok(None);
    };
    Ok(Some(Job::Line {
        bounds,
        rules,
        list: text_of(alloc, found, "files_from")?,
        files: files_of(alloc, found)?,
    }))
}

/// The tags that were asked for, or `None` where there is no file or no such format, bound or
/// rules.
fn tags_job(alloc: Global, found: &ArgMatches<'_>) -> Result<Option<Job>, AllocError>
    ensures { IfOk result (λ job. MatchOption job
        ((job : Job) → IsJobOf (Some (codes "tags", rows_in found.now)) job → ⊥)
        (IsJobOf (Some (codes "tags", rows_in found.now)))) }
{
    if !names_files(found) {
        return Ok(None);
    }
    let Some(format) = format_of(value_or(found, "format", "1")) else {
        return Ok(None);
    };
    let Some(bounds) = bounds_of(found) else {
        return Ok(None);
    };
    let Some(rules) = rules_of(found) else {
        return Ok(None);
    };
    Ok(Some(Job::Tags {
        bounds,
        rules,
        listing: is_set(found, "listing"),
        tagsfile: String::from_str(alloc, value_or(found, "tagsfile", "tags"))?,
        force: is_set(found, "force"),
        format,
        list: text_of(alloc, found, "files_from")?,
        files: files_of(alloc, found)?,
    }))
}

/// The language server that was asked for, or `None` where its list would be standard input, its
/// root is no path from `/`, or there is no such bound or rules.
fn lsp_job(alloc: Global, found: &ArgMatches<'_>) -> Result<Option<Job>, AllocError>
    ensures { IfOk result (λ job. MatchOption job
        ((job : Job) → IsJobOf (Some (codes "lsp", rows_in found.now)) job → ⊥)
        (IsJobOf (Some (codes "lsp", rows_in found.now)))) }
{
    if reads_input(found) {
        return Ok(None);
    }
    if !has_absolute_root(found) {
        return Ok(None);
    }
    let Some(bounds) = bounds_of(found) else {
        return Ok(None);
    };
    let Some(rules) = rules_of(found) else {
        return Ok(None);
    };
    Ok(Some(Job::Lsp {
        bounds,
        rules,
        root: text_of(alloc, found, "root")?,
        list: text_of(alloc, found, "files_from")?,
        files: files_of(alloc, found)?,
    }))
}

/// The format of this number.
fn format_of(number: &str) -> Option<Format>
    ensures { MatchOption result ((format : Format) → format_number format ≡ number.now → ⊥)
        (λ format. format_number format ≡ number.now) }
{
    match number {
        "1" => Some(Format::Plain),
        "2" => Some(Format::Extended),
        _ => None,
    }
}

/// The number from 1 to `most` that a text writes, if it writes one.
fn count_of(text: &str, most: u32) -> Option<u32>
    ensures { MatchOption result ((n : ℕ) → Writes most text.now n → ⊥) (Writes most text.now) }
{
    match text.parse::<u32>() {
        Ok(count) if count >= 1 && count <= most => Some(count),
        _ => None,
    }
}

/// The bounds that were asked for, if there are such.
fn bounds_of(found: &ArgMatches<'_>) -> Option<Bounds>
    ensures { MatchOption result ((b : WorldBounds) → AreBoundsOf (rows_in found.now) b → ⊥)
        (AreBoundsOf (rows_in found.now)) }
{
    let files = count_of(value_or(found, "max_files", "4096"), MOST_FILES)?;
    let file_bytes = count_of(value_or(found, "max_file_bytes", "1000000"), MOST_BYTES)?;
    Some(Bounds::new(files, file_bytes, history_of(files)))
}

/// The history of a session of at most so many files. Each load is a change.
fn history_of(files: u32) -> u32
    requires { files ≤ most_files }
    ensures { result ≡ history_of files }
{
    let standard = Bounds::standard();
    standard.history() + files.saturating_sub(standard.files())
}

/// Whether an option without a value was given.
fn is_set(found: &ArgMatches<'_>, id: &str) -> bool
    ensures { result ≡ is_set id.now (rows_in found.now) }
{
    value_or(found, id, "false") == "true"
}

/// The rules that were asked for, or `None` where prototypes were, and not the wide ones.
pub(crate) fn rules_of(found: &ArgMatches<'_>) -> Option<Rules>
    ensures { result ≡ rules_in (rows_in found.now) }
{
    match (is_set(found, "wide"), is_set(found, "proto")) {
        (false, false) => Some(Rules::Standard),
        (true, false) => Some(Rules::Wide),
        (true, true) => Some(Rules::Prototypes),
        (false, true) => None,
    }
}

/// The first value of an argument, or this text where it has none.
fn value_or<'a>(found: &ArgMatches<'a>, id: &str, text: &'a str) -> &'a str
    ensures { result.now ≡ first_or id.now text.entry.now (rows_in found.now) }
{
    found.get_str(id).unwrap_or(text)
}

/// The first value of an argument, if it has one.
fn value_of<'a>(found: &ArgMatches<'a>, id: &str) -> Option<&'a str>
    ensures { option_map (λ value. value.now) result ≡ first_of id.now (rows_in found.now) }
{
    found.get_str(id)
}

/// Whether a file was given.
fn has_files(found: &ArgMatches<'_>) -> bool
    ensures { result ≡ is_some (all_of (codes "files") (rows_in found.now)) }
{
    found.get_raw("files").is_some()
}

/// Whether a file or a list of files was given.
fn names_files(found: &ArgMatches<'_>) -> bool
    ensures { result ≡ names_files (rows_in found.now) }
{
    has_files(found) || value_of(found, "files_from").is_some()
}

/// Whether the list of files that was given is standard input.
pub(crate) fn reads_input(found: &ArgMatches<'_>) -> bool
    ensures { result ≡ reads_input (list_in (rows_in found.now)) }
{
    match value_of(found, "files_from") {
        Some(list) => list == "-",
        None => false,
    }
}

/// Whether the root is a path from `/`, if one was given.
fn has_absolute_root(found: &ArgMatches<'_>) -> bool
    ensures { result ≡ is_absolute (first_of (codes "root") (rows_in found.now)) }
{
    match value_of(found, "root") {
        Some(root) => root.as_bytes().starts_with(b"/"),
        None => true,
    }
}

/// The first value of an argument, if it has one, in memory of its own.
fn text_of(alloc: Global, found: &ArgMatches<'_>, id: &str) -> Result<Option<String>, AllocError>
    ensures { IfOk result
        (λ text. option_map string_bytes text ≡ first_of id.now (rows_in found.now)) }
{
    match value_of(found, id) {
        Some(text) => Ok(Some(String::from_str(alloc, text)?)),
        None => Ok(None),
    }
}

/// The files that were given.
fn files_of(alloc: Global, found: &ArgMatches<'_>) -> Result<Vec<String>, AllocError>
    ensures { IfOk result
        (λ files. map string_bytes files.items ≡ all_or_none (codes "files") (rows_in found.now)) }
{
    match found.get_raw("files") {
        Some(texts) => copies_of(alloc, texts),
        None => Ok(Vec::new(alloc)),
    }
}

/// The texts in memory of their own.
fn copies_of(alloc: Global, texts: &[&str]) -> Result<Vec<String>, AllocError>
    ensures { IfOk result
        (λ copies. map string_bytes copies.items ≡ map (λ text. text.now) texts.now) }
{
    let mut copies = Vec::new(alloc);
    for text in texts {
        copies.push(String::from_str(alloc, text)?)?;
    }
    Ok(copies)
}
