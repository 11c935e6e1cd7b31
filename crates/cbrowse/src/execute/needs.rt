//! What a job reads of its texts.
ghost use Rattle.std.specs.Prelude.{◌≡◌};
ghost use Rattle.cbrowse.specs.Messages.{rules_of};
ghost use Rattle.cbrowse.specs.Needs.{asked_by, needed_by, needed_of, only};

use cb_desk::Field;
use cb_scan::{Profile, Rules, Wanted};
use cb_words::Job;

/// The facts of these lists.
fn only(defs: bool, uses: bool, calls: bool, includes: bool) -> Wanted
    ensures { result ≡ only defs uses calls includes }
{
    Wanted {
        defs,
        uses,
        calls,
        includes,
    }
}

/// The facts that a field asks for.
fn asked_by(field: Field) -> Wanted
    ensures { result ≡ asked_by field }
{
    match field {
        Field::Symbol => only(false, true, false, false),
        Field::Definition => only(true, false, false, false),
        Field::Called | Field::Calling => only(false, false, true, false),
        Field::Text | Field::File => only(false, false, false, false),
        Field::Including => only(false, false, false, true),
    }
}

/// The facts that a job reads.
fn needed_by(job: &Job) -> Wanted
    ensures { result ≡ needed_by job.now }
{
    match job {
        Job::Line { .. } => Wanted::all(),
        Job::Find { field, .. } => asked_by(*field),
        Job::Tags { .. } => only(true, false, false, false),
        Job::Lsp { .. } => Wanted::all(),
    }
}

/// The rules of a job.
fn rules_of(job: &Job) -> Rules
    ensures { result ≡ rules_of job.now }
{
    match job {
        Job::Line { rules, .. } => *rules,
        Job::Find { rules, .. } => *rules,
        Job::Tags { rules, .. } => *rules,
        Job::Lsp { rules, .. } => *rules,
    }
}

/// The rules of a job, and the facts that it reads.
pub(crate) fn needed_of(job: &Job) -> Profile
    ensures { result ≡ needed_of job.now }
{
    Profile {
        rules: rules_of(job),
        wanted: needed_by(job),
    }
}
