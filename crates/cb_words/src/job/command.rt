//! The command line, as clap is to read it.
ghost use Rattle.std.specs.Prelude.{◌≡◌, IfOk};
ghost use Rattle.clap.specs.Words.{app_of, with_rule};
ghost use Rattle.cb_words.specs.Jobs.{files_rule, find_app, force_rule, line_app, list_rule};
ghost use Rattle.cb_words.specs.Jobs.{listing_rule, lsp_app, most_rule, num_rule, pattern_rule, prototypes_rule};
ghost use Rattle.cb_words.specs.Jobs.{root_rule, tagsfile_rule, wide_rule, with_bounds, with_files};
ghost use Rattle.cb_words.specs.Jobs.{with_output, with_profile};
ghost use Rattle.cb_words.specs.Commands.{TakesFormats, browse_app_of, tags_app_of, with_format};

use crate::job::VERSION;
use cb_desk::{MOST_BYTES, MOST_FILES};
use clap::builder::ValueParser;
use clap::{Arg, ArgAction, Command};
use std::alloc::{AllocError, Global};

/// The numbers of the formats.
static FORMATS: [&str; 2] = ["1", "2"];

/// What is said of the list of a session, and of another list.
const LIST: &str = "File with the names of more files, one a line";

const LIST_OR_INPUT: &str = "File with the names of more files, one a line; - for standard input";

/// The command of the program.
pub(crate) fn browse_command<'a>(alloc: Global) -> Result<Command<'a>, AllocError>
    ensures { IfOk result (λ command. TakesFormats browse_app_of (app_of command)) }
{
    Command::new(alloc, "cbrowse")
        .about("Browses C sources")
        .version(VERSION)
        .subcommand_required(true)
        .subcommand(line_command(alloc)?)?
        .subcommand(find_command(alloc)?)?
        .subcommand(tags_command(alloc)?)?
        .subcommand(lsp_command(alloc)?)
}

/// `line`: a session over standard input and output.
fn line_command<'a>(alloc: Global) -> Result<Command<'a>, AllocError>
    ensures { IfOk result (λ command. app_of command ≡ line_app) }
{
    let command = Command::new(alloc, "line")
        .about("Reads commands from standard input and writes their replies")
        .after_help("Example: cbrowse line a.c");
    let command = with_profile(alloc, command)?;
    let command = with_bounds(alloc, command)?;
    with_files(alloc, command, LIST, "C source to load first")
}

/// `find`: one search.
fn find_command<'a>(alloc: Global) -> Result<Command<'a>, AllocError>
    ensures { IfOk result (λ command. app_of command ≡ find_app) }
{
    let command = Command::new(alloc, "find")
        .about("Writes the rows that answer one question about C sources")
        .after_help("Example: cbrowse find 1 main a.c");
    let command = with_num(alloc, command)?;
    let command = with_pattern(alloc, command)?;
    let command = with_profile(alloc, command)?;
    let command = with_bounds(alloc, command)?;
    with_files(alloc, command, LIST_OR_INPUT, "C source to search")
}

/// `tags`: a tags file, or a listing.
fn tags_command<'a>(alloc: Global) -> Result<Command<'a>, AllocError>
    ensures { IfOk result (λ command. TakesFormats tags_app_of (app_of command)) }
{
    let command = Command::new(alloc, "tags")
        .about("Writes the tags of C sources to a tags file")
        .after_help("Example: cbrowse tags a.c");
    let command = with_listing(alloc, command)?;
    let command = with_output(alloc, command)?;
    let command = with_format(alloc, command)?;
    let command = with_profile(alloc, command)?;
    let command = with_bounds(alloc, command)?;
    with_files(
        alloc,
        command,
        LIST_OR_INPUT,
        "C source to write the tags of",
    )
}

/// `lsp`: a language server.
fn lsp_command<'a>(alloc: Global) -> Result<Command<'a>, AllocError>
    ensures { IfOk result (λ command. app_of command ≡ lsp_app) }
{
    let command = Command::new(alloc, "lsp")
        .about("Serves an editor by the Language Server Protocol, over standard input and output")
        .after_help("Example: cbrowse lsp --root /home/me/project a.c");
    let command = with_root(alloc, command)?;
    let command = with_profile(alloc, command)?;
    let command = with_bounds(alloc, command)?;
    with_files(alloc, command, LIST, "C source to load first")
}

/// Adds `--root`.
fn with_root<'a>(alloc: Global, command: Command<'a>) -> Result<Command<'a>, AllocError>
    ensures { IfOk result (λ more. app_of more ≡ with_rule (app_of command.entry) root_rule) }
{
    let root = Arg::new(alloc, "root").long("root").value_name("DIR").help(
        "Folder that the names of files are relative to; that of the editor if not given",
    );
    command.arg(root)
}

/// Adds the number of the field.
fn with_num<'a>(alloc: Global, command: Command<'a>) -> Result<Command<'a>, AllocError>
    ensures { IfOk result (λ more. app_of more ≡ with_rule (app_of command.entry) num_rule) }
{
    let num = Arg::new(alloc, "num").value_name("NUM").required(true).help(
        "Field of the search: 0 uses of a name, 1 its definitions, 2 calls in a function, 3 calls of it, 4 a text, 7 file names, 8 includes",
    );
    command.arg(num)
}

/// Adds the pattern.
fn with_pattern<'a>(alloc: Global, command: Command<'a>) -> Result<Command<'a>, AllocError>
    ensures { IfOk result (λ more. app_of more ≡ with_rule (app_of command.entry) pattern_rule) }
{
    let pattern = Arg::new(alloc, "pattern")
        .value_name("PATTERN")
        .required(true)
        .help("What is searched for; after -- where it begins with -");
    command.arg(pattern)
}

/// Adds `-x`.
fn with_listing<'a>(alloc: Global, command: Command<'a>) -> Result<Command<'a>, AllocError>
    ensures { IfOk result (λ more. app_of more ≡ with_rule (app_of command.entry) listing_rule) }
{
    let listing = Arg::new(alloc, "listing")
        .short('x')
        .action(ArgAction::SetTrue)
        .help("Write a listing to standard output instead");
    command.arg(listing)
}

/// Adds `-f` and `--force`.
fn with_output<'a>(alloc: Global, command: Command<'a>) -> Result<Command<'a>, AllocError>
    ensures { IfOk result (λ more. app_of more ≡ with_output (app_of command.entry)) }
{
    let command = with_tagsfile(alloc, command)?;
    with_force(alloc, command)
}

/// Adds `-f`.
fn with_tagsfile<'a>(alloc: Global, command: Command<'a>) -> Result<Command<'a>, AllocError>
    ensures { IfOk result (λ more. app_of more ≡ with_rule (app_of command.entry) tagsfile_rule) }
{
    let tagsfile = Arg::new(alloc, "tagsfile")
        .short('f')
        .value_name("TAGSFILE")
        .default_value("tags")
        .help("Tags file to write, - for standard output");
    command.arg(tagsfile)
}

/// Adds `--force`.
fn with_force<'a>(alloc: Global, command: Command<'a>) -> Result<Command<'a>, AllocError>
    ensures { IfOk result (λ more. app_of more ≡ with_rule (app_of command.entry) force_rule) }
{
    let force = Arg::new(alloc, "force")
        .long("force")
        .action(ArgAction::SetTrue)
        .help("Replace a file that is not a tags file");
    command.arg(force)
}

/// Adds `--format`.
fn with_format<'a>(alloc: Global, command: Command<'a>) -> Result<Command<'a>, AllocError>
    ensures { IfOk result
        (λ more. TakesFormats (with_format (app_of command.entry)) (app_of more)) }
{
    let format = Arg::new(alloc, "format")
        .long("format")
        .value_name("FORMAT")
        .value_parser(ValueParser::Names(FORMATS.as_slice()))
        .default_value("1")
        .help("Format of the tags file: 1 for POSIX ctags, 2 with extension fields");
    command.arg(format)
}

/// Adds `--max-files` and `--max-file-bytes`.
fn with_bounds<'a>(alloc: Global, command: Command<'a>) -> Result<Command<'a>, AllocError>
    ensures { IfOk result (λ more. app_of more ≡ with_bounds (app_of command.entry)) }
{
    let command = with_most(
        alloc,
        command,
        &Most {
            id: "max_files",
            long: "max-files",
            most: MOST_FILES,
            default: "4096",
            help: "Most files, 1 to 1048576",
        },
    )?;
    with_most(
        alloc,
        command,
        &Most {
            id: "max_file_bytes",
            long: "max-file-bytes",
            most: MOST_BYTES,
            default: "1000000",
            help: "Most bytes of a file, 1 to 268435456",
        },
    )
}

/// An option that takes a number from 1 to `most`.
struct Most<'a> {
    id: &'a str,
    long: &'a str,
    most: u32,
    default: &'a str,
    help: &'a str,
}

/// Adds such an option.
fn with_most<'a>(
    alloc: Global,
    command: Command<'a>,
    option: &Most<'a>,
) -> Result<Command<'a>, AllocError>
    ensures { IfOk result (λ more. app_of more ≡ with_rule (app_of command.entry)
        (most_rule option.now.id.now option.now.long.now option.now.most option.now.default.now)) }
{
    let most = Arg::new(alloc, option.id)
        .long(option.long)
        .value_name("N")
        .value_parser(ValueParser::Unsigned(1, option.most as u64))
        .default_value(option.default)
        .help(option.help);
    command.arg(most)
}

/// Adds `--wide` and `--prototypes`.
fn with_profile<'a>(alloc: Global, command: Command<'a>) -> Result<Command<'a>, AllocError>
    ensures { IfOk result (λ more. app_of more ≡ with_profile (app_of command.entry)) }
{
    let command = with_wide(alloc, command)?;
    with_prototypes(alloc, command)
}

/// Adds `--wide`.
fn with_wide<'a>(alloc: Global, command: Command<'a>) -> Result<Command<'a>, AllocError>
    ensures { IfOk result (λ more. app_of more ≡ with_rule (app_of command.entry) wide_rule) }
{
    let wide = Arg::new(alloc, "wide")
        .long("wide")
        .action(ArgAction::SetTrue)
        .help("Find enumerators, members and variables too, and names that macros hide");
    command.arg(wide)
}

/// Adds `--prototypes`.
fn with_prototypes<'a>(alloc: Global, command: Command<'a>) -> Result<Command<'a>, AllocError>
    ensures { IfOk result
        (λ more. app_of more ≡ with_rule (app_of command.entry) prototypes_rule) }
{
    let prototypes = Arg::new(alloc, "proto")
        .long("prototypes")
        .action(ArgAction::SetTrue)
        .help("With --wide: find external declarations and prototypes too");
    command.arg(prototypes)
}

/// Adds `--files-from` and the files.
fn with_files<'a>(
    alloc: Global,
    command: Command<'a>,
    list: &'a str,
    help: &'a str,
) -> Result<Command<'a>, AllocError>
    ensures { IfOk result (λ more. app_of more ≡ with_files (app_of command.entry)) }
{
    let command = with_list(alloc, command, list)?;
    with_operands(alloc, command, help)
}

/// Adds `--files-from`.
fn with_list<'a>(
    alloc: Global,
    command: Command<'a>,
    help: &'a str,
) -> Result<Command<'a>, AllocError>
    ensures { IfOk result (λ more. app_of more ≡ with_rule (app_of command.entry) list_rule) }
{
    let list = Arg::new(alloc, "files_from")
        .long("files-from")
        .value_name("LIST")
        .help(help);
    command.arg(list)
}

/// Adds the files.
fn with_operands<'a>(
    alloc: Global,
    command: Command<'a>,
    help: &'a str,
) -> Result<Command<'a>, AllocError>
    ensures { IfOk result (λ more. app_of more ≡ with_rule (app_of command.entry) files_rule) }
{
    let files = Arg::new(alloc, "files")
        .value_name("FILE")
        .action(ArgAction::Append)
        .help(help);
    command.arg(files)
}
