//! The files that are read again before a question is answered, where the client does not tell of
//! files that are written.
ghost use Rattle.std.specs.Prelude.{◌≡◌, IfOk, Some, fold, map};
ghost use Rattle.std.specs.List.{list_any};
ghost use Rattle.std.specs.Option.{option_map};
ghost use Rattle.std.specs.Str.{bytes_eq};
ghost use Rattle.cb_index.specs.Rows.{tags_named};
ghost use Rattle.cb_lsp.specs.Models.{asked_of, sought_of};
ghost use Rattle.cb_lsp.specs.Answers.{name_of_uri};
ghost use Rattle.cb_lsp.specs.Refresh.{about, files_asked, files_besides, files_called_in};
ghost use Rattle.cb_lsp.specs.Refresh.{files_of_tags, files_of_uses, files_with, sought_at};
ghost use Rattle.cb_lsp.specs.Refresh.{sought_by, with_file, word_in_uri, word_there};
ghost use Rattle.cb_lsp.specs.Searches.{found_by};
ghost use Rattle.cb_lsp.specs.steps.Located.{client_in};

use crate::documents::copy_of;
use crate::location::Forms;
use crate::outgoing::add_called;
use crate::place::bytes_of;
use crate::question::{FileQuestion, PlaceQuestion, Question};
use crate::symbols::{FoundTags, MOST_SYMBOLS};
use crate::word::word_at;
use cb_desk::Desk;
use cb_wire::{Position, path_of_uri, place_of_position};
use std::alloc::{AllocError, Global};
use std::marker::Model;

/// The most files that are read again for one answer.
const MOST_REFRESHED: usize = 64;

/// A name that is asked about, and whether the answer is about its uses, too.
#[derive(Clone, Copy, Debug)]
pub(crate) struct Sought<'a> {
    pub(crate) name: Option<&'a [u8]>,
    pub(crate) uses: bool,
}

/// The names of files, each once.
#[derive(Debug, Drop)]
pub(crate) struct FileNames {
    names: Vec<Vec<u8>>,
}

impl Model for FileNames {
    ghost use Rattle.std.specs.Prelude.{List, map, ℕ};

    ghost Value = { List (List ℕ) };

    ghost view = { λ files. map (λ name. name.items) files.names.items };
}

/// Whether a file is one of those that have these names.
fn is_among(names: &[Vec<u8>], file: &[u8]) -> bool
    ensures { result ≡ list_any (λ name. bytes_eq name.items file.now) names.now }
{
    names.iter().any(|name| name.as_slice() == file)
}

impl FileNames {
    ghost use Rattle.std.specs.Prelude.{◌≡◌, [], false, length};

    /// None yet.
    fn new(alloc: Global) -> FileNames
        ensures { result ≡ [] }
    {
        FileNames {
            names: Vec::new(alloc),
        }
    }

    /// The names.
    pub(crate) fn as_slice(&self) -> &[Vec<u8>]
        ensures { map (λ name. name.items) result.now ≡ self.now }
    {
        self.names.as_slice()
    }

    /// Whether a file is among them.
    fn holds(&self, file: &[u8]) -> bool
        ensures { result ≡ list_any (λ other. bytes_eq other file.now) self.now }
    {
        is_among(self.names.as_slice(), file)
    }

    /// Adds a file, unless it is among them or they are the most.
    pub(crate) fn add(&mut self, alloc: Global, file: &[u8]) -> Result<(), AllocError>
        ensures { IfOk result (λ _. self.new ≡ with_file self.old file.now) }
    {
        if self.holds(file) || self.names.len() >= MOST_REFRESHED {
            return Ok(());
        }
        self.names.push(copy_of(alloc, file)?)?;
        Ok(())
    }

    /// Adds the files of the definitions of a name.
    fn add_definitions(&mut self, alloc: Global, desk: &Desk, name: &[u8]) -> Result<(), AllocError>
        ensures { IfOk result (λ _. self.new ≡ fold with_file self.old (files_of_tags
            (tags_named desk.now.timeline.present.profile name.now
            desk.now.timeline.present.files))) }
    {
        let mut rows = desk.definitions(name);
        'rows: while let Some(row) = rows.next() {
            self.add(alloc, row.file)?;
        }
        Ok(())
    }

    /// Adds the files of the uses of a name, where they are asked for.
    fn add_uses(
        &mut self,
        alloc: Global,
        desk: &Desk,
        name: &[u8],
        uses: bool,
    ) -> Result<(), AllocError>
        ensures { IfOk result (λ _. self.new
            ≡ fold with_file self.old (files_of_uses desk.now.timeline.present name.now uses)) }
    {
        if !uses {
            return Ok(());
        }
        let mut rows = desk.uses(name);
        'rows: while let Some(row) = rows.next() {
            self.add(alloc, row.file)?;
        }
        Ok(())
    }

    /// Adds the files of the definitions of a name, and then those of its uses, where they are asked
    /// for.
    fn add_sought(
        &mut self,
        alloc: Global,
        desk: &Desk,
        sought: Sought<'_>,
    ) -> Result<(), AllocError>
        ensures { IfOk result (λ _. self.new ≡ fold with_file self.old
            (files_with desk.now.timeline.present (sought_of sought.entry).name
            (sought_of sought.entry).uses)) }
    {
        match sought.name {
            Some(name) => {
                self.add_definitions(alloc, desk, name)?;
                self.add_uses(alloc, desk, name, sought.uses)
            }
            None => Ok(()),
        }
    }

    /// Adds the files of the symbols that a query names.
    fn add_found(&mut self, alloc: Global, desk: &Desk, query: &[u8]) -> Result<(), AllocError>
        ensures { IfOk result (λ _. self.new ≡ fold with_file self.old
            (files_of_tags (found_by desk.now.timeline.present query.now))) }
    {
        let mut rows = FoundTags::new(desk, query);
        let mut left = MOST_SYMBOLS;
        'rows: while left > 0 {
            let Some(row) = rows.next() else {
                return Ok(());
            };
            self.add(alloc, row.file)?;
            left -= 1;
        }
        Ok(())
    }

    /// Adds the files of what is called by what has a name at a position of the file of a URI.
    fn add_called(
        &mut self,
        alloc: Global,
        forms: Forms<'_>,
        desk: &Desk,
        name: &[u8],
        uri: &str,
        position: Position,
    ) -> Result<(), AllocError>
        ensures { IfOk result (λ _. self.new ≡ fold with_file self.old (files_called_in
            (client_in forms.entry) desk.now.timeline.present name.now position
            (name_of_uri (client_in forms.entry) uri.now))) }
    {
        let Some(path) = path_of_uri(alloc, uri.as_bytes())? else {
            return Ok(());
        };
        let file = forms.root.name(path.as_slice());
        match add_called(alloc, forms, desk, self, name, file, position) {
            Ok(()) => Ok(()),
            Err(error) => Err(error),
        }
    }

    /// Adds the files of what is found besides: the symbols of a query, and what is called.
    fn add_besides(
        &mut self,
        alloc: Global,
        forms: Forms<'_>,
        desk: &Desk,
        question: Question<'_>,
    ) -> Result<(), AllocError>
        ensures { IfOk result (λ _. self.new ≡ fold with_file self.old (files_besides
            (client_in forms.entry) desk.now.timeline.present (asked_of question.entry))) }
    {
        match question {
            Question::WorkspaceSymbols(query) => self.add_found(alloc, desk, query.as_bytes()),
            Question::Outgoing(name, uri, position) => {
                self.add_called(alloc, forms, desk, name.as_bytes(), uri, position)
            }
            Question::InFile(_, _)
            | Question::Rename(_, _, _)
            | Question::Incoming(_, _)
            | Question::Folds(_) => Ok(()),
        }
    }
}

/// The word at a position of the file of a name, if there is one.
fn word_there<'a>(
    forms: Forms<'_>,
    desk: &'a Desk,
    name: &[u8],
    position: Position,
) -> Option<&'a [u8]>
    ensures { option_map (λ word. word.now) result ≡ word_there (client_in forms.entry)
        desk.now.timeline.present (Some name.now) position }
{
    let (source, _facts) = desk.scanned(name)?;
    let word = word_at(
        source,
        place_of_position(forms.encoding, source.bytes(), position),
    )?;
    Some(bytes_of(source, word))
}

/// The same in the file of a URI.
fn word_in_uri<'a>(
    alloc: Global,
    forms: Forms<'_>,
    desk: &'a Desk,
    uri: &str,
    position: Position,
) -> Result<Option<&'a [u8]>, AllocError>
    ensures { IfOk result (λ found. option_map (λ word. word.now) found
        ≡ word_in_uri (client_in forms.entry) desk.now.timeline.present uri.now position) }
{
    match path_of_uri(alloc, uri.as_bytes())? {
        Some(path) => Ok(word_there(forms, desk, forms.root.name(path.as_slice()), position)),
        None => Ok(None),
    }
}

/// What a question about a file asks about.
fn sought_at<'a>(
    alloc: Global,
    forms: Forms<'_>,
    desk: &'a Desk,
    uri: &str,
    question: FileQuestion,
) -> Result<Sought<'a>, AllocError>
    ensures { IfOk result (λ sought. sought_of sought
        ≡ sought_at (client_in forms.entry) desk.now.timeline.present uri.now question) }
{
    let (position, uses) = match question {
        FileQuestion::At(position, PlaceQuestion::Definition) => (position, false),
        FileQuestion::At(position, PlaceQuestion::Declaration) => (position, false),
        FileQuestion::At(position, PlaceQuestion::Hover) => (position, false),
        FileQuestion::At(position, PlaceQuestion::Callables) => (position, false),
        FileQuestion::At(position, PlaceQuestion::References(_)) => (position, true),
        FileQuestion::Symbols
        | FileQuestion::At(_, PlaceQuestion::Highlights)
        | FileQuestion::At(_, PlaceQuestion::PrepareRename)
        | FileQuestion::Completions(_) => {
            return Ok(Sought {
                name: None,
                uses: false,
            });
        }
    };
    let name = word_in_uri(alloc, forms, desk, uri, position)?;
    Ok(Sought { name, uses })
}

/// What a question asks about, whose answer names other files.
fn sought_by<'a>(
    alloc: Global,
    forms: Forms<'_>,
    desk: &'a Desk,
    question: Question<'a>,
) -> Result<Sought<'a>, AllocError>
    ensures { IfOk result (λ sought. sought_of sought
        ≡ sought_by (client_in forms.entry) desk.now.timeline.present (asked_of question.entry)) }
{
    match question {
        Question::InFile(uri, question) => sought_at(alloc, forms, desk, uri, question),
        Question::Rename(uri, position, _) => Ok(Sought {
            name: word_in_uri(alloc, forms, desk, uri, position)?,
            uses: true,
        }),
        Question::Incoming(name, _) => Ok(Sought {
            name: Some(name.as_bytes()),
            uses: true,
        }),
        Question::Outgoing(name, _, _) => Ok(Sought {
            name: Some(name.as_bytes()),
            uses: false,
        }),
        Question::WorkspaceSymbols(_) | Question::Folds(_) => Ok(Sought {
            name: None,
            uses: false,
        }),
    }
}

/// The files that are read again for a question: those of the definitions of the name that is asked
/// about, those of its uses, where the answer is about them, and those of what is found besides.
pub(crate) fn files_asked(
    alloc: Global,
    forms: Forms<'_>,
    desk: &Desk,
    question: Question<'_>,
) -> Result<FileNames, AllocError>
    ensures { IfOk result (λ files. files ≡ files_asked (client_in forms.entry)
        desk.now.timeline.present (asked_of question.entry)) }
{
    let mut files = FileNames::new(alloc);
    files.add_sought(alloc, desk, sought_by(alloc, forms, desk, question)?)?;
    files.add_besides(alloc, forms, desk, question)?;
    Ok(files)
}
