//! The rows of the lines that hold a text, one after another.
ghost use Rattle.std.specs.Prelude.{◌≡◌, ◌≢◌, ◌≤◌, ◌*◌, [], ◌∷◌, ◌++◌, length, MatchOption, ⊤};
ghost use Rattle.std.specs.Iterator.{YieldsFirstBy, item_count};
ghost use Rattle.std.specs.List.{flat_map};
ghost use Rattle.cb_desk.specs.Answer.{text_rows_in};
ghost use Rattle.cb_desk.specs.declared.bounds.TheConstants.{MOST_BYTES, MOST_FILES};
ghost use Rattle.cb_desk.specs.Models.{row_of, file_of};
ghost use Rattle.cb_desk.specs.steps.TextsLeft.{rows_in, rows_left, IsSmall};

use crate::answers::files::Files;
use crate::rows::{RefRow, line_row};
use crate::search::{LinesLeft, next_line};
use cb_scan::Source;
use memchr::memmem::Finder;
use std::marker::Model;

/// A file, and what is left of it to be searched.
#[derive(Clone, Copy)]
struct Searched<'a> {
    name: &'a [u8],
    source: &'a Source,
    left: LinesLeft<'a>,
}

impl<'a> Searched<'a> {
    /// A whole file.
    fn new(name: &'a [u8], source: &'a Source, finder: &Finder<'_>) -> Searched<'a>
        ensures rows { rows_left finder.now result
            ≡ text_rows_in finder.now (file_of (name.entry, source.entry)) }
        ensures small { IsSmall result }
    {
        Searched {
            name,
            source,
            left: LinesLeft::new(source),
        }
    }

    /// The next row, and what is left after it.
    fn next_row(self, finder: &Finder<'_>) -> Option<(RefRow<'a>, Searched<'a>)>
        requires some { finder.now ≢ [] }
        requires small { IsSmall self }
        ensures rows { MatchOption result (rows_left finder.now self.entry ≡ [])
            (λ r. rows_left finder.now self.entry ≡ row_of r.0 ∷ rows_left finder.now r.1) }
        ensures small { MatchOption result ⊤ (λ r. IsSmall r.1) }
    {
        let (line, left) = next_line(finder, self.left)?;
        let row = line_row(self.name, self.source, line);
        Some((
            row,
            Searched {
                name: self.name,
                source: self.source,
                left,
            },
        ))
    }
}

/// The first row of some files, and what is left of its file. The files up to it are passed.
fn first_row<'a>(files: &mut Files<'a>, finder: &Finder<'_>) -> Option<(RefRow<'a>, Searched<'a>)>
    requires { finder.now ≢ [] }
    ensures rows { MatchOption result
        ((rows_in finder.now files.old ≡ []) × (rows_in finder.now files.new ≡ []))
        (λ r. rows_in finder.now files.old
        ≡ row_of r.0 ∷ (rows_left finder.now r.1 ++ rows_in finder.now files.new)) }
    ensures small { MatchOption result ⊤ (λ r. IsSmall r.1) }
{
    while let Some((name, source)) = files.next() {
        let found = Searched::new(name, source, finder).next_row(finder);
        if found.is_some() {
            return found;
        }
    }
    None
}

/// The first of some files that has a row. The files up to it are passed.
fn first_text<'a>(files: &mut Files<'a>, finder: &Finder<'_>) -> Option<Searched<'a>>
    requires { finder.now ≢ [] }
    ensures rows { MatchOption result
        ((rows_in finder.now files.old ≡ []) × (rows_in finder.now files.new ≡ []))
        (λ s. rows_in finder.now files.old
        ≡ rows_left finder.now s ++ rows_in finder.now files.new) }
    ensures small { MatchOption result ⊤ IsSmall }
{
    while let Some((name, source)) = files.next() {
        let text = Searched::new(name, source, finder);
        if text.next_row(finder).is_some() {
            return Some(text);
        }
    }
    None
}

/// The rows of the lines that hold a text, by file and line. They take no memory.
#[derive(Drop)]
pub struct TextRows<'a, 'p> {
    searched: Option<Searched<'a>>,
    files: Files<'a>,
    finder: Finder<'p>,
}

impl<'a, 'p> Model for TextRows<'a, 'p> {
    ghost use Rattle.std.specs.Prelude.{List, ◌++◌, ◌≢◌, ◌≤◌, ◌*◌, [], length};
    ghost use Rattle.cb_desk.specs.Answer.{AnswerRow};
    ghost use Rattle.cb_desk.specs.declared.bounds.TheConstants.{MOST_BYTES, MOST_FILES};
    ghost use Rattle.cb_desk.specs.steps.TextsLeft.{rows_in, rows_of, IsSmallIfAny};

    ghost Value = { List AnswerRow };

    ghost view = { λ r. rows_of r.finder r.searched ++ rows_in r.finder r.files };

    ghost invariant = { λ r. (r.finder ≢ []) × IsSmallIfAny r.searched
        × (length (rows_of r.finder r.searched ++ rows_in r.finder r.files)
        ≤ MOST_FILES * MOST_BYTES) };
}

impl<'a, 'p> TextRows<'a, 'p> {
    /// The files without a row before the first one are searched here, and not once more.
    pub(crate) fn new(files: Files<'a>, pattern: &'p [u8]) -> TextRows<'a, 'p>
        requires some { pattern.now ≢ [] }
        requires few { length (flat_map (text_rows_in pattern.now) files)
            ≤ MOST_FILES * MOST_BYTES }
        ensures { result ≡ flat_map (text_rows_in pattern.now) files.entry }
    {
        let finder = Finder::new(pattern);
        let mut files = files;
        let searched = first_text(&mut files, &finder);
        TextRows {
            searched,
            files,
            finder,
        }
    }

    /// How many rows are left. It walks over all of them, and takes no memory.
    pub fn count_left(&self) -> usize
        ensures { result ≡ length self.now }
    {
        let rows = TextRows {
            searched: self.searched,
            files: self.files.again(),
            finder: Finder::new(self.finder.needle()),
        };
        rows.count()
    }
}

impl<'a, 'p> Iterator for TextRows<'a, 'p> {
    type Item = RefRow<'a>;

    ghost next_gives = { YieldsFirstBy row_of (λ rows. rows) };

    ghost remaining = { item_count (λ rows. rows) };

    fn next(&mut self) -> Option<RefRow<'a>> {
        if let Some(searched) = self.searched {
            if let Some((row, left)) = searched.next_row(&self.finder) {
                self.searched = Some(left);
                return Some(row);
            }
            self.searched = None;
        }
        let (row, left) = first_row(&mut self.files, &self.finder)?;
        self.searched = Some(left);
        Some(row)
    }
}
