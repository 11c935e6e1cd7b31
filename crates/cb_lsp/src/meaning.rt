//! Which definitions are private to a file.
ghost use Rattle.std.specs.Prelude.{◌≡◌};
ghost use Rattle.cb_tags.specs.TagLines.{tag_of};
ghost use Rattle.cb_lsp.specs.Meaning.{has_private, is_function, is_private, is_private_in};
ghost use Rattle.cb_lsp.specs.steps.Meanings.{begins_private};

use cb_desk::Definitions;
use cb_scan::Kind;
use cb_tags::TagRow;

fn is_function(kind: Kind) -> bool
    ensures { result ≡ is_function kind }
{
    matches!(kind, Kind::Function)
}

/// Whether a definition is private to its file: a local function of a file that ends in `.c`.
#[tactic(auto, unfolding(crate::specs::Meaning::is_private))]
fn is_private(row: &TagRow<'_>) -> bool
    ensures { result ≡ is_private (tag_of row.now) }
{
    is_function(row.kind) && row.local && row.file.ends_with(b".c")
}

/// Whether a definition is private to that file.
fn is_private_in(row: &TagRow<'_>, file: &[u8]) -> bool
    ensures { result ≡ is_private_in file.now (tag_of row.now) }
{
    is_private(row) && row.file == file
}

/// Whether one of these definitions is private to a file.
pub(crate) fn has_private(rows: &Definitions<'_, '_>, file: &[u8]) -> bool
    ensures { result ≡ has_private file.now rows.now }
{
    let mut left = rows.again();
    'rows: while let Some(row) = left.next() {
        if is_private_in(&row, file) {
            return true;
        }
    }
    false
}

/// Whether one of the first definitions, those of a file, is private.
#[tactic(auto, unfolding(crate::specs::steps::Meanings::begins_private))]
pub(crate) fn begins_private(rows: &Definitions<'_, '_>, file: &[u8]) -> bool
    ensures { result ≡ begins_private file.now rows.now }
{
    let mut left = rows.again();
    'rows: while let Some(row) = left.next() {
        if row.file != file {
            return false;
        }
        if is_private(&row) {
            return true;
        }
    }
    false
}
