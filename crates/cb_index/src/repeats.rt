//! Items whose row is that of an earlier item, and the name in the function column.
ghost use Rattle.std.specs.Prelude.{◌≡◌, ◌∷◌, [], true, ℕ, MatchOption};
ghost use Rattle.std.specs.Str.{bytes_eq};
ghost use Rattle.cb_index.specs.Columns.{cells_to};
ghost use Rattle.cb_index.specs.Counts.{function_of};
ghost use Rattle.cb_index.specs.Hash.{hash};
ghost use Rattle.cb_index.specs.Items.{item_key};
ghost use Rattle.cb_index.specs.Repeats.{have_one_row, is_repeat};
ghost use Rattle.cb_index.specs.steps.Found.{fact_at};
ghost use Rattle.cb_index.specs.steps.Given.{given_left};
ghost use Rattle.cb_index.specs.steps.Left.{fact_of_spot};
ghost use Rattle.cb_index.specs.steps.FunctionSpans.{function_span};

use crate::archive::{ScannedSource, Version};
use crate::columns::{Cell, hash, is_near};
use crate::entry::FactKind;
use crate::items::{Chain, item_line, item_span, key_in, share_key};
use crate::rows::{FactSpot, fact_in};
use cb_scan::{Facts, Span};

/// The name in the function column.
fn function_of<'a>(sort: FactKind, spot: FactSpot<'a>) -> &'a [u8]
    ensures { result.now ≡ function_of sort (fact_of_spot spot.entry) }
{
    match sort {
        FactKind::Callers => spot.name,
        _ => match spot.scope {
            Some(name) => name,
            None => b"<global>",
        },
    }
}

/// Where the name in the function column stands in the text, if it is there.
pub(crate) fn function_span(sort: FactKind, facts: &Facts, item: u32) -> Option<Span>
    ensures { result ≡ function_span sort facts.now item }
{
    match sort {
        FactKind::Uses => match facts.uses().get(item as usize) {
            Some(found) => found.scope,
            None => None,
        },
        FactKind::Callees => item_span(FactKind::Callers, facts, item),
        FactKind::Callers => item_span(FactKind::Callees, facts, item),
    }
}

/// Whether two items show a name at one place of the text, or none of the text.
pub(crate) fn have_one_span(sort: FactKind, facts: &Facts, a: u32, b: u32) -> bool
    ensures { result ≡ true → function_span sort facts.now a ≡ function_span sort facts.now b }
{
    match (function_span(sort, facts, a), function_span(sort, facts, b)) {
        (Some(one), Some(other)) => one.start == other.start && one.end == other.end,
        (None, None) => true,
        _ => false,
    }
}

/// Whether two items show one name. Its bytes are looked at only where it stands at two places: a
/// name may be long, and around many items.
pub(crate) fn have_one_function(sort: FactKind, text: &ScannedSource, a: u32, b: u32) -> bool
    ensures { result ≡ bytes_eq (function_of sort (fact_at sort [] text.now b))
        (function_of sort (fact_at sort [] text.now a)) }
{
    if have_one_span(sort, text.facts(), a, b) {
        return true;
    }
    function_in(sort, text, b) == function_in(sort, text, a)
}

/// The name in the function column of an item.
pub(crate) fn function_in(sort: FactKind, text: &ScannedSource, item: u32) -> &[u8]
    ensures { result.now ≡ function_of sort (fact_at sort [] text.now item) }
{
    function_of(sort, fact_in(sort, b"", text, item))
}

/// Whether two items have one key, and equal rows under it.
fn have_one_row(sort: FactKind, text: &ScannedSource, a: u32, b: u32) -> bool
    ensures { result ≡ have_one_row sort text.now a b }
{
    let one = fact_in(sort, b"", text, a);
    let other = fact_in(sort, b"", text, b);
    (other.line == one.line && have_one_function(sort, text, a, b)) && share_key(sort, text, a, b)
}

/// Whether an item has the key of another one, whose hash is this, and its row. The cells are those
/// of the first items.
fn has_row_of(
    sort: FactKind,
    text: &ScannedSource,
    cells: &[Cell],
    item: u32,
    own: u32,
    other: u32,
) -> bool
    requires hash { own ≡ hash (item_key sort text.now item) }
    requires cells { (n : ℕ) × (cells.now ≡ cells_to sort text.now n) }
    ensures { result ≡ have_one_row sort text.now item other }
{
    is_near(cells, other, own) && have_one_row(sort, text, item, other)
}

/// Whether an item is a repeat, by a search back to the last item of a line before its own: items
/// go by line. The cells are those of the first items.
pub(crate) fn search_repeat(sort: FactKind, text: &ScannedSource, cells: &[Cell], item: u32) -> bool
    requires { (n : ℕ) × (cells.now ≡ cells_to sort text.now n) }
    ensures { result ≡ is_repeat sort text.now item }
{
    let own = hash(key_in(sort, text, item));
    let line = item_line(sort, text.facts(), item);
    let mut before = item;
    while before > 0 {
        before -= 1;
        if item_line(sort, text.facts(), before) < line {
            return false;
        }
        if has_row_of(sort, text, cells, item, own, before) {
            return true;
        }
    }
    false
}

/// Whether an item before an item has its key and its row.
pub(crate) fn is_repeat(sort: FactKind, version: &Version, item: u32) -> bool
    ensures { result ≡ is_repeat sort version.now item }
{
    let column = version.column(sort);
    match column.get(item as usize) {
        Some(cell) => cell.repeat(),
        None => search_repeat(sort, version.text(), column, item),
    }
}

/// The first of the items of one key that are still to come: of all, or of those that are no
/// repeats.
pub(crate) fn take_given(items: &mut Chain<'_>, all: bool) -> Option<u32>
    ensures left { MatchOption result (given_left all items.old ≡ [])
        (λ item. given_left all items.old ≡ item ∷ given_left all items.new) }
    ensures sort { items.new.sort ≡ items.old.sort }
    ensures version { items.new.version.now ≡ items.old.version.now }
{
    while let Some(item) = items.take() {
        if all || !is_repeat(items.sort(), items.version(), item) {
            return Some(item);
        }
    }
    None
}
