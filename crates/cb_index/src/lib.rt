//! Versions of files and sorted indexes of their facts.
//!
//! An [`Archive`] keeps file names and versions, each under a number. A [`Shelf`] has an archive
//! and shows some of its versions, each under a file name, with two sorted indexes of the
//! definitions in them. The crate stands on `cb_scan` (facts) and `cb_tags` (tag names). The layer above
//! uses the contracts of [`Shelf`]: its readers give exactly the facts of the files that are shown.
#![tactic(auto)]

// What is kept: names and versions, each under a number, with what is found in them.
mod archive;

// What is shown of it: the shelf with its indexes, the list of what it shows, and how many
// facts that has.
mod shelf;
mod shown;
mod totals;

// What a shelf lends row by row: files and their includes, tags of definitions, uses and calls; and
// the rows themselves.
mod facts;
mod files;
mod includes;
mod rows;
mod tags;

// An index: what it keeps and of which kind, the keys and the order of that, its entries in order
// with the versions that are pending, and the sort that puts these in.
mod entry;
mod index;
mod order;
mod sort;

// What is kept in blocks: places in them, what is lent from them, and lists in blocks.
mod blocks;

// The uses and calls of one key in a version, the columns by which they are found, and those whose
// rows are equal.
mod columns;
mod items;
mod repeats;

// An index of rows for its own sake, and the laws of the orders.
pub mod laws;
mod sorted;

pub use archive::{Archive, OutOfMemory, Version};
pub use entry::{FactKind, IndexKind, Posting, Shown};
pub use facts::{FactRows, FactSpots};
pub use files::ShownFiles;
pub use includes::{Entries, IncludeRows};
pub use rows::{FactRow, FactSpot, TagSpot};
pub use shelf::{Room, Shelf};
pub use shown::are_rising;
pub use sorted::{
    CallsByCallee, CallsByCaller, DefsByName, DefsByTagName, Row, RowOrder, Rows, Sorted,
    UsesByName,
};
pub use tags::TagRows;
pub use totals::Totals;
