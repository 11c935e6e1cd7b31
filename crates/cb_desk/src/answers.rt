//! The answers of a desk, row by row, from what a shelf shows. None of them takes memory or scans.
mod definitions;
mod files;
mod found;
mod rows;
mod tags;
mod texts;

pub(crate) use definitions::nth_definition;
pub use definitions::{Definitions, Uses};
pub use files::Files;
pub(crate) use files::{scanned, shown_as, source, split_named};
pub use rows::Rows;
pub use tags::TagRows;
pub(crate) use tags::{tag_rows, tag_rows_from};
