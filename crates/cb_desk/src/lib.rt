//! The files of a session, their past, and what is asked of them.
//!
//! A desk holds a timeline of worlds. A change moves it to the world that the step gives, undo
//! moves it back, and every answer is read from the present world. It is built on `cb_scan` (texts
//! and what they define) and `cb_tags` (tags, their order, and which names are names of files).
//! The layer above uses the contracts of [`Desk`].
#![tactic(auto)]

// What a session asks of the files, and how large it may grow.
mod bounds;
mod change;
mod rows;

// The desk, and its past and future.
mod history;
mod state;

// The present world, and what a change brings and does before anything moves.
mod plan;
mod present;

// The answers, row by row, and the lines of a text that hold another.
mod answers;
mod search;

// Places of a world, and what a change does to a list of them: place by place, as a file that gets
// another number, or in the shorter of these forms.
mod edits;
mod places;
mod renaming;

// What follows from the definitions alone.
pub mod laws;

pub use answers::{Definitions, Files, Rows, TagRows, Uses};
pub use bounds::{Bounds, MOST_BYTES, MOST_FILES};
pub use change::{Change, Refusal};
pub use places::Places;
pub use rows::{Field, Format, RefRow, is_header, line_row, unindented};
pub use state::Desk;
