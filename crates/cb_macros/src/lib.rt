//! Which macros of a session lead where: from the macros that a function names, by the names of
//! their texts, to a name or to a macro that makes something else of its arguments.
//!
//! [`first_through`] is what a rename asks before it edits. The crate stands on `cb_desk`
//! (definitions and texts) and `cb_names` (the text of one macro).
#![tactic(auto)]

mod met;
mod search;

pub use search::{Sought, first_through, has_parameters};
