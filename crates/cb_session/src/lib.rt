//! Commands and replies.
//!
//! A session reads commands from a feed, moves a desk and writes replies to a sink. It stands on
//! `cb_desk` (the files, their past, the answers), `cb_scan` (their texts), `cb_tags` (tag lines,
//! the feed and the sink) and `itoa` (numbers in replies). The layer above uses the contracts of
//! [`run`], [`prepare`] and [`Session::serve`]: what is written is the output of a run over the
//! bytes of the input.
#![tactic(auto)]

// What is read: inputs, what a line asks for, and how a run ends.
mod input;
mod line;

// What is done with it, and what is written.
mod reply;
mod state;
mod tags;

// Laws on the definitions of all this.
pub mod laws;

pub use input::{Command, Ended, Fault, Going, Input, Intake, Limits, OutOfMemory};
pub use reply::{put_answer, put_row};
pub use state::{Operand, Operands, Session, prepare, run};
pub use tags::{put_listing_file, put_tags_file};
