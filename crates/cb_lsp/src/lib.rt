//! A language server for C: what editors ask by the Language Server Protocol (LSP 3.17).
//!
//! A [`Server`] has the files of a desk and the documents that the editor has open. It reads
//! messages from a feed, and writes replies to a sink. It stands on `cb_desk` (the files, what they
//! define), `cb_names` (what a name means in its function alone) and `cb_wire` (messages, replies,
//! positions, URIs). The layer above uses the contract of [`Server::serve`].
#![tactic(auto)]

mod alike;
mod answers;
mod body;
mod caller;
mod callers;
mod calls;
mod change;
mod closure;
mod columns;
mod completion;
mod disk;
mod documents;
mod edited;
mod folds;
mod header;
mod highlights;
mod hover;
mod kind;
pub mod laws;
mod local;
mod local_rename;
mod location;
mod meaning;
mod name_rename;
mod nearest;
mod notice;
mod outgoing;
mod parameter;
mod params;
mod place;
mod question;
mod reach;
mod references;
mod refresh;
mod rename;
mod renamed_text;
mod run;
mod same;
mod server;
mod shown;
mod spots;
mod symbols;
mod text;
mod turn;
mod visible;
mod word;
mod word_uses;
mod workspace;
mod written;

pub use disk::{Disk, Found};
pub use run::RunFault;
pub use server::Server;
pub use turn::Ending;
