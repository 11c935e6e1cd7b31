//! Finds what a C text of at most 268,435,456 bytes defines, uses, calls and includes.
//!
//! [`pieces`] cuts a [`Source`] into its lexemes, and [`scan`] finds its [`Facts`]. The layers
//! above cite the contract of [`scan`]; [`laws`] say what holds of the pieces and facts of every
//! text. The crate is built on `bstr` (lines), `memchr` (the end of a block comment) and
//! `thiserror`.
#![tactic(auto)]

mod facts;
mod gather;
pub mod laws;
mod lex;
mod meter;
mod prefix;
mod profile;
mod rules;
mod scanner;
mod source;

pub use facts::{Call, Def, Facts, Include, Kind, Tag, Use};
pub use lex::cut::pieces;
pub use lex::name::is_name;
pub use lex::piece::{Class, Piece, Pieces, Span};
pub use lex::token::{Role, Token, WordKind};
pub use meter::Meter;
pub use prefix::key_prefix;
pub use profile::{Profile, Rules, Wanted};
pub use rules::scope::Range;
pub use rules::wide::attribute::attribute_len;
pub use rules::wide::naming::{PartNames, part_names};
pub use rules::wide::role::WideRole;
pub use rules::wide::token::WideToken;
pub use scanner::{code_tokens, function_ranges, line_tokens, scan};
pub use source::{ScanError, Source};
