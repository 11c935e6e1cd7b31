//! The form of a tags file: its lines, their addresses and the names that they have; the feed and
//! the sink, which take bytes in and out.
//!
//! It stands on `cb_scan` (sources, kinds of definitions), `itoa` (line numbers) and, in proofs
//! alone, `bstr` (lines). No call takes memory.
//! The layer above uses the contracts of [`put_plain`], [`put_extended`], [`put_listing`] and
//! [`put_heads`]: on success exactly the lines of the definition are appended, on a fault a prefix
//! of them.
#![tactic(auto)]

mod address;
mod feed;
pub mod laws;
mod name;
mod row;
mod sink;
mod tag_name;
mod text;

pub use address::{Address, read_address};
pub use feed::{Feed, ReadFault};
pub use name::is_file_name;
pub use row::{Scope, TagRow, put_extended, put_heads, put_listing, put_plain};
pub use sink::{Sink, WriteFault};
pub use tag_name::{compare_tag_key, compare_tag_names};
pub use text::{put_text, put_texts};
