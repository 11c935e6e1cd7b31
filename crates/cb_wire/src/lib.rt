//! The lowest part of a language server: what goes over the wire.
//!
//! It knows nothing of files and of what they define.
#![tactic(auto)]

mod calls;
mod completion;
mod edits;
mod fold;
mod frame;
mod head;
mod header;
pub mod laws;
mod list;
mod location;
mod message;
mod part;
mod position;
mod range;
mod reply;
mod root;
mod surrogates;
mod symbol;
mod units;
mod uri;
mod watch;
mod welcome;

pub use calls::{CallItem, Calls, Ranged, Side};
pub use completion::{Completion, Rank};
pub use edits::FileEdit;
pub use fold::Fold;
pub use frame::{Frame, FrameError, Frames, MOST_BODY};
pub use list::{Element, Elements, MOST_ELEMENTS, list_in_memory, put_list_result};
pub use location::{Highlight, HighlightKind, Location};
pub use message::{Call, Id, Message, OutOfMemory, message_of, text_of, value_of};
pub use part::{Part, part_length, parts_length, put_message, put_parts};
pub use position::{Position, Range, line_at, place_of_position, position_of_place};
pub use reply::{
    ErrorCode, put_error, put_log, put_range_result, put_result, put_result_end, put_result_head,
    put_show,
};
pub use root::{Root, given_name};
pub use surrogates::with_whole_pairs;
pub use symbol::{Symbol, TreeSymbol};
pub use units::{Encoding, column_of_place, place_of_column};
pub use uri::{path_of_uri, put_escaped, steps_back};
pub use watch::put_watch_request;
pub use welcome::put_welcome;
