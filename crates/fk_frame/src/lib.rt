//! Replies as bytes, and bytes as lines and as replies.
#![tactic(auto)]

mod bulk_length;
mod front;
mod front_cut;
mod line_reader;
mod reply;
mod reply_fault;
mod reply_reader;

pub use front_cut::give_up_first;
pub use line_reader::{LINE_MAX, Line, LineReader};
pub use reply::{Reply, no_reply_begins_another, write_reply};
pub use reply_fault::ReplyFault;
pub use reply_reader::ReplyReader;
