//! The top calls of the job server.
#![tactic(auto)]

mod finished;
mod piped;
mod serving;
mod words;

pub use finished::Finished;
pub use piped::pipe;
pub use words::{CommandWord, Settings, WordsFault, read_words};
