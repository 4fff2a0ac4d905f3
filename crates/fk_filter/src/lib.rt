//! Which rows a MUTATE is about, and what serde_json decodes of a command.
#![tactic(auto)]

mod decoded;
mod fault;
mod globbing;
mod matching;
mod part;
mod reading;
mod stretch;
mod texts;

pub use decoded::{member, short_text};
pub use fault::FilterFault;
pub use matching::matches;
pub use reading::read_filter;
