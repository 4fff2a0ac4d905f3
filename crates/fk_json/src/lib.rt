//! Texts as lists of bytes, and JSON read with the places of its parts.
#![tactic(auto)]

mod border;
mod brackets;
mod cursor;
mod ends;
mod fault;
mod form;
mod list_of;
mod list_with_room;
mod member;
mod mode;
mod number;
mod number_mode;
mod piece;
mod run;
mod scan;
mod short;
mod span;
mod standing;
mod string;
mod string_mode;
mod text;
mod texts;
mod token;

pub use fault::JsonFault;
pub use list_of::ListOf;
pub use list_with_room::{Buffer, ListWithRoom, Pairs};
pub use member::{Member, Members};
pub use number::integer_value;
pub use scan::{scan_array, scan_object};
pub use span::{Span, Spans};
pub use string::{push_string, string_value};
pub use text::Text;
pub use texts::Texts;
