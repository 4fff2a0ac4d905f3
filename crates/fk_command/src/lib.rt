//! What a line asks for once a HELLO was accepted: a turn, the end of the talk, or nothing, and then why.
#![tactic(auto)]

mod ack;
mod batch;
mod beat;
mod command;
mod fail;
mod fetch;
mod key;
mod mutate;
mod object;
mod push;
mod refusal;
mod signal;
mod verb;

pub use command::{Command, read_command};
pub use object::{read_object, string_among};
pub use verb::{Verb, arguments_of, command_in};
