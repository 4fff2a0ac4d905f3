//! Moves as bytes: how a list of moves is spelled in a file, and how it is read again.
#![tactic(auto)]

mod fault;
pub mod laws;
mod length;
mod names;
mod numbers;
mod parts;
mod putting;
mod reading;
mod rest;
mod stop;
mod writing;

pub use fault::MovesFault;
pub use length::moves_length;
pub use reading::read_moves;
pub use writing::write_moves;
