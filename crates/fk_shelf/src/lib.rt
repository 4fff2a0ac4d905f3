//! The files of a server: opening them, replaying what they tell, and appending to the live one. A crash within
//! any call leaves files that stand for what they stood for, or for that with the piece that was being appended.
#![tactic(auto)]

mod header;
mod making;
mod opening;
mod replaying;
mod shelf;
mod writing;

pub use shelf::{Shelf, ShelfRefused};
