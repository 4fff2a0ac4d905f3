//! What the files of a server stand for, its turns on disk, and its life through crashes: definitions, and laws
//! over them.
#![tactic(auto)]

mod header;
pub mod laws;

pub use header::Header;
