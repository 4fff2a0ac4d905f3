//! A balanced search tree of pairs of a moment and a ticket, with room for more.
#![tactic(auto)]

mod counter;
mod key;
mod levels;
mod putting;
mod reading;
mod side;
mod spare;
mod steps;
mod taking;
mod tree;
mod turning;

pub use steps::Steps;
pub use tree::Tree;
