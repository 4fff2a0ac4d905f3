//! What becomes of a job that failed.
#![tactic(auto)]

mod schedule;

pub use schedule::{end_of_dead, failed};
