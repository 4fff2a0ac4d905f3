//! The plan of a turn: what is said to an ask, and the moves that make it so.
#![tactic(auto)]

mod acknowledging;
mod arriving;
mod attending;
mod bringing;
mod choosing;
mod closing;
mod counting;
mod enqueuing;
mod expiring;
mod failing;
mod fetching;
mod flushing;
mod forgetting;
mod holding;
mod listing;
mod matching;
mod members;
mod merging;
mod mutating;
mod numbers;
mod placing;
mod planning;
mod pushing;
mod replies;
mod reporting;
mod sizing;
mod taking;
mod telling;

pub use planning::plan;
