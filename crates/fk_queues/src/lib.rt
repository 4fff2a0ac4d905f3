//! The queues: under each name the ranks and tickets of the rows that wait, by rank.
#![tactic(auto)]

mod queues;

pub use queues::Queues;
