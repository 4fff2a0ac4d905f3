//! The kept state in tables: the rows, and beside them the queues, leases and sets by which they
//! are found.
#![tactic(auto)]

mod applying;
mod fitting;
mod index;
mod looking;
mod reserving;
mod sets;
mod tables;
mod timed_set;

pub use fitting::GREATEST_NEXT;
pub use tables::Tables;
