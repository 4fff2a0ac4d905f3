//! Sets by moment: the rows that are scheduled, that wait for a retry, or that are dead.
#![tactic(auto)]

mod timed;

pub use fk_tree::Steps;
pub use timed::Timed;
