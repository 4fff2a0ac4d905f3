//! One store for all connections. So far it is what a store has to be: what keeps the state of a server, turn after
//! turn.
#![tactic(auto)]

mod kept;

pub use kept::Kept;
