//! The session of one connection, over whatever keeps the state of a server on two disks.
#![tactic(auto)]

mod lines;
mod send;
mod session;

pub use session::pipe_session;
