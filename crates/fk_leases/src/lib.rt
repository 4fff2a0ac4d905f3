//! The leases: under each jid the rows of that jid that workers have, and until when.
#![tactic(auto)]

mod ends;
mod leases;
mod room;

pub use leases::Leases;
