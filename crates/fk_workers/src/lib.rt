//! The workers that a server has heard of: who is listed, in which state, and who is forgotten.
#![tactic(auto)]

mod heard;
mod wid;
mod workers;

pub use heard::FORGET_AFTER;
pub use workers::Workers;
