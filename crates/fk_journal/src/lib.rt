//! One file of pieces behind gates: a piece counts where its gate is open, and a crash at any moment
//! of an append leaves the file without the piece or with it.
#![tactic(auto)]

mod fault;
mod framing;
mod journal;
mod parts;
mod reading;
mod replaying;
mod writing;

pub use fault::{Damage, File, OpenFault, Refused, Replay};
pub use framing::{CLOSED_GATE, OPEN_GATE, OVERHEAD, begin_piece, end_piece, frame};
pub use journal::{GREATEST_FILE, GREATEST_NUMBER, Journal};
pub use parts::write_surely;
