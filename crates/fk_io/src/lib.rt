//! The outside as the server sees it: where bytes come from and go to, and how often that failed;
//! what time it is, and what the dice say.
#![tactic(auto)]

mod byte_sink;
mod byte_source;
mod clock;
mod dice;
mod duplex;
mod fault;
mod list_clock;
mod list_dice;
mod rand_dice;
mod real_clock;
mod sink;
mod source;
mod std_sink;
mod std_source;
mod telling;

pub use byte_sink::ByteSink;
pub use byte_source::ByteSource;
pub use clock::Clock;
pub use dice::Dice;
pub use duplex::Duplex;
pub use fault::{Ended, Failed, raised};
pub use list_clock::ListClock;
pub use list_dice::ListDice;
pub use rand_dice::RandDice;
pub use real_clock::RealClock;
pub use sink::Sink;
pub use source::{PIECE_MAX, Source};
pub use std_sink::StdSink;
pub use std_source::StdSource;
