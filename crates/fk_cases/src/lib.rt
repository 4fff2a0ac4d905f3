//! What the programs share that play scripts of cases over files in memory: reading a script, what its lines say,
//! and what a transcript shows.
#![tactic(auto)]

mod choice;
mod digits;
mod edits;
mod failing;
mod fault;
mod playing;
mod said;
mod shown;
mod told;

pub use choice::choice_of;
pub use digits::{push_bytes, push_digits};
pub use edits::{edit, set};
pub use failing::Failing;
pub use fault::{ScriptFault, Stop};
pub use playing::{ended, script_of};
pub use said::{file_of, number, numbers, place};
pub use shown::push_escaped;
pub use told::{clock_of, dice_of};
