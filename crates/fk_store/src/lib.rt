//! A server's state over two disks: it is opened from what the files tell, and each turn's change is on the disk
//! before the turn is answered. A crash at any moment leaves files that stand for what was answered last, with at
//! most the one command that was on its way or in doubt.
#![tactic(auto)]

mod carrying;
mod closing;
mod emptying;
mod keeping;
mod limits;
mod listing;
mod making;
mod opening;
mod replaying;
mod room;
mod spelling;
mod store;
mod turning;

pub use opening::OpenRefused;
pub use store::Store;
