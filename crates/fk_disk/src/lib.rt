//! A file as the server sees it: what a read gives, and what a crash may leave.
#![tactic(auto)]

mod calls;
mod choice;
mod disk;
mod file_disk;
mod held;
mod memory_disk;
mod past;
mod torn;
mod trace;

pub use choice::Choice;
pub use disk::Disk;
pub use file_disk::FileDisk;
pub use memory_disk::MemoryDisk;
