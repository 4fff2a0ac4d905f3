//! The payload of a job: what a producer sends, and what a worker is given.
#![tactic(auto)]

mod body;
mod counting;
mod failure;
mod fault;
mod fields;
mod job;
pub mod laws;
mod named;
mod reading;
mod stamp;
mod values;
mod writing;

pub use failure::{Failure, FailureParts};
pub use fault::JobFault;
pub use job::{Job, Jobs};
pub use named::string_of;
pub use reading::read_job;
pub use stamp::Stamp;
pub use values::{DEFAULT_QUEUE, are_queue_bytes};
pub use writing::write_job;
