//! Moments as texts: read in the form of RFC 3339, and written in one form.
#![tactic(auto)]

mod bad_time;
mod front;
mod parts;
mod reading;
mod rest;
mod writing;

pub use bad_time::BadTime;
pub use reading::read_moment;
pub use writing::{GREATEST, write_moment};
