//! Laws over files and over lives. Each is the contract of a function that does nothing.

mod files;
mod lives;

pub use files::{
    files_stand_for_one_state, files_stand_or_are_damaged, what_files_stand_for_is_well_kept,
};
pub use lives::{
    a_crash_leaves_a_life, a_history_on_disk_is_a_history, push_stands, reservation_ends,
    ticket_once, what_is_in_doubt_is_of_a_refused_entry,
};
