//! Lists of pairs of numbers under names, with room for more.
#![tactic(auto)]

mod idle;
mod lists;
mod looking;
mod marking;
mod pair_list;
mod room_by_name;
mod size;

pub use lists::Lists;
pub use room_by_name::RoomByName;
pub use size::{Size, Sizes};
