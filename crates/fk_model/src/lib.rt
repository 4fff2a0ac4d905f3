//! What the layers share: the script of a stream, that is, what is replied to its lines without a turn
//! and what turns they ask for; and the turns of the server, with its state and their history.
#![tactic(auto)]

mod answer;
mod ask;
mod batch;
mod entry;
mod fate;
mod gate;
mod item;
pub mod laws;
mod move_;
mod mutation;
mod place;
mod row;
mod spelling;
mod told;
mod work_state;

pub use answer::Answer;
pub use ask::Ask;
pub use batch::Batch;
pub use entry::Entry;
pub use fate::Fate;
pub use gate::Gate;
pub use item::Item;
pub use move_::{Move, Moves};
pub use mutation::{Cmd, Filter, Target};
pub use place::Place;
pub use row::Row;
pub use spelling::TEXT_LIMIT;
pub use told::{Compaction, Told};
pub use work_state::WorkState;
