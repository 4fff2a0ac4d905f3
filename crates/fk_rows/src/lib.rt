//! The table of rows: a row under each ticket, in order of ticket, with room for more. A row comes in
//! and leaves anywhere at the cost of a short move, and its memory is given back as it leaves.
#![tactic(auto)]

mod chunk;
mod chunks;
mod editing;
mod finding;
mod row_box;
mod rows;
mod spot;

pub use rows::Rows;
