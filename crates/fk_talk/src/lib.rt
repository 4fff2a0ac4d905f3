//! The text of one connection: the handshake with its password, and what its lines give.
#![tactic(auto)]

mod hello;
mod line;
mod outgoing;
mod password;
mod standing;
mod talk;
mod turn;

pub use fk_model::Gate;
pub use password::pass_hash;
pub use standing::Standing;
pub use talk::Talk;
pub use turn::Turn;
