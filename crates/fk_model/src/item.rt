use crate::Ask;
use fk_frame::Reply;

/// What one line of the client gives.
#[derive(Drop)]
pub enum Item {
    /// A reply of its own.
    Own(Reply),
    /// What a turn is asked for. Its answer is the reply.
    Asks(Ask),
}
