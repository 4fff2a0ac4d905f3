ghost use Rattle.std.specs.Prelude.{◌≤◌, IfOk};

use crate::store::Room;
use fk_json::Buffer;
use fk_model::Moves;
use std::alloc::{AllocError, Global};

/// The moves and the bytes for which room is kept from one turn to the next.
pub(crate) const MOVES_KEPT: usize = 64;

pub(crate) const BYTES_KEPT: usize = 4096;

impl Room {
    /// The room that is kept.
    pub(crate) fn new(alloc: Global) -> Result<Room, AllocError>
        ensures moves { IfOk result (λ room. 64 ≤ room.moves.spare) }
        ensures piece { IfOk result (λ room. 4096 ≤ room.piece.spare) }
    {
        let mut moves = Moves::new(alloc);
        moves.reserve(MOVES_KEPT)?;
        let mut piece = Buffer::new(alloc);
        piece.reserve(BYTES_KEPT)?;
        Ok(Room { moves, piece })
    }
}
