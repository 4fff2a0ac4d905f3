use std::alloc::AllocError;
use thiserror::Error;

/// Why bytes aren't read as moves.
#[derive(Clone, Copy, Debug, Error)]
pub enum MovesFault {
    /// The bytes spell no list of moves. So many of them, from the first on, begin one, and no more do.
    #[error("no moves at byte {0}")]
    BadMoves(usize),
    #[error("out of memory")]
    NoMemory,
}

impl From<AllocError> for MovesFault {
    ghost use Rattle.std.specs.Prelude.{◌≡◌};
    ghost use Rattle.fk_moves.specs.declared.fault.MovesFault.TheVariants.{NoMemory};

    ghost from_gives = { λ _ e. e ≡ NoMemory };

    fn from(_refused: AllocError) -> MovesFault {
        MovesFault::NoMemory
    }
}
