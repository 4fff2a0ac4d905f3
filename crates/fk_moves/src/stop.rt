ghost use Rattle.std.specs.Prelude.{◌≡◌};
ghost use Rattle.fk_moves.specs.declared.stop.Stop.TheVariants.{NoMemory};

use std::alloc::AllocError;

/// Why a field isn't read.
#[derive(Clone, Copy)]
pub(crate) enum Stop {
    NoMemory,
    /// No field begins so. So many bytes stand behind the longest front with which one may begin.
    At(usize),
}

impl From<AllocError> for Stop {
    ghost from_gives = { λ _ e. e ≡ NoMemory };

    fn from(_refused: AllocError) -> Stop {
        Stop::NoMemory
    }
}
