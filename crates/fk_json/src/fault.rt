use std::alloc::AllocError;
use thiserror::Error;

/// Why a text isn't read as JSON.
#[derive(Clone, Copy, Debug, Error)]
pub enum JsonFault {
    /// The text stops being JSON at this byte, counted from 0, or ends here too early.
    #[error("no JSON at byte {0}")]
    Syntax(usize),
    /// The bracket at this byte opens a level too many.
    #[error("too many open brackets at byte {0}")]
    TooDeep(usize),
    #[error("out of memory")]
    NoMemory,
}

impl From<AllocError> for JsonFault {
    ghost use Rattle.std.specs.Prelude.{◌≡◌};
    ghost use Rattle.fk_json.specs.declared.fault.JsonFault.TheVariants.{NoMemory};

    ghost from_gives = { λ _ e. e ≡ NoMemory };

    fn from(_refused: AllocError) -> JsonFault {
        JsonFault::NoMemory
    }
}
