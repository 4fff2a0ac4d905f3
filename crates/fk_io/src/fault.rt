ghost use Rattle.std.specs.Prelude.{◌≡◌};
ghost use Rattle.fk_io.specs.Faults.{one_more};
ghost use Rattle.fk_io.specs.declared.fault.Ended.TheVariants.{NoMemory};

use std::alloc::AllocError;

/// A call to the outside failed. The object that was called has counted it.
#[derive(Clone, Copy, Debug, PartialEq, Eq)]
pub struct Failed;

/// How a session on one connection ended.
#[derive(Clone, Copy, Debug, PartialEq, Eq)]
pub enum Ended {
    /// The talk was over, or the input was read to its end, and every reply was written.
    Closed,
    /// A read failed.
    ReadFault,
    /// A write failed.
    WriteFault,
    /// As many bytes were taken as one connection may send.
    Spent,
    /// The connection found no memory for itself.
    NoMemory,
}

impl From<AllocError> for Ended {
    ghost from_gives = { λ _ ended. ended ≡ NoMemory };

    fn from(_: AllocError) -> Self {
        Ended::NoMemory
    }
}

/// A count of faults after one more. It stands still at the last count that a `u64` holds.
pub fn raised(count: u64) -> u64
    ensures { result ≡ one_more count }
{
    count.saturating_add(1)
}
