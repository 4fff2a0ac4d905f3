use std::alloc::AllocError;
use thiserror::Error;

/// Why a value is read as no filter.
#[derive(Clone, Copy, Debug, Error)]
pub enum FilterFault {
    /// It is neither null nor an object, or `jobtype` or `regexp` is there and neither null nor a string,
    /// or `jids` is there and neither null nor an array of strings.
    #[error("a bad filter")]
    BadFilter,
    #[error("out of memory")]
    NoMemory,
}

impl From<AllocError> for FilterFault {
    ghost use Rattle.std.specs.Prelude.{◌≡◌};
    ghost use Rattle.fk_filter.specs.declared.fault.FilterFault.TheVariants.{NoMemory};

    ghost from_gives = { λ _ fault. fault ≡ NoMemory };

    fn from(_: AllocError) -> FilterFault {
        FilterFault::NoMemory
    }
}
