use fk_json::JsonFault;
use std::alloc::AllocError;
use thiserror::Error;

/// Why a text is no job.
///
/// Of `Syntax` and `TooDeep` the one with the earlier place is told, and of those from `NoJid` to
/// `BadAt`, which come only of a text that is one JSON object, the first in this order. Want of
/// memory may come in the place of any. For `queue`, `reserve_for`, `retry` and `at` null counts as
/// absent, and so does the empty string for `queue` and `at`.
#[derive(Clone, Copy, Debug, Error)]
pub enum JobFault {
    /// It stops being a JSON object at this byte, counted from 0, or ends here too early.
    #[error("no JSON object at byte {0}")]
    Syntax(usize),
    /// The bracket at this byte opens a level too many.
    #[error("too many open brackets at byte {0}")]
    TooDeep(usize),
    /// `jid` is absent, null or not a string.
    #[error("no jid")]
    NoJid,
    /// The decoded jid has fewer than 8 bytes.
    #[error("a jid shorter than 8 bytes")]
    ShortJid,
    /// `jobtype` is absent, null, not a string or empty.
    #[error("no jobtype")]
    NoType,
    /// `args` is absent or not an array.
    #[error("no args")]
    NoArgs,
    /// `queue` is there and not a string of ASCII letters, ASCII digits, `.`, `_` and `-`.
    #[error("a bad queue")]
    BadQueue,
    /// `reserve_for` is there and not a 64-bit integer, or above 86400 seconds.
    #[error("a bad reserve_for")]
    BadReserve,
    /// `retry` is there and not a 64-bit integer.
    #[error("a bad retry")]
    BadRetry,
    /// `at` is there and not a string in the form of a moment.
    #[error("a bad at")]
    BadAt,
    #[error("out of memory")]
    NoMemory,
}

impl From<AllocError> for JobFault {
    ghost use Rattle.std.specs.Prelude.{◌≡◌};
    ghost use Rattle.fk_job.specs.declared.fault.JobFault.TheVariants.{NoMemory};

    ghost from_gives = { λ _ fault. fault ≡ NoMemory };

    fn from(_: AllocError) -> JobFault {
        JobFault::NoMemory
    }
}

impl From<JsonFault> for JobFault {
    ghost use Rattle.fk_job.specs.Faults.{IsFaultOf};

    ghost from_gives = { IsFaultOf };

    fn from(fault: JsonFault) -> JobFault {
        match fault {
            JsonFault::Syntax(at) => JobFault::Syntax(at),
            JsonFault::TooDeep(at) => JobFault::TooDeep(at),
            JsonFault::NoMemory => JobFault::NoMemory,
        }
    }
}
