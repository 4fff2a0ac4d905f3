use std::alloc::{AllocError, AllocFailed};
use thiserror::Error;

/// Why a line of a script can't be read, or what it says can't be done.
#[derive(Clone, Copy, Debug, Error)]
pub enum ScriptFault {
    #[error("not UTF-8")]
    NoText,
    #[error("no such directive")]
    NoDirective,
    #[error("no case has begun")]
    NoCase,
    #[error("no number within its range")]
    NoNumber,
    #[error("no such escape")]
    NoEscape,
    #[error("no hexadecimal digits, two for each byte")]
    NoDigits,
    #[error("no such file")]
    NoFile,
    #[error("no such place in the file")]
    NoPlace,
    #[error("no such image, or no case before this one")]
    NoImage,
    #[error("nothing that a turn is asked for")]
    NoAsk,
    #[error("no such look")]
    NoLook,
    #[error("no such move")]
    NoMove,
    #[error("a move in files that can't be opened")]
    NotOpened,
    #[error("a move that does not fit")]
    MoveDoesNotFit,
    #[error("a next number that is not above all tickets and ranks")]
    NextTooLow,
    #[error("no moment, or no word of the dice")]
    NothingTold,
    #[error("a disk is called too often")]
    TooManyCalls,
    #[error("out of memory")]
    NoMemory,
}

impl From<AllocError> for ScriptFault {
    fn from(_: AllocError) -> ScriptFault {
        ScriptFault::NoMemory
    }
}

impl<T: Drop> From<AllocFailed<T>> for ScriptFault {
    fn from(_: AllocFailed<T>) -> ScriptFault {
        ScriptFault::NoMemory
    }
}

/// Where a play ended before the end of its script, and why.
#[derive(Clone, Copy, Debug, Error)]
#[error("line {line}: {fault}")]
pub struct Stop {
    /// The number of the line, counted from 1. A case is played at the line behind it.
    pub line: usize,
    pub fault: ScriptFault,
}
