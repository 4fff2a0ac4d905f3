ghost use Rattle.std.specs.Prelude.{◌≡◌};

use fk_io::Failed;
use std::alloc::AllocError;

/// One of the two files of a server.
#[derive(Clone, Copy, Debug, PartialEq, Eq)]
pub enum File {
    A,
    B,
}

/// Where a file is damaged: the file, and the place in bytes.
#[derive(Clone, Copy, Debug, PartialEq, Eq)]
pub struct Damage {
    pub file: File,
    pub at: u64,
}

/// Why files can't be opened.
#[derive(Clone, Copy, Debug, PartialEq, Eq)]
pub enum OpenFault {
    /// A call of a disk failed.
    DiskFault,
    /// A file isn't what this server writes.
    Damaged(Damage),
    /// There was no memory.
    NoMemory,
}

/// Why nothing was written.
#[derive(Clone, Copy, Debug, PartialEq, Eq)]
pub enum Refused {
    /// A call of the disk failed.
    DiskFault,
    /// There is no place in the file, or no number.
    Full,
}

/// What a replay came to.
#[derive(Clone, Copy, Debug, PartialEq, Eq)]
pub enum Replay {
    /// The moves of the next piece.
    Moves,
    /// The end: the gate that is due is closed.
    Done,
}

impl From<AllocError> for OpenFault {
    ghost use Rattle.fk_journal.specs.declared.fault.OpenFault.TheVariants.{NoMemory};

    ghost from_gives = { λ _ fault. fault ≡ NoMemory };

    fn from(_: AllocError) -> Self {
        OpenFault::NoMemory
    }
}

impl From<Failed> for OpenFault {
    ghost use Rattle.fk_journal.specs.declared.fault.OpenFault.TheVariants.{DiskFault};

    ghost from_gives = { λ _ fault. fault ≡ DiskFault };

    fn from(_: Failed) -> Self {
        OpenFault::DiskFault
    }
}

impl From<Failed> for Refused {
    ghost use Rattle.fk_journal.specs.declared.fault.Refused.TheVariants.{DiskFault};

    ghost from_gives = { λ _ refused. refused ≡ DiskFault };

    fn from(_: Failed) -> Self {
        Refused::DiskFault
    }
}
