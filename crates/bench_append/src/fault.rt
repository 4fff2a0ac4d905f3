use fk_io::Failed;
use fk_journal::{OpenFault, Refused};
use std::alloc::AllocError;

/// Why the work came to no end.
#[derive(Clone, Copy)]
pub(crate) enum Fault {
    /// A call of the disk failed, the journal is full, or what was written isn't there.
    Disk,
    NoMemory,
}

impl From<AllocError> for Fault {
    fn from(_: AllocError) -> Fault {
        Fault::NoMemory
    }
}

impl From<Failed> for Fault {
    fn from(_: Failed) -> Fault {
        Fault::Disk
    }
}

impl From<Refused> for Fault {
    fn from(_: Refused) -> Fault {
        Fault::Disk
    }
}

impl From<OpenFault> for Fault {
    fn from(fault: OpenFault) -> Fault {
        match fault {
            OpenFault::NoMemory => Fault::NoMemory,
            OpenFault::DiskFault | OpenFault::Damaged(_) => Fault::Disk,
        }
    }
}
