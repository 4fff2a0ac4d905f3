use fk_job::JobFault;
use fk_json::JsonFault;
use std::alloc::{AllocError, AllocFailed};

/// Why a script isn't run to its end.
#[derive(Clone, Copy)]
pub(crate) enum Fault {
    /// A line says nothing that can be run.
    BadLine,
    FailedRead,
    FailedWrite,
    NoMemory,
}

impl From<AllocError> for Fault {
    fn from(_: AllocError) -> Fault {
        Fault::NoMemory
    }
}

impl<T: Drop> From<AllocFailed<T>> for Fault {
    fn from(_: AllocFailed<T>) -> Fault {
        Fault::NoMemory
    }
}

// A line whose text has to be read for another call, and can't be.
impl From<JsonFault> for Fault {
    fn from(fault: JsonFault) -> Fault {
        match fault {
            JsonFault::NoMemory => Fault::NoMemory,
            JsonFault::Syntax(_) | JsonFault::TooDeep(_) => Fault::BadLine,
        }
    }
}

impl From<JobFault> for Fault {
    fn from(fault: JobFault) -> Fault {
        match fault {
            JobFault::NoMemory => Fault::NoMemory,
            _ => Fault::BadLine,
        }
    }
}
