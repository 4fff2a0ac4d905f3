ghost use Rattle.std.specs.Prelude.{◌≡◌, IfOk};

use fk_json::{Text, Texts};
use std::alloc::{AllocError, Global};
use std::marker::Model;

/// How a job failed the last time, and how often it did. It is held in memory of its own, so that a job
/// that never failed keeps no place for it, and seen as what it says.
#[derive(Drop)]
pub struct Failure {
    held: Box<FailureParts>,
}

/// What a failure says.
#[derive(Drop)]
pub struct FailureParts {
    /// How many failures came before this one. It stands still at its type's end.
    pub count: u64,
    /// When it failed, in milliseconds since 1970-01-01T00:00:00Z.
    pub failed: u64,
    /// When it was to be tried again, in milliseconds likewise, if it was.
    pub next: Option<u64>,
    /// The worker's name for what went wrong.
    pub errtype: Text,
    /// The worker's words on it.
    pub message: Text,
    /// Where the worker's code was, line by line.
    pub backtrace: Texts,
}

impl Model for Failure {
    ghost use Rattle.fk_job.specs.declared.failure.FailureParts.{FailureParts};

    ghost Value = { FailureParts };

    ghost view = { λ failure. failure.held.value };
}

impl Failure {
    /// The failure that says this.
    pub fn new(alloc: Global, parts: FailureParts) -> Result<Failure, AllocError>
        ensures { IfOk result (λ failure. failure ≡ parts) }
    {
        Ok(Failure {
            held: Box::new(alloc, parts)?,
        })
    }

    /// What it says.
    pub fn parts(&self) -> &FailureParts
        ensures { result.now ≡ self.now }
    {
        &self.held
    }

    /// An equal failure.
    pub fn copied(&self) -> Result<Failure, AllocError>
        ensures { IfOk result (λ copy. copy ≡ self.now) }
    {
        Failure::new(*Box::allocator(&self.held), self.held.copied()?)
    }
}

impl FailureParts {
    /// The same once more.
    fn copied(&self) -> Result<FailureParts, AllocError>
        ensures { IfOk result (λ copy. copy ≡ self.now) }
    {
        Ok(FailureParts {
            count: self.count,
            failed: self.failed,
            next: self.next,
            errtype: self.errtype.copied()?,
            message: self.message.copied()?,
            backtrace: self.backtrace.copied()?,
        })
    }
}
