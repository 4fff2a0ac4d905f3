ghost use Rattle.std.specs.Prelude.{◌≡◌, IfOk};

use crate::Failure;
use std::alloc::AllocError;

/// What the server adds to a job: moments in milliseconds since 1970-01-01T00:00:00Z, and how it
/// failed.
#[derive(Drop)]
pub struct Stamp {
    /// When it was pushed.
    pub created: u64,
    /// When it was last put into its queue, if it was.
    pub enqueued: Option<u64>,
    /// How it failed the last time, if it did.
    pub failure: Option<Failure>,
}

impl Stamp {
    /// An equal stamp.
    pub fn copied(&self) -> Result<Stamp, AllocError>
        ensures { IfOk result (λ copy. copy ≡ self.now) }
    {
        let failure = match &self.failure {
            Some(failure) => Some(failure.copied()?),
            None => None,
        };
        Ok(Stamp {
            created: self.created,
            enqueued: self.enqueued,
            failure,
        })
    }
}
