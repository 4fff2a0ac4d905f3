ghost use Rattle.std.specs.Prelude.{◌≡◌, IfOk};

use fk_json::{ListWithRoom, Text};
use std::alloc::AllocError;

/// A job as a producer sends it, with the defaults of what it leaves out.
#[derive(Drop)]
pub struct Job {
    /// The producer's name for it, of at least 8 bytes.
    pub jid: Text,
    /// Which worker's code it is for.
    pub jobtype: Text,
    /// The queue that it waits in.
    pub queue: Text,
    /// How often it is tried again: 0 drops it at its first failure, -1 buries it.
    pub retry: i64,
    /// How long a worker may have it, in seconds.
    pub reserve_for: u64,
    /// When it is due at the earliest, in milliseconds since 1970-01-01T00:00:00Z.
    pub at: Option<u64>,
    /// Whether the producer sent a `created_at` that isn't null, of any type.
    pub has_created: bool,
    /// The members that are handed on as they were sent, with commas between them.
    pub body: Text,
}

/// A list of jobs, and room for more.
pub type Jobs = ListWithRoom<Job>;

impl Job {
    /// An equal job.
    pub fn copied(&self) -> Result<Job, AllocError>
        ensures { IfOk result (λ copy. copy ≡ self.now) }
    {
        Ok(Job {
            jid: self.jid.copied()?,
            jobtype: self.jobtype.copied()?,
            queue: self.queue.copied()?,
            retry: self.retry,
            reserve_for: self.reserve_for,
            at: self.at,
            has_created: self.has_created,
            body: self.body.copied()?,
        })
    }
}
