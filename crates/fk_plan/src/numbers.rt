// The numbers of a kept state.
ghost use Rattle.std.specs.Prelude.{◌≡◌, ◌≤◌, ◌+◌, ◌-◌, ◌^◌, min};
ghost use Rattle.fk_model.specs.Limits.{greatest_next};

use fk_core::Tables;

/// The next ticket or rank, and, since the last flush, how often a job was done or failed, and how often
/// one failed.
#[derive(Clone, Copy)]
pub(crate) struct Numbers {
    pub(crate) next: u64,
    pub(crate) processed: u64,
    pub(crate) failures: u64,
}

impl Numbers {
    /// Those of the tables.
    pub(crate) fn of(tables: &Tables) -> Numbers
        ensures next { result.next ≡ tables.now.kept.next }
        ensures within { tables.now.kept.next ≤ greatest_next }
        ensures processed { result.processed ≡ tables.now.kept.processed }
        ensures failures { result.failures ≡ tables.now.kept.failures }
    {
        Numbers {
            next: tables.next(),
            processed: tables.processed(),
            failures: tables.failures(),
        }
    }

    /// Those behind so many jobs that failed, and so many that were put into their queues.
    pub(crate) fn behind(self, failed: u64, enqueued: u64) -> Numbers
        requires { self.next + enqueued ≤ 2 ^ 64 - 1 }
        ensures next { result.next ≡ self.next + enqueued }
        ensures processed { result.processed ≡ min (self.processed + failed) (2 ^ 64 - 1) }
        ensures failures { result.failures ≡ min (self.failures + failed) (2 ^ 64 - 1) }
    {
        Numbers {
            next: self.next + enqueued,
            processed: self.processed.saturating_add(failed),
            failures: self.failures.saturating_add(failed),
        }
    }
}
