ghost use Rattle.std.specs.Prelude.{◌≡◌};

use fk_job::Jobs;
use std::marker::Model;

/// Jobs that are pushed at once, seen as the jobs in order and nothing else: two batches of the
/// same jobs are equal, whatever room their lists have.
#[derive(Drop)]
pub struct Batch {
    jobs: Jobs,
}

impl Model for Batch {
    ghost use Rattle.std.specs.Prelude.{List};
    ghost use Rattle.fk_job.specs.declared.job.Job.{Job};

    ghost Value = { List Job };

    ghost view = { λ batch. batch.jobs.items };
}

impl Batch {
    /// The batch of these jobs. It takes no memory.
    pub fn new(jobs: Jobs) -> Batch
        ensures { result ≡ jobs.items }
    {
        Batch { jobs }
    }

    /// The jobs, in order.
    pub fn jobs(&self) -> &Jobs
        ensures { result.now.items ≡ self.now }
    {
        &self.jobs
    }

    /// The jobs themselves, in order.
    pub fn into_jobs(self) -> Jobs
        ensures { result.items ≡ self }
    {
        self.jobs
    }
}
