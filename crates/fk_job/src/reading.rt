// A job from its text.
ghost use Rattle.std.specs.Prelude.{◌≡◌, ◌⊎◌, length, IfErr, IfOk, MatchResult};
ghost use Rattle.fk_job.specs.JobText.{HasFault, IsFirstFault, IsJob, IsJobOf, IsWithin};
ghost use Rattle.fk_job.specs.Values.{ArePlaced};
ghost use Rattle.fk_job.specs.declared.job.Job as declared_job;
ghost use Rattle.fk_job.specs.declared.fault.JobFault.TheVariants.{NoMemory};

use crate::body::body_of;
use crate::fields::{at_of, has_args, jid_of, queue_of, reserve_of, retry_of, type_of};
use crate::named::given_value;
use crate::{Job, JobFault};
use fk_json::{Member, scan_object};
use std::alloc::Global;

/// The job of a text that is one JSON object, as Faktory's job payload is described (the wiki page
/// "The Job Payload"), with this server's bounds.
///
/// Of repeated names the last counts. What a producer leaves out has its default: the queue
/// `default`, 25 retries and 1800 seconds of reservation, which fewer than 60 count as too. Fewer
/// than -1 retries count as -1. The members that the server doesn't know are handed on with the
/// others, as they were sent. Which fault is told stands at [`JobFault`].
pub fn read_job(alloc: Global, text: &[u8]) -> Result<Job, JobFault>
    ensures ok { IfOk result (λ job. IsJobOf text.now job) }
    ensures fault { IfErr result (λ fault. (fault ≡ NoMemory) ⊎ HasFault text.now fault) }
    // Each text that has a job is read, where there is memory, and has no other job.
    ensures whole { (job : declared_job.Job) → IsJobOf text.now job
        → MatchResult result (λ found. found ≡ job) (λ fault. fault ≡ NoMemory) }
    ensures short { IfOk result (λ job. IsWithin (length text.now) job) }
{
    let members = scan_object(alloc, text)?;
    job_of(alloc, text, members.as_slice())
}

// The job of a text with these members.
fn job_of(alloc: Global, text: &[u8], members: &[Member]) -> Result<Job, JobFault>
    requires { ArePlaced text.now members.now }
    ensures ok { IfOk result (IsJob text.now members.now) }
    ensures fault { IfErr result
        (λ fault. (fault ≡ NoMemory) ⊎ IsFirstFault text.now members.now fault) }
{
    let jid = jid_of(alloc, text, members)?;
    let jobtype = type_of(alloc, text, members)?;
    if !has_args(text, members) {
        return Err(JobFault::NoArgs);
    }
    let queue = queue_of(alloc, text, members)?;
    let Some(reserve_for) = reserve_of(text, members) else {
        return Err(JobFault::BadReserve);
    };
    let Some(retry) = retry_of(text, members) else {
        return Err(JobFault::BadRetry);
    };
    let at = at_of(alloc, text, members)?;
    let body = body_of(alloc, text, members)?;
    Ok(Job {
        jid,
        jobtype,
        queue,
        retry,
        reserve_for,
        at,
        has_created: given_value(text, members, b"created_at").is_some(),
        body,
    })
}
