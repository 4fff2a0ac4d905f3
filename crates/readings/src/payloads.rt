ghost use Rattle.std.specs.Prelude.{◌≤◌, IfOk, IfSome};
ghost use Rattle.fk_time.specs.Moments.{greatest};
ghost use Rattle.fk_job.specs.RowText.{HasFailureMoments, HasMoments};

use crate::answer::Answer;
use crate::decoder::decoded;
use crate::fault::Fault;
use crate::words::{first_word, moment_in, number_in, optional_moment_in, texts_in};
use fk_job::{Failure, FailureParts, Job, JobFault, Stamp, read_job, string_of, write_job};
use fk_json::{Text, Texts, scan_object};
use std::alloc::Global;

/// `job TEXT`: the fields of a payload, or why it is none.
pub(crate) fn job(answer: &mut Answer, text: &[u8]) -> Result<(), Fault> {
    match read_job(answer.alloc(), text) {
        Ok(job) => say_job(answer, &job),
        Err(fault) => refuse(answer, &fault),
    }
}

fn say_job(answer: &mut Answer, job: &Job) -> Result<(), Fault> {
    answer.say_text("jid", job.jid.bytes())?;
    answer.say_text("jobtype", job.jobtype.bytes())?;
    answer.say_text("queue", job.queue.bytes())?;
    let bounds = format!(in answer.alloc();
        "retry {}, reserve_for {}",
        job.retry, job.reserve_for
    )?;
    answer.say(bounds.as_str())?;
    if let Some(moment) = job.at {
        let due = format!(in answer.alloc(); "due at {moment}")?;
        answer.say(due.as_str())?;
    }
    if job.has_created {
        answer.say("has created_at")?;
    }
    answer.say_text("body", job.body.bytes())?;
    Ok(())
}

fn refuse(answer: &mut Answer, fault: &JobFault) -> Result<(), Fault> {
    if let JobFault::NoMemory = fault {
        return Err(Fault::NoMemory);
    }
    let told = format!(in answer.alloc(); "refused: {fault}")?;
    answer.say(told.as_str())?;
    Ok(())
}

/// `string-of NAME TEXT`: what the last member of a name stands for in an object.
pub(crate) fn string_member(answer: &mut Answer, line: &str) -> Result<(), Fault> {
    let (name, rest) = first_word(line);
    let text = decoded(answer.alloc(), rest)?;
    let members = scan_object(answer.alloc(), &text)?;
    match string_of(answer.alloc(), &text, members.as_slice(), name.as_bytes())? {
        Some(value) => answer.say_text("value", value.bytes())?,
        None => answer.say("no string")?,
    }
    Ok(())
}

/// `row CREATED ENQUEUED PAYLOAD`: the text that a worker is given for a job that never failed.
pub(crate) fn row(answer: &mut Answer, line: &str) -> Result<(), Fault> {
    let (created, rest) = first_word(line);
    let (enqueued, rest) = first_word(rest);
    let stamp = Stamp {
        created: moment_in(created)?,
        enqueued: optional_moment_in(enqueued)?,
        failure: None,
    };
    let payload = decoded(answer.alloc(), rest)?;
    say_row(answer, &payload, &stamp)
}

/// `failed-row CREATED ENQUEUED COUNT FAILED NEXT PAYLOAD|ERRTYPE|MESSAGE|LINE..`: the same of a job
/// that failed, with the lines of its backtrace.
pub(crate) fn failed_row(answer: &mut Answer, line: &str) -> Result<(), Fault> {
    let (created, rest) = first_word(line);
    let (enqueued, rest) = first_word(rest);
    let (failure, payload) = failure_in(answer.alloc(), rest)?;
    let stamp = Stamp {
        created: moment_in(created)?,
        enqueued: optional_moment_in(enqueued)?,
        failure: Some(failure),
    };
    say_row(answer, &payload, &stamp)
}

/// Writes a copy of a payload's job with a copy of the stamp.
fn say_row(answer: &mut Answer, payload: &[u8], stamp: &Stamp) -> Result<(), Fault>
    requires { HasMoments stamp.now }
{
    let job = read_job(answer.alloc(), payload)?;
    let written = write_job(answer.alloc(), &job.copied()?, &stamp.copied()?)?;
    answer.say_text("row", written.bytes())?;
    Ok(())
}

/// The failure of a line, and the payload that stands in it.
fn failure_in(alloc: Global, line: &str) -> Result<(Failure, Vec<u8>), Fault>
    ensures { IfOk result (λ told. HasFailureMoments told.0) }
{
    let (counted, rest) = counted_in(line)?;
    let texts = texts_in(alloc, rest)?;
    let [payload, words @ ..] = texts.as_slice() else {
        return Err(Fault::BadLine);
    };
    let failure = failure_of(alloc, counted, words)?;
    Ok((failure, Vec::from_slice(alloc, payload)?))
}

/// The numbers of a failure.
#[derive(Clone, Copy)]
struct Counted {
    count: u64,
    failed: u64,
    next: Option<u64>,
}

/// The numbers that a line begins with, and what stands behind them.
fn counted_in(line: &str) -> Result<(Counted, &str), Fault>
    ensures failed { IfOk result (λ told. told.0.failed ≤ greatest) }
    ensures next { IfOk result (λ told. IfSome told.0.next (λ moment. moment ≤ greatest)) }
{
    let (count, rest) = first_word(line);
    let (failed, rest) = first_word(rest);
    let (next, rest) = first_word(rest);
    let counted = Counted {
        count: number_in(count)?,
        failed: moment_in(failed)?,
        next: optional_moment_in(next)?,
    };
    Ok((counted, rest))
}

/// The failure of these numbers, of an errtype, a message and the lines of a backtrace.
fn failure_of(alloc: Global, counted: Counted, words: &[Vec<u8>]) -> Result<Failure, Fault>
    requires failed { counted.failed ≤ greatest }
    requires next { IfSome counted.next (λ moment. moment ≤ greatest) }
    ensures { IfOk result HasFailureMoments }
{
    let [errtype, message, lines @ ..] = words else {
        return Err(Fault::BadLine);
    };
    let parts = FailureParts {
        count: counted.count,
        failed: counted.failed,
        next: counted.next,
        errtype: Text::copy(alloc, errtype)?,
        message: Text::copy(alloc, message)?,
        backtrace: texts_of(alloc, lines)?,
    };
    Ok(Failure::new(alloc, parts)?)
}

/// A list of these texts.
pub(crate) fn texts_of(alloc: Global, texts: &[Vec<u8>]) -> Result<Texts, Fault> {
    let mut list = Texts::new(alloc);
    for text in texts {
        list.push(Text::copy(alloc, text)?)?;
    }
    Ok(list)
}
