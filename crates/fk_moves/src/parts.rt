// The parts of a row, read from the front of bytes.
ghost use Rattle.std.specs.Prelude.{◌≡◌};
ghost use Rattle.fk_moves.specs.Fields.{Gives};
ghost use Rattle.fk_moves.specs.Parts.{failure, job, optional, place, place_behind, rest, row, working};

use crate::names::{read_queue, read_text, read_texts};
use crate::numbers::{
    read_between, read_choice, read_flag, read_moment, read_moment_or_none, read_retry, read_word,
};
use crate::rest::Rest;
use crate::stop::Stop;
use fk_job::{Failure, FailureParts, Job, Stamp};
use fk_model::{Place, Row};
use std::alloc::Global;

/// The fewest and the most seconds that a worker may have a job.
const LEAST_RESERVE: u64 = 60;

const MOST_RESERVE: u64 = 86_400;

#[tactic(auto, unfolding(crate::specs::Parts::job))]
pub(crate) fn read_job(alloc: Global, bytes: &[u8]) -> Result<(Job, &[u8]), Stop>
    ensures { Gives result (job.read bytes.now) }
{
    let (jid, rest) = read_text(alloc, bytes)?;
    let (jobtype, rest) = read_text(alloc, rest)?;
    let (queue, rest) = read_queue(alloc, rest)?;
    let (retry, rest) = read_retry(rest)?;
    let (reserve_for, rest) = read_between(rest, LEAST_RESERVE, MOST_RESERVE)?;
    let (at, rest) = read_moment_or_none(rest)?;
    let (has_created, rest) = read_flag(rest)?;
    let (body, rest) = read_text(alloc, rest)?;
    let job = Job {
        jid,
        jobtype,
        queue,
        retry,
        reserve_for,
        at,
        has_created,
        body,
    };
    Ok((job, rest))
}

#[tactic(auto, unfolding(crate::specs::Parts::failure))]
fn read_failure(alloc: Global, bytes: &[u8]) -> Result<(Failure, &[u8]), Stop>
    ensures { Gives result (failure.read bytes.now) }
{
    let (count, rest) = read_word(bytes)?;
    let (failed, rest) = read_moment(rest)?;
    let (next, rest) = read_moment_or_none(rest)?;
    let (errtype, rest) = read_text(alloc, rest)?;
    let (message, rest) = read_text(alloc, rest)?;
    let (backtrace, rest) = read_texts(alloc, rest)?;
    let parts = FailureParts {
        count,
        failed,
        next,
        errtype,
        message,
        backtrace,
    };
    Ok((Failure::new(alloc, parts)?, rest))
}

/// A failure, or that there is none.
#[tactic(auto, unfolding(crate::specs::Parts::optional))]
fn read_failure_or_none(alloc: Global, bytes: &[u8]) -> Result<(Option<Failure>, &[u8]), Stop>
    ensures { Gives result ((optional failure).read bytes.now) }
{
    let (bit, rest) = read_choice(bytes, 0, 1)?;
    if bit == 0 {
        return Ok((None, rest));
    }
    let (failure, rest) = read_failure(alloc, rest)?;
    Ok((Some(failure), rest))
}

#[tactic(auto, unfolding(crate::specs::Parts::place))]
fn read_place(alloc: Global, bytes: &[u8]) -> Result<(Place, &[u8]), Stop>
    ensures { Gives result (place.read bytes.now) }
{
    let (tag, rest) = read_choice(bytes, 1, 5)?;
    read_place_behind(alloc, tag, rest)
}

/// What is said of a place of this number.
fn read_place_behind(alloc: Global, tag: u8, bytes: &[u8]) -> Result<(Place, &[u8]), Stop>
    ensures { Gives result ((place_behind tag).read bytes.now) }
{
    match tag {
        1 => {
            let (rank, rest) = read_word(bytes)?;
            Ok((Place::Queued { rank }, rest))
        }
        2 => {
            let (at, rest) = read_moment(bytes)?;
            Ok((Place::Scheduled { at }, rest))
        }
        3 => {
            let (at, rest) = read_moment(bytes)?;
            Ok((Place::Retry { at }, rest))
        }
        4 => {
            let (until, rest) = read_moment(bytes)?;
            Ok((Place::Dead { until }, rest))
        }
        _ => read_working(alloc, bytes),
    }
}

/// Who has a job, and from when to when.
#[tactic(auto, unfolding(crate::specs::Parts::working))]
fn read_working(alloc: Global, bytes: &[u8]) -> Result<(Place, &[u8]), Stop>
    ensures { Gives result (working.read bytes.now) }
{
    let (wid, rest) = read_text(alloc, bytes)?;
    let (since, rest) = read_moment(rest)?;
    let (until, rest) = read_moment(rest)?;
    Ok((Place::Working { wid, since, until }, rest))
}

#[tactic(auto, unfolding(crate::specs::Parts::rest))]
pub(crate) fn read_rest(alloc: Global, bytes: &[u8]) -> Result<(Rest, &[u8]), Stop>
    ensures { Gives result (rest.read bytes.now) }
{
    let (enqueued, rest) = read_moment_or_none(bytes)?;
    let (failure, rest) = read_failure_or_none(alloc, rest)?;
    let (place, rest) = read_place(alloc, rest)?;
    let read = Rest {
        enqueued,
        failure,
        place,
    };
    Ok((read, rest))
}

#[tactic(auto, unfolding(crate::specs::Parts::row))]
pub(crate) fn read_row(alloc: Global, bytes: &[u8]) -> Result<(Row, &[u8]), Stop>
    ensures { Gives result (row.read bytes.now) }
{
    let (job, rest) = read_job(alloc, bytes)?;
    let (created, rest) = read_moment(rest)?;
    let (others, rest) = read_rest(alloc, rest)?;
    let Rest {
        enqueued,
        failure,
        place,
    } = others;
    let stamp = Stamp {
        created,
        enqueued,
        failure,
    };
    Ok((Row { job, stamp, place }, rest))
}
