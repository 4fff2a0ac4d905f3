// The bounds of what a file can hold, tested part by part.
ghost use Rattle.std.specs.Prelude.{◌≡◌, ◌≤◌, ◌<◌, ◌↔◌, pos, neg_ℤ, ◌≤ℤ◌, FitsSigned, IfSome, IsTrue};
ghost use Rattle.std.specs.Int.{w64};
ghost use Rattle.fk_job.specs.Fields.{least_reserve, most_reserve};
ghost use Rattle.fk_job.specs.Spellings.{HasJobSpelling, IsMoment, IsQueueName, IsText};
ghost use Rattle.fk_model.specs.Spellings.{AreTexts, HasFailureSpelling, HasPlaceSpelling, HasRestSpelling, HasRowSpelling, HasSpelling};

use crate::{Move, Place, Row};
use fk_job::{Failure, FailureParts, Job, are_queue_bytes};
use fk_json::{Text, Texts};
use fk_time::GREATEST;

/// A text has fewer bytes than this, and a list fewer items.
pub const TEXT_LIMIT: usize = 4_294_967_296;

/// Whether a move has a spelling.
pub(crate) fn has_spelling(step: &Move) -> bool
    ensures { IsTrue result ↔ HasSpelling step.now }
{
    match step {
        Move::Add { ticket, row } => {
            let _ticket = *ticket;
            has_row_spelling(row)
        }
        Move::Put {
            ticket,
            enqueued,
            failure,
            place,
        } => {
            let _ticket = *ticket;
            has_rest_spelling(*enqueued, failure, place)
        }
        Move::Drop { ticket } => {
            let _ticket = *ticket;
            true
        }
        Move::DropAll => true,
        Move::Totals {
            next,
            processed,
            failures,
        } => {
            let _numbers = (*next, *processed, *failures);
            true
        }
    }
}

fn has_row_spelling(row: &Row) -> bool
    ensures { IsTrue result ↔ HasRowSpelling row.now }
{
    has_job_spelling(&row.job)
        && row.stamp.created <= GREATEST
        && has_rest_spelling(row.stamp.enqueued, &row.stamp.failure, &row.place)
}

fn has_rest_spelling(enqueued: Option<u64>, failure: &Option<Failure>, place: &Place) -> bool
    ensures { IsTrue result ↔ HasRestSpelling enqueued failure.now place.now }
{
    is_none_or_moment(enqueued) && is_none_or_spelled(failure) && has_place_spelling(place)
}

fn has_place_spelling(place: &Place) -> bool
    ensures { IsTrue result ↔ HasPlaceSpelling place.now }
{
    match place {
        Place::Queued { rank } => {
            let _rank = *rank;
            true
        }
        Place::Scheduled { at } => *at <= GREATEST,
        Place::Retry { at } => *at <= GREATEST,
        Place::Dead { until } => *until <= GREATEST,
        Place::Working { wid, since, until } => {
            is_text(wid) && *since <= GREATEST && *until <= GREATEST
        }
    }
}

fn is_none_or_spelled(failure: &Option<Failure>) -> bool
    ensures { IsTrue result ↔ IfSome failure.now HasFailureSpelling }
{
    match failure {
        None => true,
        Some(failure) => has_failure_spelling(failure.parts()),
    }
}

fn has_failure_spelling(failure: &FailureParts) -> bool
    ensures { IsTrue result ↔ HasFailureSpelling failure.now }
{
    let _count = failure.count;
    failure.failed <= GREATEST
        && is_none_or_moment(failure.next)
        && is_text(&failure.errtype)
        && is_text(&failure.message)
        && are_texts(&failure.backtrace)
}

pub(crate) fn has_job_spelling(job: &Job) -> bool
    ensures { IsTrue result ↔ HasJobSpelling job.now }
{
    is_text(&job.jid)
        && is_text(&job.jobtype)
        && is_text(&job.queue)
        && is_queue_name(&job.queue)
        && is_text(&job.body)
        && has_numbers_spelled(job)
}

fn has_numbers_spelled(job: &Job) -> bool
    ensures { IsTrue result ↔ ((neg_ℤ (pos 1) ≤ℤ job.now.retry)
        × FitsSigned w64 job.now.retry
        × (least_reserve ≤ job.now.reserve_for) × (job.now.reserve_for ≤ most_reserve)
        × IfSome job.now.at IsMoment) }
{
    let retry = job.retry;
    retry >= -1 && job.reserve_for >= 60 && job.reserve_for <= 86_400 && is_none_or_moment(job.at)
}

/// Whether a text is the name of a job's queue.
fn is_queue_name(name: &Text) -> bool
    ensures { IsTrue result ↔ IsQueueName name.now }
{
    !name.is_empty() && are_queue_bytes(name.bytes())
}

/// Whether each text has fewer than 2^32 bytes, and there are fewer than 2^32.
pub(crate) fn are_texts(texts: &Texts) -> bool
    ensures { IsTrue result ↔ AreTexts texts.now }
{
    texts.len() < TEXT_LIMIT && texts.as_slice().iter().all(|text| is_text(text))
}

fn is_none_or_moment(moment: Option<u64>) -> bool
    ensures { IsTrue result ↔ IfSome moment IsMoment }
{
    match moment {
        None => true,
        Some(moment) => moment <= GREATEST,
    }
}

/// Whether a text has fewer than 2^32 bytes.
pub(crate) fn is_text(text: &Text) -> bool
    ensures { IsTrue result ↔ IsText text.now }
{
    has_short_bytes(text.bytes())
}

fn has_short_bytes(bytes: &[u8]) -> bool
    ensures { IsTrue result ↔ IsText bytes.now }
{
    bytes.len() < TEXT_LIMIT
}
