// What becomes of the row of a job that failed.
ghost use Rattle.std.specs.Prelude.{◌≡◌, IfOk};
ghost use Rattle.fk_model.specs.Failing.{expiry, failed_row, failures_before, tried_at};
ghost use Rattle.fk_model.specs.Bringing.{move_for};

use fk_job::{Failure, FailureParts, Stamp};
use fk_json::{Text, Texts};
use fk_model::{Fate, Move, Place, Row};
use fk_retry::failed;
use std::alloc::{AllocError, Global};
use std::marker::Model;

/// Why a job failed: a name for what went wrong, words on it, and where the code was, line by line.
#[derive(Drop)]
pub(crate) struct Reason {
    pub(crate) errtype: Text,
    pub(crate) message: Text,
    pub(crate) backtrace: Texts,
}

impl Model for Reason {
    ghost use Rattle.fk_model.specs.Failing.{Reason};

    ghost Value = { Reason };

    ghost view = { λ reason. record {
      errtype = reason.errtype;
      message = reason.message;
      backtrace = reason.backtrace;
    } };
}

impl Reason {
    /// Its reservation has run out. It takes no memory.
    pub(crate) fn expiry(alloc: Global) -> Reason
        ensures { result ≡ expiry }
    {
        Reason {
            errtype: Text::fixed(alloc, b"ReservationExpired"),
            message: Text::fixed(alloc, b"Faktory job reservation expired"),
            backtrace: Texts::new(alloc),
        }
    }
}

/// The move by which a row meets its fate: its job failed at a moment, for this reason.
pub(crate) fn fail_row(
    alloc: Global,
    row: &Row,
    ticket: u64,
    reason: Reason,
    moment: u64,
    word: u64,
) -> Result<Move, AllocError>
    ensures { IfOk result (λ step.
        step ≡ move_for ticket (failed_row reason moment word (ticket, row.now))) }
{
    let count = failures_before(&row.stamp);
    let fate = failed(row.job.retry, count, ticket, word, moment);
    let place = match fate {
        Fate::Drop => return Ok(Move::Drop { ticket }),
        Fate::Retry(at) => Place::Retry { at },
        Fate::Dead(until) => Place::Dead { until },
    };
    let failure = FailureParts {
        count,
        failed: moment,
        next: tried_at(fate),
        errtype: reason.errtype,
        message: reason.message,
        backtrace: reason.backtrace,
    };
    Ok(Move::Put {
        ticket,
        enqueued: row.stamp.enqueued,
        failure: Some(Failure::new(alloc, failure)?),
        place,
    })
}

/// How often a job failed before, up to the end of its type.
fn failures_before(stamp: &Stamp) -> u64
    ensures { result ≡ failures_before stamp.now }
{
    match &stamp.failure {
        Some(failure) => failure.parts().count.saturating_add(1),
        None => 0,
    }
}

/// When a job is tried again, if it is.
fn tried_at(fate: Fate) -> Option<u64>
    ensures { result ≡ tried_at fate }
{
    match fate {
        Fate::Retry(at) => Some(at),
        _ => None,
    }
}
