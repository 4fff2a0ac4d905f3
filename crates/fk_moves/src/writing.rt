ghost use Rattle.std.specs.Prelude.{◌≡◌, ◌++◌, ◌+◌, ◌≤◌, length, All, IfSome, IsOk, OnErr, OnOk};
ghost use Rattle.fk_job.specs.Spellings.{HasJobSpelling};
ghost use Rattle.fk_model.specs.Spellings.{HasFailureSpelling, HasPlaceSpelling, HasRestSpelling, HasRowSpelling, HasSpelling};
ghost use Rattle.fk_moves.specs.Spelling.{failure_bytes, job_bytes, move_bytes, moves_bytes, number_bytes, option_bytes, place_bytes, rest_bytes, row_bytes};
ghost use Rattle.fk_moves.specs.Writing.{Put};

use crate::length::moves_length;
use crate::putting::{
    put_bytes, put_flag, put_option, put_queued, put_signed, put_tagged, put_terms, put_text,
    put_texts, put_word,
};
use fk_job::{Failure, FailureParts, Job};
use fk_json::Buffer;
use fk_model::{Move, Moves, Place, Row};
use std::alloc::AllocError;

/// Adds the spelling of the moves at the end of `out`, or leaves it as it is. It can't fail where there is
/// room for the spelling, and what is free beyond it stays free.
pub fn write_moves(moves: &Moves, out: &mut Buffer) -> Result<(), AllocError>
    requires { All HasSpelling moves.now.items }
    ensures ok { OnOk result (out.new.items ≡ out.old.items ++ moves_bytes moves.now.items) }
    ensures err { OnErr result (out.new.items ≡ out.old.items) }
    ensures kept { out.old.spare ≤ out.new.spare + length (moves_bytes moves.now.items) }
    ensures stays { OnErr result (out.old.spare ≤ out.new.spare) }
    ensures ready { length (moves_bytes moves.now.items) ≤ out.old.spare → IsOk result }
{
    out.reserve(moves_length(moves))?;
    put_moves(out, moves.as_slice());
    Ok(())
}

fn put_moves(out: &mut Buffer, moves: &[Move])
    requires spelled { All HasSpelling moves.now }
    requires room { length (moves_bytes moves.now) ≤ out.old.spare }
    ensures { Put (moves_bytes moves.now) out.old out.new }
{
    for step in moves {
        put_move(out, step);
    }
}

fn put_move(out: &mut Buffer, step: &Move)
    requires spelled { HasSpelling step.now }
    requires room { length (move_bytes step.now) ≤ out.old.spare }
    ensures { Put (move_bytes step.now) out.old out.new }
{
    match step {
        Move::Add { ticket, row } => {
            put_tagged(out, 1, *ticket);
            put_row(out, row);
        }
        Move::Put {
            ticket,
            enqueued,
            failure,
            place,
        } => {
            put_tagged(out, 2, *ticket);
            put_rest(out, *enqueued, failure, place);
        }
        Move::Drop { ticket } => put_tagged(out, 3, *ticket),
        Move::DropAll => put_bytes(out, &[4]),
        Move::Totals {
            next,
            processed,
            failures,
        } => {
            put_tagged(out, 5, *next);
            put_word(out, *processed);
            put_word(out, *failures);
        }
    }
}

fn put_row(out: &mut Buffer, row: &Row)
    requires spelled { HasRowSpelling row.now }
    requires room { length (row_bytes row.now) ≤ out.old.spare }
    ensures { Put (row_bytes row.now) out.old out.new }
{
    put_job(out, &row.job);
    put_word(out, row.stamp.created);
    put_rest(out, row.stamp.enqueued, &row.stamp.failure, &row.place);
}

fn put_rest(out: &mut Buffer, enqueued: Option<u64>, failure: &Option<Failure>, place: &Place)
    requires spelled { HasRestSpelling enqueued failure.now place.now }
    requires room { length (rest_bytes enqueued failure.now place.now) ≤ out.old.spare }
    ensures { Put (rest_bytes enqueued failure.now place.now) out.old out.new }
{
    match (enqueued, failure, place) {
        (Some(enqueued), None, Place::Queued { rank }) => put_queued(out, enqueued, *rank),
        _ => put_parts(out, enqueued, failure, place),
    }
}

/// The same part by part.
fn put_parts(out: &mut Buffer, enqueued: Option<u64>, failure: &Option<Failure>, place: &Place)
    requires spelled { HasRestSpelling enqueued failure.now place.now }
    requires room { length (rest_bytes enqueued failure.now place.now) ≤ out.old.spare }
    ensures { Put (rest_bytes enqueued failure.now place.now) out.old out.new }
{
    put_option(out, enqueued);
    put_failed(out, failure);
    put_place(out, place);
}

fn put_failed(out: &mut Buffer, failure: &Option<Failure>)
    requires spelled { IfSome failure.now HasFailureSpelling }
    requires room { length (option_bytes failure_bytes failure.now) ≤ out.old.spare }
    ensures { Put (option_bytes failure_bytes failure.now) out.old out.new }
{
    match failure {
        None => put_bytes(out, &[0]),
        Some(failure) => {
            put_bytes(out, &[1]);
            put_failure(out, failure.parts());
        }
    }
}

fn put_place(out: &mut Buffer, place: &Place)
    requires spelled { HasPlaceSpelling place.now }
    requires room { length (place_bytes place.now) ≤ out.old.spare }
    ensures { Put (place_bytes place.now) out.old out.new }
{
    match place {
        Place::Queued { rank } => put_tagged(out, 1, *rank),
        Place::Scheduled { at } => put_tagged(out, 2, *at),
        Place::Retry { at } => put_tagged(out, 3, *at),
        Place::Dead { until } => put_tagged(out, 4, *until),
        Place::Working { wid, since, until } => {
            put_bytes(out, &[5]);
            put_text(out, wid);
            put_word(out, *since);
            put_word(out, *until);
        }
    }
}

fn put_failure(out: &mut Buffer, failure: &FailureParts)
    requires spelled { HasFailureSpelling failure.now }
    requires room { length (failure_bytes failure.now) ≤ out.old.spare }
    ensures { Put (failure_bytes failure.now) out.old out.new }
{
    put_word(out, failure.count);
    put_word(out, failure.failed);
    put_option(out, failure.next);
    put_text(out, &failure.errtype);
    put_text(out, &failure.message);
    put_texts(out, &failure.backtrace);
}

fn put_job(out: &mut Buffer, job: &Job)
    requires spelled { HasJobSpelling job.now }
    requires room { length (job_bytes job.now) ≤ out.old.spare }
    ensures { Put (job_bytes job.now) out.old out.new }
{
    put_text(out, &job.jid);
    put_text(out, &job.jobtype);
    put_text(out, &job.queue);
    put_numbers(out, job);
    put_text(out, &job.body);
}

fn put_numbers(out: &mut Buffer, job: &Job)
    requires spelled { HasJobSpelling job.now }
    requires room { length (number_bytes job.now) ≤ out.old.spare }
    ensures { Put (number_bytes job.now) out.old out.new }
{
    match job.at {
        None => put_terms(out, job.retry, job.reserve_for, job.has_created),
        Some(at) => {
            put_signed(out, job.retry);
            put_word(out, job.reserve_for);
            put_tagged(out, 1, at);
            put_flag(out, job.has_created);
        }
    }
}
