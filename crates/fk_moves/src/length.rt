// How many bytes a spelling has, told before it is written.
#![tactic(auto, unfolding(crate::specs::Spelling::count_bytes, crate::specs::Spelling::signed_bytes, crate::specs::Spelling::word_bytes))]

ghost use Rattle.std.specs.Prelude.{◌≡◌, length};
ghost use Rattle.fk_moves.specs.Spelling.{failure_bytes, job_bytes, move_bytes, moves_bytes, option_bytes, place_bytes, rest_bytes, row_bytes, text_bytes, texts_bytes, word_bytes};
ghost use Rattle.fk_moves.specs.Writing.{told};

use fk_job::{Failure, FailureParts, Job};
use fk_json::{Text, Texts};
use fk_model::{Move, Moves, Place, Row};

/// The number of bytes of the moves' spelling, or the greatest number where there are more.
pub fn moves_length(moves: &Moves) -> usize
    ensures { result ≡ told (length (moves_bytes moves.now.items)) }
{
    let mut length: usize = 0;
    for step in moves.as_slice() {
        length = length.saturating_add(move_length(step));
    }
    length
}

fn move_length(step: &Move) -> usize
    ensures { result ≡ told (length (move_bytes step.now)) }
{
    match step {
        Move::Add { ticket: _, row } => row_length(row).saturating_add(9),
        Move::Put {
            ticket: _,
            enqueued,
            failure,
            place,
        } => rest_length(*enqueued, failure, place).saturating_add(9),
        Move::Drop { ticket: _ } => 9,
        Move::DropAll => 1,
        Move::Totals {
            next: _,
            processed: _,
            failures: _,
        } => 25,
    }
}

fn row_length(row: &Row) -> usize
    ensures { result ≡ told (length (row_bytes row.now)) }
{
    let rest = rest_length(row.stamp.enqueued, &row.stamp.failure, &row.place);
    job_length(&row.job).saturating_add(8).saturating_add(rest)
}

fn job_length(job: &Job) -> usize
    ensures { result ≡ told (length (job_bytes job.now)) }
{
    let names = text_length(&job.jid).saturating_add(text_length(&job.jobtype));
    let texts = text_length(&job.queue).saturating_add(text_length(&job.body));
    let numbers = option_length(job.at) + 17;
    names.saturating_add(texts).saturating_add(numbers)
}

fn rest_length(enqueued: Option<u64>, failure: &Option<Failure>, place: &Place) -> usize
    ensures { result ≡ told (length (rest_bytes enqueued failure.now place.now)) }
{
    let others = option_length(enqueued).saturating_add(place_length(place));
    failed_length(failure).saturating_add(others)
}

fn failed_length(failure: &Option<Failure>) -> usize
    ensures { result ≡ told (length (option_bytes failure_bytes failure.now)) }
{
    match failure {
        None => 1,
        Some(failure) => failure_length(failure.parts()).saturating_add(1),
    }
}

fn failure_length(failure: &FailureParts) -> usize
    ensures { result ≡ told (length (failure_bytes failure.now)) }
{
    let texts = text_length(&failure.errtype).saturating_add(text_length(&failure.message));
    let numbers = option_length(failure.next) + 16;
    texts
        .saturating_add(texts_length(&failure.backtrace))
        .saturating_add(numbers)
}

fn place_length(place: &Place) -> usize
    ensures { result ≡ told (length (place_bytes place.now)) }
{
    match place {
        Place::Working {
            wid,
            since: _,
            until: _,
        } => text_length(wid).saturating_add(17),
        _ => 9,
    }
}

fn option_length(number: Option<u64>) -> usize
    ensures { result ≡ length (option_bytes word_bytes number) }
{
    match number {
        None => 1,
        Some(_) => 9,
    }
}

fn texts_length(texts: &Texts) -> usize
    ensures { result ≡ told (length (texts_bytes texts.now)) }
{
    let mut length: usize = 4;
    for text in texts.as_slice() {
        length = length.saturating_add(text_length(text));
    }
    length
}

fn text_length(text: &Text) -> usize
    ensures { result ≡ told (length (text_bytes text.now)) }
{
    text.len().saturating_add(4)
}
