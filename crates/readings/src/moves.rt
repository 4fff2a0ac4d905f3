// Moves as bytes: what read_moves makes of them, whole and cut off, and write_moves of what was read.
ghost use Rattle.std.specs.Prelude.{All};
ghost use Rattle.fk_model.specs.Spellings.{HasSpelling};

use crate::answer::Answer;
use crate::digits::hexadecimal;
use crate::fault::Fault;
use fk_json::Buffer;
use fk_model::{Move, Moves, Place};
use fk_moves::{MovesFault, moves_length, read_moves, write_moves};

/// `moves HEXADECIMAL`: the moves that the bytes spell and whether they are written alike, or how many
/// bytes begin a list; and the same of each front of the bytes, from the shortest on.
pub(crate) fn moves(answer: &mut Answer, line: &str) -> Result<(), Fault> {
    let bytes = hexadecimal(answer.alloc(), line)?;
    match read_moves(answer.alloc(), &bytes) {
        Ok(moves) => say_moves(answer, &moves, &bytes)?,
        Err(fault) => refuse(answer, fault)?,
    }
    for length in 0..bytes.len() {
        say_cut(answer, &bytes[..length])?;
    }
    Ok(())
}

fn say_moves(answer: &mut Answer, moves: &Moves, bytes: &[u8]) -> Result<(), Fault>
    requires { All HasSpelling moves.now.items }
{
    for step in moves.as_slice() {
        say_move(answer, step)?;
    }
    let mut written = Buffer::new(answer.alloc());
    write_moves(moves, &mut written)?;
    let is_alike = written.bytes() == bytes && moves_length(moves) == bytes.len();
    answer.say(if is_alike {
        "written alike"
    } else {
        "written otherwise"
    })?;
    Ok(())
}

fn say_move(answer: &mut Answer, step: &Move) -> Result<(), Fault> {
    let alloc = answer.alloc();
    let told = match step {
        Move::Add { ticket, row } => {
            answer.say_text("queue", row.job.queue.bytes())?;
            answer.say_text("body", row.job.body.bytes())?;
            format!(in alloc; "add {ticket}, retry {}", row.job.retry)?
        }
        Move::Put {
            ticket,
            enqueued: _,
            failure: _,
            place,
        } => format!(in alloc; "put {ticket} {}", name_of(place))?,
        Move::Drop { ticket } => format!(in alloc; "drop {ticket}")?,
        Move::DropAll => format!(in alloc; "drop all")?,
        Move::Totals {
            next,
            processed,
            failures,
        } => format!(in alloc; "totals {next} {processed} {failures}")?,
    };
    answer.say(told.as_str())?;
    Ok(())
}

fn name_of(place: &Place) -> &'static str {
    match place {
        Place::Queued { rank: _ } => "queued",
        Place::Scheduled { at: _ } => "scheduled",
        Place::Retry { at: _ } => "to be tried again",
        Place::Dead { until: _ } => "dead",
        Place::Working {
            wid: _,
            since: _,
            until: _,
        } => "at work",
    }
}

fn refuse(answer: &mut Answer, fault: MovesFault) -> Result<(), Fault> {
    if let MovesFault::NoMemory = fault {
        return Err(Fault::NoMemory);
    }
    let told = format!(in answer.alloc(); "refused: {fault}")?;
    answer.say(told.as_str())?;
    Ok(())
}

/// What is read of a front of the bytes.
fn say_cut(answer: &mut Answer, front: &[u8]) -> Result<(), Fault> {
    match read_moves(answer.alloc(), front) {
        Ok(moves) => {
            let told = format!(in answer.alloc(); "cut: {} moves", moves.len())?;
            answer.say(told.as_str())?;
            Ok(())
        }
        Err(MovesFault::BadMoves(at)) if at == front.len() => {
            answer.say("cut: a list begins so")?;
            Ok(())
        }
        Err(fault) => refuse(answer, fault),
    }
}
