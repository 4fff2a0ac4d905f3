// A file of pieces: a piece as it is framed, and what a journal reads of a file in memory.
ghost use Rattle.std.specs.Prelude.{◌≤◌, IfOk};
ghost use Rattle.fk_journal.specs.Limits.{greatest_number};

use crate::answer::Answer;
use crate::digits::{digits_of, hexadecimal};
use crate::fault::Fault;
use crate::words::{first_word, number_in};
use fk_disk::MemoryDisk;
use fk_journal::{File, Journal, OpenFault, Replay, frame};
use fk_json::Buffer;

/// The greatest number that a file may go on from.
const GREATEST_BASE: u64 = 1 << 62;

/// `piece NUMBER HEXADECIMAL`: the bytes of the piece with this number and these moves, framed.
pub(crate) fn piece(answer: &mut Answer, line: &str) -> Result<(), Fault> {
    let (number, rest) = first_word(line);
    let number = number_in(number)?;
    let moves = hexadecimal(answer.alloc(), rest)?;
    let mut piece = Buffer::new(answer.alloc());
    frame(&mut piece, number, &moves)?;
    say_bytes(answer, "framed", &piece)
}

/// `pieces BASE HEXADECIMAL`: what a journal reads of a file of these bytes whose first piece has the
/// number that follows the base: the moves of each piece, and how the file ends.
pub(crate) fn pieces(answer: &mut Answer, line: &str) -> Result<(), Fault> {
    let (base, rest) = first_word(line);
    let base = base_in(base)?;
    let file = hexadecimal(answer.alloc(), rest)?;
    let disk = MemoryDisk::new(answer.alloc(), &file, &[])?;
    let mut journal = Journal::over(disk, File::A, 0, base);
    let mut moves = Buffer::new(answer.alloc());
    for _ in 0..=file.len() {
        match journal.replay_next(&mut moves) {
            Ok(Replay::Moves) => say_bytes(answer, "moves", &moves)?,
            Ok(Replay::Done) => return say_done(answer, &journal),
            Err(fault) => return refuse(answer, fault),
        }
    }
    Ok(())
}

/// The base that a word says.
fn base_in(word: &str) -> Result<u64, Fault>
    ensures { IfOk result (λ base. base ≤ greatest_number) }
{
    let base = number_in(word)?;
    if base > GREATEST_BASE {
        return Err(Fault::BadLine);
    }
    Ok(base)
}

fn say_bytes(answer: &mut Answer, name: &str, bytes: &Buffer) -> Result<(), Fault> {
    let digits = digits_of(answer.alloc(), bytes.bytes())?;
    let told = format!(in answer.alloc(); "{name} <{digits}>")?;
    answer.say(told.as_str())?;
    Ok(())
}

/// Where the closed gate is, and the number of the piece that would be next.
fn say_done(answer: &mut Answer, journal: &Journal<MemoryDisk>) -> Result<(), Fault> {
    let (place, number) = (journal.place(), journal.number());
    let told = format!(in answer.alloc(); "done at {place}, next {number}")?;
    answer.say(told.as_str())?;
    Ok(())
}

/// Where the file is damaged. The disk fails at no call but for want of memory.
fn refuse(answer: &mut Answer, fault: OpenFault) -> Result<(), Fault> {
    match fault {
        OpenFault::Damaged(damage) => {
            let told = format!(in answer.alloc(); "damaged at {}", damage.at)?;
            answer.say(told.as_str())?;
            Ok(())
        }
        OpenFault::DiskFault | OpenFault::NoMemory => Err(Fault::NoMemory),
    }
}
