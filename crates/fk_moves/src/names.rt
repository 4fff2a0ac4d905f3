// Texts that are read from the front of bytes. No memory is taken before it is looked whether so many
// bytes are there.
ghost use Rattle.std.specs.Prelude.{◌≡◌};
ghost use Rattle.fk_job.specs.Fields.{is_queue_byte};
ghost use Rattle.fk_moves.specs.Fields.{Gives, GivesBytes, byte_where, times};
ghost use Rattle.fk_moves.specs.Parts.{queue, text, texts};

use crate::numbers::{read_count, read_some_count};
use crate::stop::Stop;
use fk_job::are_queue_bytes;
use fk_json::{Text, Texts};
use std::alloc::Global;

/// A text behind its length.
#[tactic(auto, unfolding(crate::specs::Parts::text))]
pub(crate) fn read_text(alloc: Global, bytes: &[u8]) -> Result<(Text, &[u8]), Stop>
    ensures { Gives result (text.read bytes.now) }
{
    let (count, rest) = read_count(bytes)?;
    let count = count as usize;
    if rest.len() < count {
        return Err(Stop::At(0));
    }
    let (front, rest) = rest.split_at(count);
    Ok((Text::copy(alloc, front)?, rest))
}

/// The name of a job's queue.
#[tactic(auto, unfolding(crate::specs::Parts::queue))]
pub(crate) fn read_queue(alloc: Global, bytes: &[u8]) -> Result<(Text, &[u8]), Stop>
    ensures { Gives result (queue.read bytes.now) }
{
    let (count, rest) = read_some_count(bytes)?;
    let (front, rest) = read_name(rest, count as usize)?;
    Ok((Text::copy(alloc, front)?, rest))
}

/// So many bytes of a queue's name, and those behind them.
fn read_name(bytes: &[u8], count: usize) -> Result<(&[u8], &[u8]), Stop>
    ensures { GivesBytes result ((times (byte_where is_queue_byte) count).read bytes.now) }
{
    let mut rest = bytes;
    for _ in 0..count {
        let (_, behind) = read_name_byte(rest)?;
        rest = behind;
    }
    Ok(bytes.split_at(count))
}

fn read_name_byte(bytes: &[u8]) -> Result<(u8, &[u8]), Stop>
    ensures { Gives result ((byte_where is_queue_byte).read bytes.now) }
{
    match bytes {
        [] => Err(Stop::At(0)),
        [byte, rest @ ..] => {
            if are_queue_bytes(&[*byte]) {
                Ok((*byte, rest))
            } else {
                Err(Stop::At(bytes.len()))
            }
        }
    }
}

/// Texts behind their number.
#[tactic(auto, unfolding(crate::specs::Parts::texts))]
pub(crate) fn read_texts(alloc: Global, bytes: &[u8]) -> Result<(Texts, &[u8]), Stop>
    ensures { Gives result (texts.read bytes.now) }
{
    let (count, rest) = read_count(bytes)?;
    read_so_many(alloc, rest, count)
}

fn read_so_many(alloc: Global, bytes: &[u8], count: u32) -> Result<(Texts, &[u8]), Stop>
    ensures { Gives result ((times text count).read bytes.now) }
{
    let mut texts = Texts::new(alloc);
    let mut rest = bytes;
    for _ in 0..count {
        let (text, behind) = read_text(alloc, rest)?;
        texts.push(text)?;
        rest = behind;
    }
    Ok((texts, rest))
}
