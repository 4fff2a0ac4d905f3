ghost use Rattle.std.specs.Prelude.{◌≡◌, ℕ, List, Err, IfOk, MatchResult};
ghost use Rattle.fk_model.specs.declared.move_.Move.{Move as AMove};
ghost use Rattle.fk_moves.specs.declared.fault.MovesFault.TheVariants.{BadMoves, NoMemory};
ghost use Rattle.fk_moves.specs.Fields.{Gives, fault_at};
ghost use Rattle.fk_moves.specs.Lists.{BeginsUpTo, Spells};
ghost use Rattle.fk_moves.specs.Parts.{added, move_behind, one_move, put, totals};

use crate::fault::MovesFault;
use crate::numbers::{read_choice, read_word};
use crate::parts::{read_rest, read_row};
use crate::rest::Rest;
use crate::stop::Stop;
use fk_model::{Move, Moves};
use std::alloc::Global;

/// The moves that all of the bytes spell. Each number, text and list is within the bounds of a spelling,
/// and no memory is taken for a text or a list before it is looked whether so much may be there.
pub fn read_moves(alloc: Global, bytes: &[u8]) -> Result<Moves, MovesFault>
    ensures ok { IfOk result (λ moves. Spells bytes.now moves.items) }
    ensures only { (moves : List AMove) → Spells bytes.now moves
        → MatchResult result (λ read. read.items ≡ moves) (λ fault. fault ≡ NoMemory) }
    ensures place { (at : ℕ) → result ≡ Err (BadMoves at) → BeginsUpTo bytes.now at }
{
    let mut moves = Moves::new(alloc);
    let mut rest = bytes;
    while !rest.is_empty() {
        match read_move(alloc, rest) {
            Ok((step, behind)) => {
                moves.push(step)?;
                rest = behind;
            }
            Err(stop) => return Err(fault_of(stop, bytes.len())),
        }
    }
    Ok(moves)
}

/// Why the moves of so many bytes aren't read, where one of them isn't.
fn fault_of(stop: Stop, count: usize) -> MovesFault
    ensures { result ≡ fault_at stop count }
{
    match stop {
        Stop::NoMemory => MovesFault::NoMemory,
        Stop::At(left) => MovesFault::BadMoves(count.saturating_sub(left)),
    }
}

#[tactic(auto, unfolding(crate::specs::Parts::one_move))]
fn read_move(alloc: Global, bytes: &[u8]) -> Result<(Move, &[u8]), Stop>
    ensures { Gives result (one_move.read bytes.now) }
{
    let (tag, rest) = read_choice(bytes, 1, 5)?;
    read_move_behind(alloc, tag, rest)
}

/// What is said of a move of this number.
fn read_move_behind(alloc: Global, tag: u8, bytes: &[u8]) -> Result<(Move, &[u8]), Stop>
    ensures { Gives result ((move_behind tag).read bytes.now) }
{
    match tag {
        1 => read_added(alloc, bytes),
        2 => read_put(alloc, bytes),
        3 => {
            let (ticket, rest) = read_word(bytes)?;
            Ok((Move::Drop { ticket }, rest))
        }
        4 => Ok((Move::DropAll, bytes)),
        _ => read_totals(bytes),
    }
}

#[tactic(auto, unfolding(crate::specs::Parts::added))]
fn read_added(alloc: Global, bytes: &[u8]) -> Result<(Move, &[u8]), Stop>
    ensures { Gives result (added.read bytes.now) }
{
    let (ticket, rest) = read_word(bytes)?;
    let (row, rest) = read_row(alloc, rest)?;
    Ok((Move::Add { ticket, row }, rest))
}

#[tactic(auto, unfolding(crate::specs::Parts::put))]
fn read_put(alloc: Global, bytes: &[u8]) -> Result<(Move, &[u8]), Stop>
    ensures { Gives result (put.read bytes.now) }
{
    let (ticket, rest) = read_word(bytes)?;
    let (others, rest) = read_rest(alloc, rest)?;
    let Rest {
        enqueued,
        failure,
        place,
    } = others;
    let step = Move::Put {
        ticket,
        enqueued,
        failure,
        place,
    };
    Ok((step, rest))
}

#[tactic(auto, unfolding(crate::specs::Parts::totals))]
fn read_totals(bytes: &[u8]) -> Result<(Move, &[u8]), Stop>
    ensures { Gives result (totals.read bytes.now) }
{
    let (next, rest) = read_word(bytes)?;
    let (processed, rest) = read_word(rest)?;
    let (failures, rest) = read_word(rest)?;
    let step = Move::Totals {
        next,
        processed,
        failures,
    };
    Ok((step, rest))
}
