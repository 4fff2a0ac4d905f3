// The lists of moves in a file: that of its snapshot, and one for each piece.
use crate::making::make_all;
use fk_cases::ScriptFault;
use fk_core::Tables;
use fk_journal::{OPEN_GATE, frame};
use fk_json::Buffer;
use std::alloc::Global;

/// The places of the header's numbers, and where the snapshot begins.
const BASE_AT: usize = 18;

const LENGTH_AT: usize = 26;

const SNAPSHOT_AT: usize = 34;

/// Where the length of a piece's moves stands behind its gate, and where the moves do.
const LENGTH_BEHIND: usize = 9;

const MOVES_BEHIND: usize = 17;

/// What the moves of a file lead to, on which a store opens.
pub fn tables_of(alloc: Global, file: &[u8]) -> Result<Tables, ScriptFault> {
    let mut tables = Tables::new(alloc);
    let mut list = snapshot_of(file);
    for _ in 0..file.len() {
        let Some(List { moves, behind }) = list else {
            break;
        };
        make_all(alloc, &mut tables, moves)?;
        list = piece_at(file, behind);
    }
    Ok(tables)
}

/// A file with one piece more, of moves that these bytes spell. The file is one on which a store opens.
pub fn with_piece(alloc: Global, file: &[u8], moves: &[u8]) -> Result<Vec<u8>, ScriptFault> {
    let end = end_of(file).ok_or(ScriptFault::NotOpened)?;
    let front = file.get(..end.gate).ok_or(ScriptFault::NotOpened)?;
    let mut piece = Buffer::new(alloc);
    frame(&mut piece, end.number, moves)?;
    let mut longer = Vec::from_slice(alloc, front)?;
    longer.push(OPEN_GATE)?;
    longer.extend_from_slice(piece.bytes())?;
    Ok(longer)
}

/// The bytes of a list of moves, and the place of the gate behind it.
#[derive(Clone, Copy)]
struct List<'a> {
    moves: &'a [u8],
    behind: usize,
}

/// The moves of the snapshot.
fn snapshot_of(file: &[u8]) -> Option<List> {
    list_at(file, SNAPSHOT_AT, length_at(file, LENGTH_AT)?)
}

/// The moves of the piece at a gate, where that is open.
fn piece_at(file: &[u8], gate: usize) -> Option<List> {
    if *file.get(gate)? != OPEN_GATE {
        return None;
    }
    let length = length_at(file, gate.checked_add(LENGTH_BEHIND)?)?;
    list_at(file, gate.checked_add(MOVES_BEHIND)?, length)
}

/// So many bytes of moves at a place.
fn list_at(file: &[u8], at: usize, length: usize) -> Option<List> {
    let moves = file.get(at..)?.get(..length)?;
    Some(List {
        moves,
        behind: at.checked_add(length)?,
    })
}

/// The closed gate behind the last piece of a file.
#[derive(Clone, Copy)]
struct End {
    gate: usize,
    /// The number of the piece that may follow.
    number: u64,
}

/// Where the pieces of a file end.
fn end_of(file: &[u8]) -> Option<End> {
    let mut gate = snapshot_of(file)?.behind;
    let mut number = number_at(file, BASE_AT)?.checked_add(1)?;
    for _ in 0..file.len() {
        let Some(piece) = piece_at(file, gate) else {
            break;
        };
        gate = piece.behind;
        number = number.checked_add(1)?;
    }
    Some(End { gate, number })
}

/// The number of the eight bytes at a place.
fn number_at(file: &[u8], at: usize) -> Option<u64> {
    let bytes = file.get(at..)?.first_chunk::<8>()?;
    Some(u64::from_be_bytes(*bytes))
}

/// The number of the eight bytes at a place, as a length.
fn length_at(file: &[u8], at: usize) -> Option<usize> {
    usize::try_from(number_at(file, at)?).ok()
}
