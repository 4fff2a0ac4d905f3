// Moves that are made in tables.
ghost use Rattle.std.specs.Prelude.{◌∷◌, [], All};
ghost use Rattle.fk_model.specs.Spellings.{HasSpelling};

use fk_cases::ScriptFault;
use fk_core::Tables;
use fk_json::Buffer;
use fk_model::{Move, Moves};
use fk_moves::{MovesFault, read_moves, write_moves};
use std::alloc::Global;

/// Makes the moves that these bytes of a file spell.
pub fn make_all(alloc: Global, tables: &mut Tables, bytes: &[u8]) -> Result<(), ScriptFault> {
    let moves = match read_moves(alloc, bytes) {
        Ok(moves) => moves,
        Err(MovesFault::BadMoves(_)) => return Err(ScriptFault::NotOpened),
        Err(MovesFault::NoMemory) => return Err(ScriptFault::NoMemory),
    };
    let mut spelled = Buffer::new(alloc);
    for step in moves.into_vec() {
        make(alloc, tables, &mut spelled, step)?;
        spelled.clear();
    }
    Ok(())
}

/// Makes a move, if it fits, and adds its spelling.
#[tactic(auto, unfolding(fk_model::specs::Changes::FitInTurn))]
pub fn make(
    alloc: Global,
    tables: &mut Tables,
    spelled: &mut Buffer,
    step: Move,
) -> Result<(), ScriptFault> {
    if !tables.fits(&step) {
        return Err(ScriptFault::MoveDoesNotFit);
    }
    let mut moves = Moves::new(alloc);
    moves.push(step)?;
    write_moves(&moves, spelled)?;
    tables.reserve(&moves)?;
    tables.apply(&mut moves);
    Ok(())
}
