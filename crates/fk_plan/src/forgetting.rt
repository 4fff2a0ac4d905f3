// The dead whose time is over are forgotten.
ghost use Rattle.std.specs.Prelude.{◌≡◌, ◌++◌, ◌+◌, ◌≤◌, length, OnOk};
ghost use Rattle.fk_model.specs.Due.{over};
ghost use Rattle.fk_model.specs.Between.{IsWellKept};
ghost use Rattle.fk_model.specs.Bringing.{moves_of_forgotten};

use crate::listing::come;
use fk_core::Tables;
use fk_model::{Move, Moves, Target};
use std::alloc::{AllocError, Global};

/// Adds the moves by which the dead leave whose time is over.
pub(crate) fn forget(
    alloc: Global,
    tables: &Tables,
    moment: u64,
    moves: &mut Moves,
) -> Result<(), AllocError>
    requires { IsWellKept tables.now.kept }
    ensures ok { OnOk result (moves.new.items
        ≡ moves.old.items ++ moves_of_forgotten (over tables.now.kept moment)) }
    ensures room { moves.old.spare + length moves.old.items
        ≤ length moves.new.items + moves.new.spare }
{
    let dead = come(alloc, tables, Target::Dead, moment)?;
    moves.reserve(dead.len())?;
    'forgetting: for (_, ticket) in dead.into_vec() {
        moves.push(Move::Drop { ticket })?;
    }
    Ok(())
}
