// The rows whose reservation has run out meet their fate.
ghost use Rattle.std.specs.Prelude.{◌≡◌, ◌++◌, ◌+◌, ◌≤◌, length, IfOk, OnOk};
ghost use Rattle.fk_model.specs.Due.{expired};
ghost use Rattle.fk_model.specs.Between.{IsWellKept};
ghost use Rattle.fk_model.specs.Failing.{expiry};
ghost use Rattle.fk_model.specs.Bringing.{moves_of_failed};

use crate::failing::{Reason, fail_row};
use fk_core::Tables;
use fk_json::Pairs;
use fk_model::Moves;
use std::alloc::{AllocError, Global};

/// Adds the moves by which the rows fail whose reservation has run out, and gives their number.
pub(crate) fn expire(
    alloc: Global,
    tables: &Tables,
    moment: u64,
    word: u64,
    moves: &mut Moves,
) -> Result<u64, AllocError>
    requires { IsWellKept tables.now.kept }
    ensures ok { OnOk result (moves.new.items
        ≡ moves.old.items ++ moves_of_failed expiry moment word (expired tables.now.kept moment)) }
    ensures count { IfOk result (λ count. count ≡ length (expired tables.now.kept moment)) }
    ensures room { moves.old.spare + length moves.old.items
        ≤ length moves.new.items + moves.new.spare }
{
    let mut expired = Pairs::new(alloc);
    tables.expired(moment, &mut expired)?;
    let count = expired.len() as u64;
    moves.reserve(expired.len())?;
    'failing: for (ticket, _) in expired.into_vec() {
        if let Some(row) = tables.row(ticket) {
            moves.push(fail_row(alloc, row, ticket, Reason::expiry(alloc), moment, word)?)?;
        }
    }
    Ok(count)
}
