// A list of moves, made in tables one by one.
ghost use Rattle.std.specs.Prelude.{◌≡◌, ◌≢◌, [], Err, OnOk};
ghost use Rattle.fk_journal.specs.declared.fault.Damage.{Damage as ADamage};
ghost use Rattle.fk_journal.specs.declared.fault.OpenFault.TheVariants.{Damaged, DiskFault};
ghost use Rattle.fk_model.specs.Changes.{after_move, Fits, FitInTurn, Lead};
ghost use Rattle.fk_store.specs.Replaying.{IsMade, IsUnfit};

use crate::listing::ends_with_totals;
use fk_core::Tables;
use fk_journal::{Damage, OpenFault};
use fk_model::{Move, Moves};
use fk_moves::{MovesFault, read_moves};
use std::alloc::Global;

/// Makes the moves that bytes spell, where they are a list as a file has it, and each of them fits. Where they aren't,
/// that is a damage at this place.
pub(crate) fn make_list(
    alloc: Global,
    tables: &mut Tables,
    bytes: &[u8],
    place: Damage,
) -> Result<(), OpenFault>
    ensures ok { OnOk result (IsMade bytes.now tables.old.kept tables.new.kept) }
    ensures place { (damage : ADamage) → result ≡ Err (Damaged damage) → damage ≡ place }
    ensures unfit { (damage : ADamage) → result ≡ Err (Damaged damage) → IsUnfit bytes.now tables.old.kept }
    ensures disk { result ≢ Err DiskFault }
{
    let moves = match read_moves(alloc, bytes) {
        Ok(moves) => moves,
        Err(MovesFault::BadMoves(_)) => return Err(OpenFault::Damaged(place)),
        Err(MovesFault::NoMemory) => return Err(OpenFault::NoMemory),
    };
    if !ends_with_totals(&moves) {
        return Err(OpenFault::Damaged(place));
    }
    make_all(alloc, tables, moves, place)
}

/// Makes the moves, one behind the other, where each fits what those before it left.
fn make_all(
    alloc: Global,
    tables: &mut Tables,
    moves: Moves,
    place: Damage,
) -> Result<(), OpenFault>
    ensures ok { OnOk result (Lead tables.old.kept moves.items tables.new.kept) }
    ensures place { (damage : ADamage) → result ≡ Err (Damaged damage) → damage ≡ place }
    ensures unfit { (damage : ADamage) → result ≡ Err (Damaged damage) →
        ¬ FitInTurn tables.old.kept moves.items }
    ensures disk { result ≢ Err DiskFault }
{
    let mut one = Moves::new(alloc);
    'making: for step in moves.into_vec() {
        make_one(tables, &mut one, step, place)?;
    }
    Ok(())
}

/// Makes a move, where it fits. The list is for that move alone, and is empty again behind it.
fn make_one(
    tables: &mut Tables,
    one: &mut Moves,
    step: Move,
    place: Damage,
) -> Result<(), OpenFault>
    requires empty { one.old.items ≡ [] }
    ensures ok { OnOk result (Fits tables.old.kept step) }
    ensures made { OnOk result (tables.new.kept ≡ after_move tables.old.kept step) }
    ensures empty { OnOk result (one.new.items ≡ []) }
    ensures place { (damage : ADamage) → result ≡ Err (Damaged damage) → damage ≡ place }
    ensures unfit { (damage : ADamage) → result ≡ Err (Damaged damage) → ¬ Fits tables.old.kept step }
    ensures disk { result ≢ Err DiskFault }
{
    if !tables.fits(&step) {
        return Err(OpenFault::Damaged(place));
    }
    one.push(step)?;
    tables.reserve(one)?;
    tables.apply(one);
    Ok(())
}
