// How many rows stand where, once the state was brought up to date.
ghost use Rattle.std.specs.Prelude.{◌≡◌, ◌<◌, ℕ, false, length, slice_get, IfOk};
ghost use Rattle.std.specs.Option.{option_map_or};
ghost use Rattle.fk_time.specs.Moments.{greatest};
ghost use Rattle.fk_model.specs.Between.{IsWellKept};
ghost use Rattle.fk_model.specs.Bringing.{brought_up, moves_up};
ghost use Rattle.fk_model.specs.Due.{expired};
ghost use Rattle.fk_model.specs.Orders.{timed, working};
ghost use Rattle.fk_model.specs.Info.{waiting};
ghost use Rattle.fk_core.specs.Sets.{stands_at};
ghost use Rattle.fk_plan.specs.Tallies.{count_put, puts};
ghost use Rattle.fk_plan.specs.Upkeep.{pairs_due, AreFewDue};

use crate::bringing::BroughtUp;
use crate::listing::come;
use fk_core::Tables;
use fk_json::Pairs;
use fk_model::{Move, Moves, Place, Target};
use std::alloc::{AllocError, Global};

/// The number of rows in a set by moment: those of the tables whose moment is still to come, and those
/// that were put there.
pub(crate) fn size_up(
    alloc: Global,
    tables: &Tables,
    target: Target,
    moment: u64,
    moves: &Moves,
) -> Result<u64, AllocError>
    requires moment { moment < greatest }
    requires kept { IsWellKept tables.now.kept }
    requires few { AreFewDue tables.now.kept moment }
    ensures { (word : ℕ) → moves.now.items ≡ moves_up tables.now.kept moment word
        → IfOk result (λ size. size
        ≡ length (timed target (brought_up tables.now.kept moment word).rows)) }
{
    let gone = come(alloc, tables, target, moment)?;
    let left = tables.size(target) - gone.len();
    Ok((left as u64).saturating_add(count_put(target, moves)))
}

/// How many moves put a row into a set by moment.
fn count_put(target: Target, moves: &Moves) -> u64
    ensures { result ≡ count_put target moves.now.items }
{
    let mut count = 0;
    'counting: for at in 0..moves.len() {
        if is_put_at(target, moves, at) {
            count += 1;
        }
    }
    count
}

/// Whether the move at a place puts a row into a set by moment.
fn is_put_at(target: Target, moves: &Moves, at: usize) -> bool
    ensures { result
        ≡ option_map_or (puts (stands_at target)) (slice_get moves.now.items at) false }
{
    match moves.get(at) {
        Some(Move::Put { place, .. }) => stands_at(target, place),
        _ => false,
    }
}

/// Whether a place is one in a set by moment.
fn stands_at(target: Target, place: &Place) -> bool
    ensures { result ≡ stands_at target place.now }
{
    match place {
        Place::Queued { .. } => false,
        Place::Scheduled { .. } => target == Target::Scheduled,
        Place::Retry { .. } => target == Target::Retries,
        Place::Dead { .. } => target == Target::Dead,
        Place::Working { .. } => false,
    }
}

/// The number of rows that wait in their queues: those of the tables, and those that are due, whose
/// moments and tickets these are.
pub(crate) fn waiting_up(tables: &Tables, pairs: &Pairs, moment: u64) -> u64
    requires kept { IsWellKept tables.now.kept }
    requires due { pairs.now.items ≡ pairs_due tables.now.kept moment }
    requires few { AreFewDue tables.now.kept moment }
    ensures { (word : ℕ) → result
        ≡ length (waiting (brought_up tables.now.kept moment word).rows) }
{
    tables.waiting() as u64 + pairs.len() as u64
}

/// The number of rows that workers have: those of the tables, without those whose reservation has run
/// out, of which there are so many.
pub(crate) fn working_up(tables: &Tables, ended: u64, moment: u64) -> u64
    requires moment { moment < greatest }
    requires kept { IsWellKept tables.now.kept }
    requires ended { ended ≡ length (expired tables.now.kept moment) }
    ensures { (word : ℕ) → result
        ≡ length (working (brought_up tables.now.kept moment word).rows) }
{
    tables.working() as u64 - ended
}
