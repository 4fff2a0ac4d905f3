// The pairs of a set by moment, behind the moves that brought the state up to a moment.
ghost use Rattle.std.specs.Prelude.{◌≡◌, option_and_then, slice_get, IfOk};
ghost use Rattle.fk_model.specs.Orders.{in_order, moment_in, timed};
ghost use Rattle.fk_model.specs.Between.{IsWellKept};
ghost use Rattle.fk_plan.specs.Choosing.{beyond, entry_in, fresh, set_behind};

use crate::listing::come;
use crate::merging::{merged, pair_at};
use fk_core::Tables;
use fk_json::Pairs;
use fk_model::{Move, Moves, Place, Target};
use fk_time::GREATEST;
use std::alloc::{AllocError, Global};

/// The moments and tickets of a set behind the moves, in order: those of the tables that are still to
/// come, and those of the rows that the moves put there.
pub(crate) fn set_behind(
    alloc: Global,
    tables: &Tables,
    target: Target,
    moment: u64,
    moves: &Moves,
) -> Result<Pairs, AllocError>
    requires { IsWellKept tables.now.kept }
    ensures { IfOk result (λ pairs. pairs.items
        ≡ set_behind target tables.now.kept.rows moment moves.now.items) }
{
    let later = beyond(alloc, tables, target, moment)?;
    let put = fresh(alloc, target, moves)?;
    merged(alloc, &later, &put)
}

/// Those of the tables that are still to come, in order.
fn beyond(alloc: Global, tables: &Tables, target: Target, moment: u64) -> Result<Pairs, AllocError>
    requires { IsWellKept tables.now.kept }
    ensures { IfOk result (λ pairs. pairs.items
        ≡ beyond moment (timed target tables.now.kept.rows)) }
{
    let all = come(alloc, tables, target, GREATEST)?;
    later(alloc, &all, moment)
}

/// Those of pairs that are still to come.
fn later(alloc: Global, pairs: &Pairs, moment: u64) -> Result<Pairs, AllocError>
    ensures { IfOk result (λ later. later.items ≡ beyond moment pairs.now.items) }
{
    let mut later = Pairs::new(alloc);
    'passing: for at in 0..pairs.len() {
        let pair = pair_at(pairs, at);
        if moment < pair.0 {
            later.push(pair)?;
        }
    }
    Ok(later)
}

/// Those of the rows that the moves put there, in order.
fn fresh(alloc: Global, target: Target, moves: &Moves) -> Result<Pairs, AllocError>
    ensures { IfOk result (λ pairs. pairs.items ≡ in_order (fresh target moves.now.items)) }
{
    let mut entries = entries(alloc, target, moves)?;
    entries.sort_unstable();
    let mut pairs = Pairs::new(alloc);
    pairs.extend(&entries)?;
    Ok(pairs)
}

/// The same, in the order of the moves.
fn entries(alloc: Global, target: Target, moves: &Moves) -> Result<Vec<(u64, u64)>, AllocError>
    ensures { IfOk result (λ entries. entries.items ≡ fresh target moves.now.items) }
{
    let mut entries = Vec::new(alloc);
    'entering: for at in 0..moves.len() {
        if let Some(entry) = entry_at(target, moves, at) {
            entries.push(entry)?;
        }
    }
    Ok(entries)
}

/// The moment and the ticket of the row that the move at a place puts into a set, if it puts one there.
fn entry_at(target: Target, moves: &Moves, at: usize) -> Option<(u64, u64)>
    ensures { result ≡ option_and_then (entry_in target) (slice_get moves.now.items at) }
{
    match moves.get(at) {
        Some(Move::Put { ticket, place, .. }) => match moment_in(target, place) {
            Some(moment) => Some((moment, *ticket)),
            None => None,
        },
        _ => None,
    }
}

/// The moment of a row in a set, if it stands there.
fn moment_in(target: Target, place: &Place) -> Option<u64>
    ensures { result ≡ moment_in target place.now }
{
    match (target, place) {
        (Target::Scheduled, Place::Scheduled { at }) => Some(*at),
        (Target::Retries, Place::Retry { at }) => Some(*at),
        (Target::Dead, Place::Dead { until }) => Some(*until),
        _ => None,
    }
}
