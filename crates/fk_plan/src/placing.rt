// Where in a list of moves the move of a ticket stands.
ghost use Rattle.std.specs.Prelude.{◌≡◌, ◌==◌, ℕ, None, Some, if◌then◌else◌, option_and_then, slice_get, IfOk, OnOk};
ghost use Rattle.std.specs.Option.{option_copied, option_map_or};
ghost use Rattle.std.specs.Ordering.{nat_cmp};
ghost use Rattle.std.specs.BTreeMap.{get};
ghost use Rattle.fk_plan.specs.Choosing.{move_of, ticket_told, ArePlacesOf};

use fk_model::{Move, Moves};
use std::alloc::{AllocError, Global};
use std::collections::BTreeMap;

/// The places of the moves by which rows are put elsewhere or leave, by ticket.
pub(crate) fn places_of(alloc: Global, moves: &Moves) -> Result<BTreeMap<u64, usize>, AllocError>
    ensures { IfOk result (λ places. ArePlacesOf moves.now.items places) }
{
    let mut places = BTreeMap::new(alloc);
    'placing: for at in 0..moves.len() {
        if let Some(ticket) = ticket_told(moves, at) {
            place(&mut places, ticket, at)?;
        }
    }
    Ok(places)
}

/// The ticket of which the move at a place tells, if it tells of one.
fn ticket_told(moves: &Moves, at: usize) -> Option<u64>
    ensures { result ≡ option_and_then ticket_told (slice_get moves.now.items at) }
{
    match moves.get(at) {
        Some(Move::Put { ticket, .. }) => Some(*ticket),
        Some(Move::Drop { ticket }) => Some(*ticket),
        _ => None,
    }
}

/// Enters a place under a ticket, unless one is there.
fn place(places: &mut BTreeMap<u64, usize>, ticket: u64, at: usize) -> Result<(), AllocError>
    ensures { (other : ℕ) → OnOk result (get nat_cmp places.new other
        ≡ option_map_or Some (get nat_cmp places.old other)
        (if ticket == other then Some at else None)) }
{
    if places.get(&ticket).is_some() {
        return Ok(());
    }
    match places.insert(ticket, at) {
        Ok(_) => Ok(()),
        Err(_) => Err(AllocError),
    }
}

/// The move of a ticket, if there is one.
pub(crate) fn move_of<'a>(
    places: &BTreeMap<u64, usize>,
    moves: &'a Moves,
    ticket: u64,
) -> Option<&'a Move>
    requires { ArePlacesOf moves.now.items places.now }
    ensures { option_copied result ≡ move_of moves.now.items ticket }
{
    match places.get(&ticket) {
        Some(at) => moves.get(*at),
        None => None,
    }
}
