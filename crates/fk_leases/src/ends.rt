// The ends of leases in a tree: pairs of the moment until which a lease runs and its ticket.
ghost use Rattle.std.specs.Prelude.{◌≡◌, ◌∷◌, ◌+◌, ◌<◌, length, map, option_map, slice_get, IfOk, Some};
ghost use Rattle.fk_model.specs.Orders.{in_order, number_in};
ghost use Rattle.fk_tree.specs.Order.{AreOthers, IsRising};
ghost use Rattle.fk_leases.specs.Ends.{end_of, HaveSame, IsAmong};

use fk_json::Pairs;
use fk_tree::Tree;
use std::alloc::{AllocError, Global};

/// Puts an end that isn't there.
pub(crate) fn enter(ends: &mut Tree, until: u64, ticket: u64)
    requires room { 0 < ends.old.spare }
    requires absent { AreOthers (until, ticket) ends.old.items }
    requires rising { IsRising ends.old.items }
    ensures same { HaveSame ends.new.items ((until, ticket) ∷ ends.old.items) }
    ensures rising { IsRising ends.new.items }
    ensures spare { ends.new.spare + 1 ≡ ends.old.spare }
{
    ends.put(until, ticket);
}

/// Takes an end out.
pub(crate) fn leave(ends: &mut Tree, until: u64, ticket: u64)
    requires rising { IsRising ends.old.items }
    ensures same { IsAmong (until, ticket) ends.old.items
        → HaveSame ends.old.items ((until, ticket) ∷ ends.new.items) }
    ensures rising { IsRising ends.new.items }
    ensures spare { ends.new.spare ≡ ends.old.spare }
{
    let _ = ends.take(until, ticket);
}

/// The moment of the first end.
pub(crate) fn first_moment(ends: &Tree) -> Option<u64>
    ensures { result ≡ option_map number_in (slice_get ends.now.items 0) }
{
    match ends.first() {
        Some((until, _)) => Some(until),
        None => None,
    }
}

/// The leases of these ends, in order of ticket.
pub(crate) fn leases_of(alloc: Global, ends: &Pairs) -> Result<Vec<(u64, u64)>, AllocError>
    ensures { IfOk result (λ leases. leases.items ≡ in_order (map end_of ends.now.items)) }
{
    let mut leases = turned(alloc, ends)?;
    leases.sort_unstable();
    Ok(leases)
}

/// The leases of these ends, one by one.
fn turned(alloc: Global, ends: &Pairs) -> Result<Vec<(u64, u64)>, AllocError>
    ensures { IfOk result (λ leases. leases.items ≡ map end_of ends.now.items) }
{
    let mut leases = Vec::new(alloc);
    'turning: for at in 0..ends.len() {
        leases.push(lease_at(ends, at))?;
    }
    Ok(leases)
}

/// The lease of the end at a place.
fn lease_at(ends: &Pairs, at: usize) -> (u64, u64)
    requires within { at < length ends.now.items }
    ensures lease { Some result ≡ option_map end_of (slice_get ends.now.items at) }
{
    let Some((until, ticket)) = ends.get(at) else {
        unreachable!()
    };
    (*ticket, *until)
}
