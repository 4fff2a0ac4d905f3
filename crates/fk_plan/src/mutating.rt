// What a MUTATE does.
ghost use Rattle.std.specs.Prelude.{◌≡◌, ◌<◌, ◌≤◌, ◌+◌, ◌^◌, ℕ, List, length, option_map, slice_get, All, IfOk, Some};
ghost use Rattle.fk_time.specs.Moments.{greatest};
ghost use Rattle.fk_model.specs.declared.ask.Ask.TheVariants.{Mutate};
ghost use Rattle.fk_model.specs.State.{Worker, with_workers};
ghost use Rattle.fk_model.specs.Orders.{ticket_in};
ghost use Rattle.fk_model.specs.Between.{IsWellKept};
ghost use Rattle.fk_model.specs.Bringing.{brought_up, moves_up};
ghost use Rattle.fk_model.specs.Mutated.{moves_of_mutated};
ghost use Rattle.fk_plan.specs.Choosing.{rows_told, set_behind, ArePlacesOf, TellsMoments};
ghost use Rattle.fk_plan.specs.Plans.{AreNumbersOf, IsDone};
ghost use Rattle.fk_plan.specs.Taking.{is_idle, next_behind, taken_of};

use crate::choosing::set_behind;
use crate::matching::takes;
use crate::numbers::Numbers;
use crate::placing::{move_of, places_of};
use crate::replies::ok;
use crate::taking::{move_taken, next_behind};
use fk_core::Tables;
use fk_frame::Reply;
use fk_model::{Cmd, Filter, Moves, Target};
use std::alloc::{AllocError, Global};
use std::collections::BTreeMap;

/// What a MUTATE asks for: what becomes of the rows of a set that match a filter.
#[derive(Drop)]
pub(crate) struct Mutation {
    pub(crate) cmd: Cmd,
    pub(crate) target: Target,
    pub(crate) filter: Filter,
}

/// Adds the moves of a MUTATE behind those by which the state was brought up to date. What is dead is
/// killed no more.
pub(crate) fn mutate(
    alloc: Global,
    tables: &Tables,
    mutation: &Mutation,
    moment: u64,
    numbers: &mut Numbers,
    moves: &mut Moves,
) -> Result<Reply, AllocError>
    requires moment { moment < greatest }
    requires kept { IsWellKept tables.now.kept }
    requires next { numbers.old.next ≤ 2 ^ 63 }
    requires moments { All TellsMoments moves.old.items }
    ensures ok { (word : ℕ) (workers : List Worker)
        → moves.old.items ≡ moves_up tables.now.kept moment word
        → AreNumbersOf (brought_up tables.now.kept moment word) numbers.old
        → IfOk result (λ reply. IsDone tables.now.kept
        (with_workers (brought_up tables.now.kept moment word) workers)
        (Mutate mutation.now.cmd mutation.now.target mutation.now.filter) moment word reply
        moves.old.items moves.new.items numbers.new) }
    ensures room { moves.old.spare + length moves.old.items
        ≤ length moves.new.items + moves.new.spare }
{
    if is_idle(mutation.cmd, mutation.target) {
        return Ok(ok(alloc));
    }
    let made = mutations(alloc, tables, mutation, moment, numbers, moves)?;
    moves.append(made)?;
    Ok(ok(alloc))
}

/// The moves of the rows that are taken, in order of moment and ticket.
fn mutations(
    alloc: Global,
    tables: &Tables,
    mutation: &Mutation,
    moment: u64,
    numbers: &mut Numbers,
    moves: &Moves,
) -> Result<Moves, AllocError>
    requires kept { IsWellKept tables.now.kept }
    requires next { numbers.old.next ≤ 2 ^ 63 }
    requires moments { All TellsMoments moves.now.items }
    ensures made { IfOk result (λ made. made.items ≡ moves_of_mutated mutation.now.cmd moment
        numbers.old.next (taken_of mutation.now.cmd mutation.now.filter
        (rows_told tables.now.kept.rows moves.now.items
        (set_behind mutation.now.target tables.now.kept.rows moment moves.now.items)))) }
    ensures next { IfOk result (λ made. numbers.new ≡ record numbers.old {
      next = next_behind mutation.now.cmd numbers.old.next (length made.items);
    }) }
{
    let places = places_of(alloc, moves)?;
    let pairs = set_behind(alloc, tables, mutation.target, moment, moves)?.into_vec();
    take_all(
        alloc, tables, mutation, &pairs, &places, moves, moment, numbers,
    )
}

/// The moves of those of the rows of these pairs that are taken, in order.
fn take_all(
    alloc: Global,
    tables: &Tables,
    mutation: &Mutation,
    pairs: &[(u64, u64)],
    places: &BTreeMap<u64, usize>,
    moves: &Moves,
    moment: u64,
    numbers: &mut Numbers,
) -> Result<Moves, AllocError>
    requires kept { IsWellKept tables.now.kept }
    requires next { numbers.old.next ≤ 2 ^ 63 }
    requires moments { All TellsMoments moves.now.items }
    requires places { ArePlacesOf moves.now.items places.now }
    ensures made { IfOk result (λ made. made.items ≡ moves_of_mutated mutation.now.cmd moment
        numbers.old.next (taken_of mutation.now.cmd mutation.now.filter
        (rows_told tables.now.kept.rows moves.now.items pairs.now))) }
    ensures next { IfOk result (λ made. numbers.new ≡ record numbers.old {
      next = next_behind mutation.now.cmd numbers.old.next (length made.items);
    }) }
{
    let mut made = Moves::new(alloc);
    'taking: for at in 0..pairs.len() {
        let ticket = ticket_of(pairs, at);
        if let Some(row) = tables.row(ticket) {
            let step = move_of(places, moves, ticket);
            if takes(alloc, mutation, row, step)? {
                made.push(move_taken(mutation.cmd, row, step, ticket, moment, numbers.next)?)?;
                numbers.next = next_behind(mutation.cmd, numbers.next);
            }
        }
    }
    Ok(made)
}

/// The ticket of the pair at a place.
fn ticket_of(pairs: &[(u64, u64)], at: usize) -> u64
    requires { at < length pairs.now }
    ensures { Some result ≡ option_map ticket_in (slice_get pairs.now at) }
{
    let Some((_, ticket)) = pairs.get(at) else {
        unreachable!()
    };
    *ticket
}

/// Whether nothing is done: what is dead is killed no more.
fn is_idle(cmd: Cmd, target: Target) -> bool
    ensures { result ≡ is_idle cmd target }
{
    match (cmd, target) {
        (Cmd::Kill, Target::Dead) => true,
        _ => false,
    }
}
