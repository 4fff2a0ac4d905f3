// How many rows wait in each queue, once the state was brought up to date.
ghost use Rattle.std.specs.Prelude.{◌≡◌, ℕ, map, fold, All, IfOk, IsUtf8, OnOk};
ghost use Rattle.serde_json.specs.View.{members_view};
ghost use Rattle.fk_model.specs.Between.{IsWellKept};
ghost use Rattle.fk_model.specs.Bringing.{brought_up};
ghost use Rattle.fk_model.specs.Info.{sizes, with_queue};
ghost use Rattle.fk_plan.specs.Arrivals.{HasArrived};
ghost use Rattle.fk_plan.specs.Upkeep.{pairs_due, AreFewDue};

use crate::arriving::arrivals;
use crate::members::put_count;
use fk_core::Tables;
use fk_json::{Pairs, Text};
use fk_lists::Size;
use fk_queues::Queues;
use serde_json::{Map, Value};
use std::alloc::{AllocError, Global};

/// The queues in which a row waits once those that are due were put into theirs, whose moments and
/// tickets these are: a member for each, with the number of its rows.
pub(crate) fn queue_sizes(
    alloc: Global,
    tables: &Tables,
    pairs: &Pairs,
    moment: u64,
) -> Result<Map<String, Value>, AllocError>
    requires kept { IsWellKept tables.now.kept }
    requires due { pairs.now.items ≡ pairs_due tables.now.kept moment }
    requires few { AreFewDue tables.now.kept moment }
    ensures { (word : ℕ) → IfOk result (λ members. members_view members.entries
        ≡ sizes (brought_up tables.now.kept moment word).rows) }
{
    let arrived = arrivals(alloc, tables, pairs, moment)?;
    let mut members = Map::new(alloc);
    let waiting = tables.sizes()?;
    put_sizes(
        alloc,
        tables,
        &arrived,
        waiting.as_slice(),
        moment,
        &mut members,
    )?;
    let coming = arrived.sizes()?;
    put_sizes(
        alloc,
        tables,
        &arrived,
        coming.as_slice(),
        moment,
        &mut members,
    )?;
    Ok(members)
}

/// Puts a member for each of these queues, one by one.
fn put_sizes(
    alloc: Global,
    tables: &Tables,
    arrived: &Queues,
    names: &[Size],
    moment: u64,
    members: &mut Map<String, Value>,
) -> Result<(), AllocError>
    requires kept { IsWellKept tables.now.kept }
    requires arrived { HasArrived tables.now.kept moment arrived.now.items }
    requires few { AreFewDue tables.now.kept moment }
    requires spelled { All (λ size. IsUtf8 size.name) names.now }
    ensures { (word : ℕ) → OnOk result (members_view members.new.entries
        ≡ fold (with_queue (brought_up tables.now.kept moment word).rows)
        (members_view members.old.entries) (map (λ size. size.name) names.now)) }
{
    'naming: for size in names {
        put_size(alloc, tables, arrived, &size.name, moment, members)?;
    }
    Ok(())
}

/// Puts a member for a queue: its rows are those of the tables, and those that have arrived.
fn put_size(
    alloc: Global,
    tables: &Tables,
    arrived: &Queues,
    name: &Text,
    moment: u64,
    members: &mut Map<String, Value>,
) -> Result<(), AllocError>
    requires kept { IsWellKept tables.now.kept }
    requires arrived { HasArrived tables.now.kept moment arrived.now.items }
    requires few { AreFewDue tables.now.kept moment }
    requires spelled { IsUtf8 name.now }
    ensures { (word : ℕ) → OnOk result (members_view members.new.entries
        ≡ with_queue (brought_up tables.now.kept moment word).rows
        (members_view members.old.entries) name.now) }
{
    let count = tables.queued(name) + arrived.count(name);
    put_count(alloc, name.bytes(), count as u64, members)
}
