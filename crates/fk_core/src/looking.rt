// Look-ups. None takes memory but `sizes`, and those that add what they find to a list.
ghost use Rattle.std.specs.Prelude.{◌≡◌, ◌↔◌, ◌++◌, ◌<◌, ◌≤◌, length, option_map, slice_get, IfOk, IfSome, IsTrue, OnErr, OnOk};
ghost use Rattle.std.specs.Option.{option_copied};
ghost use Rattle.fk_model.specs.Rows.{row_at, ticket_of};
ghost use Rattle.fk_model.specs.Limits.{greatest_next};
ghost use Rattle.fk_model.specs.Info.{waiting};
ghost use Rattle.fk_model.specs.Mutated.{are_none};
ghost use Rattle.fk_model.specs.Between.{IsAboveAll, IsWellKept};
ghost use Rattle.fk_model.specs.Due.{expired, up_to, IsUpToDate};
ghost use Rattle.fk_model.specs.Orders.{leased, queue, ticket_in, timed, working};
ghost use Rattle.fk_lists.specs.Room.{AreNamed};
ghost use Rattle.fk_leases.specs.Leases.{first_until};
ghost use Rattle.fk_core.specs.Lookups.{leased_beyond, leases_of};
ghost use Rattle.fk_core.specs.Sizes.{AreSizesOf};

use crate::Tables;
use fk_json::{Pairs, Text};
use fk_leases::Leases;
use fk_lists::Sizes;
use fk_model::{Row, Target};
use std::alloc::AllocError;

impl Tables {
    /// The row of a ticket.
    pub fn row(&self, ticket: u64) -> Option<&Row>
        ensures { option_copied result ≡ row_at self.now.kept.rows ticket }
    {
        self.rows.get(ticket)
    }

    /// The next ticket or rank.
    pub fn next(&self) -> u64
        ensures value { result ≡ self.now.kept.next }
        ensures within { self.now.kept.next ≤ greatest_next }
        ensures well_kept { IsAboveAll self.now.kept.next self.now.kept.rows
            → IsWellKept self.now.kept }
    {
        // They are read so that it is known of them that they are numbers of 64 bits.
        let _processed = self.processed;
        let _failures = self.failures;
        self.next
    }

    /// How often jobs were done or failed since the last flush.
    pub fn processed(&self) -> u64
        ensures { result ≡ self.now.kept.processed }
    {
        self.processed
    }

    /// How often jobs failed since the last flush.
    pub fn failures(&self) -> u64
        ensures { result ≡ self.now.kept.failures }
    {
        self.failures
    }

    /// Whether there is no row.
    pub fn is_empty(&self) -> bool
        ensures { result ≡ are_none self.now.kept.rows }
    {
        self.rows.count() == 0
    }

    /// The number of rows that workers have.
    pub fn working(&self) -> usize
        ensures { result ≡ length (working self.now.kept.rows) }
    {
        self.index.working
    }

    /// The number of rows that wait in their queues: all those that stand nowhere else.
    #[tactic(auto, using(crate::proofs::Whereabouts::each_in_one))]
    pub fn waiting(&self) -> usize
        ensures { result ≡ length (waiting self.now.kept.rows) }
    {
        self.rows.count()
            - self.size(Target::Scheduled)
            - self.size(Target::Retries)
            - self.size(Target::Dead)
            - self.working()
    }

    /// The number of rows that wait in a queue.
    pub fn queued(&self, name: &Text) -> usize
        ensures { result ≡ length (queue self.now.kept.rows name.now) }
    {
        self.index.queues.count(name)
    }

    /// The ticket of a queue's first row.
    pub fn first_queued(&self, name: &Text) -> Option<u64>
        ensures { result
            ≡ option_map ticket_in (slice_get (queue self.now.kept.rows name.now) 0) }
    {
        match self.index.queues.first(name) {
            Some((_, ticket)) => Some(ticket),
            None => None,
        }
    }

    /// Of the rows of this jid that workers have, the least ticket.
    pub fn leased(&self, jid: &Text) -> Option<u64>
        ensures { result ≡ option_map ticket_of (leased self.now.kept jid.now) }
    {
        self.index.leases.find(jid)
    }

    /// Of the rows of this jid that workers have beyond a moment, the least ticket.
    pub fn leased_beyond(&self, jid: &Text, moment: u64) -> Option<u64>
        ensures { result ≡ option_map ticket_of (leased_beyond self.now.kept jid.now moment) }
    {
        self.index.leases.find_beyond(jid, moment)
    }

    /// The number of rows in a set by moment.
    pub fn size(&self, target: Target) -> usize
        ensures { result ≡ length (timed target self.now.kept.rows) }
    {
        self.index.sets.get(target).count()
    }

    /// Adds the moments and tickets of a set's rows whose moment has come at the end, in order, or
    /// leaves `out` as it is.
    pub fn listed(&self, target: Target, until: u64, out: &mut Pairs) -> Result<(), AllocError>
        ensures ok { OnOk result (out.new.items
            ≡ out.old.items ++ up_to until (timed target self.now.kept.rows)) }
        ensures err { OnErr result (out.new.items ≡ out.old.items) }
    {
        self.index.sets.get(target).until(until, out)
    }

    /// Adds the ticket of each row whose reservation has run out, with the moment at which it did,
    /// at the end, by ticket, or leaves `out` as it is.
    pub fn expired(&self, moment: u64, out: &mut Pairs) -> Result<(), AllocError>
        ensures ok { OnOk result (out.new.items
            ≡ out.old.items ++ leases_of (expired self.now.kept moment)) }
        ensures err { OnErr result (out.new.items ≡ out.old.items) }
    {
        self.index.leases.due(moment, out)
    }

    /// Whether no row is due at a moment. It takes no memory, and looks at four first items.
    pub fn nothing_due(&self, moment: u64) -> bool
        ensures { IsTrue result ↔ IsUpToDate moment self.now.kept }
    {
        self.index.sets.is_later(moment) && leases_last(&self.index.leases, moment)
    }

    /// The queues in which a row waits, in order of the bytes of their names, each with the number
    /// of its rows.
    pub fn sizes(&self) -> Result<Sizes, AllocError>
        ensures { IfOk result (λ sizes. AreSizesOf self.now.kept.rows sizes) }
    {
        self.index.queues.sizes()
    }
}

/// Whether each lease runs beyond a moment.
fn leases_last(leases: &Leases, moment: u64) -> bool
    ensures later { IsTrue result
        ↔ IfSome (first_until leases.now.items) (λ until. moment < until) }
    ensures named { AreNamed leases.now.items }
{
    match leases.first() {
        Some(until) => moment < until,
        None => true,
    }
}
