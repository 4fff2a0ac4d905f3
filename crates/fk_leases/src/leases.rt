ghost use Rattle.std.specs.Prelude.{◌≡◌, ◌↔◌, ◌++◌, ◌^◌, ◌-◌, ◌+◌, ◌<◌, find, length, min, nat_lt, option_map, slice_get, Contains, IsTrue, OnErr, OnOk};
ghost use Rattle.fk_json.specs.PairOrder.{with_pair};
ghost use Rattle.fk_lists.specs.Room.{all_pairs, list_at, no_lists, spare_at, AreNamed, IsLean, OthersStay};
ghost use Rattle.fk_leases.specs.Leases.{first_until, leased_ticket, until_in, run_out, without_lease, AreByTicket, IsUnleased};

use crate::ends::{enter, first_moment, leases_of, leave};
use fk_json::{Pairs, Text};
use fk_lists::Lists;
use fk_tree::Tree;
use std::alloc::{AllocError, Global};
use std::marker::Model;

/// The leases: under each jid pairs of a ticket and the moment until which its row is a worker's, in
/// milliseconds since 1970-01-01T00:00:00Z, by ticket; and for each jid the number of leases that may
/// be put without taking memory.
///
/// A ticket has one lease at most, of all jids. Beside the lists stands a tree of the ends of all
/// leases, in order of moment.
#[derive(Drop)]
pub struct Leases {
    pub(crate) alloc: Global,
    pub(crate) lists: Lists,
    pub(crate) ends: Tree,
    // The number of leases that may be put, of all jids.
    pub(crate) room: usize,
}

impl Model for Leases {
    ghost use Rattle.fk_lists.specs.Room.{Room};
    ghost use Rattle.fk_leases.specs.Ends.{IsSound};

    ghost Value = { Room };

    ghost view = { λ leases. leases.lists };

    ghost invariant = { λ leases.
        IsSound leases.lists leases.ends leases.room };
}

impl Leases {
    /// No lease. It takes no memory.
    pub fn new(alloc: Global) -> Leases
        ensures { result ≡ no_lists }
    {
        let lists = Lists::new(alloc);
        let ends = Tree::new(alloc);
        Leases {
            alloc,
            lists,
            ends,
            room: 0,
        }
    }

    /// Puts a lease of a ticket that has none, under this jid or another.
    pub fn put(&mut self, jid: &Text, ticket: u64, until: u64)
        requires room { 0 < spare_at self.old.spares jid.now }
        requires absent { IsUnleased ticket self.old.items }
        ensures here { list_at self.new.items jid.now
            ≡ with_pair (ticket, until) (list_at self.old.items jid.now) }
        ensures others { OthersStay jid.now self.old self.new }
        ensures spare { spare_at self.new.spares jid.now + 1 ≡ spare_at self.old.spares jid.now }
    {
        let Ok(_) = self.lists.put(jid, (ticket, until)) else {
            unreachable!()
        };
        self.room -= 1;
        enter(&mut self.ends, until, ticket);
    }

    /// The least ticket that has a lease under this jid.
    pub fn find(&self, jid: &Text) -> Option<u64>
        ensures ticket { result
            ≡ option_map leased_ticket (slice_get (list_at self.now.items jid.now) 0) }
        ensures order { AreByTicket self.now.items }
    {
        match self.lists.get(jid, 0) {
            Some((ticket, _)) => Some(ticket),
            None => None,
        }
    }

    /// The least ticket that has a lease under this jid that runs beyond a moment.
    pub fn find_beyond(&self, jid: &Text, moment: u64) -> Option<u64>
        ensures ticket { result ≡ option_map leased_ticket
            (find (λ lease. nat_lt moment (until_in lease)) (list_at self.now.items jid.now)) }
        ensures order { AreByTicket self.now.items }
    {
        match self.lists.first_above(jid, moment) {
            Some((ticket, _)) => Some(ticket),
            None => None,
        }
    }

    /// Takes a lease out, and tells whether it was there. The rooms stay. A jid whose last lease is
    /// taken and that has no room is forgotten.
    pub fn take(&mut self, jid: &Text, ticket: u64, until: u64) -> bool
        ensures found { IsTrue result
            ↔ Contains (list_at self.old.items jid.now) (ticket, until) }
        ensures here { list_at self.new.items jid.now
            ≡ without_lease ticket until (list_at self.old.items jid.now) }
        ensures others { OthersStay jid.now self.old self.new }
        ensures kept { spare_at self.new.spares jid.now ≡ spare_at self.old.spares jid.now }
        ensures lean { IsTrue result → IsLean self.new }
    {
        match self.lists.take(jid, (ticket, until)) {
            Some(_) => {
                leave(&mut self.ends, until, ticket);
                true
            }
            None => false,
        }
    }

    /// The least moment until which a lease runs.
    pub fn first(&self) -> Option<u64>
        ensures until { result ≡ first_until self.now.items }
        ensures named { AreNamed self.now.items }
    {
        first_moment(&self.ends)
    }

    /// Adds the ticket and the end of each lease that runs at most until a moment, by ticket, at the
    /// end, or leaves `out` as it is.
    pub fn due(&self, moment: u64, out: &mut Pairs) -> Result<(), AllocError>
        ensures ok { OnOk result (out.new.items
            ≡ out.old.items ++ run_out moment self.now.items) }
        ensures err { OnErr result (out.new.items ≡ out.old.items) }
        ensures named { AreNamed self.now.items }
    {
        let mut ended = Pairs::new(self.alloc);
        self.ends.until(moment, &mut ended)?;
        out.extend(&leases_of(self.alloc, &ended)?)
    }

    /// The number of leases, which stands still at the end of its type.
    pub fn count(&self) -> usize
        ensures count { result ≡ min (length (all_pairs self.now.items)) (2 ^ 64 - 1) }
        ensures named { AreNamed self.now.items }
    {
        self.ends.count()
    }
}
