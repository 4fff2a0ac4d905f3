ghost use Rattle.std.specs.Prelude.{◌≡◌, ◌∷◌, ◌++◌, ◌+◌, ◌-◌, ◌<◌, [], drop, length, slice_get, All, IfOk, OnErr, OnOk};
ghost use Rattle.fk_model.specs.Orders.{number_in};
ghost use Rattle.fk_lists.specs.Room.{list_at, no_lists, spare_at, AreNamed, IsLean, OthersStay};
ghost use Rattle.fk_lists.specs.Sizes.{sizes_of};
ghost use Rattle.fk_queues.specs.Queues.{AreByRank};

use fk_json::{Pairs, Text};
use fk_lists::{Lists, RoomByName, Sizes};
use std::alloc::{AllocError, Global};
use std::marker::Model;

/// The queues: under each name pairs of a rank and a ticket, by rank, and for each name the number of
/// pairs that may be put without taking memory.
#[derive(Drop)]
pub struct Queues {
    lists: Lists,
}

impl Model for Queues {
    ghost use Rattle.fk_lists.specs.Room.{Room};
    ghost use Rattle.fk_queues.specs.Queues.{AreByRank};

    ghost Value = { Room };

    ghost view = { λ queues. queues.lists };

    ghost invariant = { λ queues. AreByRank queues.lists.items };
}

impl Queues {
    /// No queue. It takes no memory.
    pub fn new(alloc: Global) -> Queues
        ensures { result ≡ no_lists }
    {
        Queues {
            lists: Lists::new(alloc),
        }
    }

    /// Puts a row at the end of a queue.
    pub fn put(&mut self, queue: &Text, rank: u64, ticket: u64)
        requires room { 0 < spare_at self.old.spares queue.now }
        requires last { All (λ pair. number_in pair < rank) (list_at self.old.items queue.now) }
        ensures here { list_at self.new.items queue.now
            ≡ list_at self.old.items queue.now ++ (rank, ticket) ∷ [] }
        ensures others { OthersStay queue.now self.old self.new }
        ensures spare { spare_at self.new.spares queue.now + 1
            ≡ spare_at self.old.spares queue.now }
    {
        self.lists.push(queue, (rank, ticket));
    }

    /// The rank and the ticket of a queue's first row.
    pub fn first(&self, queue: &Text) -> Option<(u64, u64)>
        ensures value { result ≡ slice_get (list_at self.now.items queue.now) 0 }
        ensures order { AreByRank self.now.items }
    {
        self.lists.get(queue, 0)
    }

    /// Takes a queue's first row out, and gives its rank and its ticket. The rooms stay. A queue that
    /// has neither a row nor room is forgotten.
    pub fn take_first(&mut self, queue: &Text) -> Option<(u64, u64)>
        ensures value { result ≡ slice_get (list_at self.old.items queue.now) 0 }
        ensures here { list_at self.new.items queue.now ≡ drop 1 (list_at self.old.items queue.now) }
        ensures others { OthersStay queue.now self.old self.new }
        ensures kept { spare_at self.new.spares queue.now ≡ spare_at self.old.spares queue.now }
        ensures lean { IsLean self.new }
        ensures order { AreByRank self.old.items }
    {
        self.lists.take_first(queue)
    }

    /// The number of a queue's rows.
    pub fn count(&self, queue: &Text) -> usize
        ensures value { result ≡ length (list_at self.now.items queue.now) }
        ensures order { AreByRank self.now.items }
    {
        self.lists.len(queue)
    }

    /// Adds the ranks and tickets of a queue, by rank, at the end, or leaves `out` as it is.
    pub fn listed(&self, queue: &Text, out: &mut Pairs) -> Result<(), AllocError>
        ensures ok { OnOk result (out.new.items ≡ out.old.items ++ list_at self.now.items queue.now) }
        ensures err { OnErr result (out.new.items ≡ out.old.items) }
        ensures order { AreByRank self.now.items }
    {
        self.lists.listed(queue, out)
    }

    /// The queues that have a row, in order of the bytes of their names, each with the number of its
    /// rows.
    pub fn sizes(&self) -> Result<Sizes, AllocError>
        ensures sizes { IfOk result (λ sizes. sizes ≡ sizes_of self.now.items) }
        ensures named { AreNamed self.now.items }
    {
        self.lists.sizes()
    }

    /// The rank and the ticket of a queue's last row.
    pub fn last(&self, queue: &Text) -> Option<(u64, u64)>
        ensures value { result ≡ slice_get (list_at self.now.items queue.now)
            (length (list_at self.now.items queue.now) - 1) }
        ensures order { AreByRank self.now.items }
    {
        self.lists.last(queue)
    }
}

impl RoomByName for Queues {
    ghost room = { λ queues. queues };

    fn reserve(&mut self, queue: &Text, more: usize) -> Result<(), AllocError> {
        self.lists.reserve(queue, more)
    }

    fn mark(&mut self, queue: &Text) -> Result<(), AllocError> {
        self.lists.mark(queue)
    }

    fn unmark(&mut self, queue: &Text) {
        self.lists.unmark(queue);
    }

    fn clear(&mut self) {
        self.lists.clear();
    }
}
