ghost use Rattle.std.specs.Prelude.{◌≡◌, ◌+◌, ◌-◌, ◌^◌, ◌<◌, min};

use crate::counter::Counter;
use std::marker::Model;
use std::sync::ledger::{Blank, Book, Ledger, Share};

/// A count of comparisons. Only this crate adds to it, one by one, and only `Key::order` does, which
/// compares. The ledger's tokens, by which contracts see a number beyond 64 bits, take no memory.
#[derive(Drop)]
pub struct Steps<L: Ledger> {
    count: u64,
    book: Book<L>,
    share: Share<L>,
}

impl<L: Ledger> Model for Steps<L> {
    ghost use Rattle.std.specs.Prelude.{ℕ, ◌≡◌, ◌-◌, ◌^◌, ◌<◌, min};

    ghost Value = { ℕ };

    ghost view = { λ steps. steps.share.amount };

    ghost invariant = { λ steps. (0 < steps.share.parts)
        × (steps.count ≡ min steps.share.amount (2 ^ 64 - 1)) };
}

impl<L: Ledger> Steps<L> {
    /// No comparison so far.
    pub fn new(blank: Blank) -> Steps<L>
        requires name { blank.name ≡ L.name }
        requires parts { blank.parts ≡ L.parts }
        requires some { 0 < blank.parts }
        ensures { result ≡ 0 }
    {
        let (book, share) = blank.open::<L>();
        Steps {
            count: 0,
            book,
            share,
        }
    }

    /// The number of comparisons, which stands still at the end of its type.
    pub fn count(&self) -> u64
        ensures { result ≡ min self.now (2 ^ 64 - 1) }
    {
        self.count
    }
}

impl<L: Ledger> Counter for Steps<L> {
    ghost counted = { λ steps. steps };

    fn add(&mut self) {
        self.book.add(&mut self.share, 1);
        self.count = self.count.saturating_add(1);
    }
}
