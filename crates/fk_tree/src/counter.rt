ghost use Rattle.std.specs.Prelude.{◌≡◌, ◌+◌, ◌<◌, ℕ};

use std::marker::Model;
use std::sync::ledger::{Blank, Book, Ledger, Share};

/// What counts comparisons, one by one.
pub(crate) trait Counter {
    /// The number of comparisons so far.
    ghost counted: { Self → ℕ };

    /// Counts a comparison.
    fn add(&mut self)
        ensures { counted self.new ≡ counted self.old + 1 };
}

/// A count that nobody reads, and so no number is kept. Contracts see it by the ledger's tokens, which take no
/// memory.
#[derive(Drop)]
pub(crate) struct Unread<L: Ledger> {
    book: Book<L>,
    share: Share<L>,
}

impl<L: Ledger> Model for Unread<L> {
    ghost use Rattle.std.specs.Prelude.{ℕ, ◌<◌};

    ghost Value = { ℕ };

    ghost view = { λ unread. unread.share.amount };

    ghost invariant = { λ unread. 0 < unread.share.parts };
}

impl<L: Ledger> Unread<L> {
    /// No comparison so far.
    pub(crate) fn new(blank: Blank) -> Unread<L>
        requires name { blank.name ≡ L.name }
        requires parts { blank.parts ≡ L.parts }
        requires some { 0 < blank.parts }
        ensures { result ≡ 0 }
    {
        let (book, share) = blank.open::<L>();
        Unread { book, share }
    }
}

impl<L: Ledger> Counter for Unread<L> {
    ghost counted = { λ unread. unread };

    fn add(&mut self) {
        self.book.add(&mut self.share, 1);
    }
}
