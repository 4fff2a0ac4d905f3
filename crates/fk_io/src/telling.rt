ghost use Rattle.std.specs.Prelude.{◌≡◌, ◌≢◌, [], Some, slice_get, IfOk};
ghost use Rattle.fk_io.specs.Telling.{rest_of};

use std::alloc::{AllocError, Global};
use std::marker::Model;

/// A list that is told one item a call, and its last item for ever. It is seen as what is still
/// told.
#[derive(Drop)]
pub(crate) struct Telling {
    items: Vec<u64>,
    place: usize,
}

impl Model for Telling {
    ghost use Rattle.std.specs.Prelude.{◌<◌, ℕ, List, length, drop};

    ghost Value = { List ℕ };

    ghost view = { λ s. drop s.place s.items.items };

    ghost invariant = { λ s. s.place < length s.items.items };
}

impl Telling {
    /// Tells these items.
    pub(crate) fn new(alloc: Global, items: &[u64]) -> Result<Telling, AllocError>
        requires { items.now ≢ [] }
        ensures { IfOk result (λ telling. telling ≡ items.now) }
    {
        Ok(Telling {
            items: Vec::from_slice(alloc, items)?,
            place: 0,
        })
    }

    /// The next item.
    pub(crate) fn next(&mut self) -> u64
        ensures first { slice_get self.old 0 ≡ Some result }
        ensures rest { self.new ≡ rest_of self.old }
    {
        let item = self.items[self.place];
        self.place = (self.place + 1).min(self.items.len() - 1);
        item
    }
}
