ghost use Rattle.std.specs.Prelude.{◌≡◌, [], ◌∷◌, ◌++◌};

use crate::trace::Trace;
use std::marker::Model;
use std::snapshot::Snapshot;

/// What was done to a file until each moment of its past. Only clauses read it, and it takes no memory.
#[cycle(past)]
#[derive(Drop)]
pub(crate) struct Past {
    link: Link,
}

/// The last of these moments with those before it, if there is one.
#[cycle(past)]
#[derive(Drop)]
enum Link {
    Start,
    Then(Snapshot<Trace>, Snapshot<Past>),
}

impl Model for Past {
    ghost use Rattle.std.specs.Prelude.{List, length};
    ghost use Rattle.fk_disk.specs.Since.{Since};

    ghost Value = { List Since };

    ghost use Rattle.fk_disk.specs.Past.{moments_of};

    ghost view = { λ past. moments_of past.link };

    ghost size = { length };

    ghost use Rattle.std.proofs.Common.{arith, length-append};

    ghost size_decreases = { λ a h. Prim.grind (arith, length-append) };
}

impl Past {
    /// No moment has passed.
    pub(crate) fn new() -> Past
        ensures { result ≡ [] }
    {
        Past { link: Link::Start }
    }

    /// One more moment has passed.
    pub(crate) fn pass(&mut self, done: &Trace)
        ensures { self.new ≡ self.old ++ done.now ∷ [] }
    {
        let link = Link::Then(Snapshot::of(done), Snapshot::of(self));
        *self = Past { link };
    }
}
