// A store hands its disks back.
ghost use Rattle.std.specs.Prelude.{◌≡◌, is_some, IsTrue, None};
ghost use Rattle.fk_lives.specs.Doubt.{IsSound};
ghost use Rattle.fk_lives.specs.Standing.{HaveNumbers, Stands};

use crate::store::Store;
use fk_disk::Disk;
use fk_io::{Clock, Dice};
use fk_shelf::Shelf;

impl<D: Disk, C: Clock + Drop, J: Dice + Drop> Store<D, C, J> {
    /// Hands both disks back, A first. It calls nothing: what a read gives of them stands for what is kept, unless
    /// moves are in doubt, and so does all that a crash may leave, with those moves or without them.
    pub fn close(self) -> (D, D)
        ensures a { result.0 ≡ self.shelf.live.disk }
        ensures b { result.1 ≡ self.shelf.other }
        ensures owed { is_some self.doubt ≡ is_some self.shelf.live.owed }
        ensures reads { IsTrue (D.told self.shelf.live.disk) → IsTrue (D.told self.shelf.other)
            → self.doubt ≡ None
            → Stands (D.content result.0) (D.content result.1) self.server.state.kept
            × HaveNumbers (D.content result.0) (D.content result.1) self.server.number self.server.size }
        ensures sound { IsSound self.server.state.kept self.doubt
            (D.images result.0 (D.moment result.0)) (D.images result.1 (D.moment result.1)) }
    {
        self.shelf.stands();
        into_shelf(self).close()
    }
}

/// The shelf alone.
fn into_shelf<D: Disk, C: Clock + Drop, J: Dice + Drop>(store: Store<D, C, J>) -> Shelf<D>
    ensures { result ≡ store.shelf }
{
    let Store {
        shelf,
        tables: _,
        workers: _,
        clock: _,
        dice: _,
        room: _,
        told: _,
        doubt: _,
    } = store;
    shelf
}
