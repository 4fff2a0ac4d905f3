// The room of a turn is emptied.
ghost use Rattle.std.specs.Prelude.{◌≡◌, ℕ, ◌+◌, ◌≤◌, [], length};
ghost use Rattle.fk_store.specs.RoomForTurns.{HasRoom};

use crate::room::{BYTES_KEPT, MOVES_KEPT};
use crate::store::Room;
use fk_json::ListWithRoom;
use std::alloc::Global;

impl Room {
    /// Empties what a turn wrote, which had so many moves. The memory of a great turn is given back.
    pub(crate) fn empty(&mut self, alloc: Global, count: usize)
        requires { HasRoom self.old }
        ensures { HasRoom self.new }
    {
        empty_list(alloc, &mut self.moves, count, MOVES_KEPT);
        let piece = self.piece.len();
        empty_list(alloc, &mut self.piece, piece, BYTES_KEPT);
    }
}

/// Empties a list, which had so many items. Where those are more than are kept, a new list takes its place, if there
/// is memory for one.
fn empty_list<T: Drop>(alloc: Global, list: &mut ListWithRoom<T>, count: usize, kept: usize)
    ensures items { list.new.items ≡ [] }
    ensures room { (n : ℕ) → n ≤ kept → n ≤ length list.old.items + list.old.spare → n ≤ list.new.spare }
{
    list.clear();
    if count > kept {
        let mut small = ListWithRoom::new(alloc);
        if small.reserve(kept).is_ok() {
            *list = small;
        }
    }
}
