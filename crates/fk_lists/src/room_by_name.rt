ghost use Rattle.std.specs.Prelude.{◌≡◌, ◌≢◌, ◌<◌, ◌≤◌, ◌+◌, max, ℕ, List, [], IsOk, OnErr, OnOk};
ghost use Rattle.fk_lists.specs.Room.{mark_at, spare_at, IsLean, Room};

use fk_json::Text;
use std::alloc::AllocError;

/// Pairs under names, and for each name the number of pairs that may be put without taking memory.
/// Beside it stands how much of that room is marked, while it is counted how much is needed.
pub trait RoomByName {
    /// The pairs, the room of each name, and how much of it is marked.
    ghost room: { Self → Room };

    /// Makes room for more pairs of a name. The pairs stay, and so does the room that was there: that
    /// of the name is raised to what is asked for, and never beyond.
    fn reserve(&mut self, name: &Text, more: usize) -> Result<(), AllocError>
        ensures ok { OnOk result (more ≤ spare_at (room self.new).spares name.now) }
        ensures err { OnErr result
            (spare_at (room self.new).spares name.now ≡ spare_at (room self.old).spares name.now) }
        ensures kept { (other : List ℕ)
            → spare_at (room self.old).spares other ≤ spare_at (room self.new).spares other }
        ensures bound { spare_at (room self.new).spares name.now
            ≤ max (spare_at (room self.old).spares name.now) more }
        ensures rooms { (other : List ℕ) → other ≢ name.now
            → spare_at (room self.new).spares other ≡ spare_at (room self.old).spares other }
        ensures same { (room self.new).items ≡ (room self.old).items }
        ensures marks { (other : List ℕ)
            → mark_at (room self.new).marks other ≡ mark_at (room self.old).marks other }
        ensures ready { more ≤ spare_at (room self.old).spares name.now → IsOk result };

    /// Marks room for one pair more of a name, beside what is marked, and makes it where it isn't
    /// there. The pairs stay, and so does the room that was there, which is raised to the marks and
    /// never beyond. Of the other calls only `reserve` says what becomes of marks: they stay.
    fn mark(&mut self, name: &Text) -> Result<(), AllocError>
        ensures ok { OnOk result
            (mark_at (room self.new).marks name.now ≡ mark_at (room self.old).marks name.now + 1) }
        ensures err { OnErr result
            (mark_at (room self.new).marks name.now ≡ mark_at (room self.old).marks name.now) }
        ensures spare { OnErr result
            (spare_at (room self.new).spares name.now ≡ spare_at (room self.old).spares name.now) }
        ensures within { OnOk result
            (mark_at (room self.new).marks name.now ≤ spare_at (room self.new).spares name.now) }
        ensures others { (other : List ℕ) → other ≢ name.now
            → mark_at (room self.new).marks other ≡ mark_at (room self.old).marks other }
        ensures kept { (other : List ℕ)
            → spare_at (room self.old).spares other ≤ spare_at (room self.new).spares other }
        ensures bound { spare_at (room self.new).spares name.now
            ≤ max (spare_at (room self.old).spares name.now) (mark_at (room self.old).marks name.now + 1) }
        ensures rooms { (other : List ℕ) → other ≢ name.now
            → spare_at (room self.new).spares other ≡ spare_at (room self.old).spares other }
        ensures same { (room self.new).items ≡ (room self.old).items }
        ensures ready { mark_at (room self.old).marks name.now < spare_at (room self.old).spares name.now
            → IsOk result };

    /// Takes all marks of a name away.
    fn unmark(&mut self, name: &Text)
        ensures mark { mark_at (room self.new).marks name.now ≡ 0 }
        ensures others { (other : List ℕ) → other ≢ name.now
            → mark_at (room self.new).marks other ≡ mark_at (room self.old).marks other }
        ensures kept { (other : List ℕ)
            → spare_at (room self.new).spares other ≡ spare_at (room self.old).spares other }
        ensures same { (room self.new).items ≡ (room self.old).items };

    /// Takes all pairs out. The rooms stay. Names that have no room are forgotten.
    fn clear(&mut self)
        ensures items { (room self.new).items ≡ [] }
        ensures kept { (name : List ℕ)
            → spare_at (room self.new).spares name ≡ spare_at (room self.old).spares name }
        ensures lean { IsLean (room self.new) };
}
