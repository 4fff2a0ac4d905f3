// Names that are held for nothing.
ghost use Rattle.std.specs.Prelude.{◌≡◌, ◌≢◌, ◌↔◌, ℕ, List, IfSome, IsTrue};
ghost use Rattle.fk_lists.specs.Room.{list_at, spare_at};
ghost use Rattle.fk_lists.specs.PairLists.{items_of, list_under, spares_of, AreByName, IsIdle, IsSound, IsUsed};

use crate::pair_list::PairList;
use fk_json::Text;
use std::collections::BTreeMap;

/// Forgets a name, if it is idle: if it has neither a pair nor room.
pub(crate) fn forget_idle(held: &mut BTreeMap<Text, PairList>, name: &Text, idle: bool)
    requires idle { IsTrue idle ↔ IsIdle (list_under held.old.entries name.now) }
    requires order { AreByName held.old.entries }
    requires others { (other : List ℕ) → other ≢ name.now
        → IfSome (list_under held.old.entries other) IsUsed }
    ensures items { (other : List ℕ) → list_at (items_of held.new.entries) other
        ≡ list_at (items_of held.old.entries) other }
    ensures spares { (other : List ℕ) → spare_at (spares_of held.new.entries) other
        ≡ spare_at (spares_of held.old.entries) other }
    ensures sound { IsSound held.new.entries }
{
    if idle {
        let _ = held.remove(name);
    }
}
