ghost use Rattle.std.specs.Prelude.{◌≡◌, ◌≢◌, ◌++◌, ◌∷◌, ◌+◌, ◌-◌, ◌<◌, ◌≤◌, ℕ, List, [], Some, drop, find, length, map, nat_lt, slice_get, All, IfErr, IfOk, IfNone, IfSome, IsOk, OnErr, OnOk};
ghost use Rattle.std.specs.List.{insert, remove};
ghost use Rattle.std.specs.List.Sorted.{IsStrictlyIncreasing};
ghost use Rattle.fk_model.specs.Orders.{number_in, ticket_in};
ghost use Rattle.fk_lists.specs.Room.{list_at, no_lists, mark_at, spare_at, AreNamed, IsLean, OthersStay};
ghost use Rattle.fk_lists.specs.Places.{IsGap, IsPlace};

use crate::idle::forget_idle;
use crate::pair_list::PairList;
use fk_json::Text;
use std::alloc::{AllocError, Global};
use std::collections::BTreeMap;
use std::marker::Model;

/// Lists of pairs of numbers under names, and for each name the number of pairs that may be put
/// without taking memory.
#[derive(Drop)]
pub struct Lists {
    pub(crate) alloc: Global,
    pub(crate) held: BTreeMap<Text, PairList>,
}

impl Model for Lists {
    ghost use Rattle.fk_lists.specs.Room.{Room};
    ghost use Rattle.fk_lists.specs.PairLists.{items_of, marks_of, spares_of, IsSound};

    ghost Value = { Room };

    ghost view = { λ lists. record {
      items = items_of lists.held.entries;
      spares = spares_of lists.held.entries;
      marks = marks_of lists.held.entries;
    } };

    ghost invariant = { λ lists. IsSound lists.held.entries };
}

impl Lists {
    /// No lists. It takes no memory.
    pub fn new(alloc: Global) -> Lists
        ensures { result ≡ no_lists }
    {
        Lists {
            alloc,
            held: BTreeMap::new(alloc),
        }
    }

    /// Makes room for pairs of a name that has no list.
    #[tactic(auto, using(crate::proofs::Lookups::listed, crate::proofs::Lookups::spared))]
    pub(crate) fn add(&mut self, name: &Text, more: usize) -> Result<(), AllocError>
        requires empty { list_at self.old.items name.now ≡ [] }
        requires bare { spare_at self.old.spares name.now ≡ 0 }
        ensures ok { OnOk result (more ≤ spare_at self.new.spares name.now) }
        ensures err { OnErr result
            (spare_at self.new.spares name.now ≡ spare_at self.old.spares name.now) }
        ensures kept { (other : List ℕ)
            → spare_at self.old.spares other ≤ spare_at self.new.spares other }
        ensures bound { spare_at self.new.spares name.now ≤ more }
        ensures rooms { (other : List ℕ) → other ≢ name.now
            → spare_at self.new.spares other ≡ spare_at self.old.spares other }
        ensures same { self.new.items ≡ self.old.items }
        ensures marks { (other : List ℕ)
            → mark_at self.new.marks other ≡ mark_at self.old.marks other }
        ensures ready { more ≡ 0 → IsOk result }
    {
        if more == 0 {
            return Ok(());
        }
        let mut list = PairList::new(self.alloc);
        list.reserve(more)?;
        match self.held.insert(name.copied()?, list) {
            Ok(_) => Ok(()),
            Err(_) => Err(AllocError),
        }
    }

    /// Makes room for one pair of a name that has no list, and marks it.
    #[tactic(auto, using(crate::proofs::Lookups::listed, crate::proofs::Lookups::spared))]
    pub(crate) fn add_marked(&mut self, name: &Text) -> Result<(), AllocError>
        requires empty { list_at self.old.items name.now ≡ [] }
        requires bare { spare_at self.old.spares name.now ≡ 0 }
        ensures ok { OnOk result (mark_at self.new.marks name.now ≡ mark_at self.old.marks name.now + 1) }
        ensures err { OnErr result (mark_at self.new.marks name.now ≡ mark_at self.old.marks name.now) }
        ensures spare { OnErr result
            (spare_at self.new.spares name.now ≡ spare_at self.old.spares name.now) }
        ensures within { OnOk result
            (mark_at self.new.marks name.now ≤ spare_at self.new.spares name.now) }
        ensures marks { (other : List ℕ) → other ≢ name.now
            → mark_at self.new.marks other ≡ mark_at self.old.marks other }
        ensures kept { (other : List ℕ)
            → spare_at self.old.spares other ≤ spare_at self.new.spares other }
        ensures bound { spare_at self.new.spares name.now ≤ 1 }
        ensures rooms { (other : List ℕ) → other ≢ name.now
            → spare_at self.new.spares other ≡ spare_at self.old.spares other }
        ensures same { self.new.items ≡ self.old.items }
    {
        let mut list = PairList::new(self.alloc);
        list.mark()?;
        match self.held.insert(name.copied()?, list) {
            Ok(_) => Ok(()),
            Err(_) => Err(AllocError),
        }
    }

    /// Puts a pair behind all others of a name.
    #[tactic(auto, using(crate::proofs::Lookups::listed, crate::proofs::Lookups::spared, crate::proofs::NamesInOrder::are_named))]
    pub fn push(&mut self, name: &Text, pair: (u64, u64))
        requires room { 0 < spare_at self.old.spares name.now }
        ensures here { list_at self.new.items name.now
            ≡ list_at self.old.items name.now ++ pair ∷ [] }
        ensures others { OthersStay name.now self.old self.new }
        ensures spare { spare_at self.new.spares name.now + 1
            ≡ spare_at self.old.spares name.now }
        ensures named { AreNamed self.new.items }
    {
        let Some(list) = self.held.get_mut(name) else {
            return;
        };
        list.push(pair);
    }

    /// Puts a pair by its first number into the list of a name that is in order of first numbers, and
    /// gives the place where it is, counted from 0; or leaves the list as it is, and gives the place of
    /// a pair with the same first number.
    #[tactic(auto, using(crate::proofs::Lookups::listed, crate::proofs::Lookups::spared, crate::proofs::NamesInOrder::are_named))]
    pub fn put(&mut self, name: &Text, pair: (u64, u64)) -> Result<usize, usize>
        requires room { 0 < spare_at self.old.spares name.now }
        requires order { IsStrictlyIncreasing (map number_in (list_at self.old.items name.now)) }
        ensures gap { IfOk result (λ at. IsGap (list_at self.old.items name.now) (number_in pair) at) }
        ensures here { IfOk result (λ at. list_at self.new.items name.now
            ≡ insert (list_at self.old.items name.now) at pair) }
        ensures spare { OnOk result (spare_at self.new.spares name.now + 1
            ≡ spare_at self.old.spares name.now) }
        ensures taken { IfErr result
            (λ at. IsPlace (list_at self.old.items name.now) (number_in pair) at) }
        ensures same { OnErr result (list_at self.new.items name.now
            ≡ list_at self.old.items name.now) }
        ensures kept { OnErr result (spare_at self.new.spares name.now
            ≡ spare_at self.old.spares name.now) }
        ensures others { OthersStay name.now self.old self.new }
        ensures named { AreNamed self.new.items }
    {
        let Some(list) = self.held.get_mut(name) else {
            return Err(0);
        };
        list.put(pair)
    }

    /// Takes the first pair of a name out, if there is one. The rooms stay. A name that has neither a
    /// pair nor room is forgotten.
    #[tactic(auto, using(crate::proofs::Lookups::listed, crate::proofs::Lookups::spared, crate::proofs::NamesInOrder::are_named))]
    pub fn take_first(&mut self, name: &Text) -> Option<(u64, u64)>
        ensures value { result ≡ slice_get (list_at self.old.items name.now) 0 }
        ensures here { list_at self.new.items name.now ≡ drop 1 (list_at self.old.items name.now) }
        ensures others { OthersStay name.now self.old self.new }
        ensures kept { spare_at self.new.spares name.now ≡ spare_at self.old.spares name.now }
        ensures lean { IsLean self.new }
        ensures named { AreNamed self.new.items }
    {
        let Some(list) = self.held.get_mut(name) else {
            return None;
        };
        let taken = list.take_first();
        let idle = list.is_idle();
        forget_idle(&mut self.held, name, idle);
        taken
    }

    /// Takes a pair out of the list of a name that is in order of first numbers, and gives the place
    /// where it was, counted from 0, if it is there. The rooms stay. A name that has neither a pair nor
    /// room is forgotten.
    #[tactic(auto, using(crate::proofs::Lookups::listed, crate::proofs::Lookups::spared, crate::proofs::NamesInOrder::are_named))]
    pub fn take(&mut self, name: &Text, pair: (u64, u64)) -> Option<usize>
        requires order { IsStrictlyIncreasing (map number_in (list_at self.old.items name.now)) }
        ensures taken { IfSome result
            (λ at. slice_get (list_at self.old.items name.now) at ≡ Some pair) }
        ensures here { IfSome result (λ at. list_at self.new.items name.now
            ≡ remove (list_at self.old.items name.now) at) }
        ensures absent { IfNone result
            (All (λ other. other ≢ pair) (list_at self.old.items name.now)) }
        ensures same { IfNone result (self.new.items ≡ self.old.items) }
        ensures others { OthersStay name.now self.old self.new }
        ensures kept { spare_at self.new.spares name.now ≡ spare_at self.old.spares name.now }
        ensures lean { IsLean self.new }
        ensures named { AreNamed self.new.items }
    {
        let Some(list) = self.held.get_mut(name) else {
            return None;
        };
        let Some(place) = list.take(pair) else {
            return None;
        };
        let idle = list.is_idle();
        forget_idle(&mut self.held, name, idle);
        Some(place)
    }

    /// The pair at a place of a name's list, counted from 0, or `None` past its end.
    #[tactic(auto, using(crate::proofs::Lookups::listed))]
    pub fn get(&self, name: &Text, at: usize) -> Option<(u64, u64)>
        ensures { result ≡ slice_get (list_at self.now.items name.now) at }
    {
        match self.held.get(name) {
            Some(list) => list.get(at),
            None => None,
        }
    }

    /// The last pair of a name's list.
    #[tactic(auto, using(crate::proofs::Lookups::listed))]
    pub fn last(&self, name: &Text) -> Option<(u64, u64)>
        ensures { result ≡ slice_get (list_at self.now.items name.now)
            (length (list_at self.now.items name.now) - 1) }
    {
        match self.held.get(name) {
            Some(list) => list.last(),
            None => None,
        }
    }

    /// The first pair of a name's list whose second number is above this one.
    #[tactic(auto, using(crate::proofs::Lookups::listed))]
    pub fn first_above(&self, name: &Text, number: u64) -> Option<(u64, u64)>
        ensures { result ≡ find (λ pair. nat_lt number (ticket_in pair))
            (list_at self.now.items name.now) }
    {
        match self.held.get(name) {
            Some(list) => list.first_above(number),
            None => None,
        }
    }

    /// The number of pairs in a name's list.
    #[tactic(auto, using(crate::proofs::Lookups::listed))]
    pub fn len(&self, name: &Text) -> usize
        ensures { result ≡ length (list_at self.now.items name.now) }
    {
        match self.held.get(name) {
            Some(list) => list.len(),
            None => 0,
        }
    }

    /// How many pairs of a name may be put without taking memory.
    #[tactic(auto, using(crate::proofs::Lookups::spared))]
    pub fn spare(&self, name: &Text) -> usize
        ensures { result ≡ spare_at self.now.spares name.now }
    {
        match self.held.get(name) {
            Some(list) => list.spare(),
            None => 0,
        }
    }

    /// How much room of a name is missing for one mark more. Where that is beyond its type there is no
    /// answer.
    #[tactic(auto, using(crate::proofs::Lookups::marked, crate::proofs::Lookups::spared))]
    pub fn lack(&self, name: &Text) -> Option<usize>
        ensures some { IfSome result (λ lack. lack
            ≡ mark_at self.now.marks name.now + 1 - spare_at self.now.spares name.now) }
        ensures none { IfNone result
            (spare_at self.now.spares name.now ≤ mark_at self.now.marks name.now) }
    {
        match self.held.get(name) {
            Some(list) => list.lack(),
            None => Some(1),
        }
    }
}
