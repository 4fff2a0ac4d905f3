ghost use Rattle.std.specs.Prelude.{◌≡◌, ◌≢◌, ◌++◌, ◌∷◌, ◌+◌, ◌-◌, ◌<◌, ◌≤◌, ◌↔◌, [], Some, drop, find, length, map, max, nat_lt, slice_get, All, IfErr, IfOk, IfNone, IfSome, IsOk, IsTrue, OnErr, OnOk};
ghost use Rattle.std.specs.List.{insert, remove};
ghost use Rattle.std.specs.List.Sorted.{IsStrictlyIncreasing};
ghost use Rattle.fk_model.specs.Orders.{number_in, ticket_in};
ghost use Rattle.fk_lists.specs.Places.{IsGap, IsPlace};

use fk_json::Pairs;
use std::alloc::{AllocError, Global};
use std::collections::VecDeque;
use std::marker::Model;

/// The list of one name, and how many pairs more it takes without memory. That is a count of its
/// own: behind it, the memory grows by doubling.
#[derive(Drop)]
pub(crate) struct PairList {
    pairs: VecDeque<(u64, u64)>,
    spare: usize,
    mark: usize,
}

impl Model for PairList {
    ghost use Rattle.std.specs.Prelude.{◌+◌, ◌≤◌, length};
    ghost use Rattle.std.specs.VecDeque.{deque_capacity};
    ghost use Rattle.fk_lists.specs.PairLists.{PairList};

    ghost Value = { PairList };

    ghost view = { λ list. record {
      items = list.pairs.items;
      spare = list.spare;
      mark = list.mark;
    } };

    ghost invariant = { λ list.
        length list.pairs.items + list.spare ≤ deque_capacity list.pairs };
}

impl PairList {
    /// An empty list. It takes no memory.
    pub(crate) fn new(alloc: Global) -> PairList
        ensures items { result.items ≡ [] }
        ensures spare { result.spare ≡ 0 }
        ensures mark { result.mark ≡ 0 }
    {
        PairList {
            pairs: VecDeque::new(alloc),
            spare: 0,
            mark: 0,
        }
    }

    /// Makes room for more pairs.
    pub(crate) fn reserve(&mut self, more: usize) -> Result<(), AllocError>
        ensures ok { OnOk result (more ≤ self.new.spare) }
        ensures err { OnErr result (self.new.spare ≡ self.old.spare) }
        ensures kept { self.old.spare ≤ self.new.spare }
        ensures bound { self.new.spare ≤ max self.old.spare more }
        ensures same { self.new.items ≡ self.old.items }
        ensures mark { self.new.mark ≡ self.old.mark }
        ensures ready { more ≤ self.old.spare → IsOk result }
    {
        if self.spare < more {
            self.pairs.reserve(more)?;
            self.spare = more;
        }
        Ok(())
    }

    /// Puts a pair behind all others.
    pub(crate) fn push(&mut self, pair: (u64, u64))
        requires room { 0 < self.old.spare }
        ensures items { self.new.items ≡ self.old.items ++ pair ∷ [] }
        ensures spare { self.new.spare + 1 ≡ self.old.spare }
    {
        self.spare -= 1;
        self.pairs.push_back_reserved(pair);
    }

    /// Puts a pair by its first number, and gives the place where it is; or leaves the list as it is,
    /// and gives the place of a pair with the same first number.
    pub(crate) fn put(&mut self, pair: (u64, u64)) -> Result<usize, usize>
        requires room { 0 < self.old.spare }
        requires order { IsStrictlyIncreasing (map number_in self.old.items) }
        ensures gap { IfOk result (λ at. IsGap self.old.items (number_in pair) at) }
        ensures here { IfOk result (λ at. self.new.items ≡ insert self.old.items at pair) }
        ensures spare { OnOk result (self.new.spare + 1 ≡ self.old.spare) }
        ensures taken { IfErr result (λ at. IsPlace self.old.items (number_in pair) at) }
        ensures same { OnErr result (self.new ≡ self.old) }
    {
        match self.place_of(pair.0) {
            Ok(at) => Err(at),
            Err(at) => {
                self.insert(at, pair);
                Ok(at)
            }
        }
    }

    /// Puts a pair at a place.
    #[tactic(auto, using(std::proofs::lemmas::List::Edits::insert_end))]
    fn insert(&mut self, at: usize, pair: (u64, u64))
        requires room { 0 < self.old.spare }
        requires within { at ≤ length self.old.items }
        ensures items { self.new.items ≡ insert self.old.items at pair }
        ensures spare { self.new.spare + 1 ≡ self.old.spare }
    {
        if at == self.pairs.len() {
            return self.push(pair);
        }
        self.spare -= 1;
        let _ = self.pairs.insert(at, pair);
    }

    /// Takes the first pair out, if there is one.
    pub(crate) fn take_first(&mut self) -> Option<(u64, u64)>
        ensures value { result ≡ slice_get self.old.items 0 }
        ensures items { self.new.items ≡ drop 1 self.old.items }
        ensures spare { self.new.spare ≡ self.old.spare }
    {
        self.pairs.pop_front()
    }

    /// Takes a pair out, and gives the place where it was, if it is there.
    pub(crate) fn take(&mut self, pair: (u64, u64)) -> Option<usize>
        requires order { IsStrictlyIncreasing (map number_in self.old.items) }
        ensures taken { IfSome result (λ at. slice_get self.old.items at ≡ Some pair) }
        ensures here { IfSome result (λ at. self.new.items ≡ remove self.old.items at) }
        ensures absent { IfNone result (All (λ other. other ≢ pair) self.old.items) }
        ensures same { IfNone result (self.new.items ≡ self.old.items) }
        ensures spare { self.new.spare ≡ self.old.spare }
    {
        let Ok(at) = self.place_of(pair.0) else {
            return None;
        };
        match self.get(at) {
            Some((_, second)) if second == pair.1 => {
                let _ = self.pairs.remove(at);
                Some(at)
            }
            _ => None,
        }
    }

    /// Takes all pairs out.
    pub(crate) fn clear(&mut self)
        ensures items { self.new.items ≡ [] }
        ensures spare { self.new.spare ≡ self.old.spare }
    {
        self.pairs.clear();
    }

    /// The pair at a place, counted from 0, or `None` past the end.
    pub(crate) fn get(&self, at: usize) -> Option<(u64, u64)>
        ensures { result ≡ slice_get self.now.items at }
    {
        self.pairs.get(at).copied()
    }

    /// The last pair.
    pub(crate) fn last(&self) -> Option<(u64, u64)>
        ensures { result ≡ slice_get self.now.items (length self.now.items - 1) }
    {
        self.pairs.back().copied()
    }

    /// The first pair whose second number is above this one.
    pub(crate) fn first_above(&self, number: u64) -> Option<(u64, u64)>
        ensures { result ≡ find (λ pair. nat_lt number (ticket_in pair)) self.now.items }
    {
        'looking: for pair in self.pairs.iter() {
            if number < pair.1 {
                return Some(*pair);
            }
        }
        None
    }

    /// The number of pairs.
    pub(crate) fn len(&self) -> usize
        ensures { result ≡ length self.now.items }
    {
        self.pairs.len()
    }

    /// How many pairs more it takes without memory.
    pub(crate) fn spare(&self) -> usize
        ensures { result ≡ self.now.spare }
    {
        self.spare
    }

    /// How much room is missing for one mark more. Where that is beyond its type there is no answer.
    pub(crate) fn lack(&self) -> Option<usize>
        ensures some { IfSome result (λ lack. lack ≡ self.now.mark + 1 - self.now.spare) }
        ensures none { IfNone result (self.now.spare ≤ self.now.mark) }
    {
        if self.mark < self.spare {
            return Some(0);
        }
        (self.mark - self.spare).checked_add(1)
    }

    /// Marks room for one pair more, beside what is marked.
    pub(crate) fn mark(&mut self) -> Result<(), AllocError>
        ensures ok { OnOk result ((self.new.mark ≡ self.old.mark + 1)
            × (self.new.mark ≤ self.new.spare)) }
        ensures err { OnErr result (self.new.mark ≡ self.old.mark) }
        ensures spare { OnErr result (self.new.spare ≡ self.old.spare) }
        ensures kept { self.old.spare ≤ self.new.spare }
        ensures bound { self.new.spare ≤ max self.old.spare (self.old.mark + 1) }
        ensures same { self.new.items ≡ self.old.items }
        ensures ready { self.old.mark < self.old.spare → IsOk result }
    {
        match self.mark.checked_add(1) {
            None => Err(AllocError),
            Some(mark) => {
                self.reserve(mark)?;
                self.mark = mark;
                Ok(())
            }
        }
    }

    /// Takes all marks away.
    pub(crate) fn unmark(&mut self)
        ensures mark { self.new.mark ≡ 0 }
        ensures spare { self.new.spare ≡ self.old.spare }
        ensures same { self.new.items ≡ self.old.items }
    {
        self.mark = 0;
    }

    /// Whether it has neither a pair nor room for one.
    pub(crate) fn is_idle(&self) -> bool
        ensures { IsTrue result ↔ ((self.now.items ≡ []) × (self.now.spare ≡ 0)) }
    {
        self.pairs.is_empty() && self.spare == 0
    }

    /// Where a pair with this first number stands, or would stand, in a list by first numbers.
    fn place_of(&self, number: u64) -> Result<usize, usize>
        requires { IsStrictlyIncreasing (map number_in self.now.items) }
        ensures found { IfOk result (λ at. IsPlace self.now.items number at) }
        ensures absent { IfErr result (λ at. IsGap self.now.items number at) }
    {
        self.pairs
            .binary_search_by_key(&number, |&(first, _)| first)
    }

    /// Adds the pairs at the end, or leaves `out` as it is.
    pub(crate) fn listed(&self, out: &mut Pairs) -> Result<(), AllocError>
        ensures ok { OnOk result (out.new.items ≡ out.old.items ++ self.now.items) }
        ensures err { OnErr result (out.new.items ≡ out.old.items) }
    {
        out.reserve(self.pairs.len())?;
        'adding: for pair in self.pairs.iter() {
            let _ = out.push(*pair);
        }
        Ok(())
    }
}
