ghost use Rattle.std.specs.Prelude.{◌≡◌, ◌↔◌, ◌<◌, ◌≤◌, ◌+◌, ◌-◌, ◌^◌, ◌∷◌, if◌then◌else◌, ℕ, List, [], Some, option_map, slice_get, All, IsOk, IsTrue, OnOk};
ghost use Rattle.fk_model.specs.Orders.{is_working, number_in, ticket_in, lease_under, rank_in};
ghost use Rattle.fk_lists.specs.Room.{list_at, mark_at, spare_at};
ghost use Rattle.fk_model.specs.declared.mutation.Target.{Target};
ghost use Rattle.fk_core.specs.Index.{Entered, HasLeft, MayEnter, MayLeave};
ghost use Rattle.fk_core.specs.Marks.{FindsTheSame, HasMore, IsMarked, IsUnmarked};
ghost use Rattle.fk_core.specs.Sets.{count_in, pairs_in};

use crate::sets::Sets;
use fk_job::Job;
use fk_json::Text;
use fk_leases::Leases;
use fk_lists::RoomByName;
use fk_model::{Place, Row};
use fk_queues::Queues;
use std::alloc::{AllocError, Global};
use std::marker::Model;

/// By what rows are found: in which queue they wait, under which jid a worker has them, and in
/// which set by moment they stand.
#[derive(Drop)]
pub(crate) struct Index {
    pub(crate) queues: Queues,
    pub(crate) leases: Leases,
    pub(crate) sets: Sets,
    pub(crate) working: usize,
    pub(crate) greatest: u64,
}

impl Model for Index {
    ghost use Rattle.fk_core.specs.Index.{Index};

    ghost Value = { Index };

    ghost view = { λ index. record {
      queues = index.queues;
      leases = index.leases;
      sets = index.sets;
      working = index.working;
      greatest = index.greatest;
    } };
}

impl Index {
    /// Nothing is to be found. It takes no memory.
    pub(crate) fn new(alloc: Global) -> Index
        ensures queues { result.queues.items ≡ [] }
        ensures leases { result.leases.items ≡ [] }
        ensures sets { (target : Target) → pairs_in target result.sets.items ≡ [] }
        ensures working { result.working ≡ 0 }
        ensures greatest { result.greatest ≡ 0 }
    {
        Index {
            queues: Queues::new(alloc),
            leases: Leases::new(alloc),
            sets: Sets::new(alloc),
            working: 0,
            greatest: 0,
        }
    }

    /// A row enters where its place says.
    pub(crate) fn enter(&mut self, ticket: u64, row: &Row)
        requires may { MayEnter self.old ticket row.now }
        requires fits { self.old.working < 2 ^ 63 }
        ensures { Entered ticket row.now self.old self.new }
    {
        self.greatest = self.greatest.max(ticket);
        self.sets.enter(ticket, &row.place);
        match &row.place {
            Place::Queued { rank } => {
                self.greatest = self.greatest.max(*rank);
                self.queues.put(&row.job.queue, *rank, ticket);
            }
            Place::Working { until, .. } => {
                self.working += 1;
                self.leases.put(&row.job.jid, ticket, *until);
            }
            _ => (),
        }
    }

    /// A row leaves the place where it is.
    pub(crate) fn leave(&mut self, ticket: u64, row: &Row)
        requires may { MayLeave self.old ticket row.now }
        requires some { (if is_working row.now.place then 1 else 0) ≤ self.old.working }
        ensures { HasLeft ticket row.now self.old self.new }
    {
        self.sets.leave(ticket, &row.place);
        match &row.place {
            Place::Queued { .. } => {
                let _ = self.queues.take_first(&row.job.queue);
            }
            Place::Working { until, .. } => {
                self.working -= 1;
                let _ = self.leases.take(&row.job.jid, ticket, *until);
            }
            _ => (),
        }
    }

    /// A number is told that is above each ticket and each rank.
    pub(crate) fn renumber(&mut self, next: u64)
        ensures { self.new ≡ record self.old { greatest = next - 1 } }
    {
        self.greatest = next.saturating_sub(1);
    }

    /// All rows leave. The rooms stay.
    pub(crate) fn clear(&mut self)
        ensures queues { self.new.queues.items ≡ [] }
        ensures leases { self.new.leases.items ≡ [] }
        ensures queue_room { (name : List ℕ) → spare_at self.new.queues.spares name
            ≡ spare_at self.old.queues.spares name }
        ensures lease_room { (jid : List ℕ) → spare_at self.new.leases.spares jid
            ≡ spare_at self.old.leases.spares jid }
        ensures sets { (target : Target) → pairs_in target self.new.sets.items ≡ [] }
        ensures set_room { (target : Target) → count_in target self.new.sets.spares
            ≡ count_in target self.old.sets.spares }
        ensures working { self.new.working ≡ 0 }
        ensures greatest { self.new.greatest ≡ 0 }
    {
        self.queues.clear();
        self.leases.clear();
        self.sets.clear();
        self.working = 0;
        self.greatest = 0;
    }

    /// Marks room for a row of this job that is to enter at a place.
    pub(crate) fn mark(&mut self, job: &Job, place: &Place) -> Result<(), AllocError>
        ensures ok { OnOk result (IsMarked job.now place.now self.old self.new) }
        ensures kept { (name : List ℕ) → spare_at self.old.queues.spares name
            ≤ spare_at self.new.queues.spares name }
        ensures kept_leases { (jid : List ℕ) → spare_at self.old.leases.spares jid
            ≤ spare_at self.new.leases.spares jid }
        ensures kept_sets { (target : Target) → count_in target self.old.sets.spares
            ≤ count_in target self.new.sets.spares }
        ensures same { FindsTheSame self.old self.new }
        ensures ready { HasMore job.now place.now self.old → IsOk result }
    {
        self.sets.mark(place)?;
        match place {
            Place::Queued { .. } => self.queues.mark(&job.queue),
            Place::Working { .. } => self.leases.mark(&job.jid),
            _ => Ok(()),
        }
    }

    /// Takes all marks away from where a row of this job would enter at a place.
    pub(crate) fn unmark(&mut self, job: &Job, place: &Place)
        ensures marks { IsUnmarked job.now place.now self.old self.new }
        ensures same { FindsTheSame self.old self.new }
    {
        self.sets.unmark(place);
        match place {
            Place::Queued { .. } => self.queues.unmark(&job.queue),
            Place::Working { .. } => self.leases.unmark(&job.jid),
            _ => (),
        }
    }
}
