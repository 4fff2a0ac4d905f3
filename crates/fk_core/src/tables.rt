ghost use Rattle.std.specs.Prelude.{◌≡◌, ◌≤◌};
ghost use Rattle.fk_model.specs.Limits.{greatest_next};
ghost use Rattle.fk_model.specs.State.{empty, untold};

use crate::index::Index;
use fk_rows::Rows;
use std::alloc::Global;
use std::marker::Model;

/// The kept state in tables, and beside it the room for more.
#[derive(Drop)]
pub struct Tables {
    pub(crate) rows: Rows,
    pub(crate) index: Index,
    pub(crate) next: u64,
    pub(crate) processed: u64,
    pub(crate) failures: u64,
}

impl Model for Tables {
    ghost use Rattle.fk_core.specs.Held.{Held};
    ghost use Rattle.fk_core.specs.Tied.{AreTied};

    ghost Value = { Held };

    ghost view = { λ tables. record {
      kept = record {
        rows = tables.rows.items;
        next = tables.next;
        processed = tables.processed;
        failures = tables.failures;
      };
      room = record {
        rows = tables.rows.spare;
        queues = tables.index.queues.spares;
        leases = tables.index.leases.spares;
        sets = tables.index.sets.spares;
      };
    } };

    ghost invariant = { λ tables. AreTied tables.rows.items tables.index tables.next };
}

impl Tables {
    /// No row, and each number 0. It takes no memory.
    pub fn new(alloc: Global) -> Tables
        ensures { result.kept ≡ untold }
    {
        Tables::with_next(alloc, 0)
    }

    /// The kept state with which a new server begins. It takes no memory.
    pub fn empty(alloc: Global) -> Tables
        ensures { result.kept ≡ empty }
    {
        Tables::with_next(alloc, 1)
    }

    /// No row, this number as the next one, and each count 0.
    fn with_next(alloc: Global, next: u64) -> Tables
        requires { next ≤ greatest_next }
        ensures { result.kept ≡ record untold { next = next } }
    {
        Tables {
            rows: Rows::new(alloc),
            index: Index::new(alloc),
            next,
            processed: 0,
            failures: 0,
        }
    }
}
