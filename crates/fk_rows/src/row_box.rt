ghost use Rattle.std.specs.Prelude.{◌≡◌};
ghost use Rattle.fk_model.specs.Changes.{put_row};

use fk_job::{Failure, Job, Stamp};
use fk_json::Text;
use fk_model::{Place, Row};
use std::alloc::{AllocError, Global};
use std::marker::Model;

/// A row in memory of its own, so that it stays where it is while its chunk moves.
#[derive(Drop)]
pub(crate) struct RowBox {
    row: Box<Row>,
}

impl Model for RowBox {
    ghost use Rattle.fk_model.specs.declared.row.Row.{Row};

    ghost Value = { Row };

    ghost view = { λ held. held.row.value };
}

impl RowBox {
    /// Memory for a row to come.
    pub(crate) fn new(alloc: Global) -> Result<RowBox, AllocError> {
        Ok(RowBox {
            row: Box::new(alloc, blank(alloc))?,
        })
    }

    /// Puts a row in.
    pub(crate) fn set(&mut self, row: Row)
        ensures { self.new ≡ row }
    {
        *self.row = row;
    }

    /// The row.
    pub(crate) fn row(&self) -> &Row
        ensures { result.now ≡ self.now }
    {
        &self.row
    }

    /// Changes what a move tells of the row.
    pub(crate) fn change(&mut self, enqueued: Option<u64>, failure: Option<Failure>, place: Place)
        ensures { self.new ≡ put_row enqueued failure place self.old }
    {
        self.row.stamp.enqueued = enqueued;
        self.row.stamp.failure = failure;
        self.row.place = place;
    }

    /// The row, taken out of its memory, which is given back.
    pub(crate) fn into_row(self) -> Row
        ensures { result ≡ self }
    {
        Box::into_inner(self.row)
    }
}

// What stands in memory for a row to come. It takes no memory of its own.
fn blank(alloc: Global) -> Row {
    Row {
        job: Job {
            jid: Text::fixed(alloc, b""),
            jobtype: Text::fixed(alloc, b""),
            queue: Text::fixed(alloc, b""),
            retry: 0,
            reserve_for: 0,
            at: None,
            has_created: false,
            body: Text::fixed(alloc, b""),
        },
        stamp: Stamp {
            created: 0,
            enqueued: None,
            failure: None,
        },
        place: Place::Dead { until: 0 },
    }
}
