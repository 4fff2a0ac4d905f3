ghost use Rattle.std.specs.Prelude.{◌↔◌, IsTrue};
ghost use Rattle.fk_model.specs.Spellings.{HasSpelling};

use crate::spelling::has_spelling;
use crate::{Place, Row};
use fk_job::Failure;
use fk_json::ListWithRoom;

/// One change to the kept state. A ticket names a row for good.
#[derive(Drop)]
pub enum Move {
    /// A new row.
    Add {
        ticket: u64,
        row: Row,
    },
    /// A row has a new place, and all that its stamp says but when it was pushed. Moments are in
    /// milliseconds since 1970-01-01T00:00:00Z.
    Put {
        ticket: u64,
        enqueued: Option<u64>,
        failure: Option<Failure>,
        place: Place,
    },
    /// A row is forgotten.
    Drop {
        ticket: u64,
    },
    /// All rows are forgotten.
    DropAll,
    /// The next ticket or rank, and how often jobs were done or failed, and failed.
    Totals {
        next: u64,
        processed: u64,
        failures: u64,
    },
}

/// A list of moves, and room for more.
pub type Moves = ListWithRoom<Move>;

impl Move {
    /// Whether a file can hold it: each number, text and list is within its bound. A move for which
    /// that isn't so fits nowhere.
    pub fn has_spelling(&self) -> bool
        ensures { IsTrue result ↔ HasSpelling self.now }
    {
        has_spelling(self)
    }
}
