ghost use Rattle.std.specs.Prelude.{◌≡◌, ◌≢◌, ◌<◌, [], Some, All, IfOk};
ghost use Rattle.fk_time.specs.Moments.{greatest};

use crate::Clock;
use crate::telling::Telling;
use std::alloc::{AllocError, Global};
use std::marker::Model;

/// A clock in memory. It is seen as the moments that it still tells.
#[derive(Drop)]
pub struct ListClock {
    told: Telling,
}

impl Model for ListClock {
    ghost use Rattle.std.specs.Prelude.{◌<◌, ℕ, List, All};
    ghost use Rattle.fk_time.specs.Moments.{greatest};

    ghost Value = { List ℕ };

    ghost view = { λ s. s.told };

    ghost invariant = { λ s. All (λ moment. moment < greatest) s.told };
}

impl ListClock {
    /// A clock that tells these moments, in milliseconds since 1970-01-01T00:00:00Z, and the last
    /// one for ever.
    pub fn new(alloc: Global, moments: &[u64]) -> Result<ListClock, AllocError>
        requires some { moments.now ≢ [] }
        requires below { All (λ moment. moment < greatest) moments.now }
        ensures { IfOk result (λ clock. clock ≡ moments.now) }
    {
        Ok(ListClock {
            told: Telling::new(alloc, moments)?,
        })
    }
}

impl Clock for ListClock {
    ghost moments = { λ s. Some s };

    fn now(&mut self) -> u64 {
        self.told.next()
    }
}
