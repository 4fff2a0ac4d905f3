ghost use Rattle.std.specs.Prelude.{◌≡◌};
ghost use Rattle.fk_model.specs.Orders.{rank_of};

use fk_json::Text;

/// Where a row stands: in exactly one of five sets. Moments are in milliseconds since
/// 1970-01-01T00:00:00Z.
#[derive(Drop)]
pub enum Place {
    /// It waits in its job's queue. The row of the least rank is fetched first.
    Queued { rank: u64 },
    /// It is put into its queue at this moment.
    Scheduled { at: u64 },
    /// It failed, and is put into its queue again at this moment.
    Retry { at: u64 },
    /// It is dead: it failed for good or was killed, and is forgotten at this moment.
    Dead { until: u64 },
    /// A worker has it, which said that its name is `wid` (none for a producer), from one moment to
    /// another.
    Working { wid: Text, since: u64, until: u64 },
}

impl Place {
    /// The rank of a row that waits in its queue.
    pub fn rank(&self) -> Option<u64>
        ensures { result ≡ rank_of self.now }
    {
        match self {
            Place::Queued { rank } => Some(*rank),
            _ => None,
        }
    }
}
