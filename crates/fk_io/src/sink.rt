ghost use Rattle.std.specs.Prelude.{◌≡◌, ◌≢◌, ◌≤◌, [], length, take, IfOk, OnErr};
ghost use Rattle.fk_io.specs.Content.{Supply, Written, Gained, no_supply};
ghost use Rattle.fk_io.specs.Faults.{HasCause};

use crate::Failed;

/// Where bytes go to.
pub trait Sink {
    /// The bytes that it holds, where the sink tells them, and how often a write has failed.
    ghost written: { Self → Written };

    /// What the same object tells as a source. A write leaves that. An object that is a sink alone
    /// has nothing left. `Duplex` ties it to the source.
    ghost source_side: { Self → Supply } = { λ _. no_supply };

    /// Writes the first bytes of `piece`, and answers how many: at most its length, and at least 1
    /// where the piece has bytes. A sink that takes nothing of such a piece has failed. After a
    /// failure nothing was written.
    fn put(&mut self, piece: &[u8]) -> Result<usize, Failed>
        ensures count { IfOk result (λ n. n ≤ length piece.now) }
        ensures some { piece.now ≢ [] → IfOk result (λ n. 1 ≤ n) }
        ensures gained { IfOk result (λ n.
            Gained (written self.old).held (take n piece.now) (written self.new).held) }
        ensures same { OnErr result ((written self.new).held ≡ (written self.old).held) }
        ensures cause { HasCause (written self.old).faults (written self.new).faults result }
        ensures apart { source_side self.new ≡ source_side self.old };
}
