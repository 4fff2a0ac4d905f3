ghost use Rattle.std.specs.Prelude.{◌≡◌, ◌≢◌, ◌≤◌, [], Ok, length, take, drop, IfOk, OnErr};
ghost use Rattle.fk_io.specs.Content.{Supply, Written, Took, WasGiven, IsAtEnd, nothing_written};
ghost use Rattle.fk_io.specs.Faults.{HasCause};

use crate::Failed;

/// The most bytes that one read asks for.
pub const PIECE_MAX: usize = 4_096;

/// Where bytes come from.
pub trait Source {
    /// The bytes to come and those of the last good read, where the source tells them, and how often
    /// a read has failed.
    ghost supply: { Self → Supply };

    /// What the same object tells as a sink. A read leaves that. An object that is a source alone
    /// holds nothing. `Duplex` ties it to the sink.
    ghost sink_side: { Self → Written } = { λ _. nothing_written };

    /// Reads the next bytes into the front of `into`, and answers how many, in bytes: at most the
    /// buffer's length. The bytes behind them stay. 0 for a buffer with room means the end of
    /// input. After a failure nothing was taken, and nothing is said of the buffer.
    fn take(&mut self, into: &mut [u8]) -> Result<usize, Failed>
        ensures count { IfOk result (λ n. n ≤ length into.new) }
        ensures taken { IfOk result (λ n.
            Took (supply self.old).left (take n into.new) (supply self.new).left) }
        ensures last { IfOk result (λ n.
            WasGiven (supply self.old).last (take n into.new) (supply self.new).last) }
        ensures rest { IfOk result (λ n. drop n into.new ≡ drop n into.old) }
        ensures end { result ≡ Ok 0 → into.old ≢ [] → IsAtEnd (supply self.old).left }
        ensures same { OnErr result ((supply self.new).left ≡ (supply self.old).left) }
        ensures again { OnErr result ((supply self.new).last ≡ (supply self.old).last) }
        ensures cause { HasCause (supply self.old).faults (supply self.new).faults result }
        ensures apart { sink_side self.new ≡ sink_side self.old };
}
