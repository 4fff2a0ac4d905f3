ghost use Rattle.std.specs.Prelude.{◌≡◌, ◌≤◌, None, length, IfOk};

use crate::{Failed, Sink, raised};
use std::io::ErrorKind;
use std::marker::Model;

/// The standard output. Each write goes to the descriptor before it returns, so nothing waits to be
/// flushed. It tells nothing of its bytes, and is seen as its count of faults.
#[derive(Drop)]
pub struct StdSink<P: Print + Drop> {
    to: P,
    faults: u64,
}

impl<P: Print + Drop> Model for StdSink<P> {
    ghost use Rattle.std.specs.Prelude.{ℕ, ◌≤◌};
    ghost use Rattle.fk_io.specs.Faults.{last_count};

    ghost Value = { ℕ };

    ghost view = { λ s. s.faults };

    ghost invariant = { λ s. s.faults ≤ last_count };
}

impl<P: Print + Drop> StdSink<P> {
    /// The standard output, to which no write has failed yet.
    pub fn new(rt: P) -> StdSink<P>
        ensures { result ≡ 0 }
    {
        StdSink { to: rt, faults: 0 }
    }
}

/// One write, made again where a signal cut it short.
fn write_some<P: Print>(to: &P, piece: &[u8]) -> Result<usize, Failed>
    ensures { IfOk result (λ n. n ≤ length piece.now) }
{
    for _ in 0..u64::MAX {
        match to.write_some(piece) {
            Ok(n) => return Ok(n),
            Err(error) => {
                if error.kind() != ErrorKind::Interrupted {
                    return Err(Failed);
                }
            }
        }
    }
    Err(Failed)
}

impl<P: Print + Drop> Sink for StdSink<P> {
    ghost written = { λ s. record { held = None; faults = s } };

    fn put(&mut self, piece: &[u8]) -> Result<usize, Failed> {
        match write_some(&self.to, piece) {
            Ok(n) if n > 0 || piece.is_empty() => Ok(n),
            _ => {
                self.faults = raised(self.faults);
                Err(Failed)
            }
        }
    }
}
