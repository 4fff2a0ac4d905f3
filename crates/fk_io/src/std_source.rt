ghost use Rattle.std.specs.Prelude.{◌≡◌, ◌≤◌, None, length, IfOk};

use crate::{Failed, PIECE_MAX, Source, raised};
use std::io::{ErrorKind, Read};
use std::marker::Model;

/// The standard input. It tells nothing of its bytes, and is seen as its count of faults.
pub struct StdSource<R: Input> {
    reader: R::Reader,
    faults: u64,
}

impl<R: Input> Model for StdSource<R> {
    ghost use Rattle.std.specs.Prelude.{ℕ, ◌≤◌};
    ghost use Rattle.fk_io.specs.Faults.{last_count};

    ghost Value = { ℕ };

    ghost view = { λ s. s.faults };

    ghost invariant = { λ s. s.faults ≤ last_count };
}

impl<R: Input> Drop for StdSource<R> {
    fn drop(self) {
        let StdSource {
            reader: _,
            faults: _,
        } = self;
    }
}

impl<R: Input> StdSource<R> {
    /// The standard input, of which no read has failed yet.
    pub fn new(rt: &R) -> StdSource<R>
        ensures { result ≡ 0 }
    {
        StdSource {
            reader: rt.reader(),
            faults: 0,
        }
    }
}

/// One read, made again where a signal cut it short.
fn read_some<R: Read>(reader: &mut R, into: &mut [u8]) -> Result<usize, Failed>
    ensures { IfOk result (λ n. n ≤ length into.new) }
{
    for _ in 0..u64::MAX {
        match reader.read(into) {
            Ok(n) => return Ok(n),
            Err(error) => {
                if error.kind() != ErrorKind::Interrupted {
                    return Err(Failed);
                }
            }
        }
    }
    Err(Failed)
}

impl<R: Input> Source for StdSource<R> {
    ghost supply = { λ s. record { left = None; last = None; faults = s } };

    fn take(&mut self, into: &mut [u8]) -> Result<usize, Failed> {
        // A read may leave anything behind the bytes that it gives, so they are read aside.
        let mut piece = [0; PIECE_MAX];
        let room = into.len().min(PIECE_MAX);
        match read_some(&mut self.reader, &mut piece[..room]) {
            Ok(n) => {
                into[..n].copy_from_slice(&piece[..n]);
                Ok(n)
            }
            Err(failed) => {
                self.faults = raised(self.faults);
                Err(failed)
            }
        }
    }
}
