ghost use Rattle.std.specs.Prelude.{◌≡◌, Some, refl};

use crate::{Sink, Source};

/// One object that is a source and a sink, as a connection is. A read leaves what it holds and its
/// count of failed writes, and a write leaves what is to come and its count of failed reads.
pub trait Duplex: Source + Sink {
    /// The side that a read leaves is the sink.
    ghost reads_apart: { (wire : Self) → Self.sink_side wire ≡ Self.written wire };

    /// The side that a write leaves is the source.
    ghost writes_apart: { (wire : Self) → Self.source_side wire ≡ Self.supply wire };
}

#[cfg(test)]
mod tests {
    use super::*;
    use crate::{ByteSink, ByteSource, Failed};
    use std::test::Fail;

    /// A connection in memory: what the other side says, and what it is told.
    #[derive(Drop)]
    struct Wire {
        from: ByteSource,
        to: ByteSink,
    }

    impl Source for Wire {
        ghost supply = { λ wire. record {
          left = Some wire.from.left;
          last = Some wire.from.last;
          faults = wire.from.faults;
        } };

        ghost sink_side = { λ wire. record { held = Some wire.to.held; faults = wire.to.faults } };

        fn take(&mut self, into: &mut [u8]) -> Result<usize, Failed> {
            self.from.take(into)
        }
    }

    impl Sink for Wire {
        ghost written = { λ wire. record { held = Some wire.to.held; faults = wire.to.faults } };

        ghost source_side = { λ wire. record {
          left = Some wire.from.left;
          last = Some wire.from.last;
          faults = wire.from.faults;
        } };

        fn put(&mut self, piece: &[u8]) -> Result<usize, Failed> {
            self.to.put(piece)
        }
    }

    impl Duplex for Wire {
        ghost reads_apart = { λ _. refl };

        ghost writes_apart = { λ _. refl };
    }

    /// A read, of which a session may say what it leaves.
    fn hears<W: Duplex>(wire: &mut W, into: &mut [u8]) -> Result<usize, Failed>
        ensures { W.written wire.new ≡ W.written wire.old }
    {
        wire.take(into)
    }

    /// A write, of which a session may say what it leaves.
    fn says<W: Duplex>(wire: &mut W, piece: &[u8]) -> Result<usize, Failed>
        ensures { W.supply wire.new ≡ W.supply wire.old }
    {
        wire.put(piece)
    }

    #[test]
    fn a_wire_hears_and_says(rt: HostRuntime) -> Result<(), Fail> {
        let mut wire = Wire {
            from: ByteSource::new(rt.alloc(), b"ping", &[], &[])?,
            to: ByteSink::new(rt.alloc(), &[])?,
        };
        let mut buffer = [0; 8];
        assert_eq!(rt; hears(&mut wire, &mut buffer), Ok(4));
        assert_eq!(rt; says(&mut wire, b"pong"), Ok(4));
        assert_eq!(rt; hears(&mut wire, &mut buffer), Ok(0));
        assert_eq!(rt; wire.to.bytes(), b"pong".as_slice());
        Ok(())
    }
}
