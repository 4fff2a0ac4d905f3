ghost use Rattle.std.specs.Prelude.{Some};

use fk_io::{ByteSink, Failed, Sink};

/// A sink in memory that takes at most so many bytes at a time.
#[derive(Drop)]
pub struct NarrowSink {
    pub to: ByteSink,
    /// The most bytes that a write takes. 0 counts as 1.
    pub width: usize,
}

impl Sink for NarrowSink {
    ghost written = { λ sink. record { held = Some sink.to.held; faults = sink.to.faults } };

    fn put(&mut self, piece: &[u8]) -> Result<usize, Failed> {
        let most = piece.len().min(self.width.max(1));
        self.to.put(&piece[..most])
    }
}
