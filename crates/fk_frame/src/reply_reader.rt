ghost use Rattle.std.specs.Prelude.{◌≡◌, ◌+◌, ◌<◌, ◌≤◌, ◌++◌, [], drop, length, OnErr, OnOk};
ghost use Rattle.std.specs.List.{position, position_or_len};
ghost use Rattle.fk_frame.specs.Fronts.{is_break};
ghost use Rattle.fk_frame.specs.Streams.{Gives};

use crate::front::first_reply;
use crate::front_cut::give_up_first;
use crate::line_reader::bytes_from;
use crate::reply::Reply;
use crate::reply_fault::ReplyFault;
use std::alloc::{AllocError, Global};
use std::marker::Model;

/// Reads the replies of a stream that comes in any pieces.
///
/// Bytes in front of `from` were given out, and those from there to `scanned` hold no CR and no LF,
/// so no byte of a line is looked at twice, and a bulk's bytes are looked at once all of them are
/// there. What was given out is cut off when at least half of the buffer is, and what a long reply
/// took is given back.
#[derive(Drop)]
pub struct ReplyReader {
    buffer: Vec<u8>,
    from: usize,
    scanned: usize,
}

impl Model for ReplyReader {
    ghost use Rattle.std.specs.Prelude.{ℕ, List, drop};
    ghost use Rattle.fk_frame.specs.Fronts.{IsSearched};

    ghost Value = { List ℕ };

    ghost view = { λ r. drop r.from r.buffer.items };

    ghost invariant = { λ r. IsSearched r.buffer.items r.from r.scanned };
}

impl ReplyReader {
    /// A reader that was fed nothing. It takes no memory.
    pub fn new(alloc: Global) -> ReplyReader
        ensures { result ≡ [] }
    {
        ReplyReader {
            buffer: Vec::new(alloc),
            from: 0,
            scanned: 0,
        }
    }

    /// Takes the next bytes of the stream, or leaves the reader as it is where there is no room for
    /// them.
    pub fn feed(&mut self, piece: &[u8]) -> Result<(), AllocError>
        ensures ok { OnOk result (self.new ≡ self.old ++ piece.now) }
        ensures err { OnErr result (self.new ≡ self.old) }
        ensures wanted { OnErr result (0 < length piece.now) }
    {
        self.give_up_front();
        self.buffer.extend_from_slice(piece)
    }

    /// Gives out the next reply, or None where it isn't there whole.
    pub fn next(&mut self) -> Result<Option<Reply>, ReplyFault>
        ensures { Gives self.old result self.new }
    {
        self.scanned = line_end(&self.buffer, self.scanned);
        let alloc = *self.buffer.allocator();
        let stream = bytes_from(&self.buffer, self.from);
        match first_reply(alloc, stream, self.scanned - self.from)? {
            Some(first) => {
                self.from = self.buffer.len() - first.left;
                self.scanned = self.from;
                Ok(Some(first.reply))
            }
            None => {
                self.give_up_front();
                Ok(None)
            }
        }
    }

    // Cuts off what was given out, when that is at least as long as what is left. So each byte that
    // is moved pays for one that was given out, and the moves take no longer than the stream.
    fn give_up_front(&mut self)
        ensures { self.new ≡ self.old }
    {
        if self.from > 0 && self.from >= self.buffer.len() - self.from {
            give_up_first(&mut self.buffer, self.from);
            self.scanned -= self.from;
            self.from = 0;
        }
    }
}

// The place of the first CR or LF.
fn break_at(bytes: &[u8]) -> Option<usize>
    ensures { result ≡ position is_break bytes.now }
{
    bytes
        .iter()
        .position(|byte| *byte == b'\r' || *byte == b'\n')
}

// The place of the first CR or LF from a place on, or the length where there is none.
#[tactic(auto, using(crate::proofs::Places::unwrap_or_position))]
fn line_end(bytes: &[u8], start: usize) -> usize
    requires { start ≤ length bytes.now }
    ensures place { result ≡ start + position_or_len is_break (drop start bytes.now) }
    ensures within { result ≤ length bytes.now }
{
    let rest = bytes_from(bytes, start);
    start + break_at(rest).unwrap_or(rest.len())
}
