ghost use Rattle.std.specs.Prelude.{◌≡◌, ◌<◌, ◌≤◌, ◌+◌, ◌++◌, [], length, drop, IfOk, OnErr, OnOk};
ghost use Rattle.std.specs.List.{position, position_or_len};
ghost use Rattle.fk_frame.specs.Bytes.{is_line_feed};
ghost use Rattle.fk_frame.specs.Lines.{is_too_long, without_return};
ghost use Rattle.fk_frame.specs.Reading.{HasLine, Reads};

use crate::front_cut::give_up_first;
use fk_json::Text;
use std::alloc::{AllocError, Global};
use std::marker::Model;

/// The most bytes that a line may have before its LF, with the CR.
pub const LINE_MAX: usize = 4_194_304;

/// What a reader of lines has next.
#[derive(Drop)]
pub enum Line {
    /// A whole line, without its LF and without the CR before that.
    Whole(Text),
    /// No line ends in what was fed, and what there is of one fits.
    Need,
    /// The next line has more than `LINE_MAX` bytes. Nothing comes out from then on.
    TooLong,
}

/// Cuts a stream that comes in any pieces into its lines.
///
/// Bytes in front of `from` were given out, and those from there to `scanned` hold no LF, so no
/// byte is looked at twice. What was given out is cut off when it is at least as long as what is left,
/// and the memory of a long line is given back with it.
#[derive(Drop)]
pub struct LineReader {
    buffer: Vec<u8>,
    from: usize,
    scanned: usize,
}

impl Model for LineReader {
    ghost use Rattle.std.specs.Prelude.{ℕ, List, drop};
    ghost use Rattle.fk_frame.specs.Scanned.{IsScanned};

    ghost Value = { List ℕ };

    ghost view = { λ r. drop r.from r.buffer.items };

    ghost invariant = { λ r. IsScanned r.buffer.items r.from r.scanned };
}

impl LineReader {
    /// A reader that was fed nothing. It takes no memory.
    pub fn new(alloc: Global) -> LineReader
        ensures { result ≡ [] }
    {
        LineReader {
            buffer: Vec::new(alloc),
            from: 0,
            scanned: 0,
        }
    }

    /// Takes the next bytes of the stream, or leaves the reader as it is where there is no room for
    /// them.
    pub fn feed(&mut self, piece: &[u8]) -> Result<(), AllocError>
        ensures ok { OnOk result (self.new ≡ self.old ++ piece.now) }
        ensures err { OnErr result (self.new ≡ self.old) }
        ensures wanted { OnErr result (0 < length piece.now) }
    {
        self.give_up_front();
        self.buffer.extend_from_slice(piece)
    }

    /// Gives out the next line, or leaves the reader as it is where it has a whole line, and there is
    /// no memory for that.
    pub fn next(&mut self) -> Result<Line, AllocError>
        ensures ok { IfOk result (λ line. Reads self.old line self.new) }
        ensures err { OnErr result (self.new ≡ self.old) }
        ensures wanted { OnErr result (HasLine self.old) }
    {
        let end = line_end(&self.buffer, self.scanned);
        let line = &self.buffer[self.from..end];
        if is_too_long(line) {
            self.scanned = end;
            return Ok(Line::TooLong);
        }
        if end == self.buffer.len() {
            self.scanned = end;
            self.give_up_front();
            return Ok(Line::Need);
        }
        let text = Text::copy(*self.buffer.allocator(), line_before(line))?;
        self.from = end + 1;
        self.scanned = end + 1;
        self.give_up_front();
        Ok(Line::Whole(text))
    }

    // Cuts off what was given out, when that is at least as long as what is left. So each byte that
    // is moved pays for one that was given out, and the moves take no longer than the stream.
    fn give_up_front(&mut self)
        ensures { self.new ≡ self.old }
    {
        if self.from > 0 && self.from >= self.buffer.len() - self.from {
            give_up_first(&mut self.buffer, self.from);
            self.scanned -= self.from;
            self.from = 0;
        }
    }
}

// The place of the first LF.
fn line_feed_at(bytes: &[u8]) -> Option<usize>
    ensures { result ≡ position is_line_feed bytes.now }
{
    bytes.iter().position(|byte| *byte == b'\n')
}

// The place of the first LF from a place on, or the length where there is none.
#[tactic(auto, using(crate::proofs::Places::unwrap_or_position))]
fn line_end(bytes: &[u8], start: usize) -> usize
    requires { start ≤ length bytes.now }
    ensures place { result ≡ start + position_or_len is_line_feed (drop start bytes.now) }
    ensures within { result ≤ length bytes.now }
{
    let rest = bytes_from(bytes, start);
    start + line_feed_at(rest).unwrap_or(rest.len())
}

// The bytes from a place on.
#[tactic(auto, using(std::proofs::lemmas::List::take_rest))]
pub(crate) fn bytes_from(bytes: &[u8], start: usize) -> &[u8]
    requires { start ≤ length bytes.now }
    ensures { result.now ≡ drop start bytes.now }
{
    &bytes[start..]
}

// Whether what stands before an LF, or before the end, is more than a line may have.
fn is_too_long(line: &[u8]) -> bool
    ensures { result ≡ is_too_long line.now }
{
    line.len() > LINE_MAX
}

// What stands before an LF, without the CR at its end.
fn line_before(bytes: &[u8]) -> &[u8]
    ensures { result.now ≡ without_return bytes.now }
{
    match bytes {
        [line @ .., b'\r'] => line,
        _ => bytes,
    }
}
