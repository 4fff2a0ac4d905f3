use crate::fault::Fault;
use std::alloc::Global;

/// The most bytes that a script's text may stand for.
const TEXT_MAX: usize = 16_777_216;

/// What a script's text is in the middle of.
#[derive(Clone, Copy)]
enum State {
    /// Bytes that stand for themselves.
    Plain,
    /// Behind a backslash.
    Escape,
    /// Behind `\x`.
    High,
    /// Behind `\x` and the first of its digits.
    Low(u8),
    /// Behind `\{` and a number's digits.
    Times(usize),
}

/// A piece that stands so many times.
#[derive(Drop)]
struct Run {
    times: usize,
    piece: Vec<u8>,
}

/// Makes bytes out of a script's text. A backslash begins `\\`, `\r`, `\n`, `\t`, `\xHH`, and
/// `\{COUNT*PIECE}`, which is the piece so many times. Each other byte stands for itself, but a
/// brace that ends a piece.
#[derive(Drop)]
struct Decoder {
    text: Vec<u8>,
    run: Option<Run>,
    state: State,
}

impl Decoder {
    fn new(alloc: Global) -> Decoder {
        Decoder {
            text: Vec::new(alloc),
            run: None,
            state: State::Plain,
        }
    }

    /// Takes the next byte of the script's text.
    fn take(&mut self, byte: u8) -> Result<(), Fault> {
        match self.state {
            State::Plain => self.take_plain(byte),
            State::Escape => self.take_escaped(byte),
            State::High => {
                self.state = State::Low(digit_of(byte)?);
                Ok(())
            }
            State::Low(high) => self.put((high << 4) | digit_of(byte)?),
            State::Times(times) => self.take_times(times, byte),
        }
    }

    fn take_plain(&mut self, byte: u8) -> Result<(), Fault> {
        match (byte, self.run.take()) {
            (b'\\', run) => {
                self.run = run;
                self.state = State::Escape;
                Ok(())
            }
            (b'}', Some(run)) => self.repeat(&run),
            (_, run) => {
                self.run = run;
                self.put(byte)
            }
        }
    }

    fn take_escaped(&mut self, byte: u8) -> Result<(), Fault> {
        match byte {
            b'\\' => self.put(b'\\'),
            b'r' => self.put(b'\r'),
            b'n' => self.put(b'\n'),
            b't' => self.put(b'\t'),
            b'x' => {
                self.state = State::High;
                Ok(())
            }
            b'{' if self.run.is_none() => {
                self.state = State::Times(0);
                Ok(())
            }
            _ => Err(Fault::BadLine),
        }
    }

    /// A digit of the number of times, or the asterisk behind it.
    fn take_times(&mut self, times: usize, byte: u8) -> Result<(), Fault> {
        if byte == b'*' {
            self.run = Some(Run {
                times,
                piece: Vec::new(*self.text.allocator()),
            });
            self.state = State::Plain;
            return Ok(());
        }
        if !byte.is_ascii_digit() || times > TEXT_MAX {
            return Err(Fault::BadLine);
        }
        self.state = State::Times(times * 10 + (byte - b'0') as usize);
        Ok(())
    }

    /// Adds a byte to what is being made.
    fn put(&mut self, byte: u8) -> Result<(), Fault> {
        self.state = State::Plain;
        match &mut self.run {
            Some(run) => run.piece.push(byte)?,
            None => self.text.push(byte)?,
        }
        Ok(())
    }

    /// Adds a piece as often as it stands.
    fn repeat(&mut self, run: &Run) -> Result<(), Fault> {
        for _ in 0..run.times {
            if self.text.len() > TEXT_MAX {
                return Err(Fault::BadLine);
            }
            self.text.extend_from_slice(&run.piece)?;
        }
        Ok(())
    }

    /// The bytes, where nothing is begun and not ended.
    fn whole(self) -> Result<Vec<u8>, Fault> {
        match (self.state, self.run) {
            (State::Plain, None) => Ok(self.text),
            _ => Err(Fault::BadLine),
        }
    }
}

/// The bytes that a script's text stands for.
pub(crate) fn decoded(alloc: Global, text: &str) -> Result<Vec<u8>, Fault> {
    let mut decoder = Decoder::new(alloc);
    for byte in text.as_bytes() {
        decoder.take(*byte)?;
    }
    decoder.whole()
}

/// The value of a hexadecimal digit.
fn digit_of(byte: u8) -> Result<u8, Fault> {
    match byte {
        b'0'..=b'9' => Ok(byte - b'0'),
        b'a'..=b'f' => Ok(byte - b'a' + 10),
        _ => Err(Fault::BadLine),
    }
}
