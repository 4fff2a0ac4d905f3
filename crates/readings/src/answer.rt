use crate::spelling::spell;
use std::alloc::{AllocError, Global};

/// What is printed for one line of the script: the line, and then what came of it, each behind two
/// spaces. Of equal ones in a row the first is printed with their number.
#[derive(Drop)]
pub(crate) struct Answer {
    bytes: Vec<u8>,
    last: Vec<u8>,
    times: u64,
}

impl Answer {
    pub(crate) fn new(alloc: Global, line: &str) -> Result<Answer, AllocError> {
        let mut bytes = Vec::from_slice(alloc, line.as_bytes())?;
        bytes.extend_from_slice(b"\n")?;
        Ok(Answer {
            bytes,
            last: Vec::new(alloc),
            times: 0,
        })
    }

    /// Where the calls take their memory.
    pub(crate) fn alloc(&self) -> Global {
        *self.bytes.allocator()
    }

    /// Says some words.
    pub(crate) fn say(&mut self, words: &str) -> Result<(), AllocError> {
        let told = Vec::from_slice(self.alloc(), words.as_bytes())?;
        self.tell(told)
    }

    /// Says what a text is, and the text between angle brackets.
    pub(crate) fn say_text(&mut self, name: &str, text: &[u8]) -> Result<(), AllocError> {
        let mut told = Vec::from_slice(self.alloc(), name.as_bytes())?;
        told.extend_from_slice(b" <")?;
        spell(&mut told, text)?;
        told.extend_from_slice(b">")?;
        self.tell(told)
    }

    fn tell(&mut self, told: Vec<u8>) -> Result<(), AllocError> {
        if told.as_slice() != self.last.as_slice() {
            self.print_last()?;
            self.last = told;
        }
        self.times = self.times.saturating_add(1);
        Ok(())
    }

    /// Prints what was told last.
    fn print_last(&mut self) -> Result<(), AllocError> {
        let times = self.times;
        if times == 0 {
            return Ok(());
        }
        self.bytes.extend_from_slice(b"  ")?;
        self.bytes.extend_from_slice(&self.last)?;
        if times > 1 {
            let count = format!(in self.alloc(); " ({times} times)")?;
            self.bytes.extend_from_slice(count.as_bytes())?;
        }
        self.times = 0;
        self.bytes.extend_from_slice(b"\n")
    }

    /// All that is printed.
    pub(crate) fn whole(&mut self) -> Result<&[u8], AllocError> {
        self.print_last()?;
        Ok(&self.bytes)
    }
}
