use std::alloc::{AllocError, Global};
use std::fmt::Write;

/// Lines of a transcript, of which equal ones in a row stand once, with their number.
#[derive(Drop)]
pub struct Rows {
    /// What stands in front of each line.
    indent: &'static str,
    lines: String,
    last: String,
    times: u64,
}

impl Rows {
    pub fn new(alloc: Global, indent: &'static str) -> Rows {
        Rows {
            indent,
            lines: String::new(alloc),
            last: String::new(alloc),
            times: 0,
        }
    }

    /// Adds a line.
    pub fn push(&mut self, line: String) -> Result<(), AllocError> {
        if line.as_str() != self.last.as_str() {
            self.end_line()?;
            self.last = line;
        }
        self.times = self.times.saturating_add(1);
        Ok(())
    }

    /// Writes the last line and its number.
    fn end_line(&mut self) -> Result<(), AllocError> {
        let times = self.times;
        if times == 0 {
            return Ok(());
        }
        self.lines.push_str(self.indent)?;
        self.lines.push_str(self.last.as_str())?;
        if times > 1 {
            write!(self.lines, " ({times} times)")?;
        }
        self.times = 0;
        self.lines.push_str("\n")
    }

    /// All lines.
    pub fn whole(&mut self) -> Result<&str, AllocError> {
        self.end_line()?;
        Ok(self.lines.as_str())
    }
}
