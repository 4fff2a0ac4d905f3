use crate::escape::push_unescaped;
use crate::files::Files;
use crate::look::{Look, look_of};
use crate::numbers::{lengths, times};
use fk_cases::{Failing, ScriptFault, file_of, numbers};
use std::alloc::{AllocError, Global};

/// The moment that a clock tells unless a run says others: 2023-11-14T22:13:20Z.
const MOMENT: u64 = 1_700_000_000_000;

/// A look-up, and how the script says it.
#[derive(Drop)]
pub struct Asked<'a> {
    pub text: &'a str,
    pub look: Look,
}

/// One connection, and what is looked up behind it.
#[derive(Drop)]
pub struct Run<'a> {
    /// What it is served on.
    pub files: Files,
    /// The calls of the disks that fail.
    pub failing: Failing,
    /// The words of the command line.
    pub words: Vec<&'a str>,
    /// What the clock tells, in milliseconds since 1970-01-01T00:00:00Z.
    pub moments: Vec<u64>,
    /// What the dice tell.
    pub dice: Vec<u64>,
    /// The bytes that are sent.
    pub input: Vec<u8>,
    /// The lengths of the pieces in which they come.
    pub cuts: Vec<usize>,
    /// The reads that fail, counted from 0.
    pub failing_reads: Vec<u64>,
    /// The writes that fail, counted from 0.
    pub failing_writes: Vec<u64>,
    /// The most bytes that a write takes.
    pub width: usize,
    pub looks: Vec<Asked<'a>>,
}

impl<'a> Run<'a> {
    /// A connection on which nothing is sent, over blank files.
    pub fn new(alloc: Global) -> Result<Run<'a>, AllocError> {
        Ok(Run {
            words: vec![in alloc; "pipe"]?,
            moments: vec![in alloc; MOMENT]?,
            dice: vec![in alloc; 0]?,
            files: Files::blank(alloc),
            failing: Failing::none(alloc),
            input: Vec::new(alloc),
            cuts: Vec::new(alloc),
            failing_reads: Vec::new(alloc),
            failing_writes: Vec::new(alloc),
            width: usize::MAX,
            looks: Vec::new(alloc),
        })
    }

    /// Takes one line of a script, whose first word is the directive.
    pub fn take_line(
        &mut self,
        alloc: Global,
        directive: &str,
        rest: &'a str,
    ) -> Result<(), ScriptFault> {
        match directive {
            "words" => self.words = rest.split_ascii_whitespace().collect(alloc)?,
            "moments" => self.moments = numbers(alloc, rest)?,
            "dice" => self.dice = numbers(alloc, rest)?,
            "line" => {
                push_unescaped(&mut self.input, rest)?;
                self.input.extend_from_slice(b"\r\n")?;
            }
            "send" => push_unescaped(&mut self.input, rest)?,
            "repeat" => self.repeat(alloc, rest)?,
            "cuts" => self.cuts = lengths(alloc, rest)?,
            "failing-reads" => self.failing_reads = numbers(alloc, rest)?,
            "failing-writes" => self.failing_writes = numbers(alloc, rest)?,
            "width" => self.width = times(rest)?,
            "show" => self.looks.push(Asked {
                text: rest,
                look: look_of(alloc, rest)?,
            })?,
            _ => self.take_file_line(alloc, directive, rest)?,
        }
        Ok(())
    }

    /// Takes a line on a file, whose name is the second word.
    fn take_file_line(
        &mut self,
        alloc: Global,
        directive: &str,
        rest: &str,
    ) -> Result<(), ScriptFault> {
        let (word, rest) = rest.split_once(' ').unwrap_or((rest, ""));
        match directive {
            "failing-disk" => self.failing.set(file_of(word)?, numbers(alloc, rest)?),
            "file" | "cut" | "zero" | "byte" => {
                self.files.edit(file_of(word)?, directive, rest)?;
            }
            _ => return Err(ScriptFault::NoDirective),
        }
        Ok(())
    }

    /// Sends the bytes behind a number so many times.
    fn repeat(&mut self, alloc: Global, rest: &str) -> Result<(), ScriptFault> {
        let (count, text) = rest.split_once(' ').ok_or(ScriptFault::NoNumber)?;
        let mut bytes = Vec::new(alloc);
        push_unescaped(&mut bytes, text)?;
        for _ in 0..times(count)? {
            self.input.extend_from_slice(&bytes)?;
        }
        Ok(())
    }
}
