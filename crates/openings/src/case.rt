use crate::look::{Asked, look_of};
use crate::step::Step;
use fk_cases::{Failing, ScriptFault, edit, file_of, numbers};
use fk_journal::File;
use std::alloc::{AllocError, Global};

/// The moment that a clock tells unless a case says others: 2023-11-14T22:13:20Z.
const MOMENT: u64 = 1_700_000_000_000;

/// A store that is opened on two files, its turns, and what is looked at behind them.
#[derive(Drop)]
pub struct Case<'a> {
    /// The bytes of the files at the start.
    pub a: Vec<u8>,
    pub b: Vec<u8>,
    /// The calls behind the opening that fail.
    pub failing: Failing,
    /// What the clock tells, in milliseconds since 1970-01-01T00:00:00Z.
    pub moments: Vec<u64>,
    /// What the dice tell.
    pub dice: Vec<u64>,
    pub steps: Vec<Step<'a>>,
    pub looks: Vec<Asked<'a>>,
}

impl<'a> Case<'a> {
    /// A case on files of these bytes.
    pub fn over(alloc: Global, a: &[u8], b: &[u8]) -> Result<Case<'a>, AllocError> {
        Ok(Case {
            a: Vec::from_slice(alloc, a)?,
            b: Vec::from_slice(alloc, b)?,
            failing: Failing::none(alloc),
            moments: vec![in alloc; MOMENT]?,
            dice: vec![in alloc; 0]?,
            steps: Vec::new(alloc),
            looks: Vec::new(alloc),
        })
    }

    /// Takes one line of a script, whose first word is the directive.
    pub fn take_line(
        &mut self,
        alloc: Global,
        directive: &str,
        rest: &'a str,
    ) -> Result<(), ScriptFault> {
        match directive {
            "moments" => self.moments = numbers(alloc, rest)?,
            "dice" => self.dice = numbers(alloc, rest)?,
            "hello" => self.steps.push(Step::Hello(rest))?,
            "line" => self.steps.push(Step::Line(rest))?,
            "tick" => self.steps.push(Step::Tick)?,
            "show" => self.looks.push(Asked {
                text: rest,
                look: look_of(rest)?,
            })?,
            _ => self.take_file_line(alloc, directive, rest)?,
        }
        Ok(())
    }

    /// Takes a line on a file, whose name is the second word.
    fn take_file_line(
        &mut self,
        alloc: Global,
        directive: &str,
        rest: &str,
    ) -> Result<(), ScriptFault> {
        let (word, rest) = rest.split_once(' ').unwrap_or((rest, ""));
        let file = file_of(word)?;
        if directive == "failing" {
            self.failing.set(file, numbers(alloc, rest)?);
            return Ok(());
        }
        match file {
            File::A => edit(&mut self.a, directive, rest),
            File::B => edit(&mut self.b, directive, rest),
        }
    }
}
