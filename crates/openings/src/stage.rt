use crate::answers::{push_answers, push_opening};
use crate::case::Case;
use crate::look::push_found;
use crate::played::{Played, play_own};
use fk_cases::{ScriptFault, Stop, choice_of};
use std::alloc::{AllocError, Global};
use std::fmt::Write;

/// Where a script is played: the case that is being read, what the one before it left, and what came of all before.
#[derive(Drop)]
pub struct Stage<'a> {
    alloc: Global,
    case: Option<Case<'a>>,
    left: Option<Played>,
    transcript: String,
}

impl<'a> Stage<'a> {
    /// A stage on which nothing was played.
    pub fn new(alloc: Global) -> Stage<'a> {
        Stage {
            alloc,
            case: None,
            left: None,
            transcript: String::new(alloc),
        }
    }

    /// What came of the cases.
    pub fn transcript(&self) -> &str {
        self.transcript.as_str()
    }

    /// Plays a script, up to the first line that can't be read or done.
    pub fn play(&mut self, script: &'a str) -> Result<(), Stop> {
        let mut number = 1;
        for line in script.lines() {
            if let Err(fault) = self.take_line(line) {
                return Err(Stop {
                    line: number,
                    fault,
                });
            }
            number = number.saturating_add(1);
        }
        self.finish().map_err(|fault| Stop {
            line: number,
            fault,
        })
    }

    /// Takes one line. Those that are empty or begin with `#` say nothing.
    fn take_line(&mut self, line: &'a str) -> Result<(), ScriptFault> {
        if line.is_empty() || line.starts_with('#') {
            return Ok(());
        }
        let (directive, rest) = line.split_once(' ').unwrap_or((line, ""));
        match directive {
            "run" => {
                self.finish()?;
                self.case = Some(Case::over(self.alloc, &[], &[])?);
                Ok(self.begin(line)?)
            }
            "after" => {
                self.finish()?;
                self.case = Some(self.case_after(rest)?);
                Ok(self.begin(line)?)
            }
            _ => match &mut self.case {
                Some(case) => case.take_line(self.alloc, directive, rest),
                None => Err(ScriptFault::NoCase),
            },
        }
    }

    /// A case on the images that the case before left, which the first two words choose.
    fn case_after(&self, rest: &str) -> Result<Case<'a>, ScriptFault> {
        let (a, rest) = rest.split_once(' ').ok_or(ScriptFault::NoImage)?;
        let (b, _) = rest.split_once(' ').unwrap_or((rest, ""));
        let left = self.left.as_ref().ok_or(ScriptFault::NoImage)?;
        let a = left.a.image(choice_of(a)?)?;
        let b = left.b.image(choice_of(b)?)?;
        Ok(Case::over(self.alloc, a.bytes(), b.bytes())?)
    }

    /// Begins the transcript of a case, whose name is in this line.
    fn begin(&mut self, line: &str) -> Result<(), AllocError> {
        if !self.transcript.is_empty() {
            self.transcript.push_str("\n")?;
        }
        writeln!(self.transcript, "{line}")
    }

    /// Plays the case that was read, if there is one, and writes down what came of it.
    fn finish(&mut self) -> Result<(), ScriptFault> {
        let Some(case) = self.case.take() else {
            return Ok(());
        };
        let played = play_own(self.alloc, &case)?;
        push_opening(&mut self.transcript, played.refused)?;
        self.transcript.push_str("\n")?;
        push_answers(&mut self.transcript, &played.answers)?;
        for asked in &case.looks {
            let text = asked.text;
            writeln!(self.transcript, "{text}")?;
            push_found(self.alloc, &mut self.transcript, asked.look, &case, &played)?;
        }
        self.left = Some(played);
        Ok(())
    }
}
