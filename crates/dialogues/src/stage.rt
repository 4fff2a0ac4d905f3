use crate::files::{Begun, end_piece, make_in};
use crate::left::Left;
use crate::look::push_found;
use crate::run::Run;
use crate::serving::{Outcome, serve};
use crate::shown::push_written;
use crate::steps::move_of;
use fk_cases::{ScriptFault, Stop, choice_of};
use fk_disk::Choice;
use fk_journal::{Damage, File};
use std::alloc::{AllocError, Global};
use std::fmt::Write;

/// Where a script is played: the run that is being read, the piece of its file that was begun, what the run before it
/// left of its files, and what came of all before.
#[derive(Drop)]
pub struct Stage<'a> {
    alloc: Global,
    run: Option<Run<'a>>,
    begun: Option<Begun>,
    left: Option<Left>,
    transcript: String,
}

impl<'a> Stage<'a> {
    /// A stage on which nothing was played.
    pub fn new(alloc: Global) -> Stage<'a> {
        Stage {
            alloc,
            run: None,
            begun: None,
            left: None,
            transcript: String::new(alloc),
        }
    }

    /// What came of the runs.
    pub fn transcript(&self) -> &str {
        self.transcript.as_str()
    }

    /// Plays a script, up to the first line that can't be read or done.
    pub fn play(&mut self, script: &'a str) -> Result<(), Stop> {
        let mut number = 1;
        for line in script.lines() {
            if let Err(fault) = self.take_line(line) {
                return Err(Stop {
                    line: number,
                    fault,
                });
            }
            number = number.saturating_add(1);
        }
        self.finish().map_err(|fault| Stop {
            line: number,
            fault,
        })
    }

    /// Takes one line. Those that are empty or begin with `#` say nothing.
    fn take_line(&mut self, line: &'a str) -> Result<(), ScriptFault> {
        if line.is_empty() || line.starts_with('#') {
            return Ok(());
        }
        let (directive, rest) = line.split_once(' ').unwrap_or((line, ""));
        match directive {
            "run" => {
                self.finish()?;
                self.begin(line)
            }
            "then" => {
                self.finish()?;
                self.begin(line)?;
                self.lay(Choice::New, Choice::New)
            }
            "after" => {
                self.finish()?;
                self.begin(line)?;
                self.lay_after(rest)
            }
            "move" => self.make(rest),
            _ => self.take_run_line(directive, rest),
        }
    }

    /// Begins a run over blank files, whose name is in this line.
    fn begin(&mut self, line: &str) -> Result<(), ScriptFault> {
        if !self.transcript.is_empty() {
            self.transcript.push_str("\n")?;
        }
        writeln!(self.transcript, "{line}")?;
        self.run = Some(Run::new(self.alloc)?);
        Ok(())
    }

    /// Lays out what a crash may have left of the run before, by the choices of the first two words.
    fn lay_after(&mut self, rest: &str) -> Result<(), ScriptFault> {
        let (a, rest) = rest.split_once(' ').ok_or(ScriptFault::NoImage)?;
        let (b, _) = rest.split_once(' ').unwrap_or((rest, ""));
        self.lay(choice_of(a)?, choice_of(b)?)
    }

    /// Lays out the files that the run before left, by a choice for each.
    fn lay(&mut self, a: Choice, b: Choice) -> Result<(), ScriptFault> {
        let Some(run) = &mut self.run else {
            return Err(ScriptFault::NoCase);
        };
        match &self.left {
            Some(left) => Ok(left.lay(self.alloc, &mut run.files, a, b)?),
            None => Err(ScriptFault::NoImage),
        }
    }

    /// Makes a move before the connection is served.
    fn make(&mut self, text: &str) -> Result<(), ScriptFault> {
        let step = move_of(self.alloc, text)?;
        match &mut self.run {
            Some(run) => make_in(self.alloc, &mut run.files, &mut self.begun, step),
            None => Err(ScriptFault::NoCase),
        }
    }

    /// Takes a line of the run that is read, behind the moves that were made before.
    fn take_run_line(&mut self, directive: &str, rest: &'a str) -> Result<(), ScriptFault> {
        match &mut self.run {
            Some(run) => {
                if is_edit(directive) {
                    end_piece(self.alloc, &mut run.files, &mut self.begun)?;
                }
                run.take_line(self.alloc, directive, rest)
            }
            None => Err(ScriptFault::NoCase),
        }
    }

    /// Serves the run that was read, if there is one, and writes down what came of it.
    fn finish(&mut self) -> Result<(), ScriptFault> {
        if let Some(run) = &mut self.run {
            end_piece(self.alloc, &mut run.files, &mut self.begun)?;
            self.left = Some(play_out(self.alloc, &mut self.transcript, run)?);
        }
        self.run = None;
        Ok(())
    }
}

/// Whether a directive edits the bytes of a file.
fn is_edit(directive: &str) -> bool {
    matches!(directive, "file" | "cut" | "zero" | "byte")
}

/// Serves a run, writes down what came of it, and answers what it left.
fn play_out(alloc: Global, transcript: &mut String, run: &Run) -> Result<Left, ScriptFault> {
    let outcome = serve(alloc, run)?;
    write_down(alloc, transcript, run, &outcome)?;
    Ok(outcome.left)
}

/// Writes down what came of a run.
fn write_down(
    alloc: Global,
    transcript: &mut String,
    run: &Run,
    outcome: &Outcome,
) -> Result<(), ScriptFault> {
    push_written(transcript, &outcome.written)?;
    push_status(transcript, outcome)?;
    for asked in &run.looks {
        let text = asked.text;
        write!(transcript, "{text}:")?;
        push_found(alloc, transcript, &asked.look, outcome)?;
        transcript.push_str("\n")?;
    }
    Ok(())
}

/// Adds the status of a connection, and the damage of its files where there is one.
fn push_status(into: &mut String, outcome: &Outcome) -> Result<(), AllocError> {
    let status = outcome.status;
    write!(into, "status {status}")?;
    if let Some(damage) = outcome.damage {
        push_damage(into, damage)?;
    }
    into.push_str("\n")
}

/// Adds where a file is damaged.
fn push_damage(into: &mut String, damage: Damage) -> Result<(), AllocError> {
    let name = match damage.file {
        File::A => "A",
        File::B => "B",
    };
    let at = damage.at;
    write!(into, ", damaged {name} at {at}")
}
