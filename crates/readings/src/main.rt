//! Reads a script of texts from the standard input and prints what the crates' public calls make of
//! each. The script's lines are described in docs/READINGS.md.
#![tactic(auto)]

mod answer;
mod case;
mod decoder;
mod digits;
mod fault;
mod json;
mod lines;
mod lists;
mod moments;
mod moves;
mod payloads;
mod pieces;
mod replies;
mod spelling;
mod streams;
mod words;

use answer::Answer;
use case::answer_case;
use fault::Fault;
use std::io::{self, Write};
use std::process::ExitCode;

/// The exit status for a script line that can't be read.
const BAD_LINE: u8 = 2;

/// The exit status for a failed read.
const FAILED_READ: u8 = 3;

/// The exit status for a failed write.
const FAILED_WRITE: u8 = 4;

/// The exit status for want of memory.
const NO_MEMORY: u8 = 8;

fn main(rt: HostRuntime) -> ExitCode {
    let status = match run(&rt) {
        Ok(()) => 0,
        Err(Fault::BadLine) => BAD_LINE,
        Err(Fault::FailedRead) => FAILED_READ,
        Err(Fault::FailedWrite) => FAILED_WRITE,
        Err(Fault::NoMemory) => NO_MEMORY,
    };
    ExitCode::from(status)
}

/// Answers each line of the script in turn, up to the first that can't be read.
fn run<R: Input + Print + Eprint + AllocGlobal>(rt: &R) -> Result<(), Fault> {
    let script = read_script(rt)?;
    for (place, line) in script.lines().enumerate() {
        if let Err(fault) = answer_line(rt, line) {
            if let Fault::BadLine = fault {
                let number = place.saturating_add(1);
                let _ = eprintln!(rt; "readings: line {number} can't be read");
            }
            return Err(fault);
        }
    }
    Ok(())
}

/// The whole standard input. One that isn't UTF-8 is a failed read.
fn read_script<R: Input + AllocGlobal>(rt: &R) -> Result<String, Fault> {
    match io::read_to_string(rt.alloc(), rt.reader()) {
        Ok(script) => Ok(script),
        Err(error) => match error.kind() {
            io::ErrorKind::OutOfMemory => Err(Fault::NoMemory),
            _ => Err(Fault::FailedRead),
        },
    }
}

/// Prints a line of the script and what came of it. Empty lines and comments say nothing.
fn answer_line<R: Print + AllocGlobal>(rt: &R, line: &str) -> Result<(), Fault> {
    if line.is_empty() || line.starts_with('#') {
        return Ok(());
    }
    let mut answer = Answer::new(rt.alloc(), line)?;
    answer_case(&mut answer, line)?;
    match io::writer(rt).write_all(answer.whole()?) {
        Ok(()) => Ok(()),
        Err(_) => Err(Fault::FailedWrite),
    }
}
