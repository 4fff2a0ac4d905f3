//! Reads a script of dialogues from the standard input, serves each of its connections over two files
//! in memory, and prints what came of it.
#![tactic(auto)]

mod escape;
mod files;
mod left;
mod look;
mod making;
mod narrow_sink;
mod numbers;
mod opened;
mod pieces;
mod run;
mod serving;
mod shown;
mod stage;
mod steps;

use fk_cases::{ScriptFault, Stop, ended, script_of};
use stage::Stage;
use std::process::ExitCode;
use std::str;

fn main(rt: HostRuntime) -> ExitCode {
    let status = match script_of(&rt) {
        Ok(script) => play(&rt, &script),
        Err(status) => status,
    };
    ExitCode::from(status)
}

/// Plays a script, prints the transcript up to the line that can't be read, if there is one, and answers the exit
/// status.
fn play<R: Print + Eprint + AllocGlobal>(rt: &R, script: &[u8]) -> u8 {
    let mut stage = Stage::new(rt.alloc());
    let played = match str::from_utf8(script) {
        Ok(script) => stage.play(script),
        Err(_) => Err(Stop {
            line: 1,
            fault: ScriptFault::NoText,
        }),
    };
    ended(rt, "dialogues", stage.transcript(), played)
}
