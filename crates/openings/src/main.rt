//! Reads a script from the standard input, opens stores on the files in memory that it tells, makes their turns, and
//! prints what came of each.
#![tactic(auto)]

mod answers;
mod case;
mod faults;
mod file_numbers;
mod images;
mod look;
mod played;
mod rows;
mod stage;
mod standing;
mod step;

use fk_cases::{ScriptFault, Stop, ended, script_of};
use stage::Stage;
use std::process::ExitCode;
use std::str;

fn main(rt: HostRuntime) -> ExitCode {
    let status = match script_of(&rt) {
        Ok(script) => play(&rt, &script),
        Err(status) => status,
    };
    ExitCode::from(status)
}

/// Plays a script, prints the transcript up to the line that can't be read, if there is one, and answers the exit
/// status.
fn play<R: Print + Eprint + AllocGlobal>(rt: &R, script: &[u8]) -> u8 {
    let mut stage = Stage::new(rt.alloc());
    let played = match str::from_utf8(script) {
        Ok(script) => stage.play(script),
        Err(_) => Err(Stop {
            line: 1,
            fault: ScriptFault::NoText,
        }),
    };
    ended(rt, "openings", stage.transcript(), played)
}
