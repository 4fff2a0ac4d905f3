// How a program that plays a script begins and ends.
use crate::{ScriptFault, Stop};
use std::io::{self, ErrorKind, Read};

/// The exit status for a line that can't be read.
const BAD_SCRIPT: u8 = 2;

/// The exit status for a failed read.
const FAILED_READ: u8 = 3;

/// The exit status for a failed write.
const FAILED_WRITE: u8 = 4;

/// The exit status for want of memory.
const NO_MEMORY: u8 = 8;

/// The most bytes that a script may have.
const SCRIPT_MAX: u64 = 16_777_216;

/// The bytes of the standard input, or the exit status where they can't be read. What is behind the most that a script
/// may have is left.
pub fn script_of<R: Input + AllocGlobal>(rt: &R) -> Result<Vec<u8>, u8> {
    match read_script(rt) {
        Ok(script) => Ok(script),
        Err(error) if error.kind() == ErrorKind::OutOfMemory => Err(NO_MEMORY),
        Err(_) => Err(FAILED_READ),
    }
}

fn read_script<R: Input + AllocGlobal>(rt: &R) -> io::Result<Vec<u8>> {
    let mut script = Vec::new(rt.alloc());
    rt.reader().take(SCRIPT_MAX).read_to_end(&mut script)?;
    Ok(script)
}

/// Prints what came of a script, tells why its play ended before its end where it did, and answers the exit status.
pub fn ended<R: Print + Eprint>(
    rt: &R,
    program: &str,
    transcript: &str,
    played: Result<(), Stop>,
) -> u8 {
    if rt.print(transcript).is_err() {
        return FAILED_WRITE;
    }
    let Err(stop) = played else {
        return 0;
    };
    let _ = eprintln!(rt; "{program}: {stop}");
    match stop.fault {
        ScriptFault::NoMemory => NO_MEMORY,
        _ => BAD_SCRIPT,
    }
}
