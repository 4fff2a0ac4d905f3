//! For measuring: `bench_timed SET ORDER SIZE COUNT` fills a set by moment with pairs, and then takes
//! the oldest pair out and puts a new one in, so many times. SET is `tree` for the set of this
//! repository, `steps` for the same with its comparisons counted, or `map` for the ordered map of the
//! library; ORDER is `rising`, `falling` or `mixed`. It prints the number of pairs at the end, and for
//! `steps` the most comparisons of one call as well.
#![tactic(auto)]

mod keys;
mod map;
mod tree;
mod words;

use std::alloc::AllocError;
use std::io;
use std::process::ExitCode;
use words::{Set, Words, read_words};

/// The exit status for words that aren't valid.
const USAGE: u8 = 2;

/// The exit status for a failed write.
const FAILED_WRITE: u8 = 4;

/// The exit status for want of memory.
const NO_MEMORY: u8 = 8;

fn main(rt: HostRuntime) -> ExitCode {
    let status = match read_words(&rt) {
        Ok(Some(words)) => measure(&rt, &words),
        Err(error) if error.kind() == io::ErrorKind::OutOfMemory => NO_MEMORY,
        Ok(None) | Err(_) => USAGE,
    };
    if status == USAGE {
        let _ = rt.eprintln("usage: bench_timed tree|steps|map rising|falling|mixed SIZE COUNT");
    }
    ExitCode::from(status)
}

/// Fills the set, takes and puts, prints what came of it, and answers the exit status.
fn measure<R: Print + AllocGlobal>(rt: &R, words: &Words) -> u8 {
    let outcome = match words.set {
        Set::Tree => tree::run(rt.alloc(), words).map(|pairs| println!(rt; "{pairs}")),
        Set::Steps => tree::run_counted(rt.alloc(), words).map(|(pairs, most)| println!(rt;
            "{pairs} {most}"
        )),
        Set::Map => map::run(rt.alloc(), words).map(|pairs| println!(rt; "{pairs}")),
    };
    match outcome {
        Ok(Ok(())) => 0,
        Ok(Err(_)) => FAILED_WRITE,
        Err(AllocError) => NO_MEMORY,
    }
}
