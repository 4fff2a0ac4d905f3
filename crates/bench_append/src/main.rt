//! For measuring: `bench_append frame COUNT LENGTH` frames so many pieces with so many bytes of moves;
//! `replay COUNT LENGTH TIMES` appends them to a journal in memory, and reads them all again so many
//! times; `file COUNT LENGTH PATH` appends them to a journal in a file at a path, where none is yet, and
//! `hand COUNT LENGTH PATH` puts the same bytes there by the same calls, without a journal. It prints
//! how many pieces it framed, read or appended.
#![tactic(auto)]

mod appending;
mod fault;
mod hand;
mod pieces;
mod reading;
mod words;

use fault::Fault;
use fk_disk::{FileDisk, MemoryDisk};
use std::io;
use std::process::ExitCode;
use words::{Words, Work, read_words};

/// The exit status for words that aren't valid.
const USAGE: u8 = 2;

/// The exit status for a call of the disk that failed, or a journal that is full.
const FAILED_DISK: u8 = 3;

/// The exit status for a failed write of what is printed.
const FAILED_WRITE: u8 = 4;

/// The exit status for want of memory.
const NO_MEMORY: u8 = 8;

fn main(rt: HostRuntime) -> ExitCode {
    let status = match read_words(&rt) {
        Ok(Some(words)) => measure(rt, &words),
        Err(error) if error.kind() == io::ErrorKind::OutOfMemory => NO_MEMORY,
        Ok(None) | Err(_) => USAGE,
    };
    if status == USAGE {
        let _ = rt.eprintln("usage: bench_append frame COUNT LENGTH");
        let _ = rt.eprintln("       bench_append replay COUNT LENGTH TIMES");
        let _ = rt.eprintln("       bench_append file|hand COUNT LENGTH PATH");
    }
    ExitCode::from(status)
}

/// Does the work, prints how many pieces it was, and answers the exit status.
fn measure(rt: HostRuntime, words: &Words) -> u8 {
    match count(rt, words) {
        Ok(count) => match println!(rt; "{count}") {
            Ok(()) => 0,
            Err(_) => FAILED_WRITE,
        },
        Err(Fault::Disk) => FAILED_DISK,
        Err(Fault::NoMemory) => NO_MEMORY,
    }
}

/// Does the work, and answers how many pieces were framed, read or appended.
fn count(rt: HostRuntime, words: &Words) -> Result<u64, Fault> {
    let alloc = rt.alloc();
    let size = words.size;
    match &words.work {
        Work::Frame => pieces::frame_all(alloc, size),
        Work::Replay(times) => {
            let disk = appending::append_all(alloc, MemoryDisk::new(alloc, b"", &[])?, size)?;
            reading::read_all(alloc, disk, size, *times)
        }
        Work::File(path) => {
            appending::append_all(alloc, FileDisk::at(rt, alloc, path.as_str())?, size)?;
            Ok(u64::from(size.count))
        }
        Work::Hand(path) => hand::append_all(alloc, FileDisk::at(rt, alloc, path.as_str())?, size),
    }
}
