//! For measuring: `bench_json READER COUNT` reads the standard input whole, reads it as JSON so many
//! times, and prints the number of members of the object that the last reading found, or 0 after none.
//! The reader is `scan_object`, which scans an object text, or `value`, with which the kit's
//! `serde_json` reads it into a value.
#![tactic(auto)]

use fk_json::{JsonFault, integer_value, scan_object};
use serde_json::Value;
use std::alloc::Global;
use std::env;
use std::io::{self, Read};
use std::process::ExitCode;
use std::rt::Env;

/// The exit status for a text that is no object.
const NO_OBJECT: u8 = 1;

/// The exit status for words that aren't valid.
const USAGE: u8 = 2;

/// The exit status for a failed read.
const FAILED_READ: u8 = 3;

/// The exit status for a failed write.
const FAILED_WRITE: u8 = 4;

/// The exit status for want of memory.
const NO_MEMORY: u8 = 8;

/// What reads the text.
#[derive(Clone, Copy)]
enum Reader {
    ScanObject,
    Value,
}

/// What the words ask for.
#[derive(Clone, Copy)]
struct Ask {
    reader: Reader,
    count: u64,
}

/// Why a text was not read.
#[derive(Drop)]
enum Failure {
    Scan(JsonFault),
    NoObject,
    NoMemory,
}

fn main(rt: HostRuntime) -> ExitCode {
    let status = match ask_of_words(&rt) {
        Ok(Some(ask)) => measure(&rt, ask),
        Err(error) if error.kind() == io::ErrorKind::OutOfMemory => NO_MEMORY,
        Ok(None) | Err(_) => USAGE,
    };
    if status == USAGE {
        let _ = rt.eprintln("usage: bench_json scan_object|value COUNT");
    }
    ExitCode::from(status)
}

/// What the two words behind the program's name ask for, or `None` for other words. A word that isn't
/// UTF-8 is an error.
fn ask_of_words<R: Env + AllocGlobal>(rt: &R) -> io::Result<Option<Ask>> {
    let mut words = env::args(rt)?.skip(1);
    let (Some(reader), Some(count), None) = (words.next(), words.next(), words.next()) else {
        return Ok(None);
    };
    Ok(ask_of(reader.as_str(), count.as_str()))
}

fn ask_of(reader: &str, count: &str) -> Option<Ask> {
    Some(Ask {
        reader: reader_of(reader)?,
        count: count_of(count)?,
    })
}

fn reader_of(word: &str) -> Option<Reader> {
    match word {
        "scan_object" => Some(Reader::ScanObject),
        "value" => Some(Reader::Value),
        _ => None,
    }
}

/// The count that a word says: digits without a leading zero.
fn count_of(word: &str) -> Option<u64> {
    if word.starts_with('-') {
        return None;
    }
    u64::try_from(integer_value(word.as_bytes())?).ok()
}

/// Reads the standard input so many times, prints what came of it, and answers the exit status.
fn measure<R: Input + Print + Eprint + AllocGlobal>(rt: &R, ask: Ask) -> u8 {
    let mut text = Vec::new(rt.alloc());
    if let Err(error) = rt.reader().read_to_end(&mut text) {
        return match error.kind() {
            io::ErrorKind::OutOfMemory => NO_MEMORY,
            _ => FAILED_READ,
        };
    }
    match last_reading(rt.alloc(), &text, ask) {
        Ok(members) => match println!(rt; "{members}") {
            Ok(()) => 0,
            Err(_) => FAILED_WRITE,
        },
        Err(Failure::NoMemory | Failure::Scan(JsonFault::NoMemory)) => NO_MEMORY,
        Err(Failure::NoObject) => {
            let _ = rt.eprintln("bench_json: no object");
            NO_OBJECT
        }
        Err(Failure::Scan(fault)) => {
            let _ = eprintln!(rt; "bench_json: {fault}");
            NO_OBJECT
        }
    }
}

/// The number of members that the last of so many readings found, or 0 after none.
fn last_reading(alloc: Global, text: &[u8], ask: Ask) -> Result<usize, Failure> {
    let mut members = 0;
    for _ in 0..ask.count {
        members = match ask.reader {
            Reader::ScanObject => scanned(alloc, text)?,
            Reader::Value => read(alloc, text)?,
        };
    }
    Ok(members)
}

fn scanned(alloc: Global, text: &[u8]) -> Result<usize, Failure> {
    match scan_object(alloc, text) {
        Ok(members) => Ok(members.len()),
        Err(fault) => Err(Failure::Scan(fault)),
    }
}

fn read(alloc: Global, text: &[u8]) -> Result<usize, Failure> {
    match Value::from_slice(alloc, text) {
        Ok(value) => match value.as_object() {
            Some(members) => Ok(members.len()),
            None => Err(Failure::NoObject),
        },
        Err(error) if error.is_memory() => Err(Failure::NoMemory),
        Err(_) => Err(Failure::NoObject),
    }
}
