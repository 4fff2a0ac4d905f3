//! The job server's program: `faktory_server pipe` serves its standard input and output, and keeps its jobs in two files.
#![tactic(auto)]

use fk_disk::FileDisk;
use fk_io::{RandDice, RealClock, StdSink, StdSource};
use fk_journal::{Damage, File};
use fk_json::Text;
use fk_server::{Settings, WordsFault, pipe, read_words};
use std::alloc::{AllocError, Global};
use std::path::{Path, PathBuf};
use std::process::ExitCode;
use std::random::RandomSource;
use std::rt::{Env, Files};
use std::time::Clock;
use std::{env, fs, io, str};

/// The exit status for words that aren't valid.
const USAGE: u8 = 2;

/// The exit status for want of memory.
const NO_MEMORY: u8 = 8;

/// The folder of the server's files where the words don't say it.
const FOLDER: &str = ".";

/// The names of the two files.
const FILE_A: &str = "faktory.a";

const FILE_B: &str = "faktory.b";

fn main(rt: HostRuntime) -> ExitCode {
    let status = match words_of(&rt) {
        Ok(words) => serve(&rt, &words).unwrap_or(NO_MEMORY),
        Err(error) if error.kind() == io::ErrorKind::OutOfMemory => NO_MEMORY,
        Err(_) => USAGE,
    };
    if status == USAGE {
        let _ = rt.eprintln("usage: faktory_server pipe | listen | load");
    }
    ExitCode::from(status)
}

/// The words behind the program's name. One that isn't UTF-8 is an error.
fn words_of<R: Env + AllocGlobal>(rt: &R) -> io::Result<Vec<String>> {
    let mut words = Vec::new(rt.alloc());
    for word in env::args(rt)?.skip(1) {
        words.push(word)?;
    }
    Ok(words)
}

/// Serves the standard input and output by these words, over the files in the folder that they say, tells which file is
/// damaged, if one is, and answers the exit status.
fn serve<R: Input + Print + Eprint + Clock + RandomSource + Files<File = fs::File> + AllocGlobal>(
    rt: &R,
    words: &[String],
) -> Result<u8, AllocError> {
    let alloc = rt.alloc();
    let mut texts = Vec::new(alloc);
    for word in words {
        texts.push(word.as_str())?;
    }
    let folder = folder_of(alloc, &texts)?;
    let finished = pipe(
        alloc,
        &texts,
        &mut StdSource::new(rt),
        &mut StdSink::new(rt),
        FileDisk::at(rt, alloc, folder.join(alloc, FILE_A)?.as_str())?,
        FileDisk::at(rt, alloc, folder.join(alloc, FILE_B)?.as_str())?,
        RealClock::new(rt),
        RandDice::new(rt)?,
    );
    if let Some(damage) = finished.damage {
        tell_damage(rt, damage);
    }
    Ok(finished.status)
}

/// The folder that the words say. Words that aren't valid say the default, in which no file is opened then.
fn folder_of(alloc: Global, words: &[&str]) -> Result<PathBuf<Global>, AllocError> {
    match read_words(alloc, words) {
        Ok(Settings { dir, .. }) => path_of(alloc, &dir),
        Err(WordsFault::Usage) => Path::new(FOLDER).to_path_buf(alloc),
        Err(WordsFault::NoMemory) => Err(AllocError),
    }
}

/// A text as a path. That of a word is UTF-8, and an empty one is the current folder.
fn path_of(alloc: Global, text: &Text) -> Result<PathBuf<Global>, AllocError> {
    Path::new(str::from_utf8(text.bytes()).unwrap_or(FOLDER)).to_path_buf(alloc)
}

/// Tells which file is damaged, and where: the place in bytes.
fn tell_damage<R: Eprint>(rt: &R, damage: Damage) {
    let file = match damage.file {
        File::A => "A",
        File::B => "B",
    };
    let at = damage.at;
    let _ = eprintln!(rt; "damaged {file} at {at}");
}
