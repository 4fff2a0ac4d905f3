use std::rt::Env;
use std::{env, io};

/// What is measured. A number says how often the pieces are read, and a path is that of the file.
#[derive(Drop)]
pub(crate) enum Work {
    Frame,
    Replay(u32),
    File(String),
    Hand(String),
}

/// How many pieces there are, and how many bytes of moves each has.
#[derive(Clone, Copy)]
pub(crate) struct Size {
    pub(crate) count: u32,
    pub(crate) length: u32,
}

/// What the program's words ask for.
#[derive(Drop)]
pub(crate) struct Words {
    pub(crate) work: Work,
    pub(crate) size: Size,
}

/// The words behind the program's name, or `None` where they aren't valid. A word that isn't UTF-8 is
/// an error.
pub(crate) fn read_words<R: Env + AllocGlobal>(rt: &R) -> io::Result<Option<Words>> {
    let mut words = env::args(rt)?.skip(1);
    let name = words.next();
    let count = words
        .next()
        .and_then(|word| word.as_str().parse::<u32>().ok());
    let length = words
        .next()
        .and_then(|word| word.as_str().parse::<u32>().ok());
    let last = words.next();
    if words.next().is_some() {
        return Ok(None);
    }
    let work = name.and_then(|name| work_of(name.as_str(), last));
    Ok(match (work, count, length) {
        (Some(work), Some(count), Some(length)) => Some(Words {
            work,
            size: Size { count, length },
        }),
        _ => None,
    })
}

/// The work of a name, with the number or the path that it wants as the last word.
fn work_of(name: &str, last: Option<String>) -> Option<Work> {
    match (name, last) {
        ("frame", None) => Some(Work::Frame),
        ("replay", Some(times)) => Some(Work::Replay(times.as_str().parse::<u32>().ok()?)),
        ("file", Some(path)) => Some(Work::File(path)),
        ("hand", Some(path)) => Some(Work::Hand(path)),
        _ => None,
    }
}
