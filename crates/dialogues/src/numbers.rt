// Numbers of a script.
use fk_cases::ScriptFault;
use std::alloc::Global;

/// The most times that a line may repeat something.
const TIMES_MAX: usize = 16_777_216;

/// How often something is repeated.
pub fn times(text: &str) -> Result<usize, ScriptFault> {
    match text.parse::<usize>() {
        Ok(count) if count <= TIMES_MAX => Ok(count),
        _ => Err(ScriptFault::NoNumber),
    }
}

/// The lengths that a text says: each is a number, or a number, `*` and how often it comes.
pub fn lengths(alloc: Global, text: &str) -> Result<Vec<usize>, ScriptFault> {
    let mut lengths = Vec::new(alloc);
    for word in text.split_ascii_whitespace() {
        let (length, count) = word.split_once('*').unwrap_or((word, "1"));
        push_times(&mut lengths, times(length)?, times(count)?)?;
    }
    Ok(lengths)
}

/// Adds a length so many times.
fn push_times(lengths: &mut Vec<usize>, length: usize, count: usize) -> Result<(), ScriptFault> {
    for _ in 0..count {
        lengths.push(length)?;
    }
    Ok(())
}
