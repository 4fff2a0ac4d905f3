// Numbers and names that a script says.
use crate::ScriptFault;
use fk_journal::File;
use std::alloc::Global;

/// The number that a text says.
pub fn number(text: &str) -> Result<u64, ScriptFault> {
    match text.parse() {
        Ok(number) => Ok(number),
        Err(_) => Err(ScriptFault::NoNumber),
    }
}

/// The numbers that a text says, with spaces between them.
pub fn numbers(alloc: Global, text: &str) -> Result<Vec<u64>, ScriptFault> {
    let mut numbers = Vec::new(alloc);
    for word in text.split_ascii_whitespace() {
        numbers.push(number(word)?)?;
    }
    Ok(numbers)
}

/// The place in a file that a text says.
pub fn place(text: &str) -> Result<usize, ScriptFault> {
    match text.parse() {
        Ok(place) => Ok(place),
        Err(_) => Err(ScriptFault::NoPlace),
    }
}

/// The file that a word names.
pub fn file_of(word: &str) -> Result<File, ScriptFault> {
    match word {
        "A" => Ok(File::A),
        "B" => Ok(File::B),
        _ => Err(ScriptFault::NoFile),
    }
}
