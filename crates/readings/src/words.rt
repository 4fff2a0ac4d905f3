ghost use Rattle.std.specs.Prelude.{◌≤◌, IfOk, IfSome};
ghost use Rattle.fk_time.specs.Moments.{greatest};

use crate::decoder::decoded;
use crate::fault::Fault;
use fk_time::GREATEST;
use std::alloc::Global;

/// The first word of a text, and what stands behind the space after it.
pub(crate) fn first_word(text: &str) -> (&str, &str) {
    match text.split_once(' ') {
        Some(parts) => parts,
        None => (text, ""),
    }
}

/// The number that a word says in decimal.
pub(crate) fn number_in(word: &str) -> Result<u64, Fault> {
    match word.parse() {
        Ok(number) => Ok(number),
        Err(_) => Err(Fault::BadLine),
    }
}

/// The moment that a word says, in milliseconds since 1970-01-01T00:00:00Z.
pub(crate) fn moment_in(word: &str) -> Result<u64, Fault>
    ensures { IfOk result (λ moment. moment ≤ greatest) }
{
    let moment = number_in(word)?;
    if moment > GREATEST {
        return Err(Fault::BadLine);
    }
    Ok(moment)
}

/// The moment that a word says, or none for `-`.
pub(crate) fn optional_moment_in(word: &str) -> Result<Option<u64>, Fault>
    ensures { IfOk result (λ moment. IfSome moment (λ moment. moment ≤ greatest)) }
{
    if word == "-" {
        return Ok(None);
    }
    Ok(Some(moment_in(word)?))
}

/// The texts that a line has with `|` between them.
pub(crate) fn texts_in(alloc: Global, line: &str) -> Result<Vec<Vec<u8>>, Fault> {
    let mut texts = Vec::new(alloc);
    for text in line.split('|') {
        texts.push(decoded(alloc, text)?)?;
    }
    Ok(texts)
}
