// What is looked at behind a case.
use crate::answers::push_told;
use crate::case::Case;
use crate::faults::push_faults;
use crate::images::push_images;
use crate::played::Played;
use crate::rows::Rows;
use crate::standing::standing;
use fk_cases::{ScriptFault, file_of, push_digits, set};
use fk_disk::Choice;
use fk_journal::File;
use std::alloc::{AllocError, Global};

/// How many bytes stand on a line.
const WIDTH: usize = 32;

/// A look.
#[derive(Clone, Copy)]
pub enum Look {
    /// The bytes of a file.
    Bytes(File),
    /// What the last turn told of itself.
    Told,
    /// What each pair of images stands for.
    Images,
    /// What the files stand for where one is cut, to each length in turn.
    Cuts(File),
    /// What the files stand for where one byte of one of them is changed, each in turn.
    Changes(File),
    /// What comes of the case where one call of a disk fails, each in turn.
    Faults(File),
}

/// A look, and how the script says it.
#[derive(Drop)]
pub struct Asked<'a> {
    pub text: &'a str,
    pub look: Look,
}

/// The look that a text says.
pub fn look_of(text: &str) -> Result<Look, ScriptFault> {
    match text.split_once(' ') {
        None => match text {
            "told" => Ok(Look::Told),
            "images" => Ok(Look::Images),
            _ => Err(ScriptFault::NoLook),
        },
        Some((word, name)) => {
            let file = file_of(name)?;
            match word {
                "bytes" => Ok(Look::Bytes(file)),
                "cuts" => Ok(Look::Cuts(file)),
                "changes" => Ok(Look::Changes(file)),
                "faults" => Ok(Look::Faults(file)),
                _ => Err(ScriptFault::NoLook),
            }
        }
    }
}

/// Adds what a look finds.
pub fn push_found(
    alloc: Global,
    into: &mut String,
    look: Look,
    case: &Case,
    played: &Played,
) -> Result<(), ScriptFault> {
    let mut rows = Rows::new(alloc, "  ");
    match look {
        Look::Bytes(file) => push_bytes(into, played.disk(file).image(Choice::New)?.bytes())?,
        Look::Told => {
            into.push_str("  ")?;
            push_told(into, &played.told)?;
            into.push_str("\n")?;
        }
        Look::Images => push_images(alloc, &mut rows, played)?,
        Look::Cuts(file) => push_cuts(alloc, &mut rows, file, played)?,
        Look::Changes(file) => push_changes(alloc, &mut rows, file, played)?,
        Look::Faults(file) => push_faults(alloc, into, case, file)?,
    }
    Ok(into.push_str(rows.whole()?)?)
}

fn push_bytes(into: &mut String, bytes: &[u8]) -> Result<(), AllocError> {
    for line in bytes.chunks(WIDTH) {
        into.push_str("  ")?;
        push_digits(into, line)?;
        into.push_str("\n")?;
    }
    Ok(())
}

/// Adds what the files stand for where one is cut, from the length 0 to its own.
fn push_cuts(
    alloc: Global,
    into: &mut Rows,
    file: File,
    played: &Played,
) -> Result<(), ScriptFault> {
    let whole = played.disk(file).image(Choice::New)?;
    let bytes = whole.bytes();
    for len in 0..=bytes.len() {
        into.push(standing_with(alloc, file, &bytes[..len], played, false)?)?;
    }
    Ok(())
}

/// Adds what the files stand for where the last bit of one byte is the other, for each of one file's bytes.
fn push_changes(
    alloc: Global,
    into: &mut Rows,
    file: File,
    played: &Played,
) -> Result<(), ScriptFault> {
    let whole = played.disk(file).image(Choice::New)?;
    for (at, byte) in whole.bytes().iter().enumerate() {
        let mut changed = Vec::from_slice(alloc, whole.bytes())?;
        set(&mut changed, at, byte ^ 1)?;
        into.push(standing_with(alloc, file, &changed, played, true)?)?;
    }
    Ok(())
}

/// What these bytes of one file stand for beside those that the case left of the other.
fn standing_with(
    alloc: Global,
    file: File,
    bytes: &[u8],
    played: &Played,
    row: bool,
) -> Result<String, ScriptFault> {
    match file {
        File::A => standing(alloc, bytes, played.b.image(Choice::New)?.bytes(), row),
        File::B => standing(alloc, played.a.image(Choice::New)?.bytes(), bytes, row),
    }
}
