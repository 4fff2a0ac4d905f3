// What a crash may leave.
use crate::played::Played;
use crate::rows::Rows;
use crate::standing::standing;
use fk_cases::ScriptFault;
use fk_disk::Choice;
use std::alloc::Global;

const CHOICES: [Choice; 3] = [Choice::Old, Choice::New, Choice::Torn];

/// Adds what each pair of images stands for, one of the disk of file A with each of file B.
pub fn push_images(alloc: Global, into: &mut Rows, played: &Played) -> Result<(), ScriptFault> {
    for choice in CHOICES {
        let a = played.a.image(choice)?;
        push_pairs(alloc, into, a.bytes(), played)?;
    }
    Ok(())
}

/// Adds what the bytes of file A stand for with each image of the disk of file B.
fn push_pairs(
    alloc: Global,
    into: &mut Rows,
    a: &[u8],
    played: &Played,
) -> Result<(), ScriptFault> {
    for choice in CHOICES {
        let b = played.b.image(choice)?;
        into.push(standing(alloc, a, b.bytes(), false)?)?;
    }
    Ok(())
}
