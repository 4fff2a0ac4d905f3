use crate::ScriptFault;
use fk_disk::Choice;

/// The image of a file that a word names: what was synced last, what a read gives, or that with 255 for each byte that
/// was written since.
pub fn choice_of(word: &str) -> Result<Choice, ScriptFault> {
    match word {
        "old" => Ok(Choice::Old),
        "new" => Ok(Choice::New),
        "torn" => Ok(Choice::Torn),
        _ => Err(ScriptFault::NoImage),
    }
}
