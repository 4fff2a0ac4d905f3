// Each call of a disk that may fail.
use crate::answers::{push_answer, push_opening};
use crate::case::Case;
use crate::images::push_images;
use crate::played::{CALLS_MAX, Played, play};
use crate::rows::Rows;
use fk_cases::{Failing, ScriptFault};
use fk_journal::File;
use fk_model::Answer;
use std::alloc::Global;

/// Adds what comes of a case where each call of a file's disk fails in turn, and no other. Of runs that came to the
/// same in a row the first stands.
pub fn push_faults(
    alloc: Global,
    into: &mut String,
    case: &Case,
    file: File,
) -> Result<(), ScriptFault> {
    let mut last = String::new(alloc);
    for number in 0..CALLS_MAX {
        let failing = Failing::one(alloc, file, number)?;
        let whole = play(alloc, case, &failing, usize::MAX)?;
        if !whole.has_faults() {
            return Ok(());
        }
        let told = outcome(alloc, case, &failing, &whole)?;
        if told.as_str() != last.as_str() {
            into.push_str(told.as_str())?;
            last = told;
        }
    }
    Err(ScriptFault::TooManyCalls)
}

/// The answers, what the images stand for behind the turn that met the fault, and what they stand for at the end.
fn outcome(
    alloc: Global,
    case: &Case,
    failing: &Failing,
    whole: &Played,
) -> Result<String, ScriptFault> {
    let mut told = String::new(alloc);
    push_outline(&mut told, whole)?;
    if let Some(at) = whole.answers.iter().position(is_fault) {
        let front = play(alloc, case, failing, at.saturating_add(1))?;
        push_left(alloc, &mut told, &front)?;
        told.push_str("  and then\n")?;
    }
    push_left(alloc, &mut told, whole)?;
    Ok(told)
}

fn is_fault(answer: &Answer) -> bool {
    matches!(answer, Answer::DiskFault)
}

/// Adds a line of what opening answered and each turn behind it.
fn push_outline(into: &mut String, played: &Played) -> Result<(), ScriptFault> {
    into.push_str("  ")?;
    push_opening(into, played.refused)?;
    for answer in &played.answers {
        into.push_str(" / ")?;
        push_answer(into, answer)?;
    }
    Ok(into.push_str("\n")?)
}

/// Adds what each pair of images stands for.
fn push_left(alloc: Global, into: &mut String, played: &Played) -> Result<(), ScriptFault> {
    let mut rows = Rows::new(alloc, "    ");
    push_images(alloc, &mut rows, played)?;
    Ok(into.push_str(rows.whole()?)?)
}
