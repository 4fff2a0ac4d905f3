// What two files stand for.
use crate::answers::{push_answer, push_cause};
use crate::case::Case;
use crate::file_numbers::numbers_in;
use crate::played::{Played, play};
use crate::step::Step;
use fk_cases::{Failing, ScriptFault, push_escaped};
use fk_disk::Choice;
use fk_frame::Reply;
use fk_model::Answer;
use std::alloc::Global;
use std::fmt::Write;
use std::str;

/// What two files stand for: a store is opened on a copy of them, and asked for INFO at the moment 0, at which nothing
/// is due. Where the first row of the queue `default` is wanted, a FETCH is made behind that.
pub fn standing(alloc: Global, a: &[u8], b: &[u8], row: bool) -> Result<String, ScriptFault> {
    let mut line = String::new(alloc);
    let mut case = Case::over(alloc, a, b)?;
    case.moments = vec![in alloc; 0]?;
    case.steps.push(Step::Line("INFO"))?;
    case.steps.push(Step::Line("FETCH"))?;
    let failing = Failing::none(alloc);
    let opened = play(alloc, &case, &failing, 0)?;
    match opened.refused {
        Some(cause) => push_cause(&mut line, cause)?,
        None => {
            push_numbers(&mut line, &opened)?;
            let asked = play(alloc, &case, &failing, usize::MAX)?;
            push_state(&mut line, &asked.answers, row)?;
        }
    }
    Ok(line)
}

/// Adds the numbers of the file on which a store was opened.
fn push_numbers(into: &mut String, opened: &Played) -> Result<(), ScriptFault> {
    let file = opened.a.image(Choice::New)?;
    let Some(numbers) = numbers_in(file.bytes()) else {
        return Ok(into.push_str("no numbers")?);
    };
    let generation = numbers.generation;
    let number = numbers.number;
    let size = numbers.size;
    let next = numbers.next;
    Ok(write!(
        into,
        "generation {generation}, number {number}, size {size}, next {next}"
    )?)
}

/// Adds what INFO answered, and where it is wanted what FETCH answered.
fn push_state(into: &mut String, answers: &[Answer], row: bool) -> Result<(), ScriptFault> {
    let [info, fetched] = answers else {
        return Ok(());
    };
    if let Answer::Said(Reply::Bulk(text)) = info {
        match str::from_utf8(text.bytes()) {
            Ok(text) => push_counts(into, text)?,
            Err(_) => return Err(ScriptFault::NoText),
        }
    }
    if row {
        into.push_str("; ")?;
        push_answer(into, fetched)?;
        if let Answer::Said(Reply::Bulk(text)) = fetched {
            into.push_str(" ")?;
            push_escaped(into, text.bytes())?;
        }
    }
    Ok(())
}

/// Adds the counts of an INFO that aren't 0, and then the number of the rows in each queue.
fn push_counts(into: &mut String, info: &str) -> Result<(), ScriptFault> {
    let Some((front, rest)) = info.split_once("\"queues\":{") else {
        return Ok(into.push_str(info)?);
    };
    let (queues, rest) = rest.split_once('}').unwrap_or((rest, ""));
    let (counts, _) = rest.split_once('}').unwrap_or((rest, ""));
    let front = front.strip_prefix("{\"faktory\":{").unwrap_or(front);
    push_members(into, ", ", front)?;
    push_members(into, ", ", counts)?;
    push_members(into, "; ", queues)
}

/// Adds each member whose value isn't 0, behind a sign.
fn push_members(into: &mut String, sign: &str, members: &str) -> Result<(), ScriptFault> {
    for member in members.split(',') {
        if let Some((name, count)) = member.split_once("\":") {
            if count != "0" {
                let name = name.strip_prefix("\"").unwrap_or(name);
                write!(into, "{sign}{name} {count}")?;
            }
        }
    }
    Ok(())
}
