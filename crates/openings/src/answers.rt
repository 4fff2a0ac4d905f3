// Answers as a transcript shows them.
use fk_cases::{ScriptFault, push_escaped};
use fk_frame::Reply;
use fk_journal::{Damage, File, OpenFault};
use fk_json::Text;
use fk_model::{Answer, Compaction, Told};
use std::alloc::AllocError;
use std::fmt::Write;

/// Adds whether a store was opened, or why not.
pub fn push_opening(into: &mut String, refused: Option<OpenFault>) -> Result<(), AllocError> {
    match refused {
        None => into.push_str("opened"),
        Some(cause) => {
            into.push_str("refused: ")?;
            push_cause(into, cause)
        }
    }
}

/// Adds why files weren't opened.
pub fn push_cause(into: &mut String, cause: OpenFault) -> Result<(), AllocError> {
    match cause {
        OpenFault::DiskFault => into.push_str("disk fault"),
        OpenFault::Damaged(Damage { file, at }) => {
            let name = match file {
                File::A => "A",
                File::B => "B",
            };
            write!(into, "damaged {name} {at}")
        }
        OpenFault::NoMemory => into.push_str("no memory"),
    }
}

/// Adds a line for each answer, and a further one for the text of a bulk.
pub fn push_answers(into: &mut String, answers: &[Answer]) -> Result<(), ScriptFault> {
    for answer in answers {
        into.push_str("< ")?;
        push_answer(into, answer)?;
        into.push_str("\n")?;
        if let Answer::Said(Reply::Bulk(text)) = answer {
            into.push_str("< ")?;
            push_escaped(into, text.bytes())?;
            into.push_str("\n")?;
        }
    }
    Ok(())
}

/// Adds an answer as it is written, without the text of a bulk.
pub fn push_answer(into: &mut String, answer: &Answer) -> Result<(), ScriptFault> {
    match answer {
        Answer::Said(reply) => Ok(push_reply(into, reply)?),
        Answer::Full => Ok(into.push_str("-ERR Full")?),
        Answer::DiskFault => Ok(into.push_str("-ERR Disk fault")?),
        Answer::NoMemory => Err(ScriptFault::NoMemory),
    }
}

fn push_reply(into: &mut String, reply: &Reply) -> Result<(), AllocError> {
    match reply {
        Reply::Status(text) => push_line(into, "+", text),
        Reply::Error(text) => push_line(into, "-", text),
        Reply::Bulk(text) => {
            let count = text.len();
            write!(into, "${count}")
        }
        Reply::Nil => into.push_str("$-1"),
    }
}

fn push_line(into: &mut String, sign: &str, text: &Text) -> Result<(), AllocError> {
    into.push_str(sign)?;
    push_escaped(into, text.bytes())
}

/// Adds what a turn told of itself.
pub fn push_told(into: &mut String, told: &Told) -> Result<(), AllocError> {
    let Told {
        moment,
        word,
        before,
        after,
        compaction,
    } = *told;
    let due = match compaction {
        Compaction::NotDue => "not due",
        Compaction::Done => "done",
        Compaction::NoMemory => "no memory",
        Compaction::Full => "full",
        Compaction::DiskFault => "disk fault",
    };
    write!(
        into,
        "moment {moment}, word {word}, before {before}, after {after}, {due}"
    )
}
