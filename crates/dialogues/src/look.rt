// What is looked up behind a run.
use crate::escape::unescaped;
use crate::opened::opened;
use crate::serving::Outcome;
use crate::shown::push_shown;
use crate::steps::move_of;
use fk_cases::{ScriptFault, file_of, number, push_digits};
use fk_core::Tables;
use fk_journal::File;
use fk_json::Text;
use fk_lists::Sizes;
use fk_model::{Move, Place, Row, Target};
use std::alloc::{AllocError, Global};
use std::fmt::{Display, Write};

/// How many bytes of a file stand on a line.
const WIDTH: usize = 32;

/// A look-up.
#[derive(Drop)]
pub enum Look {
    /// The bytes that stayed unread.
    Unread,
    /// The bytes of a file.
    Bytes(File),
    /// What the files stand for.
    Kept(KeptLook),
}

/// A look-up in what is kept.
#[derive(Drop)]
pub enum KeptLook {
    /// The ticket of a queue's first row.
    First(Text),
    /// The least ticket of a jid among the rows that workers have.
    Leased(Text),
    /// The queues in which a row waits, with the numbers of their rows.
    Sizes,
    /// The number of rows that workers have.
    Working,
    /// The number of rows in a set by moment.
    Size(Target),
    Next,
    Processed,
    Failures,
    /// The row of a ticket.
    Row(u64),
    /// Whether a move fits.
    Fits(Move),
}

/// The look-up that a text says.
pub fn look_of(alloc: Global, text: &str) -> Result<Look, ScriptFault> {
    let (word, rest) = text.split_once(' ').unwrap_or((text, ""));
    match word {
        "unread" => Ok(Look::Unread),
        "bytes" => Ok(Look::Bytes(file_of(rest)?)),
        _ => Ok(Look::Kept(kept_look_of(alloc, word, rest)?)),
    }
}

/// The look-up in what is kept that a word and what stands behind it say.
fn kept_look_of(alloc: Global, word: &str, rest: &str) -> Result<KeptLook, ScriptFault> {
    match word {
        "first" => Ok(KeptLook::First(unescaped(alloc, rest)?)),
        "leased" => Ok(KeptLook::Leased(unescaped(alloc, rest)?)),
        "sizes" => Ok(KeptLook::Sizes),
        "working" => Ok(KeptLook::Working),
        "size" => Ok(KeptLook::Size(target_of(rest)?)),
        "next" => Ok(KeptLook::Next),
        "processed" => Ok(KeptLook::Processed),
        "failures" => Ok(KeptLook::Failures),
        "ticket" => Ok(KeptLook::Row(number(rest)?)),
        "fits" => Ok(KeptLook::Fits(move_of(alloc, rest)?)),
        _ => Err(ScriptFault::NoLook),
    }
}

/// The set by moment that a word names.
fn target_of(word: &str) -> Result<Target, ScriptFault> {
    match word {
        "scheduled" => Ok(Target::Scheduled),
        "retries" => Ok(Target::Retries),
        "dead" => Ok(Target::Dead),
        _ => Err(ScriptFault::NoLook),
    }
}

/// Adds what a look-up finds behind a connection.
pub fn push_found(
    alloc: Global,
    into: &mut String,
    look: &Look,
    outcome: &Outcome,
) -> Result<(), ScriptFault> {
    match look {
        Look::Unread => {
            into.push_str(" ")?;
            push_shown(into, &outcome.unread)?;
        }
        Look::Bytes(file) => push_bytes(into, outcome.left.bytes(*file)?.bytes())?,
        Look::Kept(look) => {
            into.push_str(" ")?;
            push_kept(alloc, into, look, outcome)?;
        }
    }
    Ok(())
}

/// Adds bytes of a file, each line of them behind a line feed.
fn push_bytes(into: &mut String, bytes: &[u8]) -> Result<(), AllocError> {
    for line in bytes.chunks(WIDTH) {
        into.push_str("\n  ")?;
        push_digits(into, line)?;
    }
    Ok(())
}

/// Adds what is found in the tables for which the files stand that a connection left, or that there are none.
fn push_kept(
    alloc: Global,
    into: &mut String,
    look: &KeptLook,
    outcome: &Outcome,
) -> Result<(), ScriptFault> {
    let a = outcome.left.bytes(File::A)?;
    let b = outcome.left.bytes(File::B)?;
    match opened(alloc, a.bytes(), b.bytes())? {
        Some(store) => Ok(push_found_in(into, look, store.tables())?),
        None => Ok(into.push_str("none")?),
    }
}

/// Adds what is found in tables.
fn push_found_in(into: &mut String, look: &KeptLook, tables: &Tables) -> Result<(), AllocError> {
    match look {
        KeptLook::First(queue) => push_ticket(into, tables.first_queued(queue)),
        KeptLook::Leased(jid) => push_ticket(into, tables.leased(jid)),
        KeptLook::Sizes => push_sizes(into, &tables.sizes()?),
        KeptLook::Working => push_number(into, tables.working()),
        KeptLook::Size(target) => push_number(into, tables.size(*target)),
        KeptLook::Next => push_number(into, tables.next()),
        KeptLook::Processed => push_number(into, tables.processed()),
        KeptLook::Failures => push_number(into, tables.failures()),
        KeptLook::Row(ticket) => match tables.row(*ticket) {
            Some(row) => push_row(into, row),
            None => into.push_str("none"),
        },
        KeptLook::Fits(step) => into.push_str(if tables.fits(step) { "yes" } else { "no" }),
    }
}

fn push_number<N: Display + Drop>(into: &mut String, number: N) -> Result<(), AllocError> {
    write!(into, "{number}")
}

fn push_ticket(into: &mut String, ticket: Option<u64>) -> Result<(), AllocError> {
    match ticket {
        Some(ticket) => write!(into, "{ticket}"),
        None => into.push_str("none"),
    }
}

/// Adds each queue with the number of its rows, and commas between them.
fn push_sizes(into: &mut String, sizes: &Sizes) -> Result<(), AllocError> {
    for at in 0..sizes.len() {
        if at > 0 {
            into.push_str(", ")?;
        }
        if let Some(size) = sizes.get(at) {
            push_shown(into, size.name.bytes())?;
            let count = size.count;
            write!(into, " {count}")?;
        }
    }
    Ok(())
}

/// Adds the jid, the queue and the place of a row.
fn push_row(into: &mut String, row: &Row) -> Result<(), AllocError> {
    push_shown(into, row.job.jid.bytes())?;
    into.push_str(" of ")?;
    push_shown(into, row.job.queue.bytes())?;
    into.push_str(", ")?;
    match &row.place {
        Place::Queued { rank } => write!(into, "queued {rank}"),
        Place::Scheduled { at } => write!(into, "scheduled {at}"),
        Place::Retry { at } => write!(into, "retry {at}"),
        Place::Dead { until } => write!(into, "dead {until}"),
        Place::Working { since, until, .. } => write!(into, "working {since} {until}"),
    }
}
