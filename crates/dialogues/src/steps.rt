// Moves of a script.

use crate::escape::unescaped;
use fk_cases::{ScriptFault, number};
use fk_job::{Job, Stamp};
use fk_json::Text;
use fk_model::{Move, Place, Row};
use std::alloc::Global;

/// The move that a text says: `add TICKET JID QUEUE PLACE`, `put TICKET PLACE`, `drop TICKET`,
/// `drop all`, or `totals NEXT PROCESSED FAILURES`.
pub fn move_of(alloc: Global, text: &str) -> Result<Move, ScriptFault> {
    let words: Vec<&str> = text.split(' ').collect(alloc)?;
    match words.as_slice() {
        ["add", ticket, jid, queue, place @ ..] => Ok(Move::Add {
            ticket: number(ticket)?,
            row: row_of(alloc, jid, queue, place_of(alloc, place)?)?,
        }),
        ["put", ticket, place @ ..] => Ok(Move::Put {
            ticket: number(ticket)?,
            enqueued: Some(0),
            failure: None,
            place: place_of(alloc, place)?,
        }),
        ["drop", "all"] => Ok(Move::DropAll),
        ["drop", ticket] => Ok(Move::Drop {
            ticket: number(ticket)?,
        }),
        ["totals", next, processed, failures] => Ok(Move::Totals {
            next: number(next)?,
            processed: number(processed)?,
            failures: number(failures)?,
        }),
        _ => Err(ScriptFault::NoMove),
    }
}

/// The place that words say: `queued RANK`, `scheduled AT`, `retry AT`, `dead UNTIL`, or `working
/// SINCE UNTIL`.
fn place_of(alloc: Global, words: &[&str]) -> Result<Place, ScriptFault> {
    match words {
        [kind, at] => place_at(kind, number(at)?),
        ["working", since, until] => Ok(working(alloc, number(since)?, number(until)?)),
        _ => Err(ScriptFault::NoMove),
    }
}

/// The place of a kind that has one number, a rank or a moment.
fn place_at(kind: &str, at: u64) -> Result<Place, ScriptFault> {
    match kind {
        "queued" => Ok(Place::Queued { rank: at }),
        "scheduled" => Ok(Place::Scheduled { at }),
        "retry" => Ok(Place::Retry { at }),
        "dead" => Ok(Place::Dead { until: at }),
        _ => Err(ScriptFault::NoMove),
    }
}

/// The place of a row that a worker without a name has.
fn working(alloc: Global, since: u64, until: u64) -> Place {
    Place::Working {
        wid: Text::fixed(alloc, b""),
        since,
        until,
    }
}

/// A row of a job that was pushed at the moment 0.
fn row_of(alloc: Global, jid: &str, queue: &str, place: Place) -> Result<Row, ScriptFault> {
    Ok(Row {
        job: Job {
            jid: unescaped(alloc, jid)?,
            jobtype: Text::fixed(alloc, b"Mail"),
            queue: unescaped(alloc, queue)?,
            retry: 25,
            reserve_for: 1800,
            at: None,
            has_created: false,
            body: Text::fixed(alloc, b"\"args\":[]"),
        },
        stamp: Stamp {
            created: 0,
            enqueued: Some(0),
            failure: None,
        },
        place,
    })
}
