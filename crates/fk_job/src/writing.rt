ghost use Rattle.std.specs.Prelude.{◌≡◌, ◌∷◌, ◌++◌, ◌≤◌, codes, flat_map, IfOk, IfSome, OnOk};
ghost use Rattle.std.specs.Fmt.{decimal};
ghost use Rattle.std.specs.Str.{byte};
ghost use Rattle.fk_json.specs.String.{spelling};
ghost use Rattle.fk_time.specs.Moments.{greatest, moment_text};
ghost use Rattle.fk_job.specs.RowText.{HasFailureMoments, HasMoments, IsOpening, failure_text, further, further_created, further_failure, further_moment, further_strings, opened, row_text, written_member};

use crate::{Failure, FailureParts, Job, Stamp};
use fk_json::{Text, Texts, push_string};
use fk_time::write_moment;
use std::alloc::{AllocError, Global};

/// The bytes of a job's text beside those that differ from job to job, with two moments.
const ROW_ROOM: usize = 94;

/// The bytes of a failure in it beside its texts, with a count of 20 digits and two moments.
const FAILURE_ROOM: usize = 164;

/// The text that a worker is given for a job: what the producer sent, with what the server knows of
/// it.
#[tactic(auto, unfolding(crate::specs::RowText::row_text))]
pub fn write_job(alloc: Global, job: &Job, stamp: &Stamp) -> Result<Text, AllocError>
    requires { HasMoments stamp.now }
    ensures { IfOk result (λ text. text ≡ row_text job.now stamp.now) }
{
    let mut out = Text::with_room(alloc, row_room(job, stamp))?;
    push_body(&mut out, job)?;
    push_text(&mut out, b",\"queue\":", &job.queue)?;
    push_created(&mut out, job, stamp)?;
    push_optional_moment(&mut out, b",\"enqueued_at\":", stamp.enqueued)?;
    push_failure(alloc, &mut out, &stamp.failure)?;
    out.push_bytes(b"}")?;
    Ok(out)
}

/// Room for the text of a job: no less than it has where no string in it needs an escape.
fn row_room(job: &Job, stamp: &Stamp) -> usize {
    let texts = job.body.len().saturating_add(job.queue.len());
    let failed = match &stamp.failure {
        None => 0,
        Some(failure) => failure_room(failure.parts()),
    };
    ROW_ROOM.saturating_add(texts).saturating_add(failed)
}

/// The same of a failure.
fn failure_room(failure: &FailureParts) -> usize {
    let mut room = FAILURE_ROOM
        .saturating_add(failure.errtype.len())
        .saturating_add(failure.message.len());
    for line in failure.backtrace.as_slice() {
        room = room.saturating_add(line.len()).saturating_add(3);
    }
    room
}

/// Opens the text with what is handed on.
fn push_body(out: &mut Text, job: &Job) -> Result<(), AllocError>
    ensures { OnOk result (out.new ≡ out.old ++ (codes "{" ++ job.now.body)) }
{
    out.push_bytes(b"{")?;
    out.push_bytes(job.body.bytes())
}

/// Adds a member with a string, behind what opens it.
fn push_text(out: &mut Text, opening: &[u8], value: &Text) -> Result<(), AllocError>
    requires { IsOpening opening.now }
    ensures { OnOk result
        (out.new ≡ out.old ++ further (opened opening.now) (spelling value.now)) }
{
    out.push_bytes(opening)?;
    push_string(out, value)
}

/// Adds a member with a moment.
fn push_moment(out: &mut Text, opening: &[u8], moment: u64) -> Result<(), AllocError>
    requires opening { IsOpening opening.now }
    requires moment { moment ≤ greatest }
    ensures { OnOk result
        (out.new ≡ out.old ++ further (opened opening.now) (spelling (moment_text moment))) }
{
    out.push_bytes(opening)?;
    out.push_bytes(&quoted(&write_moment(moment)))
}

/// The text of a moment between quotes.
fn quoted(moment: &[u8; 24]) -> [u8; 26]
    ensures { result ≡ codes "\"" ++ moment.now ++ codes "\"" }
{
    let mut quoted = [b'"'; 26];
    quoted[1..25].copy_from_slice(moment);
    quoted
}

/// Adds a member with a moment, if there is one.
#[tactic(auto, unfolding(crate::specs::RowText::further_moment))]
fn push_optional_moment(
    out: &mut Text,
    opening: &[u8],
    moment: Option<u64>,
) -> Result<(), AllocError>
    requires opening { IsOpening opening.now }
    requires moment { IfSome moment (λ moment. moment ≤ greatest) }
    ensures { OnOk result (out.new ≡ out.old ++ further_moment (opened opening.now) moment) }
{
    match moment {
        None => Ok(()),
        Some(moment) => push_moment(out, opening, moment),
    }
}

/// Adds the moment at which the job was pushed, unless the producer sent a `created_at`.
#[tactic(auto, unfolding(crate::specs::RowText::further_created))]
fn push_created(out: &mut Text, job: &Job, stamp: &Stamp) -> Result<(), AllocError>
    requires { stamp.now.created ≤ greatest }
    ensures { OnOk result (out.new ≡ out.old ++ further_created job.now stamp.now) }
{
    if job.has_created {
        return Ok(());
    }
    push_optional_moment(out, b",\"created_at\":", Some(stamp.created))
}

/// Adds the job's failure, if it has one.
#[tactic(auto, unfolding(crate::specs::RowText::further_failure))]
fn push_failure(alloc: Global, out: &mut Text, failure: &Option<Failure>) -> Result<(), AllocError>
    requires { IfSome failure.now HasFailureMoments }
    ensures { OnOk result (out.new ≡ out.old ++ further_failure failure.now) }
{
    match failure {
        None => Ok(()),
        Some(failure) => push_failed(alloc, out, failure.parts()),
    }
}

/// Adds a member with a failure as an object.
fn push_failed(alloc: Global, out: &mut Text, failure: &FailureParts) -> Result<(), AllocError>
    requires { HasFailureMoments failure.now }
    ensures { OnOk result
        (out.new ≡ out.old ++ further (codes "failure") (failure_text failure.now)) }
{
    out.push_bytes(b",\"failure\":")?;
    push_count(alloc, out, failure.count)?;
    push_moment(out, b",\"failed_at\":", failure.failed)?;
    push_optional_moment(out, b",\"next_at\":", failure.next)?;
    push_text(out, b",\"errtype\":", &failure.errtype)?;
    push_text(out, b",\"message\":", &failure.message)?;
    push_backtrace(out, &failure.backtrace)?;
    out.push_bytes(b"}")
}

/// Opens a failure's object with its count.
fn push_count(alloc: Global, out: &mut Text, count: u64) -> Result<(), AllocError>
    ensures { OnOk result (out.new
        ≡ out.old ++ (codes "{" ++ written_member (codes "retry_count") (decimal count))) }
{
    let text = format!(in alloc; "{{\"retry_count\":{count}")?;
    out.push_bytes(text.as_bytes())
}

/// Adds the backtrace, if it has a line.
fn push_backtrace(out: &mut Text, backtrace: &Texts) -> Result<(), AllocError>
    ensures { OnOk result (out.new ≡ out.old ++ further_strings (codes "backtrace") backtrace.now) }
{
    let Some((first, others)) = backtrace.as_slice().split_first() else {
        return Ok(());
    };
    out.push_bytes(b",\"backtrace\":")?;
    out.push_bytes(b"[")?;
    push_string(out, first)?;
    push_others(out, others)?;
    out.push_bytes(b"]")
}

/// Adds each text as a string behind a comma.
fn push_others(out: &mut Text, texts: &[Text]) -> Result<(), AllocError>
    ensures { OnOk result (out.new
        ≡ out.old ++ flat_map (λ text. byte "," ∷ spelling text) texts.now) }
{
    for text in texts {
        out.push_bytes(b",")?;
        push_string(out, text)?;
    }
    Ok(())
}
