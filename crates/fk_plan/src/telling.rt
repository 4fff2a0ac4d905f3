// What an INFO tells.
ghost use Rattle.std.specs.Prelude.{◌≡◌, ◌<◌, ℕ, length, false, IfOk};
ghost use Rattle.fk_time.specs.Moments.{greatest, moment_text};
ghost use Rattle.serde_json.specs.Data.{no_members, object, put, string};
ghost use Rattle.serde_json.specs.View.{members_view};
ghost use Rattle.serde_json.specs.Written.{compact_text, members_have_float};
ghost use Rattle.fk_frame.specs.declared.reply.Reply.TheVariants.{Bulk};
ghost use Rattle.fk_model.specs.Between.{IsWellKept};
ghost use Rattle.fk_model.specs.Bringing.{brought_up, moves_up};
ghost use Rattle.fk_model.specs.Due.{expired};
ghost use Rattle.fk_model.specs.Info.{info_text, told_of};
ghost use Rattle.fk_plan.specs.Upkeep.{pairs_due, AreFewDue, IsBroughtUp};

use crate::bringing::BroughtUp;
use crate::counting::{size_up, waiting_up, working_up};
use crate::members::{put_count, put_value, string_from};
use crate::sizing::queue_sizes;
use fk_core::Tables;
use fk_frame::Reply;
use fk_json::Text;
use fk_model::{Moves, Target};
use fk_time::write_moment;
use serde_json::{Map, Value};
use std::alloc::{AllocError, Global};

/// What is told of the kept state that was brought up to a moment by these moves, as an object.
pub(crate) fn tell(
    alloc: Global,
    tables: &Tables,
    up: &BroughtUp,
    moment: u64,
    moves: &Moves,
) -> Result<Reply, AllocError>
    requires moment { moment < greatest }
    requires kept { IsWellKept tables.now.kept }
    requires due { up.now.due.items ≡ pairs_due tables.now.kept moment }
    requires expired { up.now.expired ≡ length (expired tables.now.kept moment) }
    requires few { AreFewDue tables.now.kept moment }
    ensures { (word : ℕ) → IsBroughtUp tables.now.kept moment word up.now
        → moves.now.items ≡ moves_up tables.now.kept moment word
        → IfOk result (λ reply. reply
        ≡ Bulk (info_text (brought_up tables.now.kept moment word) moment)) }
{
    let told = told_of(alloc, tables, up, moment, moves)?;
    let now = string_from(alloc, &write_moment(moment))?;
    let mut members = Map::new(alloc);
    put_value(alloc, b"now", Value::String(now), &mut members)?;
    put_value(alloc, b"faktory", Value::Object(told), &mut members)?;
    let text = Value::Object(members).to_string(alloc)?;
    Ok(Reply::Bulk(Text::copy(alloc, text.as_bytes())?))
}

/// What is told of the kept state, member by member.
fn told_of(
    alloc: Global,
    tables: &Tables,
    up: &BroughtUp,
    moment: u64,
    moves: &Moves,
) -> Result<Map<String, Value>, AllocError>
    requires moment { moment < greatest }
    requires kept { IsWellKept tables.now.kept }
    requires due { up.now.due.items ≡ pairs_due tables.now.kept moment }
    requires expired { up.now.expired ≡ length (expired tables.now.kept moment) }
    requires few { AreFewDue tables.now.kept moment }
    ensures { (word : ℕ) → IsBroughtUp tables.now.kept moment word up.now
        → moves.now.items ≡ moves_up tables.now.kept moment word
        → IfOk result (λ members. members_view members.entries
        ≡ told_of (brought_up tables.now.kept moment word)) }
{
    let working = working_up(tables, up.expired, moment);
    let enqueued = waiting_up(tables, &up.due, moment);
    let scheduled = size_up(alloc, tables, Target::Scheduled, moment, moves)?;
    let retries = size_up(alloc, tables, Target::Retries, moment, moves)?;
    let dead = size_up(alloc, tables, Target::Dead, moment, moves)?;
    let queues = queue_sizes(alloc, tables, &up.due, moment)?;
    let mut told = Map::new(alloc);
    put_count(alloc, b"working", working, &mut told)?;
    put_count(alloc, b"total_queues", queues.len() as u64, &mut told)?;
    put_count(alloc, b"total_processed", up.numbers.processed, &mut told)?;
    put_count(alloc, b"total_failures", up.numbers.failures, &mut told)?;
    put_count(alloc, b"total_enqueued", enqueued, &mut told)?;
    put_count(alloc, b"scheduled", scheduled, &mut told)?;
    put_count(alloc, b"retries", retries, &mut told)?;
    put_value(alloc, b"queues", Value::Object(queues), &mut told)?;
    put_count(alloc, b"dead", dead, &mut told)?;
    Ok(told)
}
