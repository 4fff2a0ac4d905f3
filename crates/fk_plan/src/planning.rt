ghost use Rattle.std.specs.Prelude.{◌≡◌, ◌↔◌, ◌<◌, ◌≤◌, ◌+◌, ◌^◌, [], length, true, IfOk, IsOk, OnErr, OnOk};
ghost use Rattle.fk_time.specs.Moments.{greatest};
ghost use Rattle.fk_model.specs.Limits.{greatest_next};
ghost use Rattle.fk_model.specs.State.{with_workers};
ghost use Rattle.fk_model.specs.Range.{IsInRange};
ghost use Rattle.fk_model.specs.Between.{IsAboveAll, IsWellKept};
ghost use Rattle.fk_model.specs.Due.{IsUpToDate};
ghost use Rattle.fk_model.specs.Changes.{Lead};
ghost use Rattle.fk_model.specs.Bringing.{brought_up, moves_up};
ghost use Rattle.fk_model.specs.Turns.{moves_of_turn, turn, up_to_date};
ghost use Rattle.fk_model.specs.History.{IsOverLimit};
ghost use Rattle.fk_plan.specs.Plans.{is_ack_or_beat, left_of, IsDone, IsPlan};
ghost use Rattle.fk_plan.specs.Upkeep.{IsBroughtUp};

use crate::acknowledging::acknowledge;
use crate::attending::attend;
use crate::bringing::{BroughtUp, bring_up};
use crate::closing::close;
use crate::failing::Reason;
use crate::flushing::flush;
use crate::holding::fetch_unless_held;
use crate::mutating::{Mutation, mutate};
use crate::pushing::{push, push_batch};
use crate::reporting::report;
use crate::telling::tell;
use fk_core::Tables;
use fk_frame::Reply;
use fk_model::{Ask, Moves};
use fk_workers::Workers;
use std::alloc::{AllocError, Global};
use std::mem;

/// The plan of a turn, in tables and with workers, at a moment in milliseconds since
/// 1970-01-01T00:00:00Z and with a random word: what is said to the ask, and the moves from the kept
/// state to the one that the turn leaves. Where that is the same there is no move. After want of memory
/// there is no move either. The workers stay: what a turn makes of them can't fail, and so it is done
/// last. What the ask says of jobs is moved out of it, so that no text is copied.
pub fn plan(
    alloc: Global,
    tables: &Tables,
    workers: &Workers,
    ask: &mut Ask,
    moment: u64,
    word: u64,
    moves: &mut Moves,
) -> Result<Reply, AllocError>
    requires empty { moves.old.items ≡ [] }
    requires moment { moment < greatest }
    requires range { IsInRange ask.old }
    requires above { IsAboveAll tables.now.kept.next tables.now.kept.rows }
    ensures reply { IfOk result (λ reply. reply
        ≡ (turn (with_workers tables.now.kept workers.now.workers) ask.old moment word).reply) }
    ensures moves { OnOk result (moves.new.items
        ≡ moves_of_turn (with_workers tables.now.kept workers.now.workers) ask.old moment word) }

    // They lead to what the turn leaves, unless that would be over the limit, and there is none exactly
    // where the turn leaves the kept state as it is.
    ensures leads { OnOk result
        (¬ IsOverLimit (with_workers tables.now.kept workers.now.workers) ask.old moment word
        → Lead tables.now.kept moves.new.items
        (turn (with_workers tables.now.kept workers.now.workers) ask.old moment word).state.kept) }
    ensures stays { OnOk result ((moves.new.items ≡ [])
        ↔ ((turn (with_workers tables.now.kept workers.now.workers) ask.old moment word).state.kept
        ≡ tables.now.kept)) }

    ensures none { OnErr result (moves.new.items ≡ []) }
    ensures room { moves.old.spare ≤ length moves.new.items + moves.new.spare }

    // What the workers have to know of the ask is left of it.
    ensures left { OnOk result (ask.new ≡ left_of ask.old) }

    // An acknowledgement or a beat takes no memory where nothing is due and there is room for two moves.
    ensures ready { is_ack_or_beat ask.old ≡ true → IsUpToDate moment tables.now.kept
        → 2 ≤ moves.old.spare → IsOk result }
{
    are_well_kept(tables);
    match plan_ask(alloc, tables, workers, ask, moment, word, moves) {
        Ok(reply) => Ok(reply),
        Err(error) => {
            moves.clear();
            Err(error)
        }
    }
}

/// Where the next number is above all tickets and ranks, tables are well kept.
fn are_well_kept(tables: &Tables)
    requires { IsAboveAll tables.now.kept.next tables.now.kept.rows }
    ensures kept { IsWellKept tables.now.kept }
    ensures within { tables.now.kept.next ≤ greatest_next }
{
    let _ = tables.next();
}

/// The plan of a turn: the state is brought up to date, then the ask acts, and the numbers are told. After
/// want of memory some of its moves may be there.
fn plan_ask(
    alloc: Global,
    tables: &Tables,
    workers: &Workers,
    ask: &mut Ask,
    moment: u64,
    word: u64,
    moves: &mut Moves,
) -> Result<Reply, AllocError>
    requires empty { moves.old.items ≡ [] }
    requires moment { moment < greatest }
    requires range { IsInRange ask.old }
    requires kept { IsWellKept tables.now.kept }
    requires within { tables.now.kept.next ≤ greatest_next }
    ensures ok { IfOk result (λ reply. IsPlan (with_workers tables.now.kept workers.now.workers)
        ask.old moment word reply moves.new.items) }
    ensures left { OnOk result (ask.new ≡ left_of ask.old) }
    ensures room { moves.old.spare ≤ length moves.new.items + moves.new.spare }
    ensures ready { is_ack_or_beat ask.old ≡ true → IsUpToDate moment tables.now.kept
        → 2 ≤ moves.old.spare → IsOk result }
{
    let mut up = bring_up(alloc, tables, moment, word, moves)?;
    let reply = act(alloc, tables, workers, ask, moment, word, &mut up, moves)?;
    close(up.numbers, moves)?;
    Ok(reply)
}

/// The ask acts on the state that was brought up to date.
fn act(
    alloc: Global,
    tables: &Tables,
    workers: &Workers,
    ask: &mut Ask,
    moment: u64,
    word: u64,
    up: &mut BroughtUp,
    moves: &mut Moves,
) -> Result<Reply, AllocError>
    requires moment { moment < greatest }
    requires range { IsInRange ask.old }
    requires kept { IsWellKept tables.now.kept }
    requires up { IsBroughtUp tables.now.kept moment word up.old }
    requires made { moves.old.items ≡ moves_up tables.now.kept moment word }
    requires next { (brought_up tables.now.kept moment word).next ≤ 2 ^ 63 }
    ensures ok { IfOk result (λ reply. IsDone tables.now.kept
        (up_to_date (with_workers tables.now.kept workers.now.workers) moment word) ask.old moment
        word reply moves.old.items moves.new.items up.new.numbers) }
    ensures left { OnOk result (ask.new ≡ left_of ask.old) }
    ensures room { moves.old.spare + length moves.old.items
        ≤ length moves.new.items + moves.new.spare }
    ensures one { is_ack_or_beat ask.old ≡ true → moves.old.spare ≤ moves.new.spare + 1 }
    ensures ready { is_ack_or_beat ask.old ≡ true → 0 < moves.old.spare → IsOk result }
{
    match mem::replace(ask, Ask::Tick) {
        Ask::Push { job } => push(alloc, job, moment, &mut up.numbers, moves),
        Ask::PushBatch { jobs, told } => {
            push_batch(jobs.into_jobs(), told, moment, &mut up.numbers, moves)
        }
        Ask::Fetch { wid, queues } => fetch_unless_held(
            alloc, tables, workers, wid, &queues, &up.due, moment, moves,
        ),
        Ask::Ack { jid } => acknowledge(alloc, tables, &jid, moment, &mut up.numbers, moves),
        Ask::Fail {
            jid,
            errtype,
            message,
            backtrace,
        } => {
            let reason = Reason {
                errtype,
                message,
                backtrace,
            };
            report(
                alloc,
                tables,
                &jid,
                reason,
                moment,
                word,
                &mut up.numbers,
                moves,
            )
        }
        Ask::Info => tell(alloc, tables, up, moment, moves),
        Ask::Flush => flush(alloc, tables, &mut up.numbers, moves),
        Ask::Mutate {
            cmd,
            target,
            filter,
        } => {
            let mutation = Mutation {
                cmd,
                target,
                filter,
            };
            mutate(alloc, tables, &mutation, moment, &mut up.numbers, moves)
        }
        other => {
            *ask = other;
            Ok(attend(alloc, workers, ask, moment))
        }
    }
}
