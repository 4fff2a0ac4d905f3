ghost use Rattle.std.specs.Prelude.{◌≡◌, ◌++◌, ◌∷◌, [], false, true, IfOk, List, MatchResult, None, OnOk, Some};
ghost use Rattle.fk_io.specs.Content.{Supply};
ghost use Rattle.fk_model.specs.declared.entry.Entry.{Entry};
ghost use Rattle.fk_model.specs.declared.gate.Gate.{Gate};
ghost use Rattle.fk_model.specs.declared.told.Told.{Told};
ghost use Rattle.fk_model.specs.Range.{IsInRange};
ghost use Rattle.fk_talk.specs.Talks.{HasAskInRange};
ghost use Rattle.fk_lives.specs.Ways.{disks};
ghost use Rattle.fk_conn.specs.Turning.{keeping, Turned};
ghost use Rattle.fk_conn.specs.Session.{Wire, wire, IsSession};
ghost use Rattle.fk_conn.specs.Answering.{is_ask, IsAnswering, IsBetweenReads, IsHeard, StaysThere, TakesLine};

use crate::send::send;
use crate::session::Session;
use fk_desk::Kept;
use fk_io::{Ended, Sink};
use fk_model::Ask;
use fk_talk::Turn;
use std::alloc::Global;

/// The seat of a session that waits for nobody.
const FIRST_SEAT: u64 = 0;

/// Answers the lines at hand, in order, until more bytes are needed. The client's end of the talk is
/// `Closed`.
pub fn serve_lines<K: Kept, O: Sink>(
    alloc: Global,
    kept: &mut K,
    session: &mut Session,
    output: &mut O,
) -> Result<(), Ended>
    requires { session.old.talk.asked ≡ false }
    ensures served { (made : List Entry) × Turned
        (keeping (K.server kept.old) (K.doubt kept.old) (K.moments kept.old) (K.words kept.old)
        (K.faults_a kept.old) (K.faults_b kept.old)
        (disks (K.moment_a kept.old) (K.images_a kept.old) (K.moment_b kept.old) (K.images_b kept.old)))
        (keeping (K.server kept.new) (K.doubt kept.new) (K.moments kept.new) (K.words kept.new)
        (K.faults_a kept.new) (K.faults_b kept.new)
        (disks (K.moment_a kept.new) (K.images_a kept.new) (K.moment_b kept.new) (K.images_b kept.new)))
        made
        × ((gate : Gate) (first : Wire) (input : Supply) (history : List Entry) → IsAnswering gate first
        (wire input (O.written output.old)) history None session.old
        → let now = wire input (O.written output.new) in
        MatchResult result (λ _. IsBetweenReads gate first now (history ++ made) session.new)
        (λ ended. IsSession gate ended (history ++ made) first now)) }
    ensures asked { OnOk result (session.new.talk.asked ≡ false) }
    ensures counted { session.new.taken ≡ session.old.taken }
{
    'lines: loop {
        match hear(session, output)? {
            Turn::Ask(ask) => answer_ask(alloc, kept, session, ask, output)?,
            Turn::Need => return Ok(()),
            Turn::Over => return Err(Ended::Closed),
        }
    }
}

/// Hears what comes next. The replies of the talk's own are sent before it is done.
fn hear<O: Sink>(session: &mut Session, output: &mut O) -> Result<Turn, Ended>
    requires { session.old.talk.asked ≡ false }
    ensures served { (gate : Gate) (first : Wire) (input : Supply) (history : List Entry)
        → IsAnswering gate first (wire input (O.written output.old)) history None session.old
        → let now = wire input (O.written output.new) in
        MatchResult result (λ turn. IsHeard turn gate first now history session.new)
        (λ ended. IsSession gate ended history first now) }
    ensures asked { IfOk result (λ turn. session.new.talk.asked ≡ is_ask turn) }
    ensures range { IfOk result HasAskInRange }
    ensures fewer { IfOk result (λ turn. TakesLine turn session.old.talk session.new.talk) }
    ensures counted { session.new.taken ≡ session.old.taken }
{
    let turn = session.talk.next()?;
    send(&mut session.talk, output)?;
    Ok(turn)
}

/// Has the turn made that is asked for, and sends its answer.
fn answer_ask<K: Kept, O: Sink>(
    alloc: Global,
    kept: &mut K,
    session: &mut Session,
    ask: Ask,
    output: &mut O,
) -> Result<(), Ended>
    requires asked { session.old.talk.asked ≡ true }
    requires range { IsInRange ask }
    ensures served { (entry : Entry) × Turned
        (keeping (K.server kept.old) (K.doubt kept.old) (K.moments kept.old) (K.words kept.old)
        (K.faults_a kept.old) (K.faults_b kept.old)
        (disks (K.moment_a kept.old) (K.images_a kept.old) (K.moment_b kept.old) (K.images_b kept.old)))
        (keeping (K.server kept.new) (K.doubt kept.new) (K.moments kept.new) (K.words kept.new)
        (K.faults_a kept.new) (K.faults_b kept.new)
        (disks (K.moment_a kept.new) (K.images_a kept.new) (K.moment_b kept.new) (K.images_b kept.new)))
        (entry ∷ [])
        × ((gate : Gate) (first : Wire) (input : Supply) (history : List Entry) → IsAnswering gate first
        (wire input (O.written output.old)) history (Some ask) session.old
        → let now = wire input (O.written output.new) in
        MatchResult result (λ _. IsAnswering gate first now (history ++ entry ∷ []) None session.new)
        (λ ended. IsSession gate ended (history ++ entry ∷ []) first now)) }
    ensures asked { OnOk result (session.new.talk.asked ≡ false) }
    ensures stays { OnOk result (StaysThere session.old.talk session.new.talk) }
    ensures counted { session.new.taken ≡ session.old.taken }
{
    let answer = kept.turn(alloc, FIRST_SEAT, ask);
    session.talk.answer(&answer)?;
    send(&mut session.talk, output)
}
