ghost use Rattle.std.specs.Prelude.{◌≡◌, ◌+◌, ◌++◌, ◌<◌, ◌≤◌, List, false, Ok, length, take, MatchResult, IfOk, IfErr, OnOk, OnErr};
ghost use Rattle.fk_io.specs.declared.fault.Ended.TheVariants.{ReadFault, NoMemory};
ghost use Rattle.fk_io.specs.Content.{Took, WasGiven, IsAtEnd};
ghost use Rattle.fk_io.specs.Faults.{Rose};
ghost use Rattle.fk_model.specs.declared.entry.Entry.{Entry};
ghost use Rattle.fk_model.specs.declared.gate.Gate.{Gate};
ghost use Rattle.fk_talk.specs.Talks.{fed, opened};
ghost use Rattle.fk_lives.specs.Ways.{disks};
ghost use Rattle.fk_conn.specs.Turning.{keeping, Turned};
ghost use Rattle.fk_conn.specs.Session.{Wire, wire, IsSession};
ghost use Rattle.fk_conn.specs.Answering.{IsBetweenReads};

use crate::lines::serve_lines;
use crate::send::send;
use fk_desk::Kept;
use fk_io::{Ended, PIECE_MAX, Sink, Source};
use fk_talk::Talk;
use std::alloc::Global;

/// The most bytes that are taken from one connection.
pub const TAKEN_MAX: u64 = 1 << 62;

/// What a session keeps.
#[derive(Drop)]
pub struct Session {
    pub talk: Talk,
    /// How many bytes were taken.
    pub taken: u64,
}

/// Serves one connection, whose turns are all of the first seat: the greeting, and then for each piece that is read the
/// replies that are due to the lines that end in it, before the next is read. It waits for nobody.
pub fn pipe_session<K: Kept, S: Source, O: Sink>(
    alloc: Global,
    kept: &mut K,
    talk: Talk,
    input: &mut S,
    output: &mut O,
) -> Ended
    requires { talk ≡ opened talk.gate }
    ensures { (history : List Entry) × Turned
        (keeping (K.server kept.old) (K.doubt kept.old) (K.moments kept.old) (K.words kept.old)
        (K.faults_a kept.old) (K.faults_b kept.old)
        (disks (K.moment_a kept.old) (K.images_a kept.old) (K.moment_b kept.old) (K.images_b kept.old)))
        (keeping (K.server kept.new) (K.doubt kept.new) (K.moments kept.new) (K.words kept.new)
        (K.faults_a kept.new) (K.faults_b kept.new)
        (disks (K.moment_a kept.new) (K.images_a kept.new) (K.moment_b kept.new) (K.images_b kept.new)))
        history
        × IsSession talk.gate result history
        (wire (S.supply input.old) (O.written output.old))
        (wire (S.supply input.new) (O.written output.new)) }
{
    let mut session = Session { talk, taken: 0 };
    if let Err(ended) = send(&mut session.talk, output) {
        return ended;
    }
    'pieces: loop {
        if let Err(ended) = serve_piece(alloc, kept, &mut session, input, output) {
            return ended;
        }
    }
}

/// Reads one piece and answers the lines that end in it. The input's end is `Closed`, and so is the
/// client's end of the talk.
fn serve_piece<K: Kept, S: Source, O: Sink>(
    alloc: Global,
    kept: &mut K,
    session: &mut Session,
    input: &mut S,
    output: &mut O,
) -> Result<(), Ended>
    requires { session.old.talk.asked ≡ false }
    ensures served { (made : List Entry) × Turned
        (keeping (K.server kept.old) (K.doubt kept.old) (K.moments kept.old) (K.words kept.old)
        (K.faults_a kept.old) (K.faults_b kept.old)
        (disks (K.moment_a kept.old) (K.images_a kept.old) (K.moment_b kept.old) (K.images_b kept.old)))
        (keeping (K.server kept.new) (K.doubt kept.new) (K.moments kept.new) (K.words kept.new)
        (K.faults_a kept.new) (K.faults_b kept.new)
        (disks (K.moment_a kept.new) (K.images_a kept.new) (K.moment_b kept.new) (K.images_b kept.new)))
        made
        × ((gate : Gate) (first : Wire) (history : List Entry) → IsBetweenReads gate first
        (wire (S.supply input.old) (O.written output.old)) history session.old
        → let now = wire (S.supply input.new) (O.written output.new) in
        MatchResult result (λ _. IsBetweenReads gate first now (history ++ made) session.new)
        (λ ended. IsSession gate ended (history ++ made) first now)) }
    ensures asked { OnOk result (session.new.talk.asked ≡ false) }
    ensures goes_on { OnOk result (session.old.taken < session.new.taken) }
    ensures within { OnOk result (session.new.taken ≤ TAKEN_MAX) }
{
    if session.taken >= TAKEN_MAX {
        return Err(Ended::Spent);
    }
    let mut piece = [0; PIECE_MAX];
    let count = read_piece(input, &mut piece, TAKEN_MAX - session.taken)?;
    if count == 0 {
        return Err(Ended::Closed);
    }
    take_in(session, &piece[..count])?;
    serve_lines(alloc, kept, session, output)
}

/// Reads the next bytes into the piece: at most as many as it holds, and as there is room for.
fn read_piece<S: Source>(input: &mut S, piece: &mut [u8], room: u64) -> Result<usize, Ended>
    requires holds { 0 < length piece.old }
    requires room { 0 < room }
    ensures count { IfOk result (λ count. (count ≤ length piece.new) × (count ≤ room)) }
    ensures took { IfOk result (λ count.
        Took (S.supply input.old).left (take count piece.new) (S.supply input.new).left) }
    ensures last { IfOk result (λ count.
        WasGiven (S.supply input.old).last (take count piece.new) (S.supply input.new).last) }
    ensures end { result ≡ Ok 0 → IsAtEnd (S.supply input.old).left }
    ensures stays { OnOk result ((S.supply input.new).faults ≡ (S.supply input.old).faults) }
    ensures err { IfErr result (λ ended. (ended ≡ ReadFault)
        × Rose (S.supply input.old).faults (S.supply input.new).faults) }
    ensures same { OnErr result ((S.supply input.new).left ≡ (S.supply input.old).left) }
    ensures again { OnErr result ((S.supply input.new).last ≡ (S.supply input.old).last) }
{
    let asked = room.min(piece.len() as u64) as usize;
    match input.take(&mut piece[..asked]) {
        Ok(count) => Ok(count),
        Err(_) => Err(Ended::ReadFault),
    }
}

/// Takes in one piece.
fn take_in(session: &mut Session, piece: &[u8]) -> Result<(), Ended>
    requires asked { session.old.talk.asked ≡ false }
    requires room { session.old.taken + length piece.now ≤ TAKEN_MAX }
    ensures ok { OnOk result (session.new ≡ record session.old {
      talk = fed session.old.talk piece.now;
      taken = session.old.taken + length piece.now;
    }) }
    ensures err { IfErr result (λ ended. ended ≡ NoMemory) }
{
    session.talk.feed(piece)?;
    session.taken += piece.len() as u64;
    Ok(())
}
