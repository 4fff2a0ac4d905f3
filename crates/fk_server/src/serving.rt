// One session over a store that is open, and what is answered where none is.
ghost use Rattle.std.specs.Prelude.{◌≡◌, ◌≤◌, List, IfOk, IfSome, None};
ghost use Rattle.fk_journal.specs.declared.fault.OpenFault.TheVariants.{Damaged, DiskFault};
ghost use Rattle.fk_lives.specs.Ways.{disks};
ghost use Rattle.fk_model.specs.declared.entry.Entry.{Entry};
ghost use Rattle.fk_talk.specs.Talks.{opened};
ghost use Rattle.fk_conn.specs.Session.{wire};
ghost use Rattle.fk_conn.specs.Turning.{keeping, Turned};
ghost use Rattle.fk_server.specs.Outside.{outside, seen};
ghost use Rattle.fk_server.specs.Serving.{gate_with, HasRefusal, IsSessionIfAny, ServesFrom, status_of, text_of};
ghost use Rattle.fk_server.specs.Piped.{gate_of};

use crate::finished::Finished;
use crate::words::Settings;
use fk_conn::pipe_session;
use fk_desk::Kept;
use fk_disk::Disk;
use fk_io::{Clock, Dice, Ended, Sink, Source};
use fk_journal::OpenFault;
use fk_json::Text;
use fk_store::{OpenRefused, Store};
use fk_talk::{Gate, Talk};
use std::alloc::{AllocError, Global};

/// The status for a failed call of a disk, while the store was opened.
const DISK_FAULT: u8 = 5;

/// The status for damaged files.
const DAMAGED: u8 = 6;

/// The status for want of memory.
pub(crate) const NO_MEMORY: u8 = 8;

/// Has an open store serve one session, by these settings and this salt, and closes it.
pub(crate) fn serve_over<S: Source, K: Sink, D: Disk, C: Clock + Drop, J: Dice + Drop>(
    alloc: Global,
    mut store: Store<D, C, J>,
    settings: &Settings,
    salt: u64,
    input: &mut S,
    output: &mut K,
) -> Finished<D>
    requires { 1 ≤ settings.now.iterations }
    ensures none { result.damage ≡ None }
    ensures served { ServesFrom (gate_of settings.now salt) result.status
        (keeping store.server store.doubt store.moments store.words
        (D.fault_count store.shelf.live.disk) (D.fault_count store.shelf.other)
        (disks (D.moment store.shelf.live.disk) (D.images store.shelf.live.disk)
        (D.moment store.shelf.other) (D.images store.shelf.other)))
        (wire (S.supply input.old) (K.written output.old))
        (outside (S.supply input.new) (K.written output.new)
        (seen (D.moment result.a) (D.images result.a) (D.told result.a) (D.content result.a) (D.fault_count result.a))
        (seen (D.moment result.b) (D.images result.b) (D.told result.b) (D.content result.b)
        (D.fault_count result.b))) }
{
    store.stands();
    let password = bytes_of(&settings.password);
    let rounds = settings.iterations;
    let ended = serve_session(alloc, &mut store, password, salt, rounds, input, output);
    let (a, b) = store.close();
    Finished {
        status: status_of(ended),
        damage: None,
        a,
        b,
    }
}

/// The bytes of a text, if there is one.
fn bytes_of(text: &Option<Text>) -> Option<&[u8]>
    ensures { text_of result ≡ text.now }
{
    match text {
        Some(text) => Some(text.bytes()),
        None => None,
    }
}

/// Serves one session over what keeps a state. Its memory is taken first.
fn serve_session<K: Kept, S: Source, O: Sink>(
    alloc: Global,
    kept: &mut K,
    password: Option<&[u8]>,
    salt: u64,
    rounds: u32,
    input: &mut S,
    output: &mut O,
) -> Ended
    requires { 1 ≤ rounds }
    ensures { (history : List Entry) × Turned
        (keeping (K.server kept.old) (K.doubt kept.old) (K.moments kept.old) (K.words kept.old)
        (K.faults_a kept.old) (K.faults_b kept.old)
        (disks (K.moment_a kept.old) (K.images_a kept.old) (K.moment_b kept.old) (K.images_b kept.old)))
        (keeping (K.server kept.new) (K.doubt kept.new) (K.moments kept.new) (K.words kept.new)
        (K.faults_a kept.new) (K.faults_b kept.new)
        (disks (K.moment_a kept.new) (K.images_a kept.new) (K.moment_b kept.new) (K.images_b kept.new)))
        history
        × IsSessionIfAny (gate_with (text_of password.entry) salt rounds) result history
        (wire (S.supply input.old) (O.written output.old))
        (wire (S.supply input.new) (O.written output.new)) }
{
    match talk_of(alloc, password, salt, rounds) {
        Ok(talk) => pipe_session(alloc, kept, talk, input, output),
        Err(_) => Ended::NoMemory,
    }
}

/// The talk behind a gate.
fn talk_of(
    alloc: Global,
    password: Option<&[u8]>,
    salt: u64,
    rounds: u32,
) -> Result<Talk, AllocError>
    requires { 1 ≤ rounds }
    ensures { IfOk result (λ talk.
        talk ≡ opened (gate_with (text_of password.entry) salt rounds)) }
{
    let password = match password {
        Some(bytes) => Some(Text::copy(alloc, bytes)?),
        None => None,
    };
    Talk::open(
        alloc,
        Gate {
            password,
            salt,
            rounds,
        },
    )
}

/// What is answered where the store can't be opened.
pub(crate) fn refuse<D>(refused: OpenRefused<D>) -> Finished<D>
    ensures refusal { HasRefusal result.status result.damage }
    ensures fault { result.status ≡ 5 → refused.cause ≡ DiskFault }
    ensures damaged { IfSome result.damage (λ damage. refused.cause ≡ Damaged damage) }
    ensures a { result.a ≡ refused.a }
    ensures b { result.b ≡ refused.b }
{
    let OpenRefused { cause, a, b } = refused;
    let (status, damage) = match cause {
        OpenFault::DiskFault => (DISK_FAULT, None),
        OpenFault::Damaged(damage) => (DAMAGED, Some(damage)),
        OpenFault::NoMemory => (NO_MEMORY, None),
    };
    Finished {
        status,
        damage,
        a,
        b,
    }
}

/// The exit status of a session's end.
fn status_of(ended: Ended) -> u8
    ensures { result ≡ status_of ended }
{
    match ended {
        Ended::Closed => 0,
        Ended::ReadFault => 3,
        Ended::WriteFault => 4,
        Ended::Spent => 7,
        Ended::NoMemory => 8,
    }
}
