ghost use Rattle.std.specs.Prelude.{◌≡◌, ◌≤◌, ◌⊎◌, ◌↔◌, IsSome, None};
ghost use Rattle.fk_server.specs.Words.{AreValid, settings_of};
ghost use Rattle.fk_server.specs.Outside.{outside, seen};
ghost use Rattle.fk_server.specs.Piped.{IsPiped, IsSalted, NothingFails};

use crate::finished::Finished;
use crate::serving::{NO_MEMORY, refuse, serve_over};
use crate::words::{Settings, WordsFault, read_words};
use fk_disk::Disk;
use fk_io::{Clock, Dice, Sink, Source};
use fk_store::Store;
use std::alloc::Global;

/// The status for words that aren't valid.
const USAGE: u8 = 2;

/// Serves one connection over an input and an output, without waiting for anybody, and keeps what it is told in the
/// files of two disks: it goes on from what they stand for, and blank ones are those of a new server. It hands the disks
/// back, and answers the exit status:
///
/// - 0 where the client ended the talk or the input ended,
/// - 2 where the words aren't valid,
/// - 3 where a read of the input failed, and 4 where a write of the output did,
/// - 5 where a call of a disk failed while the files were opened,
/// - 6 where a file is damaged, with the first damage and its place in bytes,
/// - 7 where 2^62 bytes were taken and more would be read,
/// - 8 where memory ran out: for the words, in opening, for the greeting, or for a piece, that is, for a line that is to
///   be answered or ends the talk, or for the bytes of one that goes on.
///
/// Where the words set a password, its salt is a word of the dice, the first that is rolled. The greeting is written
/// only where the files were opened. The client ends the talk by END, by a HELLO that is refused, or by a line that is
/// too long. Each line that asks for a turn has one made, with a moment of the clock and a word of the dice: what it
/// changes is on the disk before its answer is written. With 4 and 8 that is so of the first lines. What a crash leaves
/// at any moment stands for what the turns up to then made, with at most one command more; while the files are opened,
/// for what they may have stood for before.
pub fn pipe<S: Source, K: Sink, D: Disk, C: Clock + Drop, J: Dice + Drop>(
    alloc: Global,
    words: &[&str],
    input: &mut S,
    output: &mut K,
    a: D,
    b: D,
    clock: C,
    dice: J,
) -> Finished<D>
    // Status 2 comes exactly where the words aren't valid, but for want of memory, and then input, output and disks are
    // as before.
    ensures usage { result.status ≡ 2 → ¬ AreValid words.now }
    ensures refused { ¬ AreValid words.now → (result.status ≡ 2) ⊎ (result.status ≡ 8) }
    ensures untouched { ¬ AreValid words.now
        → (input.new ≡ input.old) × (output.new ≡ output.old)
        × (result.a ≡ a) × (result.b ≡ b) × (result.damage ≡ None) }

    // With valid words one run was made by what they say, or no server was opened.
    ensures served { AreValid words.now
        → IsPiped (settings_of words.now) result.status result.damage (C.moments clock) (J.words dice)
        (outside (S.supply input.old) (K.written output.old)
        (seen (D.moment a) (D.images a) (D.told a) (D.content a) (D.fault_count a))
        (seen (D.moment b) (D.images b) (D.told b) (D.content b) (D.fault_count b)))
        (outside (S.supply input.new) (K.written output.new)
        (seen (D.moment result.a) (D.images result.a) (D.told result.a) (D.content result.a) (D.fault_count result.a))
        (seen (D.moment result.b) (D.images result.b) (D.told result.b) (D.content result.b)
        (D.fault_count result.b))) }
    ensures damage { (result.status ≡ 6) ↔ IsSome result.damage }

    // With files that stand for a kept state, and fewer than 2^62 bytes to come, where nothing fails, it is served to its
    // end, but for want of memory.
    ensures complete { AreValid words.now → NothingFails
        (outside (S.supply input.old) (K.written output.old)
        (seen (D.moment a) (D.images a) (D.told a) (D.content a) (D.fault_count a))
        (seen (D.moment b) (D.images b) (D.told b) (D.content b) (D.fault_count b)))
        (outside (S.supply input.new) (K.written output.new)
        (seen (D.moment result.a) (D.images result.a) (D.told result.a) (D.content result.a) (D.fault_count result.a))
        (seen (D.moment result.b) (D.images result.b) (D.told result.b) (D.content result.b)
        (D.fault_count result.b)))
        → (result.status ≡ 0) ⊎ (result.status ≡ 8) }
{
    match read_words(alloc, words) {
        Ok(settings) => serve_by(alloc, settings, input, output, a, b, clock, dice),
        Err(WordsFault::Usage) => unserved(USAGE, a, b),
        Err(WordsFault::NoMemory) => unserved(NO_MEMORY, a, b),
    }
}

/// Serves one connection by these settings.
fn serve_by<S: Source, K: Sink, D: Disk, C: Clock + Drop, J: Dice + Drop>(
    alloc: Global,
    settings: Settings,
    input: &mut S,
    output: &mut K,
    a: D,
    b: D,
    clock: C,
    mut dice: J,
) -> Finished<D>
    requires { 1 ≤ settings.iterations }
    ensures served { IsPiped settings result.status result.damage (C.moments clock) (J.words dice)
        (outside (S.supply input.old) (K.written output.old)
        (seen (D.moment a) (D.images a) (D.told a) (D.content a) (D.fault_count a))
        (seen (D.moment b) (D.images b) (D.told b) (D.content b) (D.fault_count b)))
        (outside (S.supply input.new) (K.written output.new)
        (seen (D.moment result.a) (D.images result.a) (D.told result.a) (D.content result.a) (D.fault_count result.a))
        (seen (D.moment result.b) (D.images result.b) (D.told result.b) (D.content result.b)
        (D.fault_count result.b))) }
{
    let salt = salt_of(&settings, &mut dice);
    match Store::open(alloc, a, b, clock, dice) {
        Ok(store) => serve_over(alloc, store, &settings, salt, input, output),
        Err(refused) => refuse(refused),
    }
}

/// What is answered where nothing was called but the dice.
fn unserved<D>(status: u8, a: D, b: D) -> Finished<D>
    ensures { result ≡ record { status = status; damage = None; a = a; b = b } }
{
    Finished {
        status,
        damage: None,
        a,
        b,
    }
}

/// The salt of a greeting: where a password is set, a word of the dice is rolled for it.
fn salt_of<J: Dice>(settings: &Settings, dice: &mut J) -> u64
    ensures { IsSalted settings.now.password (J.words dice.old) result (J.words dice.new) }
{
    match &settings.password {
        Some(_) => dice.roll(),
        None => 0,
    }
}
