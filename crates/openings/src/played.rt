// A case that is played.
use crate::case::Case;
use crate::step::{Step, ask_of};
use fk_cases::{Failing, ScriptFault, clock_of, dice_of};
use fk_desk::Kept;
use fk_disk::{Disk, MemoryDisk};
use fk_io::{ListClock, ListDice};
use fk_journal::{File, OpenFault};
use fk_model::{Answer, Compaction, Told};
use fk_store::{OpenRefused, Store};
use std::alloc::{AllocError, Global};

/// The most calls of one disk that a case may make.
pub const CALLS_MAX: u64 = 65_536;

/// What a case came to.
#[derive(Drop)]
pub struct Played {
    /// Why the store wasn't opened.
    pub refused: Option<OpenFault>,
    pub answers: Vec<Answer>,
    /// What the last turn told of itself.
    pub told: Told,
    pub a: MemoryDisk,
    pub b: MemoryDisk,
}

impl Played {
    /// Whether a call of a disk failed.
    pub fn has_faults(&self) -> bool {
        self.a.faults() > 0 || self.b.faults() > 0
    }

    /// The disk of a file.
    pub fn disk(&self, file: File) -> &MemoryDisk {
        match file {
            File::A => &self.a,
            File::B => &self.b,
        }
    }
}

/// Plays a case with its own failing calls, which are counted from the first behind the opening.
pub fn play_own(alloc: Global, case: &Case) -> Result<Played, ScriptFault> {
    let failing = Failing {
        a: numbers_behind(alloc, case, File::A, &case.failing.a)?,
        b: numbers_behind(alloc, case, File::B, &case.failing.b)?,
    };
    play(alloc, case, &failing, usize::MAX)
}

/// The numbers of calls that are counted from the first behind the opening.
fn numbers_behind(
    alloc: Global,
    case: &Case,
    file: File,
    numbers: &[u64],
) -> Result<Vec<u64>, ScriptFault> {
    if numbers.is_empty() {
        return Ok(Vec::new(alloc));
    }
    let count = opening_calls(alloc, case, file)?;
    Ok(behind(alloc, numbers, count)?)
}

/// These numbers, each greater by so many.
fn behind(alloc: Global, numbers: &[u64], count: u64) -> Result<Vec<u64>, AllocError> {
    let mut greater = Vec::new(alloc);
    for number in numbers {
        greater.push(number.saturating_add(count))?;
    }
    Ok(greater)
}

/// How often opening calls a file's disk: the least number of a call that may fail without refusing it.
fn opening_calls(alloc: Global, case: &Case, file: File) -> Result<u64, ScriptFault> {
    for number in 0..CALLS_MAX {
        let failing = Failing::one(alloc, file, number)?;
        if !play(alloc, case, &failing, 0)?.has_faults() {
            return Ok(number);
        }
    }
    Err(ScriptFault::TooManyCalls)
}

/// Plays a case up to so many turns, with these calls failing.
pub fn play(
    alloc: Global,
    case: &Case,
    failing: &Failing,
    turns: usize,
) -> Result<Played, ScriptFault> {
    let a = MemoryDisk::new(alloc, &case.a, &failing.a)?;
    let b = MemoryDisk::new(alloc, &case.b, &failing.b)?;
    let clock = clock_of(alloc, &case.moments)?;
    let dice = dice_of(alloc, &case.dice)?;
    match Store::open(alloc, a, b, clock, dice) {
        Ok(store) => take_turns(alloc, store, &case.steps, turns),
        Err(refused) => refused_with(alloc, refused),
    }
}

fn refused_with(alloc: Global, refused: OpenRefused<MemoryDisk>) -> Result<Played, ScriptFault> {
    let OpenRefused { cause, a, b } = refused;
    if cause == OpenFault::NoMemory || is_starved(&a, &b) {
        return Err(ScriptFault::NoMemory);
    }
    Ok(Played {
        refused: Some(cause),
        answers: Vec::new(alloc),
        told: Told {
            moment: 0,
            word: 0,
            before: 0,
            after: 0,
            compaction: Compaction::NotDue,
        },
        a,
        b,
    })
}

/// A store over disks in memory.
type MemoryStore = Store<MemoryDisk, ListClock, ListDice>;

fn take_turns(
    alloc: Global,
    mut store: MemoryStore,
    steps: &[Step],
    turns: usize,
) -> Result<Played, ScriptFault> {
    let mut answers = Vec::new(alloc);
    let taken = take_steps(alloc, &mut store, steps, turns, &mut answers);
    let told = store.told();
    let (a, b) = store.close();
    taken?;
    played_on(answers, told, a, b)
}

/// What the turns came to, where no disk was short of memory.
fn played_on(
    answers: Vec<Answer>,
    told: Told,
    a: MemoryDisk,
    b: MemoryDisk,
) -> Result<Played, ScriptFault> {
    if is_starved(&a, &b) {
        return Err(ScriptFault::NoMemory);
    }
    Ok(Played {
        refused: None,
        answers,
        told,
        a,
        b,
    })
}

/// Takes the first steps, up to so many, and adds what each was answered.
fn take_steps(
    alloc: Global,
    store: &mut MemoryStore,
    steps: &[Step],
    turns: usize,
    answers: &mut Vec<Answer>,
) -> Result<(), ScriptFault> {
    let mut name = b"".as_slice();
    for step in steps.iter().take(turns) {
        if let Step::Hello(said) = step {
            name = said.as_bytes();
        }
        answers.push(take_step(alloc, store, step, name)?)?;
    }
    Ok(())
}

fn take_step(
    alloc: Global,
    store: &mut MemoryStore,
    step: &Step,
    name: &[u8],
) -> Result<Answer, ScriptFault> {
    let ask = ask_of(alloc, step, name)?;
    Ok(store.turn(alloc, 0, ask))
}

/// Whether a disk failed for want of memory.
fn is_starved(a: &MemoryDisk, b: &MemoryDisk) -> bool {
    a.starved() > 0 || b.starved() > 0
}
