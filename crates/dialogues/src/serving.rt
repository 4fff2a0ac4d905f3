// One connection, served over two disks in memory.
use crate::left::Left;
use crate::narrow_sink::NarrowSink;
use crate::run::Run;
use fk_cases::{ScriptFault, clock_of, dice_of};
use fk_disk::MemoryDisk;
use fk_io::{ByteSink, ByteSource, Failed, Source};
use fk_journal::Damage;
use fk_server::{Finished, pipe};
use std::alloc::{AllocError, Global};

/// What a connection left.
#[derive(Drop)]
pub struct Outcome {
    pub status: u8,
    /// The damage for which its files weren't opened.
    pub damage: Option<Damage>,
    pub written: Vec<u8>,
    /// The bytes that stayed unread.
    pub unread: Vec<u8>,
    pub left: Left,
}

/// Serves a connection over its files.
pub fn serve(alloc: Global, run: &Run) -> Result<Outcome, ScriptFault> {
    let clock = clock_of(alloc, &run.moments)?;
    let dice = dice_of(alloc, &run.dice)?;
    let mut input = ByteSource::new(alloc, &run.input, &run.cuts, &run.failing_reads)?;
    let mut output = NarrowSink {
        to: ByteSink::new(alloc, &run.failing_writes)?,
        width: run.width,
    };
    let a = MemoryDisk::new(alloc, &run.files.a, &run.failing.a)?;
    let b = MemoryDisk::new(alloc, &run.files.b, &run.failing.b)?;
    let finished = pipe(
        alloc,
        &run.words,
        &mut input,
        &mut output,
        a,
        b,
        clock,
        dice,
    );
    let written = Vec::from_slice(alloc, output.to.bytes())?;
    outcome_of(finished, written, unread(alloc, &mut input)?)
}

/// What a connection left, where no disk was short of memory.
fn outcome_of(
    finished: Finished<MemoryDisk>,
    written: Vec<u8>,
    unread: Vec<u8>,
) -> Result<Outcome, ScriptFault> {
    let Finished {
        status,
        damage,
        a,
        b,
    } = finished;
    let left = Left { a, b };
    if left.is_starved() {
        return Err(ScriptFault::NoMemory);
    }
    Ok(Outcome {
        status,
        damage,
        written,
        unread,
        left,
    })
}

/// What a source still has.
fn unread(alloc: Global, source: &mut ByteSource) -> Result<Vec<u8>, AllocError> {
    let mut unread = Vec::new(alloc);
    let mut piece = [0; 4096];
    for _ in 0..u64::MAX {
        match source.take(&mut piece) {
            Ok(0) => break,
            Ok(count) => unread.extend_from_slice(&piece[..count])?,
            Err(Failed) => {}
        }
    }
    Ok(unread)
}
