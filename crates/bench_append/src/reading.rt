use crate::fault::Fault;
use crate::words::Size;
use fk_disk::Disk;
use fk_journal::{File, Journal, Replay};
use fk_json::Buffer;
use std::alloc::Global;

/// Reads a file of so many pieces from its start to its end, so many times, and answers how many pieces
/// it read.
pub(crate) fn read_all<D: Disk + Drop>(
    alloc: Global,
    mut disk: D,
    size: Size,
    times: u32,
) -> Result<u64, Fault> {
    let mut moves = Buffer::new(alloc);
    let mut read: u64 = 0;
    for _ in 0..times {
        let mut journal = Journal::over(disk, File::A, 0, 0);
        read = read.saturating_add(read_once(&mut journal, &mut moves, size.count)?);
        disk = journal.finish();
    }
    Ok(read)
}

/// Reads at most so many pieces, up to the closed gate, and answers how many there were.
fn read_once<D: Disk>(
    journal: &mut Journal<D>,
    moves: &mut Buffer,
    most: u32,
) -> Result<u64, Fault> {
    let mut read: u64 = 0;
    for _ in 0..=most {
        match journal.replay_next(moves)? {
            Replay::Moves => read = read.saturating_add(1),
            Replay::Done => return Ok(read),
        }
    }
    Err(Fault::Disk)
}
