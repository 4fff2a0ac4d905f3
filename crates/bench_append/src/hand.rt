use crate::fault::Fault;
use crate::pieces::moves_of;
use crate::words::Size;
use fk_disk::{Disk, FileDisk};
use fk_journal::frame;
use fk_json::Buffer;
use std::alloc::Global;
use std::fs::File;
use std::rt::Files;

/// Puts as many pieces into a new file as an append to a journal does, each by the same two writes and
/// two syncs, and answers how many.
pub(crate) fn append_all<R: Files<File = File> + Drop>(
    alloc: Global,
    mut disk: FileDisk<R>,
    size: Size,
) -> Result<u64, Fault> {
    disk.write_at(0, &[0])?;
    disk.sync()?;
    let moves = moves_of(alloc, size.length)?;
    let mut piece = Buffer::new(alloc);
    let mut gate: u64 = 0;
    let mut put: u64 = 0;
    for number in 1..=u64::from(size.count) {
        piece.clear();
        frame(&mut piece, number, &moves)?;
        disk.write_at(gate.saturating_add(1), piece.bytes())?;
        disk.sync()?;
        disk.write_at(gate, &[1])?;
        disk.sync()?;
        gate = gate.saturating_add(piece.len() as u64);
        put = put.saturating_add(1);
    }
    Ok(put)
}
