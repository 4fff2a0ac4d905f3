use crate::fault::Fault;
use crate::words::Size;
use fk_journal::frame;
use fk_json::Buffer;
use std::alloc::{AllocError, Global};

/// Moves of so many bytes. No reader of moves sees them.
pub(crate) fn moves_of(alloc: Global, length: u32) -> Result<Vec<u8>, AllocError> {
    vec![in alloc; b'm'; length as usize]
}

/// Frames so many pieces, one after another into one buffer, and answers how many.
pub(crate) fn frame_all(alloc: Global, size: Size) -> Result<u64, Fault> {
    let moves = moves_of(alloc, size.length)?;
    let mut piece = Buffer::new(alloc);
    let mut framed: u64 = 0;
    for number in 0..u64::from(size.count) {
        piece.clear();
        frame(&mut piece, number, &moves)?;
        framed = framed.saturating_add(1);
    }
    Ok(framed)
}
