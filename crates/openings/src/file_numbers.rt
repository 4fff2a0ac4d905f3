// What the bytes of a file tell that a store was opened on.

/// The numbers of a file whose pieces end at a closed gate.
#[derive(Clone, Copy)]
pub struct FileNumbers {
    pub generation: u64,
    /// The number of the next piece.
    pub number: u64,
    /// The place behind the closed gate.
    pub size: usize,
    /// The next number of the kept state.
    pub next: u64,
}

/// The length of the header, and of what stands in front of a piece's moves.
const HEADER: usize = 34;

const PIECE: usize = 17;

/// The numbers of a file. The last of its moves tells the next number, 24 bytes before the closed gate.
pub fn numbers_in(file: &[u8]) -> Option<FileNumbers> {
    let mut gate = length_at(file, 26)?.checked_add(HEADER)?;
    let mut number = number_at(file, 18)?.checked_add(1)?;
    for _ in 0..file.len() {
        if *file.get(gate)? != 1 {
            break;
        }
        let length = length_at(file, gate.checked_add(9)?)?;
        gate = gate.checked_add(PIECE)?.checked_add(length)?;
        number = number.checked_add(1)?;
    }
    Some(FileNumbers {
        generation: number_at(file, 10)?,
        number,
        size: gate.checked_add(1)?,
        next: number_at(file, gate.checked_sub(24)?)?,
    })
}

/// The number of the eight bytes at a place.
fn number_at(file: &[u8], at: usize) -> Option<u64> {
    let bytes = file.get(at..)?.first_chunk::<8>()?;
    Some(u64::from_be_bytes(*bytes))
}

/// The number of the eight bytes at a place, as a length.
fn length_at(file: &[u8], at: usize) -> Option<usize> {
    usize::try_from(number_at(file, at)?).ok()
}
