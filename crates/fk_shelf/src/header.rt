// The header of a file.
ghost use Rattle.std.specs.Prelude.{◌≡◌, ◌↔◌, ℕ, ◌+◌, ◌≤◌, ◌<◌, length, take, drop, None, IfErr, IfOk, IfSome, IsTrue};
ghost use Rattle.fk_lives.specs.Files.{IsGeneration};
ghost use Rattle.fk_lives.specs.Damages.{HasBase, HasGeneration, HasHeader, HasNumber, IsHeaderDamagedAt};
ghost use Rattle.fk_journal.specs.Limits.{greatest_number};

use fk_journal::GREATEST_NUMBER;
use fk_lives::Header;

/// The bytes by which a file is known, behind its own gate.
pub(crate) const MAGIC: [u8; 8] = *b"FKJOURNL";

/// The version of the format.
pub(crate) const VERSION: u8 = 1;

/// The bytes of a file before its snapshot: its own gate and the header.
pub(crate) const SNAPSHOT_AT: usize = 34;

const MAGIC_AT: usize = 1;

const VERSION_AT: usize = 9;

const GENERATION_AT: usize = 10;

const BASE_AT: usize = 18;

const LENGTH_AT: usize = 26;

/// The header in the first bytes of a file, of which at most 34 are looked at, or the place of the first
/// field that is cut or wrong.
pub(crate) fn header_in(file: &[u8]) -> Result<Header, usize>
    ensures ok { IfOk result (λ header. HasHeader header file.now) }
    ensures err { IfErr result (λ at. IsHeaderDamagedAt at file.now) }
{
    if !has_bytes(file, MAGIC_AT, &MAGIC) {
        return Err(MAGIC_AT);
    }
    if !has_bytes(file, VERSION_AT, &[VERSION]) {
        return Err(VERSION_AT);
    }
    let generation = generation_in(file)?;
    let base = base_in(file)?;
    let length = number_in(file, LENGTH_AT)?;
    Ok(Header {
        generation,
        base,
        length,
    })
}

/// The generation, or its place where it is cut or wrong.
fn generation_in(file: &[u8]) -> Result<u64, usize>
    ensures ok { IfOk result (λ number. HasNumber 10 number file.now × IsGeneration number) }
    ensures err { IfErr result (λ at. (at ≡ 10) × (¬ HasGeneration file.now)) }
{
    let generation = number_in(file, GENERATION_AT)?;
    if !is_generation(generation) {
        return Err(GENERATION_AT);
    }
    Ok(generation)
}

fn is_generation(number: u64) -> bool
    ensures { IsTrue result ↔ IsGeneration number }
{
    number > 0 && number <= GREATEST_NUMBER
}

/// The number of the last piece before the file, or its place where it is cut or wrong.
fn base_in(file: &[u8]) -> Result<u64, usize>
    ensures ok { IfOk result (λ number. HasNumber 18 number file.now × (number ≤ greatest_number)) }
    ensures err { IfErr result (λ at. (at ≡ 18) × (¬ HasBase file.now)) }
{
    let base = number_in(file, BASE_AT)?;
    if base > GREATEST_NUMBER {
        return Err(BASE_AT);
    }
    Ok(base)
}

/// Whether these bytes stand at a place.
fn has_bytes(file: &[u8], at: usize, bytes: &[u8]) -> bool
    requires some { 0 < length bytes.now }
    ensures { IsTrue result ↔ (take (length bytes.now) (drop at file.now) ≡ bytes.now) }
{
    match part_at(file, at, bytes.len()) {
        Some(part) => part == bytes,
        None => false,
    }
}

/// The number of eight bytes at a place, the highest byte first, or the place where it is cut.
#[tactic(auto, using(crate::proofs::Numbers::no_number, crate::proofs::Numbers::number_here))]
fn number_in(file: &[u8], at: usize) -> Result<u64, usize>
    ensures ok { IfOk result (λ number. HasNumber at number file.now) }
    ensures cut { IfErr result (λ place. (place ≡ at) × ((number : ℕ) → ¬ HasNumber at number file.now)) }
{
    match part_at(file, at, 8) {
        Some(part) => {
            let mut bytes = [0; 8];
            bytes.copy_from_slice(part);
            Ok(u64::from_be_bytes(bytes))
        }
        None => Err(at),
    }
}

/// So many bytes from a place on, where there are as many.
fn part_at(file: &[u8], at: usize, count: usize) -> Option<&[u8]>
    ensures some { IfSome result (λ part. part.now ≡ take count (drop at file.now)) }
    ensures count { IfSome result (λ part. length part.now ≡ count) }
    ensures inside { IfSome result (λ part. at + count ≤ length file.now) }
    ensures none { result ≡ None → length file.now < at + count }
{
    file.get(at..)?.get(..count)
}
