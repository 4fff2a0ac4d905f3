// Numbers that are read from the front of bytes, each within its bounds.
ghost use Rattle.std.specs.Prelude.{◌≡◌, ◌≤◌, length, replicate, if◌then◌else◌};
ghost use Rattle.fk_moves.specs.Fields.{Gives, StopsAs, within};
ghost use Rattle.fk_moves.specs.Parts.{between, choice, count, flag, moment, optional, retry, retry_bytes, some_count, word};

use crate::stop::Stop;
use fk_time::GREATEST;

const ZEROS: [u8; 8] = [0; 8];

const GREATEST_BYTES: [u8; 8] = [255; 8];

/// A byte from a least to a greatest.
#[tactic(auto, unfolding(crate::specs::Parts::choice))]
pub(crate) fn read_choice(bytes: &[u8], least: u8, most: u8) -> Result<(u8, &[u8]), Stop>
    ensures { Gives result ((choice least most).read bytes.now) }
{
    match bytes {
        [] => Err(Stop::At(0)),
        [byte, rest @ ..] if least <= *byte && *byte <= most => Ok((*byte, rest)),
        [_, ..] => Err(Stop::At(bytes.len())),
    }
}

/// Any number of 64 bits.
#[tactic(auto, unfolding(crate::specs::Parts::word))]
pub(crate) fn read_word(bytes: &[u8]) -> Result<(u64, &[u8]), Stop>
    ensures { Gives result (word.read bytes.now) }
{
    if bytes.len() < 8 {
        return Err(Stop::At(0));
    }
    let (front, rest) = bytes.split_at(8);
    let number = u64::from_be_bytes([
        front[0], front[1], front[2], front[3], front[4], front[5], front[6], front[7],
    ]);
    Ok((number, rest))
}

/// Any number of 32 bits.
#[tactic(auto, unfolding(crate::specs::Parts::count))]
pub(crate) fn read_count(bytes: &[u8]) -> Result<(u32, &[u8]), Stop>
    ensures { Gives result (count.read bytes.now) }
{
    if bytes.len() < 4 {
        return Err(Stop::At(0));
    }
    let (front, rest) = bytes.split_at(4);
    let number = u32::from_be_bytes([front[0], front[1], front[2], front[3]]);
    Ok((number, rest))
}

/// Whether bytes begin with so many that lie from a least to a greatest, in the order of numbers.
#[tactic(auto, unfolding(crate::specs::Fields::within))]
fn read_within(bytes: &[u8], least: &[u8], most: &[u8]) -> Result<(), Stop>
    requires same { length least.now ≡ length most.now }
    requires short { length least.now ≤ 8 }
    ensures { StopsAs result ((within (length least.now) least.now most.now).read bytes.now) }
{
    let ([low, least_rest @ ..], [high, most_rest @ ..]) = (least, most) else {
        return Ok(());
    };
    match bytes {
        [] => Err(Stop::At(0)),
        [byte, rest @ ..] if *low <= *byte && *byte <= *high => {
            let least = behind_least(*byte == *low, least_rest);
            let most = behind_most(*byte == *high, most_rest);
            read_within(rest, least, most)
        }
        [_, ..] => Err(Stop::At(bytes.len())),
    }
}

/// The least bytes behind one that is that of the bound, or above it.
fn behind_least(is_same: bool, least: &[u8]) -> &[u8]
    requires { length least.now ≤ 8 }
    ensures { result.now ≡ (if is_same then least.now else replicate (length least.now) 0) }
{
    if is_same {
        least
    } else {
        &ZEROS[..least.len()]
    }
}

/// The greatest bytes behind one that is that of the bound, or below it.
fn behind_most(is_same: bool, most: &[u8]) -> &[u8]
    requires { length most.now ≤ 8 }
    ensures { result.now ≡ (if is_same then most.now else replicate (length most.now) 255) }
{
    if is_same {
        most
    } else {
        &GREATEST_BYTES[..most.len()]
    }
}

/// A number of 64 bits from a least to a greatest.
#[tactic(auto, unfolding(crate::specs::Parts::between, crate::specs::Spelling::word_bytes))]
pub(crate) fn read_between(bytes: &[u8], least: u64, most: u64) -> Result<(u64, &[u8]), Stop>
    ensures { Gives result ((between least most).read bytes.now) }
{
    read_within(bytes, &least.to_be_bytes(), &most.to_be_bytes())?;
    read_word(bytes)
}

/// A moment, in milliseconds since 1970-01-01T00:00:00Z.
pub(crate) fn read_moment(bytes: &[u8]) -> Result<(u64, &[u8]), Stop>
    ensures { Gives result (moment.read bytes.now) }
{
    read_between(bytes, 0, GREATEST)
}

/// How many there are, one at least.
#[tactic(auto, unfolding(crate::specs::Parts::some_count))]
pub(crate) fn read_some_count(bytes: &[u8]) -> Result<(u32, &[u8]), Stop>
    ensures { Gives result (some_count.read bytes.now) }
{
    read_within(bytes, &[0, 0, 0, 1], &GREATEST_BYTES[..4])?;
    read_count(bytes)
}

/// Whether bytes begin with those of a number that is -1 or more.
#[tactic(auto, unfolding(crate::specs::Parts::retry_bytes))]
fn read_retry_bytes(bytes: &[u8]) -> Result<(), Stop>
    ensures { StopsAs result (retry_bytes.read bytes.now) }
{
    match bytes {
        [] => Err(Stop::At(0)),
        [255, rest @ ..] => read_within(rest, &GREATEST_BYTES[..7], &GREATEST_BYTES[..7]),
        [first, rest @ ..] if *first <= 127 => {
            read_within(rest, &ZEROS[..7], &GREATEST_BYTES[..7])
        }
        [_, ..] => Err(Stop::At(bytes.len())),
    }
}

/// How often a job is tried again.
#[tactic(auto, unfolding(crate::specs::Parts::retry))]
pub(crate) fn read_retry(bytes: &[u8]) -> Result<(i64, &[u8]), Stop>
    ensures { Gives result (retry.read bytes.now) }
{
    read_retry_bytes(bytes)?;
    let (number, rest) = read_word(bytes)?;
    Ok((number.cast_signed(), rest))
}

/// Whether something is so.
#[tactic(auto, unfolding(crate::specs::Parts::flag))]
pub(crate) fn read_flag(bytes: &[u8]) -> Result<(bool, &[u8]), Stop>
    ensures { Gives result (flag.read bytes.now) }
{
    let (bit, rest) = read_choice(bytes, 0, 1)?;
    Ok((bit == 1, rest))
}

/// A moment, or that there is none.
#[tactic(auto, unfolding(crate::specs::Parts::optional))]
pub(crate) fn read_moment_or_none(bytes: &[u8]) -> Result<(Option<u64>, &[u8]), Stop>
    ensures { Gives result ((optional moment).read bytes.now) }
{
    let (bit, rest) = read_choice(bytes, 0, 1)?;
    if bit == 0 {
        return Ok((None, rest));
    }
    let (moment, rest) = read_moment(rest)?;
    Ok((Some(moment), rest))
}
