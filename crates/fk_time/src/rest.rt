ghost use Rattle.std.specs.Prelude.{◌≡◌, ◌≤◌, length, IfSome};
ghost use Rattle.fk_time.specs.Places.{offset_start, are_digits, fraction_at, ahead_at, offset_length_at};
ghost use Rattle.fk_time.specs.Reading.{thousandths, digit_at};

use crate::front::pair_at;

// What stands behind the seconds: a fraction, which may be missing, and the offset from UTC.

// Where the offset begins: one byte before the end for a letter, and else six.
#[tactic(auto, unfolding(crate::specs::Places::offset_start))]
pub(crate) fn offset_start(rest: &[u8]) -> usize
    ensures value { result ≡ offset_start rest.now }
    ensures bound { result ≤ length rest.now }
{
    match rest.last() {
        Some(b'Z' | b'z') => rest.len() - 1,
        _ => rest.len().saturating_sub(6),
    }
}

// The milliseconds of a point and one or more digits, or of nothing.
#[tactic(auto, unfolding(crate::specs::Places::fraction_at))]
pub(crate) fn fraction_of(text: &[u8]) -> Option<u16>
    ensures { result ≡ fraction_at text.now }
{
    match text {
        [] => Some(0),
        [b'.', digits @ ..] => {
            if are_digits(digits) {
                Some(thousandths(digits))
            } else {
                None
            }
        }
        [_, ..] => None,
    }
}

fn are_digits(text: &[u8]) -> bool
    ensures { result ≡ are_digits text.now }
{
    !text.is_empty() && text.iter().all(|byte| byte.is_ascii_digit())
}

fn thousandths(digits: &[u8]) -> u16
    ensures value { result ≡ thousandths digits.now }
{
    digit_at(digits, 0) * 100 + digit_at(digits, 1) * 10 + digit_at(digits, 2)
}

// A digit of a fraction; a missing one is 0.
fn digit_at(digits: &[u8], place: usize) -> u16
    ensures value { result ≡ digit_at digits.now place }
    ensures bound { result ≤ 255 }
{
    match digits.get(place) {
        Some(digit) => digit.saturating_sub(b'0') as u16,
        None => 0,
    }
}

// How far a clock with this offset is ahead of UTC, in milliseconds.
#[tactic(auto, unfolding(crate::specs::Places::ahead_at))]
pub(crate) fn ahead_of(offset: &[u8]) -> Option<i32>
    ensures value { result ≡ ahead_at offset.now }
{
    match offset {
        [b'Z' | b'z'] => Some(0),
        [b'+', time @ ..] => Some(offset_length(time)? as i32),
        [b'-', time @ ..] => Some(-(offset_length(time)? as i32)),
        _ => None,
    }
}

// The milliseconds of hours and minutes.
#[tactic(auto, unfolding(crate::specs::Places::offset_length_at))]
fn offset_length(time: &[u8]) -> Option<u32>
    ensures value { result ≡ offset_length_at time.now }
    ensures bound { IfSome result (λ n. n ≤ 86_340_000) }
{
    if time.len() != 5 || time[2] != b':' {
        return None;
    }
    let hours = pair_at(time, 0)?;
    let minutes = pair_at(time, 3)?;
    if hours > 23 || minutes > 59 {
        return None;
    }
    Some(hours as u32 * 3_600_000 + minutes as u32 * 60_000)
}
