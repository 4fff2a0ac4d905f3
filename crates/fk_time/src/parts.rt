ghost use Rattle.std.specs.Prelude.{◌≡◌, ◌≤◌, ◌+ℤ◌, ◌-ℤ◌, ◌*ℤ◌, pos, IsSome, IfSome, Some};
ghost use Rattle.jiff_core.specs.Calendar.{IsCivilDate, IsEpochDay, days_from_civil};
ghost use Rattle.fk_time.specs.Moments.{day_length};
ghost use Rattle.fk_time.specs.Reading.{moment_of};
ghost use Rattle.fk_time.specs.Places.{IsShort, IsTime, parts_at, clock_at, moment_at};

use crate::front::{Front, front_of};
use crate::rest::{ahead_of, fraction_of, offset_start};
use crate::writing::{DAY_LENGTH, GREATEST};
use jiff::civil::Date;

/// What stands in a text: its numbers, the milliseconds of its fraction, and how far its clock is
/// ahead of UTC, in milliseconds.
#[derive(Clone, Copy)]
pub(crate) struct Parts {
    pub front: Front,
    pub millisecond: u16,
    pub ahead: i32,
}

// The parts of a text, of which the date and the time of day may still be none.
#[tactic(auto, unfolding(crate::specs::Places::parts_at))]
pub(crate) fn parts_of(text: &[u8]) -> Option<Parts>
    ensures value { result ≡ parts_at text.now }
    ensures bound { IfSome result (λ p. IsShort p.front) }
{
    if text.len() < 19 {
        return None;
    }
    let front = front_of(text)?;
    let rest = &text[19..];
    let (fraction, offset) = rest.split_at(offset_start(rest));
    let millisecond = fraction_of(fraction)?;
    let ahead = ahead_of(offset)?;
    Some(Parts {
        front,
        millisecond,
        ahead,
    })
}

impl Parts {
    /// The moment of the parts, if the calendar has the date and a clock shows the time.
    pub(crate) fn moment(self) -> Option<u64>
        requires { IsShort self.front }
        ensures some { IfSome result (λ moment. IsTime self.front × (moment ≡ moment_at self)) }
        ensures only { IsTime self.front → result ≡ Some (moment_at self) }
    {
        let day = day_of(self.front)?;
        let clock = clock_of(self.front)? + self.millisecond as u32;
        Some(capped(since_epoch(day, clock, self.ahead)))
    }
}

// The day number, if the calendar has the date.
fn day_of(front: Front) -> Option<i32>
    requires { IsShort front }
    ensures some { IfSome result (λ _. IsCivilDate (pos front.year) front.month front.day) }
    ensures value { IfSome result (λ day.
        day ≡ days_from_civil (pos front.year) front.month front.day) }
    ensures bound { IfSome result IsEpochDay }
    ensures only { IsCivilDate (pos front.year) front.month front.day → IsSome result }
{
    match Date::new(front.year as i16, front.month as i8, front.day as i8) {
        Ok(date) => Some(date.to_plain().to_unix_epoch_day()),
        Err(_) => None,
    }
}

// The milliseconds since midnight, if a clock shows the time. Second 60 counts as 59.
fn clock_of(front: Front) -> Option<u32>
    ensures some { IfSome result (λ _.
        (front.hour ≤ 23) × (front.minute ≤ 59) × (front.second ≤ 60)) }
    ensures value { IfSome result (λ clock. clock ≡ clock_at front) }
    ensures only { front.hour ≤ 23 → front.minute ≤ 59 → front.second ≤ 60 → IsSome result }
{
    if front.hour > 23 || front.minute > 59 || front.second > 60 {
        return None;
    }
    let second = front.second.min(59);
    Some(front.hour as u32 * 3_600_000 + front.minute as u32 * 60_000 + second as u32 * 1000)
}

// The milliseconds since 1970-01-01T00:00:00Z.
fn since_epoch(day: i32, clock: u32, ahead: i32) -> i64
    requires { IsEpochDay day }
    ensures value { result ≡ day *ℤ pos day_length +ℤ pos clock -ℤ ahead }
{
    day as i64 * DAY_LENGTH as i64 + clock as i64 - ahead as i64
}

// No moment is below 0 or above the greatest.
fn capped(milliseconds: i64) -> u64
    ensures value { result ≡ moment_of milliseconds }
{
    if milliseconds < 0 {
        0
    } else {
        (milliseconds as u64).min(GREATEST)
    }
}
