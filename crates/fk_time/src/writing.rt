ghost use Rattle.std.specs.Prelude.{◌≡◌, ◌≤◌, ◌+◌, ◌/◌, ◌%◌, pos};
ghost use Rattle.jiff_core.specs.Calendar.{IsCivilDate, days_from_civil};
ghost use Rattle.jiff_core.specs.Date.{epoch_day};
ghost use Rattle.fk_time.specs.Moments.{greatest, day_length, digit, year_at, month_at, month_day_at, moment_text};
ghost use Rattle.fk_time.specs.Reading.{ReadsAs};

use jiff_core::civil::Date;

/// The greatest moment, in milliseconds since 1970-01-01T00:00:00Z.
pub const GREATEST: u64 = 250_000_000_000_000;

/// The milliseconds of a day.
pub(crate) const DAY_LENGTH: u64 = 86_400_000;

// 1970-01-01, in days since the first date of the calendar.
const EPOCH: u32 = 4_371_587;

// A date from 1970 on.
#[derive(Clone, Copy)]
struct Day {
    year: u16,
    month: u8,
    day: u8,
}

/// The one text of a moment, as `2023-11-14T22:13:20.000Z`. It takes no memory.
pub fn write_moment(moment: u64) -> [u8; 24]
    requires { moment ≤ greatest }
    ensures text { result ≡ moment_text moment }
    // Reading it gives the moment again.
    ensures reads { ReadsAs result moment }
{
    text_of(day_of(moment), moment)
}

// The text of a moment on its day.
#[tactic(auto, unfolding(crate::specs::Moments::moment_text))]
fn text_of(day: Day, moment: u64) -> [u8; 24]
    requires year { day.year ≡ year_at moment }
    requires month { day.month ≡ month_at moment }
    requires day { day.day ≡ month_day_at moment }
    ensures text { result ≡ moment_text moment }
{
    let year = day.year as u64;
    let (month, day) = (day.month as u64, day.day as u64);
    let hour = moment / 3_600_000 % 24;
    let minute = moment / 60_000 % 60;
    let second = moment / 1000 % 60;
    let millisecond = moment % 1000;
    [
        digit(year / 1000),
        digit(year / 100),
        digit(year / 10),
        digit(year),
        b'-',
        digit(month / 10),
        digit(month),
        b'-',
        digit(day / 10),
        digit(day),
        b'T',
        digit(hour / 10),
        digit(hour),
        b':',
        digit(minute / 10),
        digit(minute),
        b':',
        digit(second / 10),
        digit(second),
        b'.',
        digit(millisecond / 100),
        digit(millisecond / 10),
        digit(millisecond),
        b'Z',
    ]
}

// The day of a moment, in numbers that are written.
fn day_of(moment: u64) -> Day
    requires { moment ≤ greatest }
    ensures year { result.year ≡ year_at moment }
    ensures month { result.month ≡ month_at moment }
    ensures day { result.day ≡ month_day_at moment }
    ensures valid { IsCivilDate (pos result.year) result.month result.day }
    ensures epoch { days_from_civil (pos result.year) result.month result.day
        ≡ pos (moment / day_length) }
{
    let date = date_of(moment);
    Day {
        year: date.year as u16,
        month: date.month,
        day: date.day,
    }
}

// The date of a moment.
fn date_of(moment: u64) -> Date
    requires { moment ≤ greatest }
    ensures year { result.year ≡ pos (year_at moment) }
    ensures month { result.month ≡ month_at moment }
    ensures day { result.day ≡ month_day_at moment }
    ensures epoch { epoch_day result ≡ pos (moment / day_length) }
{
    Date::from_days_since_min(EPOCH + (moment / DAY_LENGTH) as u32)
}

// The last decimal digit of a number.
fn digit(number: u64) -> u8
    ensures { result ≡ digit number }
{
    b'0' + (number % 10) as u8
}
