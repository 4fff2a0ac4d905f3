ghost use Rattle.std.specs.Prelude.{◌≡◌, ℕ, Ok, IfOk, OnErr};
ghost use Rattle.fk_time.specs.Reading.{ReadsAs, IsMomentText};

use crate::BadTime;
use crate::parts::parts_of;

/// The moment that a text stands for, in milliseconds since 1970-01-01T00:00:00Z: 0 for an earlier
/// one, and at most [`crate::GREATEST`]. It takes no memory.
pub fn read_moment(text: &[u8]) -> Result<u64, BadTime>
    ensures ok { IfOk result (ReadsAs text.now) }
    ensures only { (moment : ℕ) → ReadsAs text.now moment → result ≡ Ok moment }
    ensures err { OnErr result (¬ IsMomentText text.now) }
{
    let Some(parts) = parts_of(text) else {
        return Err(BadTime);
    };
    match parts.moment() {
        Some(moment) => Ok(moment),
        None => Err(BadTime),
    }
}
