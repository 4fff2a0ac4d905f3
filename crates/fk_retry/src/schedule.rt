ghost use Rattle.std.specs.Prelude.{◌≡◌, ◌<◌, ◌≤◌, ◌^◌};
ghost use Rattle.fk_model.specs.Limits.{later_by};
ghost use Rattle.fk_model.specs.Fate.{chance, delay, end_of_dead, fate, most_counted, next_try};

use fk_model::Fate;
use fk_time::GREATEST;

/// The milliseconds of a second.
const SECOND: u64 = 1000;

/// How long a dead job is kept, in milliseconds: 180 days.
const DEAD_FOR: u64 = 15_552_000_000;

/// The most failures that count for a delay.
const MOST_COUNTED: u64 = 1000;

/// What becomes of a job that failed at a moment, in milliseconds since 1970-01-01T00:00:00Z: it is to be
/// tried again `retry` times, where 0 forgets it and -1 has it dead at once, its failures before this one are
/// `count`, `ticket` names its row,
/// and `word` is the turn's random word.
pub fn failed(retry: i64, count: u64, ticket: u64, word: u64, moment: u64) -> Fate
    ensures { result ≡ fate retry count ticket word moment }
{
    match u64::try_from(retry) {
        Ok(0) => Fate::Drop,
        Ok(times) if count < times => Fate::Retry(next_try(count, ticket, word, moment)),
        _ => Fate::Dead(end_of_dead(moment)),
    }
}

/// When a job that is dead from a moment on is forgotten, 180 days later, and at most at the greatest moment:
/// both are in milliseconds since 1970-01-01T00:00:00Z. It takes no memory.
pub fn end_of_dead(moment: u64) -> u64
    ensures { result ≡ end_of_dead moment }
{
    later_by(DEAD_FOR, moment)
}

/// When a job is tried again.
fn next_try(count: u64, ticket: u64, word: u64, moment: u64) -> u64
    ensures { result ≡ next_try count ticket word moment }
{
    let delay = delay(count.min(MOST_COUNTED), chance(word, ticket));
    later_by(SECOND * delay, moment)
}

/// The seconds until a job is tried again, by how many failures count and by chance.
#[tactic(auto, using(crate::proofs::Delays::fourth_power, crate::proofs::Delays::by_chance))]
fn delay(count: u64, chance: u64) -> u64
    requires count { count ≤ most_counted }
    requires chance { chance < 30 }
    ensures exact { result ≡ delay count chance }
    ensures small { result < 2 ^ 50 }
{
    count.pow(4) + 15 + chance * (count + 1)
}

/// What is left to chance, from 0 to 29: a delay has so many seconds more for each failure so far.
fn chance(word: u64, ticket: u64) -> u64
    ensures exact { result ≡ chance word ticket }
    ensures small { result < 30 }
{
    ((u128::from(word) + u128::from(ticket)) % 30) as u64
}

/// A moment so many milliseconds later, up to the greatest.
fn later_by(milliseconds: u64, moment: u64) -> u64
    ensures { result ≡ later_by milliseconds moment }
{
    moment.saturating_add(milliseconds).min(GREATEST)
}
