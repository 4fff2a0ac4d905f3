ghost use Rattle.std.specs.Prelude.{◌≡◌, ◌<◌, ◌-◌, ◌/◌, None, min, IfOk, OnErr};
ghost use Rattle.std.specs.Time.{system_time_nanos};
ghost use Rattle.fk_io.specs.Telling.{Tells};
ghost use Rattle.fk_time.specs.Moments.{greatest};

use crate::Clock;
use fk_time::GREATEST;
use std::io;
use std::marker::Model;
use std::time::{self, SystemTime, UNIX_EPOCH};

/// The system's clock, capped below the greatest moment. It tells nothing of its moments, and is
/// seen as the last one that it told.
#[derive(Drop)]
pub struct RealClock<C: time::Clock + Drop> {
    system: C,
    last: u64,
}

impl<C: time::Clock + Drop> Model for RealClock<C> {
    ghost use Rattle.std.specs.Prelude.{◌<◌, ℕ};
    ghost use Rattle.fk_time.specs.Moments.{greatest};

    ghost Value = { ℕ };

    ghost view = { λ s. s.last };

    ghost invariant = { λ s. s.last < greatest };
}

impl<C: time::Clock + Drop> RealClock<C> {
    /// The system's clock, which has told no moment yet. That counts as moment 0.
    pub fn new(rt: C) -> RealClock<C>
        ensures { result ≡ 0 }
    {
        RealClock {
            system: rt,
            last: 0,
        }
    }
}

/// The moment that the system's clock read, or the last one where it couldn't be read.
fn moment_of(reading: io::Result<SystemTime>, last: u64) -> u64
    ensures read { IfOk reading (λ time.
        result ≡ min (system_time_nanos time / 1_000_000) (greatest - 1)) }
    ensures again { OnErr reading (result ≡ last) }
{
    match reading {
        Ok(time) => match time.duration_since(UNIX_EPOCH) {
            Ok(since) => since.as_millis().min(GREATEST as u128 - 1) as u64,
            // A reading is from 1970 on, so this doesn't happen.
            Err(_) => last,
        },
        Err(_) => last,
    }
}

impl<C: time::Clock + Drop> Clock for RealClock<C> {
    ghost moments = { λ _. None };

    /// Where the system's clock fails, the last moment is told again.
    fn now(&mut self) -> u64
        ensures below { result < greatest }
        ensures told { Tells None result None }
        ensures last { self.new ≡ result }
    {
        self.last = moment_of(SystemTime::now(&self.system), self.last);
        self.last
    }
}

#[cfg(test)]
mod tests {
    use super::*;
    use std::cell::Cell;
    use std::time::Duration;

    /// A clock that shows a number of milliseconds since 1970, or that can't be read.
    #[derive(Drop)]
    struct Shown(Cell<Option<u64>>);

    impl time::Clock for Shown {
        fn monotonic(&self) -> io::Result<Duration> {
            self.since_1970()
        }

        fn since_1970(&self) -> io::Result<Duration> {
            match self.0.get() {
                Some(millis) => Ok(Duration::from_millis(millis)),
                None => Err(io::Error::from(io::ErrorKind::Other)),
            }
        }
    }

    #[test]
    fn the_moments_are_in_this_age(rt: HostRuntime) {
        let mut clock = RealClock::new(rt);
        for _ in 0..2 {
            let moment = clock.now();
            assert!(rt; 1_700_000_000_000 < moment && moment < GREATEST);
        }
    }

    #[test]
    fn each_moment_is_read_and_the_last_one_stands_in_for_one_that_cannot_be(rt: HostRuntime) {
        let system = Shown(Cell::new(None));
        let mut clock = RealClock::new(&system);
        let cases = [
            (None, 0),
            (Some(5), 5),
            (None, 5),
            (Some(7), 7),
            (Some(GREATEST), GREATEST - 1),
            (Some(3), 3),
        ];
        for (shown, told) in cases {
            system.0.set(shown);
            assert_eq!(rt; clock.now(), told);
        }
    }
}
