ghost use Rattle.std.specs.Prelude.{◌≡◌, None, IfOk};
ghost use Rattle.rand_core.specs.Stream.{next_u64};
ghost use Rattle.fk_io.specs.Generator.{answers_of, IsSeeded};
ghost use Rattle.fk_io.specs.Telling.{Tells};

use crate::Dice;
use rand::rngs::StdRng;
use rand::{Rng, make_rng};
use std::alloc::AllocError;
use std::marker::Model;
use std::random::RandomSource;

/// Dice over a strong generator, since a word may become a salt. They tell nothing of their words,
/// and are seen as their generator.
#[derive(Drop)]
pub struct RandDice {
    generator: StdRng,
}

impl Model for RandDice {
    ghost use Rattle.rand_chacha.specs.ChaCha.{ChaCha};

    ghost Value = { ChaCha };

    ghost view = { λ s. s.generator };
}

impl RandDice {
    /// Dice that the system's source of random bytes seeds. They take no memory. Where the source
    /// fails, that is told as want of memory: so the caller ends, and never rolls words that can
    /// be guessed.
    pub fn new<R: RandomSource>(rt: &R) -> Result<RandDice, AllocError>
        ensures { IfOk result IsSeeded }
    {
        match make_rng(rt) {
            Ok(generator) => Ok(RandDice { generator }),
            Err(_) => Err(AllocError),
        }
    }
}

impl Dice for RandDice {
    ghost words = { λ _. None };

    fn roll(&mut self) -> u64
        ensures told { Tells None result None }
        // Beyond what the trait says: a word is what the generator answers next.
        ensures next { (result, answers_of self.new) ≡ next_u64 (answers_of self.old) }
    {
        self.generator.next_u64()
    }
}

#[cfg(test)]
mod tests {
    use super::*;
    use std::io;
    use std::test::Fail;

    /// A source of random bytes that always fails.
    struct Broken;

    impl RandomSource for Broken {
        fn fill_bytes(&self, _: &mut [u8]) -> io::Result<()> {
            Err(io::Error::from(io::ErrorKind::Other))
        }
    }

    #[test]
    fn two_rolls_differ_and_so_do_other_dice(rt: HostRuntime) -> Result<(), Fail> {
        let mut dice = RandDice::new(&rt)?;
        let first = dice.roll();
        assert!(rt; first != dice.roll());
        let mut others = RandDice::new(&rt)?;
        assert!(rt; first != others.roll());
        Ok(())
    }

    #[test]
    fn dice_without_a_seed_are_refused(rt: HostRuntime) {
        assert!(rt; RandDice::new(&Broken).is_err());
    }
}
