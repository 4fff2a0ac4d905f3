ghost use Rattle.std.specs.Prelude.{◌≡◌, ◌≢◌, [], Some, IfOk};

use crate::Dice;
use crate::telling::Telling;
use std::alloc::{AllocError, Global};
use std::marker::Model;

/// Dice in memory. They are seen as the words that they still tell.
#[derive(Drop)]
pub struct ListDice {
    told: Telling,
}

impl Model for ListDice {
    ghost use Rattle.std.specs.Prelude.{ℕ, List};

    ghost Value = { List ℕ };

    ghost view = { λ s. s.told };
}

impl ListDice {
    /// Dice that tell these words, and the last one for ever.
    pub fn new(alloc: Global, words: &[u64]) -> Result<ListDice, AllocError>
        requires { words.now ≢ [] }
        ensures { IfOk result (λ dice. dice ≡ words.now) }
    {
        Ok(ListDice {
            told: Telling::new(alloc, words)?,
        })
    }
}

impl Dice for ListDice {
    ghost words = { λ s. Some s };

    fn roll(&mut self) -> u64 {
        self.told.next()
    }
}
