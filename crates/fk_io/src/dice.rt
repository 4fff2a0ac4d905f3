ghost use Rattle.std.specs.Prelude.{ℕ, List, Option};
ghost use Rattle.fk_io.specs.Telling.{Tells};

/// Where random words come from.
pub trait Dice {
    /// The words to come, where the dice tell them. The last one is told for ever.
    ghost words: { Self → Option (List ℕ) };

    /// The next word.
    fn roll(&mut self) -> u64
        ensures told { Tells (words self.old) result (words self.new) };
}
