ghost use Rattle.std.specs.Prelude.{◌<◌, ℕ, List, Option};
ghost use Rattle.fk_io.specs.Telling.{Tells};
ghost use Rattle.fk_time.specs.Moments.{greatest};

/// Where moments come from.
pub trait Clock {
    /// The moments to come, where the clock tells them. The last one is told for ever.
    ghost moments: { Self → Option (List ℕ) };

    /// The moment now, in milliseconds since 1970-01-01T00:00:00Z. It may be before the one that
    /// was told last, and it is never the greatest: what is due at that moment is never due.
    fn now(&mut self) -> u64
        ensures below { result < greatest }
        ensures told { Tells (moments self.old) result (moments self.new) };
}
