// What a clock and dice tell.
ghost use Rattle.std.specs.Prelude.{◌≢◌, [], IfOk};

use crate::ScriptFault;
use fk_io::{ListClock, ListDice};
use fk_time::GREATEST;
use std::alloc::Global;

/// A clock that tells these moments.
pub fn clock_of(alloc: Global, moments: &[u64]) -> Result<ListClock, ScriptFault> {
    if moments.is_empty() {
        return Err(ScriptFault::NothingTold);
    }
    if !moments.iter().all(|moment| *moment < GREATEST) {
        return Err(ScriptFault::NoNumber);
    }
    Ok(ListClock::new(alloc, moments)?)
}

/// Dice that tell these words.
pub fn dice_of(alloc: Global, words: &[u64]) -> Result<ListDice, ScriptFault> {
    if words.is_empty() {
        return Err(ScriptFault::NothingTold);
    }
    Ok(ListDice::new(alloc, words)?)
}
