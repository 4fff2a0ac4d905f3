//! Laws over files. Each is the contract of a function that does nothing.

ghost use Rattle.std.specs.Prelude.{◌≡◌, ◌⊎◌, ℕ, ◌≤◌, List};
ghost use Rattle.fk_job.specs.Spellings.{AreBytes};
ghost use Rattle.fk_journal.specs.declared.fault.Damage.{Damage as ADamage};
ghost use Rattle.fk_model.specs.Between.{IsWellKept};
ghost use Rattle.fk_model.specs.Limits.{greatest_next};
ghost use Rattle.fk_model.specs.State.{KeptState};
ghost use Rattle.fk_lives.specs.Damages.{IsFirstDamage};
ghost use Rattle.fk_lives.specs.Standing.{HaveNumbers, Stands};

/// Files stand for one kept state, and have one number and one size.
pub fn files_stand_for_one_state()
    ensures kept { (a b : List ℕ) (kept other : KeptState)
        → Stands a b kept → Stands a b other → other ≡ kept }
    ensures number { (a b : List ℕ) (number size others most : ℕ)
        → HaveNumbers a b number size → HaveNumbers a b others most → others ≡ number }
    ensures size { (a b : List ℕ) (number size others most : ℕ)
        → HaveNumbers a b number size → HaveNumbers a b others most → most ≡ size }
{}

/// Files either stand for a kept state or are damaged, never both, and damaged ones have one first damage.
pub fn files_stand_or_are_damaged()
    ensures some { (a b : List ℕ) → AreBytes a
        → ((kept : KeptState) × Stands a b kept) ⊎ ((damage : ADamage) × IsFirstDamage a b damage) }
    ensures sound { (a b : List ℕ) (kept : KeptState) (damage : ADamage)
        → Stands a b kept → ¬ IsFirstDamage a b damage }
    ensures one { (a b : List ℕ) (damage other : ADamage)
        → IsFirstDamage a b damage → IsFirstDamage a b other → other ≡ damage }
{}

/// What files stand for is well kept, and its next number is within the greatest.
pub fn what_files_stand_for_is_well_kept()
    ensures kept { (a b : List ℕ) (kept : KeptState) → Stands a b kept → IsWellKept kept }
    ensures within { (a b : List ℕ) (kept : KeptState) → Stands a b kept → kept.next ≤ greatest_next }
{}
