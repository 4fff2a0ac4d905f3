// A list of moves as a file has it.
ghost use Rattle.std.specs.Prelude.{IsTrue, ◌↔◌, All};
ghost use Rattle.fk_model.specs.declared.move_.Move.{Move as AMove};
ghost use Rattle.fk_model.specs.Changes.{EndsWithTotals, IsTotals};

use fk_model::{Move, Moves};

/// Whether exactly one of the moves tells the numbers, and it is the last.
pub(crate) fn ends_with_totals(moves: &Moves) -> bool
    ensures { IsTrue result ↔ EndsWithTotals moves.now.items }
{
    match moves.as_slice().split_last() {
        Some((last, others)) => is_totals(last) && none_is_totals(others),
        None => false,
    }
}

/// Whether none of the moves tells the numbers.
fn none_is_totals(moves: &[Move]) -> bool
    ensures { IsTrue result ↔ All (λ step. ¬ IsTotals step) moves.now }
{
    !moves.iter().any(is_totals)
}

fn is_totals(step: &Move) -> bool
    ensures { IsTrue result ↔ IsTotals step.now }
{
    matches!(step, Move::Totals { .. })
}
