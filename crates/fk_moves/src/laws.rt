//! A law over the spelling of moves. It is the contract of a function that does nothing.

ghost use Rattle.std.specs.Prelude.{◌≡◌, ℕ, List};
ghost use Rattle.fk_model.specs.declared.move_.Move.{Move as AMove};
ghost use Rattle.fk_moves.specs.Lists.{Spells};

/// No bytes spell two lists of moves.
pub fn bytes_spell_one_list_of_moves()
    ensures { (bytes : List ℕ) (moves others : List AMove)
        → Spells bytes moves → Spells bytes others → others ≡ moves }
{}
