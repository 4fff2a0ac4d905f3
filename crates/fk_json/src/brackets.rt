// The brackets that are open inside of the outermost, one bit each.
ghost use Rattle.std.specs.Prelude.{◌≡◌, ◌∷◌, ◌<◌, ◌↔◌, [], length, nat_le, IsTrue};
ghost use Rattle.fk_json.specs.Brackets.{bit_of, is_nil, popped};
ghost use Rattle.fk_json.specs.Moves.{innermost, most_inner};

use crate::mode::Bracket;
use std::marker::Model;

const MOST_INNER: usize = 126;

/// The brackets that are open inside of the outermost, innermost first: at most 126.
#[derive(Clone, Copy)]
pub(crate) struct Brackets {
    depth: usize,
    bits: u128, // the innermost is the lowest bit: 1 for an object
}

impl Model for Brackets {
    ghost use Rattle.std.specs.Prelude.{List, length, ◌<◌, ◌≤◌, ◌^◌};
    ghost use Rattle.fk_json.specs.declared.mode.Bracket.{Bracket};
    ghost use Rattle.fk_json.specs.Brackets.{bits_back, bits_of, brackets_length, brackets_of};

    ghost Value = { List Bracket };

    ghost view = { λ b. brackets_of b.depth b.bits };

    ghost invariant = { λ b. (b.bits < 2 ^ b.depth) × (b.depth ≤ 126) };

    ghost inverse = { λ l. record { depth = length l; bits = bits_of l } };

    ghost inverse_ok = { λ b h i. record {
      depth = brackets_length b.depth b.bits i;
      bits = bits_back b.depth b.bits h.0 i;
    } };
}

impl Brackets {
    /// No bracket.
    pub(crate) fn none() -> Brackets
        ensures { result ≡ [] }
    {
        Brackets { depth: 0, bits: 0 }
    }

    /// One more bracket inside of them all.
    pub(crate) fn push(self, bracket: Bracket) -> Brackets
        requires { length self < most_inner }
        ensures { result ≡ bracket ∷ self }
    {
        Brackets {
            depth: self.depth + 1,
            bits: self.bits * 2 + bit_of(bracket),
        }
    }

    /// The brackets without the innermost, or `None` where there is none.
    pub(crate) fn pop(self) -> Option<Brackets>
        ensures { result ≡ popped self }
    {
        if self.depth == 0 {
            return None;
        }
        Some(Brackets {
            depth: self.depth - 1,
            bits: self.bits / 2,
        })
    }

    /// The innermost of these and the one around them.
    pub(crate) fn innermost(self, outer: Bracket) -> Bracket
        ensures { result ≡ innermost outer self }
    {
        if self.depth == 0 {
            outer
        } else if self.bits % 2 == 1 {
            Bracket::Object
        } else {
            Bracket::Array
        }
    }

    pub(crate) fn is_empty(self) -> bool
        ensures none { IsTrue result ↔ (self ≡ []) }
        ensures test { result ≡ is_nil self }
    {
        self.depth == 0
    }

    /// Whether no bracket may be added.
    pub(crate) fn is_full(self) -> bool
        ensures { result ≡ nat_le most_inner (length self) }
    {
        self.depth >= MOST_INNER
    }
}

fn bit_of(bracket: Bracket) -> u128
    ensures { result ≡ bit_of bracket }
{
    match bracket {
        Bracket::Array => 0,
        Bracket::Object => 1,
    }
}
