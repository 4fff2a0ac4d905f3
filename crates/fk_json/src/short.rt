ghost use Rattle.std.specs.Prelude.{◌≡◌, ◌++◌, ◌+◌, ◌≤◌, ◌↔◌, [], length, IsTrue};
ghost use Rattle.fk_json.specs.Short.{most_short};

use std::marker::Model;

/// The most bytes that stand in a text itself: as many as leave a text at 32 bytes.
pub(crate) const MOST_SHORT: usize = 30;

/// A few bytes that take no memory beside their own place.
#[derive(Drop)]
pub(crate) struct Short {
    len: u8,
    held: [u8; MOST_SHORT],
}

impl Model for Short {
    ghost use Rattle.std.specs.Prelude.{ℕ, List, ◌≤◌, take};
    ghost use Rattle.fk_json.specs.Short.{most_short};

    ghost Value = { List ℕ };

    ghost view = { λ short. take short.len short.held };

    ghost invariant = { λ short. short.len ≤ most_short };
}

impl Short {
    /// No bytes.
    pub(crate) fn new() -> Short
        ensures { result ≡ [] }
    {
        Short {
            len: 0,
            held: [0; MOST_SHORT],
        }
    }

    /// Whether so many more bytes fit.
    pub(crate) fn has_room(&self, more: usize) -> bool
        ensures { IsTrue result ↔ (length self.now + more ≤ most_short) }
    {
        more <= MOST_SHORT - self.len as usize
    }

    /// Adds bytes at the end.
    pub(crate) fn push(&mut self, bytes: &[u8])
        requires { length self.old + length bytes.now ≤ most_short }
        ensures { self.new ≡ self.old ++ bytes.now }
    {
        let from = self.len as usize;
        let to = from + bytes.len();
        self.held[from..to].copy_from_slice(bytes);
        self.len = to as u8;
    }

    pub(crate) fn bytes(&self) -> &[u8]
        ensures { result.now ≡ self.now }
    {
        &self.held[..self.len as usize]
    }
}
