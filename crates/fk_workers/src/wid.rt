// The name of a worker as a key: a text goes by its bytes.
ghost use Rattle.std.specs.Prelude.{◌≡◌, nat_eq};
ghost use Rattle.std.specs.Hash as fed;
ghost use Rattle.std.specs.Cmp.Lexicographic.{pointwise, bytes_decides, nat_list_eq_equiv};
ghost use Rattle.std.specs.Cmp.{partial_equiv_from_equiv};
ghost use Rattle.std.specs.Cmp.Rules.{hashing};
ghost use Rattle.std.proofs.Common.{ap, rules};

use fk_json::Text;
use indexmap::Equivalent;
use std::hash::{Hash, Hasher};
use std::marker::Model;

/// The name of a worker.
#[derive(Drop)]
pub(crate) struct Wid {
    pub(crate) text: Text,
}

impl Model for Wid {
    ghost use Rattle.std.specs.Prelude.{ℕ, List};

    ghost Value = { List ℕ };

    ghost view = { λ wid. wid.text };
}

impl PartialEq for Wid {
    ghost eq = { pointwise nat_eq };

    ghost laws = { partial_equiv_from_equiv nat_list_eq_equiv };

    fn eq(&self, other: &Self) -> bool {
        self.text.bytes() == other.text.bytes()
    }
}

impl Eq for Wid {
    ghost laws = { nat_list_eq_equiv };
}

impl Hash for Wid {
    ghost hash_input = { fed.slice fed.u8 };

    ghost respects_eq = { Prim.search (hashing, rules) };

    fn hash<H: Hasher>(&self, state: &mut H) {
        self.text.bytes().hash(state);
    }
}

// A worker is looked up by the bytes of its name.
impl Equivalent<Wid> for &[u8] {
    ghost equivalent = { λ bytes wid. pointwise nat_eq bytes.now wid };

    ghost respects_hash = { λ bytes wid h. ap (fed.slice fed.u8) ((bytes_decides bytes.now wid).0 h) };

    ghost respects_eq = { λ bytes x y. nat_list_eq_equiv.congr bytes.now x y };

    fn equivalent(&self, key: &Wid) -> bool {
        *self == key.text.bytes()
    }
}
