// What is looked up by going through the lists.
ghost use Rattle.std.specs.Prelude.{◌≡◌, ◌++◌, IfOk, OnErr, OnOk};
ghost use Rattle.fk_lists.specs.Room.{list_at, AreNamed};
ghost use Rattle.fk_lists.specs.Sizes.{sizes_of};

use crate::{Lists, Size, Sizes};
use fk_json::{Pairs, Text};
use std::alloc::AllocError;

impl Lists {
    /// Adds the list of a name at the end, or leaves `out` as it is.
    #[tactic(auto, using(crate::proofs::Lookups::listed))]
    pub fn listed(&self, name: &Text, out: &mut Pairs) -> Result<(), AllocError>
        ensures ok { OnOk result (out.new.items ≡ out.old.items ++ list_at self.now.items name.now) }
        ensures err { OnErr result (out.new.items ≡ out.old.items) }
    {
        match self.held.get(name) {
            Some(list) => list.listed(out),
            None => Ok(()),
        }
    }

    /// The names that have a pair, in order of their bytes, each with the number of its pairs.
    #[tactic(auto, using(crate::proofs::NamesInOrder::are_named))]
    pub fn sizes(&self) -> Result<Sizes, AllocError>
        ensures sizes { IfOk result (λ sizes. sizes ≡ sizes_of self.now.items) }
        ensures named { AreNamed self.now.items }
    {
        let mut sizes = Sizes::new(self.alloc);
        'naming: for (name, list) in self.held.iter() {
            if list.len() > 0 {
                sizes.push(Size {
                    name: name.copied()?,
                    count: list.len() as u64,
                })?;
            }
        }
        Ok(sizes)
    }
}
