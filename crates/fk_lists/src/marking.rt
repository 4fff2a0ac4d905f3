// The room of the lists, made and marked name by name.
use crate::{Lists, RoomByName};
use fk_json::Text;
use std::alloc::AllocError;

impl RoomByName for Lists {
    ghost room = { λ lists. lists };

    #[tactic(auto, using(crate::proofs::Lookups::listed, crate::proofs::Lookups::spared))]
    fn reserve(&mut self, name: &Text, more: usize) -> Result<(), AllocError> {
        match self.held.get_mut(name) {
            Some(list) => list.reserve(more),
            None => self.add(name, more),
        }
    }

    #[tactic(auto, using(crate::proofs::Lookups::listed, crate::proofs::Lookups::marked, crate::proofs::Lookups::spared))]
    fn mark(&mut self, name: &Text) -> Result<(), AllocError> {
        match self.held.get_mut(name) {
            Some(list) => list.mark(),
            None => self.add_marked(name),
        }
    }

    #[tactic(auto, using(crate::proofs::Lookups::marked, crate::proofs::Lookups::spared))]
    fn unmark(&mut self, name: &Text) {
        let Some(list) = self.held.get_mut(name) else {
            return;
        };
        list.unmark();
    }

    fn clear(&mut self) {
        self.held.retain(|_, list| {
            list.clear();
            list.spare() > 0
        });
    }
}
