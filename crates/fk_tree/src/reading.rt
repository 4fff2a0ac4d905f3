ghost use Rattle.std.specs.Prelude.{◌≡◌, ◌++◌, ◌+◌, ◌^◌, ◌<◌, ◌≤◌, length, slice_get, IsOk, OnOk};
ghost use Rattle.fk_tree.specs.Order.{up_to};

use crate::side::Side;
use fk_json::Pairs;
use std::alloc::AllocError;

impl Side {
    /// The first pair.
    pub(crate) fn first(&self) -> Option<(u64, u64)>
        ensures { result ≡ slice_get self.now.pairs 0 }
    {
        let Some(node) = &self.top else {
            return None;
        };
        match node.left.first() {
            None => Some((node.key.moment, node.key.ticket)),
            first => first,
        }
    }

    /// The number of pairs whose moment is at most this one.
    pub(crate) fn count_up_to(&self, moment: u64) -> usize
        requires few { length self.now.pairs < 2 ^ 64 }
        ensures { result ≡ length (up_to moment self.now.pairs) }
    {
        let Some(node) = &self.top else {
            return 0;
        };
        let before = node.left.count_up_to(moment);
        if moment < node.key.moment {
            before
        } else {
            before + 1 + node.right.count_up_to(moment)
        }
    }

    /// Adds the pairs whose moment is at most this one at the end, in order. It can't fail where
    /// there is room for them.
    pub(crate) fn list_up_to(&self, moment: u64, out: &mut Pairs) -> Result<(), AllocError>
        ensures ok { OnOk result (out.new.items ≡ out.old.items ++ up_to moment self.now.pairs) }
        ensures kept { OnOk result
            (out.old.spare ≤ out.new.spare + length (up_to moment self.now.pairs)) }
        ensures ready { length (up_to moment self.now.pairs) ≤ out.old.spare → IsOk result }
    {
        let Some(node) = &self.top else {
            return Ok(());
        };
        node.left.list_up_to(moment, out)?;
        if moment < node.key.moment {
            return Ok(());
        }
        out.push((node.key.moment, node.key.ticket))?;
        node.right.list_up_to(moment, out)
    }
}
