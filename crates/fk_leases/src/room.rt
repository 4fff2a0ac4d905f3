// Room for leases, made and marked jid by jid, in the lists and in the tree of ends.
use crate::Leases;
use fk_json::Text;
use fk_lists::RoomByName;
use std::alloc::AllocError;

impl RoomByName for Leases {
    ghost room = { λ leases. leases };

    fn reserve(&mut self, jid: &Text, more: usize) -> Result<(), AllocError> {
        let lack = more.saturating_sub(self.lists.spare(jid));
        let Some(room) = self.room.checked_add(lack) else {
            return Err(AllocError);
        };
        self.ends.reserve(room)?;
        self.lists.reserve(jid, more)?;
        self.room = room;
        Ok(())
    }

    fn mark(&mut self, jid: &Text) -> Result<(), AllocError> {
        let Some(lack) = self.lists.lack(jid) else {
            return Err(AllocError);
        };
        let Some(room) = self.room.checked_add(lack) else {
            return Err(AllocError);
        };
        self.ends.reserve(room)?;
        self.lists.mark(jid)?;
        self.room = room;
        Ok(())
    }

    fn unmark(&mut self, jid: &Text) {
        self.lists.unmark(jid);
    }

    fn clear(&mut self) {
        self.lists.clear();
        self.ends.clear();
    }
}
