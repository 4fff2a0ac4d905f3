use std::alloc::AllocError;

/// Why a reader of replies gives none out.
#[derive(Clone, Copy, Debug)]
pub enum ReplyFault {
    /// What is left neither begins with a reply nor may do so once there is more of it. So it is
    /// from then on, whatever is fed.
    BadReply,
    /// There is no memory for the next reply, which stays.
    NoMemory,
}

impl From<AllocError> for ReplyFault {
    ghost use Rattle.std.specs.Prelude.{◌≡◌};
    ghost use Rattle.fk_frame.specs.declared.reply_fault.ReplyFault.TheVariants.{NoMemory};

    ghost from_gives = { λ _ fault. fault ≡ NoMemory };

    fn from(_: AllocError) -> ReplyFault {
        ReplyFault::NoMemory
    }
}
