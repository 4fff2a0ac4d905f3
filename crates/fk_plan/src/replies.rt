ghost use Rattle.std.specs.Prelude.{◌≡◌};
ghost use Rattle.fk_model.specs.Said.{ok, state_told, unknown_job, unknown_worker};

use fk_frame::Reply;
use fk_json::Text;
use fk_model::WorkState;
use std::alloc::Global;

/// It went well. It takes no memory.
pub(crate) fn ok(alloc: Global) -> Reply
    ensures { result ≡ ok }
{
    Reply::Status(Text::fixed(alloc, b"OK"))
}

/// No worker has a row of the jid. It takes no memory.
pub(crate) fn unknown_job(alloc: Global) -> Reply
    ensures { result ≡ unknown_job }
{
    Reply::Error(Text::fixed(alloc, b"ERR Unknown job"))
}

/// No worker of the wid is listed. It takes no memory.
pub(crate) fn unknown_worker(alloc: Global) -> Reply
    ensures { result ≡ unknown_worker }
{
    Reply::Error(Text::fixed(alloc, b"ERR Unknown worker"))
}

/// A worker that is there is told its state. It takes no memory.
pub(crate) fn state_told(alloc: Global, state: WorkState) -> Reply
    ensures { result ≡ state_told state }
{
    match state {
        WorkState::Running => ok(alloc),
        WorkState::Quiet => Reply::Bulk(Text::fixed(alloc, b"{\"state\":\"quiet\"}")),
        WorkState::Terminate => Reply::Bulk(Text::fixed(alloc, b"{\"state\":\"terminate\"}")),
    }
}
