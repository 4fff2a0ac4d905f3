use crate::{Batch, Cmd, Filter, Target, WorkState};
use fk_job::Job;
use fk_json::{Text, Texts};

/// What one turn of the server is asked for.
#[derive(Drop)]
pub enum Ask {
    /// A worker says its name.
    Hello {
        wid: Text,
    },
    /// A job is pushed.
    Push {
        job: Job,
    },
    /// Jobs are pushed at once, and answered by this text, which tells those that were refused.
    PushBatch {
        jobs: Batch,
        told: Text,
    },
    /// The worker of this name, or a producer where it is empty, wants a job of the first of these
    /// queues that has one.
    Fetch {
        wid: Text,
        queues: Texts,
    },
    /// The job of this jid was done.
    Ack {
        jid: Text,
    },
    /// The job of this jid failed: what went wrong, the worker's words on it, and where its code was.
    Fail {
        jid: Text,
        errtype: Text,
        message: Text,
        backtrace: Texts,
    },
    /// The worker of this name is there, and asks for its state.
    Beat {
        wid: Text,
    },
    /// The worker of this name gets this state, unless it has a greater one.
    Signal {
        wid: Text,
        state: WorkState,
    },
    /// How many rows stand where, the totals, and the moment.
    Info,
    /// All rows are forgotten, and the totals are 0 again.
    Flush,
    /// Rows of a set are changed.
    Mutate {
        cmd: Cmd,
        target: Target,
        filter: Filter,
    },
    /// Nobody asks: the state is brought up to date.
    Tick,
}
