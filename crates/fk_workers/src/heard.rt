ghost use Rattle.std.specs.Prelude.{◌≡◌, if◌then◌else◌, Some, None};
ghost use Rattle.fk_model.specs.Workers as spec;

use fk_model::WorkState;

/// How long a worker may be silent before it is forgotten, in milliseconds.
pub const FORGET_AFTER: u64 = 60_000;

/// What was heard of a worker.
#[derive(Clone, Copy)]
pub(crate) struct Heard {
    pub(crate) state: WorkState,
    pub(crate) seen: u64,
}

impl Heard {
    /// The state, unless the worker is to be forgotten at this moment.
    pub(crate) fn state_at(&self, moment: u64) -> Option<WorkState>
        ensures { result
            ≡ (if spec.is_fresh moment self.now.seen then Some self.now.state else None) }
    {
        if is_fresh(moment, self.seen) {
            Some(self.state)
        } else {
            None
        }
    }
}

/// Whether a worker that was seen then isn't to be forgotten at a moment. No sum is beyond its type.
pub(crate) fn is_fresh(moment: u64, seen: u64) -> bool
    ensures { result ≡ spec.is_fresh moment seen }
{
    moment.saturating_sub(seen) < FORGET_AFTER
}

fn level(state: WorkState) -> u8
    ensures { result ≡ spec.level state }
{
    match state {
        WorkState::Running => 0,
        WorkState::Quiet => 1,
        WorkState::Terminate => 2,
    }
}

/// The greater of two states.
pub(crate) fn greater(own: WorkState, given: WorkState) -> WorkState
    ensures { result ≡ spec.greater own given }
{
    if level(own) < level(given) {
        given
    } else {
        own
    }
}
