// What is said to workers that are there, and to what asks for no job.
ghost use Rattle.std.specs.Prelude.{◌≡◌, ℕ};
ghost use Rattle.std.specs.Option.{option_map_or};
ghost use Rattle.fk_model.specs.State.{KeptState, with_workers};
ghost use Rattle.fk_model.specs.Workers.{fresh, state_of};
ghost use Rattle.fk_model.specs.Said.{ok, said, state_told, unknown_worker};
ghost use Rattle.fk_plan.specs.Plans.{left_of};

use crate::replies::{ok, state_told, unknown_worker};
use fk_frame::Reply;
use fk_json::Text;
use fk_model::Ask;
use fk_workers::Workers;
use std::alloc::Global;

/// What is said to an ask that says nothing of jobs. It takes no memory.
#[tactic(auto, unfolding(fk_model::specs::Said::said))]
pub(crate) fn attend(alloc: Global, workers: &Workers, ask: &Ask, moment: u64) -> Reply
    requires { left_of ask.now ≡ ask.now }
    ensures { (kept : KeptState) (word : ℕ) → result
        ≡ (said (with_workers kept (fresh moment workers.now.workers)) ask.now moment word).reply }
{
    match ask {
        Ask::Beat { wid } => beat(alloc, workers, wid, moment),
        Ask::Signal { wid, .. } => signal(alloc, workers, wid, moment),
        _ => ok(alloc),
    }
}

/// A worker is told its state, if it is listed.
fn beat(alloc: Global, workers: &Workers, wid: &Text, moment: u64) -> Reply
    ensures { result ≡ option_map_or state_told
        (state_of wid.now (fresh moment workers.now.workers)) unknown_worker }
{
    match workers.state(wid, moment) {
        Some(state) => state_told(alloc, state),
        None => unknown_worker(alloc),
    }
}

/// A signal comes through, if the worker is listed.
fn signal(alloc: Global, workers: &Workers, wid: &Text, moment: u64) -> Reply
    ensures { result ≡ option_map_or (λ own. ok)
        (state_of wid.now (fresh moment workers.now.workers)) unknown_worker }
{
    match workers.state(wid, moment) {
        Some(_) => ok(alloc),
        None => unknown_worker(alloc),
    }
}
