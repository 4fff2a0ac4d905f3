// What a SIGNAL gives: the wid of its arguments, as serde_json reads them, and the state that it is to get.
ghost use Rattle.std.specs.Prelude.{◌≡◌, IfOk};
ghost use Rattle.serde_json.specs.View.{members_view};
ghost use Rattle.fk_model.specs.Payloads.{IsSignal, signal, signal_to, state_named};
ghost use Rattle.fk_command.specs.Commands.{IsInForm};

use crate::object::{read_object, string_among};
use crate::refusal::{Refusal, refuse};
use fk_filter::short_text;
use fk_model::{Ask, Item, WorkState};
use serde_json::{Map, Value};
use std::alloc::{AllocError, Global};

/// What a SIGNAL of these arguments gives.
pub(crate) fn signal(alloc: Global, arguments: &[u8]) -> Result<Item, AllocError>
    ensures item { IfOk result (IsSignal arguments.now) }
    ensures form { IfOk result IsInForm }
{
    match read_object(alloc, arguments)? {
        Some(members) => signal_in(alloc, &members),
        None => Ok(refuse(alloc, Refusal::BadJson)),
    }
}

/// What a SIGNAL of these members gives: the worker of their wid gets their state.
fn signal_in(alloc: Global, members: &Map<String, Value>) -> Result<Item, AllocError>
    ensures item { IfOk result (λ item. item ≡ signal (members_view members.now.entries)) }
    ensures form { IfOk result IsInForm }
{
    match string_among(members, "wid") {
        Some(wid) => signal_to(alloc, members, wid),
        None => Ok(refuse(alloc, Refusal::NoWid)),
    }
}

/// What a SIGNAL of these members gives to the worker of this wid.
fn signal_to(alloc: Global, members: &Map<String, Value>, wid: &str) -> Result<Item, AllocError>
    ensures item { IfOk result
        (λ item. item ≡ signal_to (members_view members.now.entries) wid.now) }
    ensures form { IfOk result IsInForm }
{
    match string_among(members, "state").and_then(state_named) {
        Some(state) => Ok(Item::Asks(Ask::Signal {
            wid: short_text(alloc, wid.as_bytes())?,
            state,
        })),
        None => Ok(refuse(alloc, Refusal::BadState)),
    }
}

/// The state of this name, of those that a SIGNAL may give.
fn state_named(name: &str) -> Option<WorkState>
    ensures { result ≡ state_named name.now }
{
    if name == "quiet" {
        Some(WorkState::Quiet)
    } else if name == "terminate" {
        Some(WorkState::Terminate)
    } else {
        None
    }
}
