// What a BEAT gives: the wid of its arguments, as serde_json reads them.
ghost use Rattle.std.specs.Prelude.{◌≡◌, IfOk};
ghost use Rattle.serde_json.specs.View.{members_view};
ghost use Rattle.fk_model.specs.Payloads.{IsBeat, beat};
ghost use Rattle.fk_command.specs.Commands.{IsInForm};

use crate::object::{read_object, string_among};
use crate::refusal::{Refusal, refuse};
use fk_filter::short_text;
use fk_model::{Ask, Item};
use serde_json::{Map, Value};
use std::alloc::{AllocError, Global};

/// What a BEAT of these arguments gives.
pub(crate) fn beat(alloc: Global, arguments: &[u8]) -> Result<Item, AllocError>
    ensures item { IfOk result (IsBeat arguments.now) }
    ensures form { IfOk result IsInForm }
{
    match read_object(alloc, arguments)? {
        Some(members) => beat_in(alloc, &members),
        None => Ok(refuse(alloc, Refusal::BadJson)),
    }
}

/// What a BEAT of these members gives: the worker of their wid is there.
fn beat_in(alloc: Global, members: &Map<String, Value>) -> Result<Item, AllocError>
    ensures item { IfOk result (λ item. item ≡ beat (members_view members.now.entries)) }
    ensures form { IfOk result IsInForm }
{
    match string_among(members, "wid") {
        Some(wid) => Ok(Item::Asks(Ask::Beat {
            wid: short_text(alloc, wid.as_bytes())?,
        })),
        None => Ok(refuse(alloc, Refusal::NoWid)),
    }
}
