// What an ACK gives: the jid of its arguments, as serde_json reads them.
ghost use Rattle.std.specs.Prelude.{◌≡◌, IfOk};
ghost use Rattle.serde_json.specs.View.{members_view};
ghost use Rattle.fk_model.specs.Payloads.{IsAcknowledged, acknowledged};
ghost use Rattle.fk_command.specs.Commands.{IsInForm};

use crate::object::{read_object, string_among};
use crate::refusal::{Refusal, refuse};
use fk_filter::short_text;
use fk_model::{Ask, Item};
use serde_json::{Map, Value};
use std::alloc::{AllocError, Global};

/// What an ACK of these arguments gives.
pub(crate) fn acknowledge(alloc: Global, arguments: &[u8]) -> Result<Item, AllocError>
    ensures item { IfOk result (IsAcknowledged arguments.now) }
    ensures form { IfOk result IsInForm }
{
    match read_object(alloc, arguments)? {
        Some(members) => acknowledge_in(alloc, &members),
        None => Ok(refuse(alloc, Refusal::BadJson)),
    }
}

/// What an ACK of these members gives: their jid is acknowledged.
fn acknowledge_in(alloc: Global, members: &Map<String, Value>) -> Result<Item, AllocError>
    ensures item { IfOk result
        (λ item. item ≡ acknowledged (members_view members.now.entries)) }
    ensures form { IfOk result IsInForm }
{
    match string_among(members, "jid") {
        Some(jid) => Ok(Item::Asks(Ask::Ack {
            jid: short_text(alloc, jid.as_bytes())?,
        })),
        None => Ok(refuse(alloc, Refusal::NoJid)),
    }
}
