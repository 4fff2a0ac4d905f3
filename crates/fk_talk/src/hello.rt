// What becomes of a HELLO.
ghost use Rattle.std.specs.Prelude.{◌≡◌, ◌≤◌, ◌++◌, bytes_eq, codes, false, option_map, IfOk};
ghost use Rattle.std.specs.Option.{option_map_or};
ghost use Rattle.serde_json.specs.View.{members_view, view};
ghost use Rattle.fk_model.specs.Handshake as spec;
ghost use Rattle.fk_model.specs.Payloads as payload;
ghost use Rattle.fk_talk.specs.Hearing.{IsLetIn, reason, welcomed};

use crate::password::{is_same, pass_hash, salt_text};
use fk_command::{read_object, string_among};
use fk_filter::{member, short_text};
use fk_json::Text;
use fk_model::Gate;
use serde_json::{Map, Value};
use std::alloc::{AllocError, Global};

/// Why a HELLO is refused.
#[derive(Clone, Copy)]
pub(crate) enum Refusal {
    /// Its arguments are no object, or its wid is something else than a string or null.
    BadHello,
    /// Its version isn't the integer 2.
    BadVersion,
    /// A password is set, and it doesn't tell its hash.
    InvalidPassword,
}

impl Refusal {
    /// It, in the words of an error.
    pub(crate) fn text(self) -> &'static [u8]
        ensures { result.now ≡ codes "ERR " ++ reason self }
    {
        match self {
            Refusal::BadHello => b"ERR Bad HELLO",
            Refusal::BadVersion => b"ERR Bad version",
            Refusal::InvalidPassword => b"ERR Invalid password",
        }
    }
}

/// What becomes of a HELLO: it is refused, or accepted from the worker of this wid, or from a producer
/// where that is empty.
#[derive(Drop)]
pub(crate) enum Welcome {
    TurnedAway(Refusal),
    LetIn(Text),
}

/// What becomes of a HELLO of these arguments.
pub(crate) fn read_hello(
    alloc: Global,
    gate: &Gate,
    arguments: &[u8],
) -> Result<Welcome, AllocError>
    requires { 1 ≤ gate.now.rounds }
    ensures is { IfOk result (λ told. welcomed told ≡ spec.welcome gate.now arguments.now) }
    ensures range { IfOk result IsLetIn }
{
    match read_object(alloc, arguments)? {
        Some(members) => welcome_of(alloc, gate, &members),
        None => Ok(Welcome::TurnedAway(Refusal::BadHello)),
    }
}

/// What becomes of a HELLO of these members: the first of its faults counts.
fn welcome_of(
    alloc: Global,
    gate: &Gate,
    members: &Map<String, Value>,
) -> Result<Welcome, AllocError>
    requires { 1 ≤ gate.now.rounds }
    ensures is { IfOk result (λ told.
        welcomed told ≡ spec.welcome_of gate.now (members_view members.now.entries)) }
    ensures range { IfOk result IsLetIn }
{
    match wid_said(members) {
        None => Ok(Welcome::TurnedAway(Refusal::BadHello)),
        Some(_) if !has_version(members) => Ok(Welcome::TurnedAway(Refusal::BadVersion)),
        Some(_) if !opens(gate, members) => Ok(Welcome::TurnedAway(Refusal::InvalidPassword)),
        Some(wid) => Ok(Welcome::LetIn(short_text(alloc, wid.as_bytes())?)),
    }
}

/// The wid, which is empty where there is none; or `None` where it is something else than a string or
/// null.
fn wid_said(members: &Map<String, Value>) -> Option<&str>
    ensures { option_map (λ wid. wid.now) result
        ≡ spec.wid_said (members_view members.now.entries) }
{
    match member(members, "wid") {
        Some(value) => wid_of(value),
        None => Some(""),
    }
}

fn wid_of(value: &Value) -> Option<&str>
    ensures { option_map (λ wid. wid.now) result ≡ spec.wid_of (view value.now) }
{
    match value {
        Value::Null => Some(""),
        _ => value.as_str(),
    }
}

/// Whether the version is the integer 2.
fn has_version(members: &Map<String, Value>) -> bool
    ensures { result ≡ spec.has_version (members_view members.now.entries) }
{
    match member(members, "v").and_then(Value::as_u64) {
        Some(version) => version == 2,
        None => false,
    }
}

/// Whether the members tell the hash of the password, where one is set.
fn opens(gate: &Gate, members: &Map<String, Value>) -> bool
    requires { 1 ≤ gate.now.rounds }
    ensures { result ≡ spec.opens gate.now (members_view members.now.entries) }
{
    match &gate.password {
        None => true,
        Some(password) => tells_hash(
            members,
            &pass_hash(password.bytes(), &salt_text(gate.salt), gate.rounds),
        ),
    }
}

/// Whether the members tell this hash.
fn tells_hash(members: &Map<String, Value>, hash: &[u8]) -> bool
    ensures { result ≡ option_map_or (λ told. bytes_eq told hash.now)
        (payload.string_among (codes "pwdhash") (members_view members.now.entries)) false }
{
    match string_among(members, "pwdhash") {
        Some(told) => is_same(told.as_bytes(), hash),
        None => false,
    }
}
