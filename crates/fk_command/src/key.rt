// The key under which a refused element of a batch is told.
ghost use Rattle.std.specs.Prelude.{◌≡◌, ◌⊎◌, [], codes, string_bytes, IfOk, IsUtf8};
ghost use Rattle.std.specs.List.{AllByRecursion};
ghost use Rattle.fk_json.specs.Members.{IsMemberIn, inner_levels};
ghost use Rattle.fk_job.specs.Fields.{HasString};
ghost use Rattle.fk_job.specs.JobText.{HasJid};
ghost use Rattle.fk_model.specs.Payloads.{HasKey};

use fk_job::string_of;
use fk_json::{JsonFault, Member, scan_object};
use std::alloc::{AllocError, Global};

/// The key of an element: its jid, where it is an object in which that is a string, and else
/// nothing.
pub(crate) fn key_of(alloc: Global, text: &[u8]) -> Result<String, AllocError>
    ensures { IfOk result (λ key. HasKey text.now (string_bytes key)) }
{
    match scan_object(alloc, text) {
        Ok(members) => key_among(alloc, text, members.as_slice()),
        Err(JsonFault::NoMemory) => Err(AllocError),
        Err(JsonFault::Syntax(_)) => Ok(String::new(alloc)),
        Err(JsonFault::TooDeep(_)) => Ok(String::new(alloc)),
    }
}

/// The jid among these members, or nothing.
fn key_among(alloc: Global, text: &[u8], members: &[Member]) -> Result<String, AllocError>
    requires { AllByRecursion (IsMemberIn inner_levels text.now) members.now }
    ensures { IfOk result (λ key.
        HasString text.now members.now (codes "jid") (string_bytes key)
        ⊎ ((string_bytes key ≡ []) × ¬ HasJid text.now members.now)) }
{
    match string_of(alloc, text, members, b"jid")? {
        Some(jid) => string_from(alloc, jid.bytes()),
        None => Ok(String::new(alloc)),
    }
}

/// The bytes as a string.
fn string_from(alloc: Global, bytes: &[u8]) -> Result<String, AllocError>
    requires { IsUtf8 bytes.now }
    ensures { IfOk result (λ text. string_bytes text ≡ bytes.now) }
{
    match str::from_utf8(bytes) {
        Ok(text) => String::from_str(alloc, text),
        Err(_) => unreachable!(),
    }
}
