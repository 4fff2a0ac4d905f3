// The fields of a job, each from its member.
ghost use Rattle.std.specs.Prelude.{◌≡◌, ◌⊎◌, ◌≤◌, ◌↔◌, ℕ, ℤ, codes, length, IfErr, IfNone, IfOk, IfSome, IsTrue};
ghost use Rattle.fk_job.specs.Fields.{HasArray, HasString, IsAt, IsQueue, IsReserve, IsRetry, least_jid_length};
ghost use Rattle.fk_job.specs.JobText.{IsFirstFault};
ghost use Rattle.fk_job.specs.Values.{ArePlaced, Fails, IsType};
ghost use Rattle.fk_job.specs.declared.fault.JobFault.TheVariants.{BadAt, BadQueue, NoMemory, NoType};

use crate::JobFault;
use crate::named::{given_value, string_of, value_of};
use crate::values::{
    DEFAULT_QUEUE, DEFAULT_RESERVE, at_in, is_array, queue_in, reserve_in, retry_in,
};
use fk_json::{Member, Text};
use std::alloc::Global;

/// How often a job is tried again where it doesn't say.
const DEFAULT_RETRY: i64 = 25;

/// The fewest bytes of a decoded jid.
const LEAST_JID_LENGTH: usize = 8;

// A jid that is too short is a fault of its own.
pub(crate) fn jid_of(alloc: Global, text: &[u8], members: &[Member]) -> Result<Text, JobFault>
    requires { ArePlaced text.now members.now }
    ensures ok { IfOk result (λ jid. HasString text.now members.now (codes "jid") jid
        × (least_jid_length ≤ length jid)) }
    ensures fault { IfErr result
        (λ fault. (fault ≡ NoMemory) ⊎ IsFirstFault text.now members.now fault) }
{
    let Some(jid) = string_of(alloc, text, members, b"jid")? else {
        return Err(JobFault::NoJid);
    };
    if jid.len() < LEAST_JID_LENGTH {
        return Err(JobFault::ShortJid);
    }
    Ok(jid)
}

pub(crate) fn type_of(alloc: Global, text: &[u8], members: &[Member]) -> Result<Text, JobFault>
    requires { ArePlaced text.now members.now }
    ensures ok { IfOk result (IsType text.now members.now) }
    ensures fault { IfErr result (Fails NoType (IsType text.now members.now)) }
{
    let Some(jobtype) = string_of(alloc, text, members, b"jobtype")? else {
        return Err(JobFault::NoType);
    };
    if jobtype.is_empty() {
        return Err(JobFault::NoType);
    }
    Ok(jobtype)
}

pub(crate) fn has_args(text: &[u8], members: &[Member]) -> bool
    requires { ArePlaced text.now members.now }
    ensures { IsTrue result ↔ HasArray text.now members.now (codes "args") }
{
    match value_of(text, members, b"args") {
        Some(value) => is_array(value),
        None => false,
    }
}

pub(crate) fn queue_of(alloc: Global, text: &[u8], members: &[Member]) -> Result<Text, JobFault>
    requires { ArePlaced text.now members.now }
    ensures ok { IfOk result (IsQueue text.now members.now) }
    ensures fault { IfErr result (Fails BadQueue (IsQueue text.now members.now)) }
{
    match given_value(text, members, b"queue") {
        Some(value) => queue_in(alloc, value),
        None => Ok(Text::fixed(alloc, DEFAULT_QUEUE)),
    }
}

pub(crate) fn reserve_of(text: &[u8], members: &[Member]) -> Option<u64>
    requires { ArePlaced text.now members.now }
    ensures some { IfSome result (IsReserve text.now members.now) }
    ensures none { IfNone result ((seconds : ℕ) → ¬ IsReserve text.now members.now seconds) }
{
    match given_value(text, members, b"reserve_for") {
        Some(value) => reserve_in(value),
        None => Some(DEFAULT_RESERVE),
    }
}

pub(crate) fn retry_of(text: &[u8], members: &[Member]) -> Option<i64>
    requires { ArePlaced text.now members.now }
    ensures some { IfSome result (IsRetry text.now members.now) }
    ensures none { IfNone result ((retry : ℤ) → ¬ IsRetry text.now members.now retry) }
{
    match given_value(text, members, b"retry") {
        Some(value) => retry_in(value),
        None => Some(DEFAULT_RETRY),
    }
}

pub(crate) fn at_of(alloc: Global, text: &[u8], members: &[Member]) -> Result<Option<u64>, JobFault>
    requires { ArePlaced text.now members.now }
    ensures ok { IfOk result (IsAt text.now members.now) }
    ensures fault { IfErr result (Fails BadAt (IsAt text.now members.now)) }
{
    match given_value(text, members, b"at") {
        Some(value) => at_in(alloc, value),
        None => Ok(None),
    }
}
