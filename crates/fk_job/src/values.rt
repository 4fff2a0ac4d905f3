// What the value of a member says, which is there and isn't null.
ghost use Rattle.std.specs.Prelude.{◌≡◌, ◌↔◌, ℕ, ℤ, IfErr, IfNone, IfOk, IfSome, IsTrue};
ghost use Rattle.std.specs.List.{AllPass};
ghost use Rattle.fk_job.specs.Fields.{IsArrayValue, is_queue_byte, reserve_seconds, retries};
ghost use Rattle.fk_job.specs.Values.{Fails, IsAtIn, IsQueueIn, IsReserveIn, IsRetryIn, IsSomeValue};
ghost use Rattle.fk_job.specs.declared.fault.JobFault.TheVariants.{BadAt, BadQueue};

use crate::JobFault;
use fk_json::{Text, integer_value, string_value};
use fk_time::read_moment;
use std::alloc::Global;

/// The queue of a job that names none, and of a fetch that names none.
pub const DEFAULT_QUEUE: &[u8] = b"default";

/// The seconds of a reservation that isn't said or is too short.
pub(crate) const DEFAULT_RESERVE: u64 = 1800;

/// The fewest and the most seconds of a reservation.
const LEAST_RESERVE: i64 = 60;

const MOST_RESERVE: i64 = 86_400;

// A value that begins with a bracket is an array.
pub(crate) fn is_array(value: &[u8]) -> bool
    requires { IsSomeValue value.now }
    ensures { IsTrue result ↔ IsArrayValue value.now }
{
    match value.first() {
        Some(byte) => *byte == b'[',
        None => false,
    }
}

pub(crate) fn queue_in(alloc: Global, value: &[u8]) -> Result<Text, JobFault>
    ensures ok { IfOk result (IsQueueIn value.now) }
    ensures fault { IfErr result (Fails BadQueue (IsQueueIn value.now)) }
{
    let Some(name) = string_value(alloc, value)? else {
        return Err(JobFault::BadQueue);
    };
    if name.is_empty() {
        return Ok(Text::fixed(alloc, DEFAULT_QUEUE));
    }
    if are_queue_bytes(name.bytes()) {
        Ok(name)
    } else {
        Err(JobFault::BadQueue)
    }
}

/// Whether each byte may stand in a queue's name.
pub fn are_queue_bytes(name: &[u8]) -> bool
    ensures { IsTrue result ↔ AllPass is_queue_byte name.now }
{
    name.iter().all(|byte| is_queue_byte(*byte))
}

fn is_queue_byte(byte: u8) -> bool
    ensures { result ≡ is_queue_byte byte }
{
    byte.is_ascii_alphanumeric() || byte == b'.' || byte == b'_' || byte == b'-'
}

pub(crate) fn reserve_in(value: &[u8]) -> Option<u64>
    ensures some { IfSome result (IsReserveIn value.now) }
    ensures none { IfNone result ((seconds : ℕ) → ¬ IsReserveIn value.now seconds) }
{
    let number = integer_value(value)?;
    if number > MOST_RESERVE {
        return None;
    }
    Some(reserve_seconds(number))
}

fn reserve_seconds(number: i64) -> u64
    ensures { result ≡ reserve_seconds number }
{
    if number < LEAST_RESERVE {
        DEFAULT_RESERVE
    } else {
        number as u64
    }
}

pub(crate) fn retry_in(value: &[u8]) -> Option<i64>
    ensures some { IfSome result (IsRetryIn value.now) }
    ensures none { IfNone result ((retry : ℤ) → ¬ IsRetryIn value.now retry) }
{
    let number = integer_value(value)?;
    Some(retries(number))
}

fn retries(number: i64) -> i64
    ensures { result ≡ retries number }
{
    if number < 0 { -1 } else { number }
}

pub(crate) fn at_in(alloc: Global, value: &[u8]) -> Result<Option<u64>, JobFault>
    ensures ok { IfOk result (IsAtIn value.now) }
    ensures fault { IfErr result (Fails BadAt (IsAtIn value.now)) }
{
    let Some(decoded) = string_value(alloc, value)? else {
        return Err(JobFault::BadAt);
    };
    if decoded.is_empty() {
        return Ok(None);
    }
    match read_moment(decoded.bytes()) {
        Ok(moment) => Ok(Some(moment)),
        Err(_) => Err(JobFault::BadAt),
    }
}
