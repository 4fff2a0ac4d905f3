// What a PUSH gives: the job of its arguments.
ghost use Rattle.std.specs.Prelude.{IfOk};
ghost use Rattle.fk_model.specs.Payloads.{IsPushed};
ghost use Rattle.fk_command.specs.Commands.{IsInForm};

use crate::refusal::{job_or_fault, refuse_fault};
use fk_model::{Ask, Item};
use std::alloc::{AllocError, Global};

/// What a PUSH of these arguments gives.
pub(crate) fn push(alloc: Global, arguments: &[u8]) -> Result<Item, AllocError>
    ensures item { IfOk result (IsPushed arguments.now) }
    ensures form { IfOk result IsInForm }
{
    match job_or_fault(alloc, arguments)? {
        Ok(job) => Ok(Item::Asks(Ask::Push { job })),
        Err(fault) => refuse_fault(alloc, &fault),
    }
}
