// Replies of the script's own, and the words of a job's faults.
ghost use Rattle.std.specs.Prelude.{◌≡◌, IfOk, MatchResult};
ghost use Rattle.fk_frame.specs.Replies.{IsOneLine};
ghost use Rattle.fk_frame.specs.declared.reply.Reply.TheVariants.{Error};
ghost use Rattle.fk_job.specs.JobText.{HasFault, IsJobOf};
ghost use Rattle.fk_model.specs.declared.item.Item.TheVariants.{Own};
ghost use Rattle.fk_model.specs.Payloads.{fault_text, refused};
ghost use Rattle.fk_command.specs.Commands.{IsInForm};
ghost use Rattle.fk_command.specs.Refusals.{words};

use fk_frame::Reply;
use fk_job::{Job, JobFault, read_job};
use fk_json::Text;
use fk_model::Item;
use std::alloc::{AllocError, Global};

/// Why a line is refused, but for the fault of a job: what isn't read, what isn't there, and what isn't
/// asked for at all.
#[derive(Clone, Copy)]
pub(crate) enum Refusal {
    BadJson,
    TooDeep,
    NoJid,
    NoWid,
    BadState,
    BadCmd,
    BadTarget,
    BadFilter,
    SaidHello,
    UnknownCommand,
}

/// The error reply of a refusal.
pub(crate) fn refuse(alloc: Global, refusal: Refusal) -> Item
    ensures item { result ≡ refused (words refusal) }
    ensures form { IsInForm result }
{
    match refusal {
        Refusal::BadJson => error(alloc, b"ERR Bad JSON"),
        Refusal::TooDeep => error(alloc, b"ERR JSON too deep"),
        Refusal::NoJid => error(alloc, b"ERR No jid"),
        Refusal::NoWid => error(alloc, b"ERR No wid"),
        Refusal::BadState => error(alloc, b"ERR Bad state"),
        Refusal::BadCmd => error(alloc, b"ERR Bad cmd"),
        Refusal::BadTarget => error(alloc, b"ERR Bad target"),
        Refusal::BadFilter => error(alloc, b"ERR Bad filter"),
        Refusal::SaidHello => error(alloc, b"ERR Already said HELLO"),
        Refusal::UnknownCommand => error(alloc, b"ERR Unknown command"),
    }
}

/// An error reply.
fn error(alloc: Global, text: &'static [u8]) -> Item
    requires { IsOneLine text.now }
    ensures item { result ≡ Own (Error text.now) }
    ensures form { IsInForm result }
{
    Item::Own(Reply::Error(Text::fixed(alloc, text)))
}

/// An error reply that tells a job's fault.
#[tactic(auto, using(crate::proofs::Refusals::refused_in_one_line))]
pub(crate) fn refuse_fault(alloc: Global, fault: &JobFault) -> Result<Item, AllocError>
    ensures item { IfOk result (λ item. item ≡ refused (fault_text fault.now)) }
    ensures form { IfOk result IsInForm }
{
    let mut text = Text::fixed(alloc, b"ERR ");
    text.push_bytes(fault_text(fault).as_bytes())?;
    Ok(Item::Own(Reply::Error(text)))
}

/// Why a text is no job, in the words of an error.
pub(crate) fn fault_text(fault: &JobFault) -> &'static str
    ensures { result.now ≡ fault_text fault.now }
{
    match fault {
        JobFault::Syntax(_) => "Bad JSON",
        JobFault::TooDeep(_) => "JSON too deep",
        JobFault::NoJid => "No jid",
        JobFault::ShortJid => "Short jid",
        JobFault::NoType => "No jobtype",
        JobFault::NoArgs => "No args",
        JobFault::BadQueue => "Bad queue",
        JobFault::BadReserve => "Bad reserve_for",
        JobFault::BadRetry => "Bad retry",
        JobFault::BadAt => "Bad at",
        JobFault::NoMemory => "",
    }
}

/// The job of a text, or its fault. Want of memory stands apart.
pub(crate) fn job_or_fault(alloc: Global, text: &[u8]) -> Result<Result<Job, JobFault>, AllocError>
    ensures { IfOk result (λ read. MatchResult read (IsJobOf text.now) (HasFault text.now)) }
{
    match read_job(alloc, text) {
        Ok(job) => Ok(Ok(job)),
        Err(JobFault::NoMemory) => Err(AllocError),
        Err(fault) => Ok(Err(fault)),
    }
}
