// A batch of jobs: those that are taken are pushed, and those that aren't are told, each under its
// jid.
ghost use Rattle.std.specs.Prelude.{◌≡◌, false, List, ℕ, slice_range, IfOk, OnOk};
ghost use Rattle.std.specs.List.{AllByRecursion};
ghost use Rattle.serde_json.specs.Data.{object, put, string};
ghost use Rattle.serde_json.specs.View.{members_view};
ghost use Rattle.serde_json.specs.Written.{compact_text, members_have_float};
ghost use Rattle.fk_json.specs.Members.{IsElementIn, inner_levels};
ghost use Rattle.fk_model.specs.declared.ask.Ask.TheVariants.{PushBatch};
ghost use Rattle.fk_model.specs.declared.item.Item.TheVariants.{Asks};
ghost use Rattle.fk_model.specs.Payloads.{HasKey, IsBatch, fault_text};
ghost use Rattle.fk_command.specs.Batches.{Grows, IsReadAs};
ghost use Rattle.fk_command.specs.Commands.{IsInForm};

use crate::key::key_of;
use crate::refusal::{Refusal, fault_text, job_or_fault, refuse};
use fk_filter::short_text;
use fk_job::{JobFault, Jobs};
use fk_json::{JsonFault, Span, scan_array};
use fk_model::{Ask, Item};
use serde_json::{Map, Value};
use std::alloc::{AllocError, Global};

/// What was read of a batch: the jobs that are taken, and by key why the others aren't.
#[derive(Drop)]
struct ReadBatch {
    jobs: Jobs,
    refusals: Map<String, Value>,
}

/// What a PUSHB of these arguments gives.
pub(crate) fn push_batch(alloc: Global, arguments: &[u8]) -> Result<Item, AllocError>
    ensures item { IfOk result (IsBatch arguments.now) }
    ensures form { IfOk result IsInForm }
{
    match scan_array(alloc, arguments) {
        Ok(spans) => batch_item(alloc, read_elements(alloc, arguments, spans.as_slice())?),
        Err(JsonFault::Syntax(_)) => Ok(refuse(alloc, Refusal::BadJson)),
        Err(JsonFault::TooDeep(_)) => Ok(refuse(alloc, Refusal::TooDeep)),
        Err(JsonFault::NoMemory) => Err(AllocError),
    }
}

/// What a batch asks for: its jobs are pushed, and why its refused elements were is told as an object.
fn batch_item(alloc: Global, batch: ReadBatch) -> Result<Item, AllocError>
    requires { members_have_float (members_view batch.refusals.entries) ≡ false }
    ensures item { IfOk result (λ item. item ≡ Asks (PushBatch batch.jobs.items
        (compact_text (object (members_view batch.refusals.entries))))) }
    ensures form { IfOk result IsInForm }
{
    let text = Value::Object(batch.refusals).to_string(alloc)?;
    Ok(Item::Asks(Ask::PushBatch {
        jobs: fk_model::Batch::new(batch.jobs),
        told: short_text(alloc, text.as_bytes())?,
    }))
}

/// Reads the elements at these places, one by one.
fn read_elements(alloc: Global, text: &[u8], spans: &[Span]) -> Result<ReadBatch, AllocError>
    requires { AllByRecursion (IsElementIn inner_levels text.now) spans.now }
    ensures { IfOk result (IsReadAs text.now spans.now) }
{
    let mut batch = ReadBatch {
        jobs: Jobs::new(alloc),
        refusals: Map::new(alloc),
    };
    for span in spans {
        read_element(alloc, piece_at(text, *span), &mut batch)?;
    }
    Ok(batch)
}

/// The element at its place.
fn piece_at(text: &[u8], span: Span) -> &[u8]
    requires { IsElementIn inner_levels text.now span }
    ensures { result.now ≡ slice_range text.now span.from span.to }
{
    &text[span.from..span.to]
}

/// Reads one element: its job is taken, or its fault put under its key.
fn read_element(alloc: Global, text: &[u8], batch: &mut ReadBatch) -> Result<(), AllocError>
    ensures { OnOk result (Grows text.now batch.old batch.new) }
{
    match job_or_fault(alloc, text)? {
        Ok(job) => batch.jobs.push(job),
        Err(fault) => bar(alloc, text, &fault, &mut batch.refusals),
    }
}

/// Puts a fault under its element's key, in the place of one that was there.
#[tactic(auto, using(crate::proofs::RefusalsPut::inserts))]
fn bar(
    alloc: Global,
    text: &[u8],
    fault: &JobFault,
    refusals: &mut Map<String, Value>,
) -> Result<(), AllocError>
    ensures { OnOk result ((key : List ℕ) × HasKey text.now key
        × (members_view refusals.new.entries
        ≡ put key (string (fault_text fault.now)) (members_view refusals.old.entries))) }
{
    let key = key_of(alloc, text)?;
    let reason = String::from_str(alloc, fault_text(fault))?;
    drop(refusals.insert(key, Value::String(reason))?);
    Ok(())
}
