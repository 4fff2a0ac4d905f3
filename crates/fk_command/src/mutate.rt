// What a MUTATE gives: which rows of which set, by its arguments, as serde_json reads them, and what is done
// to them.
ghost use Rattle.std.specs.Prelude.{◌≡◌, IfOk, IfSome};
ghost use Rattle.serde_json.specs.View.{members_view};
ghost use Rattle.fk_model.specs.Mutations.{IsMutation, cmd_named, filter_among, mutation, mutation_by, mutation_of, target_named};
ghost use Rattle.fk_model.specs.Range.{IsFilter};
ghost use Rattle.fk_command.specs.Commands.{IsInForm};

use crate::object::{read_object, string_among};
use crate::refusal::{Refusal, refuse};
use fk_filter::{FilterFault, member, read_filter};
use fk_model::{Ask, Cmd, Filter, Item, Target};
use serde_json::{Map, Value};
use std::alloc::{AllocError, Global};

/// What a MUTATE of these arguments gives.
pub(crate) fn mutate(alloc: Global, arguments: &[u8]) -> Result<Item, AllocError>
    ensures item { IfOk result (IsMutation arguments.now) }
    ensures form { IfOk result IsInForm }
{
    match read_object(alloc, arguments)? {
        Some(members) => mutate_in(alloc, &members),
        None => Ok(refuse(alloc, Refusal::BadJson)),
    }
}

/// What a MUTATE of these members gives.
fn mutate_in(alloc: Global, members: &Map<String, Value>) -> Result<Item, AllocError>
    ensures item { IfOk result (λ item. item ≡ mutation (members_view members.now.entries)) }
    ensures form { IfOk result IsInForm }
{
    match string_among(members, "cmd").and_then(cmd_named) {
        Some(cmd) => mutate_by(alloc, members, cmd),
        None => Ok(refuse(alloc, Refusal::BadCmd)),
    }
}

/// What a MUTATE gives that does this, by its other members.
fn mutate_by(alloc: Global, members: &Map<String, Value>, cmd: Cmd) -> Result<Item, AllocError>
    ensures item { IfOk result
        (λ item. item ≡ mutation_by (members_view members.now.entries) cmd) }
    ensures form { IfOk result IsInForm }
{
    match string_among(members, "target").and_then(target_named) {
        Some(target) => mutate_of(alloc, members, cmd, target),
        None => Ok(refuse(alloc, Refusal::BadTarget)),
    }
}

/// What a MUTATE gives that does this to this set, by its other members. Its filter is read whatever is done.
fn mutate_of(
    alloc: Global,
    members: &Map<String, Value>,
    cmd: Cmd,
    target: Target,
) -> Result<Item, AllocError>
    ensures item { IfOk result
        (λ item. item ≡ mutation_of cmd (members_view members.now.entries) target) }
    ensures form { IfOk result IsInForm }
{
    match filter_among(alloc, members)? {
        Some(filter) => Ok(Item::Asks(Ask::Mutate {
            cmd,
            target,
            filter,
        })),
        None => Ok(refuse(alloc, Refusal::BadFilter)),
    }
}

/// The filter among the members, or `None` where a bad one is there: without one there is no condition.
fn filter_among(alloc: Global, members: &Map<String, Value>) -> Result<Option<Filter>, AllocError>
    ensures is { IfOk result
        (λ filter. filter ≡ filter_among (members_view members.now.entries)) }
    ensures short { IfOk result (λ filter. IfSome filter IsFilter) }
{
    let value = member(members, "filter").unwrap_or(&Value::Null);
    match read_filter(alloc, value) {
        Ok(filter) => Ok(Some(filter)),
        Err(FilterFault::BadFilter) => Ok(None),
        Err(FilterFault::NoMemory) => Err(AllocError),
    }
}

/// What is done by this name.
fn cmd_named(name: &str) -> Option<Cmd>
    ensures { result ≡ cmd_named name.now }
{
    if name == "kill" {
        Some(Cmd::Kill)
    } else if name == "discard" {
        Some(Cmd::Discard)
    } else if name == "requeue" {
        Some(Cmd::Requeue)
    } else if name == "clear" {
        Some(Cmd::Clear)
    } else {
        None
    }
}

/// The set of rows of this name.
fn target_named(name: &str) -> Option<Target>
    ensures { result ≡ target_named name.now }
{
    if name == "scheduled" {
        Some(Target::Scheduled)
    } else if name == "retries" {
        Some(Target::Retries)
    } else if name == "dead" {
        Some(Target::Dead)
    } else {
        None
    }
}
