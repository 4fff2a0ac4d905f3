ghost use Rattle.std.specs.Prelude.{◌≡◌, ◌≤◌, length, option_to_list, IfOk, IfSome};
ghost use Rattle.fk_frame.specs.Lines.{longest_line};
ghost use Rattle.fk_job.specs.Spellings.{AreBytes, IsText};
ghost use Rattle.fk_model.specs.Commands.{arguments};
ghost use Rattle.fk_model.specs.Script.{AreGiven, command_of};
ghost use Rattle.fk_command.specs.Commands.{IsAnswerable, IsInForm, items_of};
ghost use Rattle.fk_command.specs.Verbs.{command};

use crate::ack::acknowledge;
use crate::batch::push_batch;
use crate::beat::beat;
use crate::fail::report;
use crate::fetch::fetch;
use crate::mutate::mutate;
use crate::push::push;
use crate::refusal::{Refusal, refuse};
use crate::signal::signal;
use crate::verb::{Verb, arguments_of, command_in};
use fk_frame::Reply;
use fk_json::Text;
use fk_model::{Ask, Item};
use std::alloc::{AllocError, Global};

/// What a line asks for, behind an accepted HELLO.
#[derive(Drop)]
pub enum Command {
    /// A turn is asked for.
    Ask(Ask),
    /// The client ends the talk.
    End,
    /// The line is refused, by an error reply.
    Wrong(Reply),
}

/// What a line asks for on the connection of the worker of this wid, or of a producer where it is empty.
/// A turn may be made of an ask: no line is long enough for a job, a name or a list beyond its bound, and
/// what serde_json decodes or writes is tested where it comes.
pub fn read_command(alloc: Global, line: &[u8], wid: &Text) -> Result<Command, AllocError>
    requires line { length line.now ≤ longest_line }
    requires wid { IsText wid.now }
    ensures given { IfOk result (λ command.
        AreGiven wid.now (command_of line.now) (arguments line.now) (items_of command)) }
    ensures range { IfOk result IsAnswerable }
{
    are_bytes(line);
    let item = read_item(alloc, command_in(line), arguments_of(line), wid)?;
    Ok(command_for(item))
}

/// The bytes of a line are below 256.
fn are_bytes(line: &[u8])
    ensures { AreBytes line.now }
{
    let _ = line.len();
}

/// What an item stands for: a turn is asked for, or the line is refused. No item is the end of the talk.
fn command_for(item: Option<Item>) -> Command
    ensures { items_of result ≡ option_to_list item }
{
    match item {
        Some(Item::Asks(ask)) => Command::Ask(ask),
        Some(Item::Own(reply)) => Command::Wrong(reply),
        None => Command::End,
    }
}

/// What a verb with these arguments gives, if it gives anything.
fn read_item(alloc: Global, verb: Verb, text: &[u8], wid: &Text) -> Result<Option<Item>, AllocError>
    requires { IsText wid.now }
    ensures given { IfOk result
        (λ item. AreGiven wid.now (command verb) text.now (option_to_list item)) }
    ensures form { IfOk result (λ item. IfSome item IsInForm) }
{
    match verb {
        Verb::End => Ok(None),
        Verb::Hello => Ok(Some(refuse(alloc, Refusal::SaidHello))),
        Verb::Push => Ok(Some(push(alloc, text)?)),
        Verb::Batch => Ok(Some(push_batch(alloc, text)?)),
        Verb::Fetch => Ok(Some(fetch(alloc, text, wid)?)),
        Verb::Ack => Ok(Some(acknowledge(alloc, text)?)),
        Verb::Fail => Ok(Some(report(alloc, text)?)),
        Verb::Beat => Ok(Some(beat(alloc, text)?)),
        Verb::Signal => Ok(Some(signal(alloc, text)?)),
        Verb::Info => Ok(Some(Item::Asks(Ask::Info))),
        Verb::Flush => Ok(Some(Item::Asks(Ask::Flush))),
        Verb::Mutate => Ok(Some(mutate(alloc, text)?)),
        Verb::Unknown => Ok(Some(refuse(alloc, Refusal::UnknownCommand))),
    }
}
