// What one line gives, and how far the talk comes by it.
ghost use Rattle.std.specs.Prelude.{◌≡◌, ◌≤◌, codes, length, IfOk, None, Some};
ghost use Rattle.fk_frame.specs.declared.line_reader.Line.TheVariants.{Whole};
ghost use Rattle.fk_frame.specs.declared.reply.Reply.TheVariants.{Error};
ghost use Rattle.fk_frame.specs.Lines.{longest_line};
ghost use Rattle.fk_job.specs.Spellings.{IsText};
ghost use Rattle.fk_model.specs.declared.gate.Gate.{Gate as AGate};
ghost use Rattle.fk_model.specs.declared.item.Item.TheVariants.{Own};
ghost use Rattle.fk_model.specs.Handshake.{let_in};
ghost use Rattle.fk_model.specs.Script.{hello_item};
ghost use Rattle.fk_talk.specs.declared.standing.Standing.TheVariants.{Nobody, Over, Somebody};
ghost use Rattle.fk_talk.specs.Hearing.{Does, HasTextAsWid, IsAskable, IsHeardWell, IsLetIn, standing_by, welcomed};

use crate::hello::{Welcome, read_hello};
use crate::standing::Standing;
use fk_command::{Command, Verb, arguments_of, command_in, read_command};
use fk_frame::Reply;
use fk_json::Text;
use fk_model::{Ask, Gate, Item};
use std::alloc::{AllocError, Global};

/// What a line does: what it gives, if it gives anything, and how far the talk comes by it, or `None`
/// where it stays.
#[derive(Drop)]
pub(crate) struct Heard {
    pub(crate) item: Option<Item>,
    pub(crate) standing: Option<Standing>,
}

/// What a whole line does to a talk that has come so far.
pub(crate) fn hear(
    alloc: Global,
    gate: &Gate,
    standing: &Standing,
    line: &[u8],
) -> Result<Heard, AllocError>
    requires rounds { 1 ≤ gate.now.rounds }
    requires wid { HasTextAsWid standing.now }
    requires fits { length line.now ≤ longest_line }
    ensures does { IfOk result (λ heard. Does gate.now standing.now (Whole line.now) heard) }
    ensures range { IfOk result IsHeardWell }
{
    match standing {
        Standing::Nobody => before_hello(alloc, gate, line),
        Standing::Somebody(wid) => behind_hello(alloc, wid, line),
        Standing::Over => Ok(Heard {
            item: None,
            standing: None,
        }),
    }
}

/// What a whole line does before a HELLO was accepted.
fn before_hello(alloc: Global, gate: &Gate, line: &[u8]) -> Result<Heard, AllocError>
    requires { 1 ≤ gate.now.rounds }
    ensures does { IfOk result (λ heard. Does gate.now Nobody (Whole line.now) heard) }
    ensures range { IfOk result IsHeardWell }
{
    match command_in(line) {
        Verb::End => Ok(ending(None)),
        Verb::Hello => greet(alloc, read_hello(alloc, gate, arguments_of(line))?),
        _ => Ok(staying(refuse(alloc, b"ERR HELLO first"))),
    }
}

/// What a HELLO does of which this becomes.
fn greet(alloc: Global, told: Welcome) -> Result<Heard, AllocError>
    requires { IsLetIn told }
    ensures item { IfOk result (λ heard. heard.item ≡ Some (hello_item (welcomed told))) }
    ensures comes { IfOk result (λ heard. heard.standing ≡ Some (standing_by (welcomed told))) }
    ensures range { IfOk result IsHeardWell }
{
    match told {
        Welcome::TurnedAway(refusal) => Ok(ending(Some(refuse(alloc, refusal.text())))),
        Welcome::LetIn(wid) => Ok(Heard {
            item: Some(accept(alloc, &wid)?),
            standing: Some(Standing::Somebody(wid)),
        }),
    }
}

/// What the HELLO of a worker gives, or of a producer, of whom the wid is empty.
fn accept(alloc: Global, wid: &Text) -> Result<Item, AllocError>
    requires { IsText wid.now }
    ensures item { IfOk result (λ item. item ≡ hello_item (let_in wid.now)) }
    ensures range { IfOk result IsAskable }
{
    if wid.is_empty() {
        Ok(Item::Own(Reply::Status(Text::fixed(alloc, b"OK"))))
    } else {
        Ok(Item::Asks(Ask::Hello { wid: wid.copied()? }))
    }
}

/// What a whole line does behind an accepted HELLO.
fn behind_hello(alloc: Global, wid: &Text, line: &[u8]) -> Result<Heard, AllocError>
    requires wid { IsText wid.now }
    requires fits { length line.now ≤ longest_line }
    ensures does { IfOk result (λ heard. (gate : AGate)
        → Does gate (Somebody wid.now) (Whole line.now) heard) }
    ensures range { IfOk result IsHeardWell }
{
    match read_command(alloc, line, wid)? {
        Command::Ask(ask) => Ok(staying(Item::Asks(ask))),
        Command::End => Ok(ending(None)),
        Command::Wrong(reply) => Ok(staying(Item::Own(reply))),
    }
}

/// A line that ends the talk, and what it gives, if it gives anything.
fn ending(item: Option<Item>) -> Heard
    ensures item { result.item ≡ item }
    ensures standing { result.standing ≡ Some Over }
{
    Heard {
        item,
        standing: Some(Standing::Over),
    }
}

/// A line by which the talk stays where it is, and what it gives.
fn staying(item: Item) -> Heard
    ensures item { result.item ≡ Some item }
    ensures standing { result.standing ≡ None }
{
    Heard {
        item: Some(item),
        standing: None,
    }
}

/// What a line gives that is too long.
pub(crate) fn long_line(alloc: Global) -> Reply
    ensures { result ≡ Error (codes "ERR Line too long") }
{
    Reply::Error(Text::fixed(alloc, b"ERR Line too long"))
}

/// An error reply.
fn refuse(alloc: Global, text: &'static [u8]) -> Item
    ensures { result ≡ Own (Error text.now) }
{
    Item::Own(Reply::Error(Text::fixed(alloc, text)))
}
