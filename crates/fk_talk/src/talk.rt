ghost use Rattle.std.specs.Prelude.{◌≡◌, ◌≤◌, ◌<◌, ◌↔◌, length, true, false, [], IfOk, IfSome, IsTrue, MatchResult, OnErr, OnOk, Ok};
ghost use Rattle.fk_frame.specs.declared.line_reader.Line.TheVariants.{Whole};
ghost use Rattle.fk_frame.specs.Lines.{longest_line};
ghost use Rattle.fk_frame.specs.Replies.{IsWellFormed};
ghost use Rattle.fk_model.specs.Answers.{reply_of};
ghost use Rattle.fk_model.specs.Range.{IsInRange};
ghost use Rattle.fk_talk.specs.declared.standing.Standing.TheVariants as standing;
ghost use Rattle.fk_talk.specs.declared.turn.Turn.TheVariants as turn;
ghost use Rattle.fk_talk.specs.Hearing.{IsAskable};
ghost use Rattle.fk_talk.specs.Steps.{asked_by, ended_by_long_line, taken, Halts, Hears};
ghost use Rattle.fk_talk.specs.Talks.{answered, fed, opened, starving, without_sent, Comes, HasAskInRange, HasTalked, Starves};
ghost use Rattle.fk_talk.specs.Whole.{Answers, BreaksOff, Feeds, Gives, Keeps, Sends};

use crate::line::{hear, long_line};
use crate::outgoing::{Outgoing, greeting};
use crate::standing::Standing;
use crate::turn::Turn;
use fk_frame::{Line, LineReader};
use fk_model::{Answer, Ask, Gate, Item};
use std::alloc::{AllocError, Global};
use std::marker::Model;

/// The text of one connection: it is fed what the client sends, in whatever pieces it comes, gives the
/// turns that the client's lines ask for, one after the other, and tells what is to be sent.
///
/// Once memory has run out in it, it is over.
#[derive(Drop)]
pub struct Talk {
    gate: Gate,
    standing: Standing,
    lines: LineReader,
    out: Outgoing,
    // An ask was given that has no answer yet.
    asked: bool,
    // Memory ran out.
    starved: bool,
    alloc: Global,
}

impl Model for Talk {
    ghost use Rattle.fk_talk.specs.Talks.{IsFit, Talking};

    ghost Value = { Talking };

    ghost view = { λ talk. record {
      gate = talk.gate;
      standing = talk.standing;
      waiting = talk.lines;
      out = talk.out;
      asked = talk.asked;
      starved = talk.starved;
    } };

    ghost invariant = { λ talk. IsFit talk.gate talk.standing };
}

impl Talk {
    /// A talk whose HELLO has to pass this gate. The greeting is to be sent.
    pub fn open(alloc: Global, gate: Gate) -> Result<Talk, AllocError>
        requires { 1 ≤ gate.rounds }
        ensures ok { IfOk result (λ talk. talk ≡ opened gate) }
        ensures whole { IfOk result (HasTalked gate [] [] [] []) }
    {
        let out = greeting(alloc, &gate)?;
        Ok(Talk {
            gate,
            standing: Standing::Nobody,
            lines: LineReader::new(alloc),
            out,
            asked: false,
            starved: false,
            alloc,
        })
    }

    /// Takes the next bytes that the client sent.
    pub fn feed(&mut self, piece: &[u8]) -> Result<(), AllocError>
        requires { self.old.asked ≡ false }
        ensures ok { OnOk result (self.new ≡ fed self.old piece.now) }
        ensures err { OnErr result (self.new ≡ starving self.old) }
        ensures wanted { OnErr result (0 < length piece.now) }
        ensures whole { MatchResult result
            (λ _. Feeds piece.now self.old self.new) (λ _. Keeps self.old self.new) }
    {
        match self.lines.feed(piece) {
            Ok(()) => Ok(()),
            Err(error) => {
                self.starved = true;
                Err(error)
            }
        }
    }

    /// What comes next: the ask of the next line that asks for a turn, the end of the talk, or the
    /// need of more bytes. The lines before it have their replies, which are to be sent.
    pub fn next(&mut self) -> Result<Turn, AllocError>
        requires { self.old.asked ≡ false }
        ensures ok { IfOk result (λ turn. self.old.starved ≡ false → Comes turn self.old self.new) }
        ensures over { self.old.starved ≡ true → (result ≡ Ok turn.Over) × (self.new ≡ self.old) }
        ensures err { OnErr result (Starves self.old self.new) }
        ensures range { IfOk result HasAskInRange }
        ensures whole { MatchResult result
            (λ turn. Gives turn self.old self.new) (λ _. BreaksOff self.old self.new) }
    {
        if self.starved {
            return Ok(Turn::Over);
        }
        match self.read() {
            Ok(turn) => Ok(turn),
            Err(error) => {
                self.starved = true;
                Err(error)
            }
        }
    }

    /// Takes the answer to the ask that was given: its reply is to be sent.
    pub fn answer(&mut self, answer: &Answer) -> Result<(), AllocError>
        requires asked { self.old.asked ≡ true }
        requires form { IsWellFormed (reply_of answer.now) }
        ensures ok { OnOk result (self.new ≡ answered self.old answer.now) }
        ensures err { OnErr result (self.new ≡ starving self.old) }
        ensures whole { MatchResult result
            (λ _. Answers answer.now self.old self.new) (λ _. Keeps self.old self.new) }
    {
        self.asked = false;
        match self.out.put_answer(answer) {
            Ok(()) => Ok(()),
            Err(error) => {
                self.starved = true;
                Err(error)
            }
        }
    }

    /// What is to be sent.
    pub fn out(&self) -> &[u8]
        ensures { result.now ≡ self.now.out }
    {
        self.out.bytes()
    }

    /// Gives up the first bytes of what was to be sent. It takes no memory.
    pub fn sent(&mut self, count: usize)
        requires { count ≤ length self.old.out }
        ensures is { self.new ≡ without_sent count self.old }
        ensures whole { Sends count self.old self.new }
    {
        self.out.sent(count);
    }

    /// Reads lines up to the first that asks for a turn, or that ends the talk, or to the last.
    fn read(&mut self) -> Result<Turn, AllocError>
        requires asked { self.old.asked ≡ false }
        requires going { self.old.starved ≡ false }
        ensures ok { IfOk result (λ turn. Comes turn self.old self.new) }
        ensures err { OnErr result (Halts self.old self.new) }
        ensures range { IfOk result HasAskInRange }
    {
        'lines: while !self.is_over() {
            match self.lines.next()? {
                Line::Need => return Ok(Turn::Need),
                Line::TooLong => return self.end_at_long_line(),
                Line::Whole(line) => {
                    if let Some(ask) = self.take_line(line.bytes())? {
                        return Ok(Turn::Ask(ask));
                    }
                }
            }
        }
        Ok(Turn::Over)
    }

    fn is_over(&self) -> bool
        ensures { IsTrue result ↔ (self.now.standing ≡ standing.Over) }
    {
        match self.standing {
            Standing::Over => true,
            Standing::Nobody | Standing::Somebody(_) => false,
        }
    }

    /// Does what a whole line says, and gives the ask where it asks for a turn.
    fn take_line(&mut self, line: &[u8]) -> Result<Option<Ask>, AllocError>
        requires fits { length line.now ≤ longest_line }
        requires asked { self.old.asked ≡ false }
        ensures ok { IfOk result (λ ask. Hears (Whole line.now) ask self.old self.new) }
        ensures err { OnErr result (self.new ≡ self.old) }
        ensures range { IfOk result (λ ask. IfSome ask IsInRange) }
    {
        let heard = hear(self.alloc, &self.gate, &self.standing, line)?;
        let ask = self.take_item(heard.item)?;
        if let Some(standing) = heard.standing {
            self.standing = standing;
        }
        Ok(ask)
    }

    /// Puts out a reply of its own, or gives an ask.
    fn take_item(&mut self, item: Option<Item>) -> Result<Option<Ask>, AllocError>
        requires range { IfSome item IsAskable }
        requires asked { self.old.asked ≡ false }
        ensures ok { OnOk result (self.new ≡ taken self.old item) }
        ensures ask { IfOk result (λ ask. ask ≡ asked_by item) }
        ensures err { OnErr result (self.new ≡ self.old) }
    {
        match item {
            None => Ok(None),
            Some(Item::Own(reply)) => {
                self.out.put_reply(&reply)?;
                Ok(None)
            }
            Some(Item::Asks(ask)) => {
                self.asked = true;
                Ok(Some(ask))
            }
        }
    }

    /// A line that is too long ends the talk.
    fn end_at_long_line(&mut self) -> Result<Turn, AllocError>
        ensures ok { IfOk result (λ ended. (ended ≡ turn.Over)
            × (self.new ≡ ended_by_long_line self.old)) }
        ensures err { OnErr result (self.new ≡ self.old) }
    {
        self.out.put_reply(&long_line(self.alloc))?;
        self.standing = Standing::Over;
        Ok(Turn::Over)
    }
}
