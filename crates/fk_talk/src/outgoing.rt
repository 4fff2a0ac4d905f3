ghost use Rattle.std.specs.Prelude.{◌≡◌, ◌≤◌, ◌++◌, [], codes, length, drop, take, IfOk, OnErr, OnOk};
ghost use Rattle.std.specs.Fmt.{decimal};
ghost use Rattle.fk_frame.specs.Bytes.{line_end};
ghost use Rattle.fk_frame.specs.Replies.{reply_bytes};
ghost use Rattle.fk_model.specs.Answers.{answer_bytes};
ghost use Rattle.fk_model.specs.Handshake as spec;

use crate::password::salt_text;
use fk_frame::{Reply, give_up_first};
use fk_model::{Answer, Gate};
use std::alloc::{AllocError, Global};
use std::marker::Model;

/// The bytes that are to be sent. Those in front of `from` were sent, and are cut off when they are at
/// least as many as the others.
#[derive(Drop)]
pub(crate) struct Outgoing {
    buffer: Vec<u8>,
    from: usize,
}

impl Model for Outgoing {
    ghost use Rattle.std.specs.Prelude.{ℕ, List, drop, length, ◌≤◌};

    ghost Value = { List ℕ };

    ghost view = { λ o. drop o.from o.buffer.items };

    ghost invariant = { λ o. o.from ≤ length o.buffer.items };
}

impl Outgoing {
    /// Nothing is to be sent. It takes no memory.
    pub(crate) fn new(alloc: Global) -> Outgoing
        ensures { result ≡ [] }
    {
        Outgoing {
            buffer: Vec::new(alloc),
            from: 0,
        }
    }

    pub(crate) fn bytes(&self) -> &[u8]
        ensures { result.now ≡ self.now }
    {
        &self.buffer[self.from..]
    }

    /// Adds bytes at the end, or leaves all as it is.
    pub(crate) fn put(&mut self, bytes: &[u8]) -> Result<(), AllocError>
        ensures ok { OnOk result (self.new ≡ self.old ++ bytes.now) }
        ensures err { OnErr result (self.new ≡ self.old) }
    {
        self.buffer.extend_from_slice(bytes)
    }

    /// Adds a reply at the end, or leaves all as it is.
    pub(crate) fn put_reply(&mut self, reply: &Reply) -> Result<(), AllocError>
        ensures ok { OnOk result (self.new ≡ self.old ++ reply_bytes reply.now) }
        ensures err { OnErr result (self.new ≡ self.old) }
    {
        match reply {
            Reply::Status(text) => self.put_line(b"+", text.bytes()),
            Reply::Error(text) => self.put_line(b"-", text.bytes()),
            Reply::Bulk(text) => {
                let head = format!(in *self.buffer.allocator(); "${}\r\n", text.len())?;
                self.put_line(head.as_bytes(), text.bytes())
            }
            Reply::Nil => self.put(b"$-1\r\n"),
        }
    }

    /// Adds a text between its head and CR LF at the end, or leaves all as it is.
    fn put_line(&mut self, head: &[u8], text: &[u8]) -> Result<(), AllocError>
        ensures ok { OnOk result (self.new ≡ self.old ++ head.now ++ text.now ++ line_end) }
        ensures err { OnErr result (self.new ≡ self.old) }
    {
        let before = self.buffer.len();
        match add_line(&mut self.buffer, head, text) {
            Ok(()) => Ok(()),
            Err(error) => {
                self.buffer.truncate(before);
                Err(error)
            }
        }
    }

    /// Adds the reply of an answer at the end, or leaves all as it is.
    pub(crate) fn put_answer(&mut self, answer: &Answer) -> Result<(), AllocError>
        ensures ok { OnOk result (self.new ≡ self.old ++ answer_bytes answer.now) }
        ensures err { OnErr result (self.new ≡ self.old) }
    {
        match answer {
            Answer::Said(reply) => self.put_reply(reply),
            Answer::NoMemory => self.put(b"-ERR Out of memory\r\n"),
            Answer::Full => self.put(b"-ERR Full\r\n"),
            Answer::DiskFault => self.put(b"-ERR Disk fault\r\n"),
        }
    }

    /// Gives up the first bytes, which were sent. It takes no memory. Each byte that is moved pays for
    /// one that was sent, so the moves take no longer than what is sent.
    pub(crate) fn sent(&mut self, count: usize)
        requires { count ≤ length self.old }
        ensures { self.new ≡ drop count self.old }
    {
        self.from += count;
        if self.from >= self.buffer.len() - self.from {
            give_up_first(&mut self.buffer, self.from);
            self.from = 0;
        }
    }
}

/// Adds a text between its head and CR LF at the end, or where memory runs out a part of that.
fn add_line(buffer: &mut Vec<u8>, head: &[u8], text: &[u8]) -> Result<(), AllocError>
    ensures ok { OnOk result
        (buffer.new.items ≡ buffer.old.items ++ head.now ++ text.now ++ line_end) }
    ensures err { OnErr result
        (take (length buffer.old.items) buffer.new.items ≡ buffer.old.items) }
{
    buffer.extend_from_slice(head)?;
    buffer.extend_from_slice(text)?;
    buffer.extend_from_slice(b"\r\n")
}

/// The greeting, to be sent: it tells the rounds and the salt where a password is set.
pub(crate) fn greeting(alloc: Global, gate: &Gate) -> Result<Outgoing, AllocError>
    ensures { IfOk result (λ out. out ≡ spec.greeting gate.now) }
{
    let mut out = Outgoing::new(alloc);
    match &gate.password {
        None => out.put(b"+HI {\"v\":2}\r\n")?,
        Some(_) => put_salted(alloc, &mut out, gate.rounds, gate.salt)?,
    }
    Ok(out)
}

/// Adds the greeting of a server whose password is set.
fn put_salted(alloc: Global, out: &mut Outgoing, rounds: u32, salt: u64) -> Result<(), AllocError>
    ensures { OnOk result (out.new ≡ out.old ++ codes "+HI {\"i\":" ++ decimal rounds
        ++ codes ",\"s\":\"" ++ spec.salt_text salt ++ codes "\",\"v\":2}\r\n") }
{
    let head = format!(in alloc; "+HI {{\"i\":{},\"s\":\"", rounds)?;
    out.put(head.as_bytes())?;
    out.put(&salt_text(salt))?;
    out.put(b"\",\"v\":2}\r\n")
}
