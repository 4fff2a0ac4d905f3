ghost use Rattle.std.specs.Prelude.{◌≡◌, ◌++◌, List, ℕ, IfOk};
ghost use Rattle.fk_frame.specs.Bytes.{line_end};
ghost use Rattle.fk_frame.specs.Replies.{reply_bytes, IsWellFormed, FitsMemory};
ghost use Rattle.fk_frame.specs.declared.reply.Reply.{Reply as AReply};

use fk_json::Text;
use std::alloc::{AllocError, Global};

/// What ends each line.
const LINE_END: &[u8] = b"\r\n";

/// What the server answers to one command.
#[derive(Drop)]
pub enum Reply {
    /// It went well.
    Status(Text),
    /// It was refused, and why.
    Error(Text),
    /// A value of any bytes.
    Bulk(Text),
    /// No value.
    Nil,
}

/// The bytes of a reply, which end with CR LF.
pub fn write_reply(alloc: Global, reply: &Reply) -> Result<Text, AllocError>
    requires { IsWellFormed reply.now }
    ensures { IfOk result (λ text. text ≡ reply_bytes reply.now) }
{
    match reply {
        Reply::Status(text) => line(alloc, b"+", text.bytes()),
        Reply::Error(text) => line(alloc, b"-", text.bytes()),
        Reply::Bulk(text) => {
            let head = format!(in alloc; "${}\r\n", text.len())?;
            line(alloc, head.as_bytes(), text.bytes())
        }
        Reply::Nil => Ok(Text::fixed(alloc, b"$-1\r\n")),
    }
}

// A text between its head and CR LF. Its memory is taken at once.
fn line(alloc: Global, head: &[u8], text: &[u8]) -> Result<Text, AllocError>
    ensures { IfOk result (λ whole. whole ≡ head.now ++ text.now ++ line_end) }
{
    let room = (head.len() + text.len()).saturating_add(LINE_END.len());
    let mut whole = Text::with_room(alloc, room)?;
    whole.push_bytes(head)?;
    whole.push_bytes(text)?;
    whole.push_bytes(LINE_END)?;
    Ok(whole)
}

/// A stream of replies can be read in one way only: no reply's bytes begin another reply's, where
/// statuses and errors are one line each and bulks are shorter than 2^64 bytes.
pub fn no_reply_begins_another()
    ensures { (r s : AReply) (x y : List ℕ)
        → IsWellFormed r → IsWellFormed s → FitsMemory r → FitsMemory s
        → reply_bytes r ++ x ≡ reply_bytes s ++ y → (r ≡ s) × (x ≡ y) }
{}
