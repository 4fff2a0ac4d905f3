ghost use Rattle.std.specs.Prelude.{◌≡◌, IfOk};
ghost use Rattle.std.specs.List.{list_all};
ghost use Rattle.fk_frame.specs.Replies.{IsWellFormed, is_within_line};

use crate::answer::Answer;
use crate::decoder::decoded;
use crate::fault::Fault;
use crate::words::first_word;
use fk_frame::{Reply, write_reply};
use fk_json::Text;

/// `reply status TEXT`, `reply error TEXT`, `reply bulk TEXT` or `reply nil`: a reply's bytes.
pub(crate) fn reply(answer: &mut Answer, line: &str) -> Result<(), Fault> {
    let (form, rest) = first_word(line);
    let text = Text::copy(answer.alloc(), &decoded(answer.alloc(), rest)?)?;
    let reply = reply_of(form, text)?;
    answer.say_text("bytes", write_reply(answer.alloc(), &reply)?.bytes())?;
    Ok(())
}

/// The reply of a form. A status and an error are one line.
fn reply_of(form: &str, text: Text) -> Result<Reply, Fault>
    ensures { IfOk result IsWellFormed }
{
    match form {
        "status" if is_one_line(&text) => Ok(Reply::Status(text)),
        "error" if is_one_line(&text) => Ok(Reply::Error(text)),
        "bulk" => Ok(Reply::Bulk(text)),
        "nil" if text.is_empty() => Ok(Reply::Nil),
        _ => Err(Fault::BadLine),
    }
}

/// Whether a text has no CR and no LF.
fn is_one_line(text: &Text) -> bool
    ensures { result ≡ list_all is_within_line text.now }
{
    text.bytes()
        .iter()
        .all(|byte| *byte != b'\r' && *byte != b'\n')
}
