use crate::answer::Answer;
use crate::fault::Fault;
use crate::words::{first_word, number_in, texts_in};
use fk_frame::{Reply, ReplyFault, ReplyReader};
use std::alloc::AllocError;

/// `replies SIZE TEXT|TEXT..`: what a reader of replies says that is fed with each text in pieces of
/// so many bytes, until it needs more or what is left is no reply.
pub(crate) fn replies(answer: &mut Answer, line: &str) -> Result<(), Fault> {
    let (size, rest) = first_word(line);
    let Ok(size) = usize::try_from(number_in(size)?) else {
        return Err(Fault::BadLine);
    };
    let mut reader = ReplyReader::new(answer.alloc());
    for text in &texts_in(answer.alloc(), rest)? {
        feed_all(answer, &mut reader, text, size)?;
    }
    Ok(())
}

/// Feeds a text in pieces of so many bytes.
fn feed_all(
    answer: &mut Answer,
    reader: &mut ReplyReader,
    text: &[u8],
    size: usize,
) -> Result<(), Fault> {
    for piece in text.chunks(size.max(1)) {
        reader.feed(piece)?;
        say_replies(answer, reader, piece.len())?;
    }
    Ok(())
}

/// What the reader says once it was fed so many bytes, in which at most as many replies end.
fn say_replies(answer: &mut Answer, reader: &mut ReplyReader, fed: usize) -> Result<(), Fault> {
    for _ in 0..=fed {
        match reader.next() {
            Ok(Some(reply)) => say_reply(answer, &reply)?,
            Ok(None) => return Ok(answer.say("needs more")?),
            Err(ReplyFault::BadReply) => return Ok(answer.say("bad")?),
            Err(ReplyFault::NoMemory) => return Err(Fault::NoMemory),
        }
    }
    Ok(())
}

/// A reply's form, and its text.
fn say_reply(answer: &mut Answer, reply: &Reply) -> Result<(), AllocError> {
    match reply {
        Reply::Status(text) => answer.say_text("status", text.bytes()),
        Reply::Error(text) => answer.say_text("error", text.bytes()),
        Reply::Bulk(text) => answer.say_text("bulk", text.bytes()),
        Reply::Nil => answer.say("nil"),
    }
}
