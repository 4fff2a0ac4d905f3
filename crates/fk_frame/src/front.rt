ghost use Rattle.std.specs.Prelude.{◌≡◌, ◌++◌, ◌<◌, ◌^◌, codes, true, Ok};
ghost use Rattle.std.specs.Fmt.{decimal};
ghost use Rattle.fk_frame.specs.Bytes.{line_end};
ghost use Rattle.fk_frame.specs.Fronts.{begins_break, line_length, EndsLine, Finds, is_nil, begins_nil};
ghost use Rattle.fk_frame.specs.Replies.{IsOneLine};

use crate::bulk_length::bulk_length;
use crate::reply::Reply;
use crate::reply_fault::ReplyFault;
use fk_json::Text;
use std::alloc::Global;

/// A reply at the front of a stream.
#[derive(Drop)]
pub(crate) struct First {
    pub(crate) reply: Reply,
    /// How many bytes stand behind it.
    pub(crate) left: usize,
}

/// The reply at the front of a stream, or None where that is cut off. The first CR or LF stands at
/// `end`, or none does before it.
pub(crate) fn first_reply(
    alloc: Global,
    stream: &[u8],
    end: usize,
) -> Result<Option<First>, ReplyFault>
    requires { end ≡ line_length stream.now }
    ensures { Finds stream.now result }
{
    let (line, behind) = stream.split_at(end);
    let closed = is_line_end(behind)?;
    match line {
        [b'+', text @ ..] => first_status(alloc, text, behind, closed),
        [b'-', text @ ..] => first_error(alloc, text, behind, closed),
        [b'$', number @ ..] => first_bulk(alloc, number, behind, closed),
        [] => blank(behind),
        _ => Err(ReplyFault::BadReply),
    }
}

// What stands before the first byte of a reply: nothing, or a CR or LF, which none begins with.
fn blank(behind: &[u8]) -> Result<Option<First>, ReplyFault>
    requires { begins_break behind.now ≡ true }
    ensures { Finds behind.now result }
{
    if behind.is_empty() {
        Ok(None)
    } else {
        Err(ReplyFault::BadReply)
    }
}

// Whether CR LF stands in front. It doesn't yet where it is cut off.
fn is_line_end(bytes: &[u8]) -> Result<bool, ReplyFault>
    ensures { EndsLine bytes.now result }
{
    match bytes {
        [] => Ok(false),
        [b'\r'] => Ok(false),
        [b'\r', b'\n', ..] => Ok(true),
        _ => Err(ReplyFault::BadReply),
    }
}

fn first_status(
    alloc: Global,
    text: &[u8],
    behind: &[u8],
    closed: bool,
) -> Result<Option<First>, ReplyFault>
    requires line { IsOneLine text.now }
    requires ended { EndsLine behind.now (Ok closed) }
    ensures { Finds (codes "+" ++ text.now ++ behind.now) result }
{
    if !closed {
        return Ok(None);
    }
    let text = Text::copy(alloc, text)?;
    Ok(Some(First {
        reply: Reply::Status(text),
        left: behind.len() - 2,
    }))
}

fn first_error(
    alloc: Global,
    text: &[u8],
    behind: &[u8],
    closed: bool,
) -> Result<Option<First>, ReplyFault>
    requires line { IsOneLine text.now }
    requires ended { EndsLine behind.now (Ok closed) }
    ensures { Finds (codes "-" ++ text.now ++ behind.now) result }
{
    if !closed {
        return Ok(None);
    }
    let text = Text::copy(alloc, text)?;
    Ok(Some(First {
        reply: Reply::Error(text),
        left: behind.len() - 2,
    }))
}

// A bulk, or none, by what stands in its first line.
fn first_bulk(
    alloc: Global,
    number: &[u8],
    behind: &[u8],
    closed: bool,
) -> Result<Option<First>, ReplyFault>
    requires line { IsOneLine number.now }
    requires ended { EndsLine behind.now (Ok closed) }
    ensures { Finds (codes "$" ++ number.now ++ behind.now) result }
{
    if is_nil(number) {
        return Ok(first_nil(behind, closed));
    }
    if behind.is_empty() && begins_nil(number) {
        return Ok(None);
    }
    match bulk_length(number) {
        Some(count) if closed => sized_bulk(alloc, &behind[2..], count),
        Some(_) => Ok(None),
        None => Err(ReplyFault::BadReply),
    }
}

fn is_nil(number: &[u8]) -> bool
    ensures { result ≡ is_nil number.now }
{
    number == b"-1".as_slice()
}

// Whether it is less than -1, and may be that once there is more.
fn begins_nil(number: &[u8]) -> bool
    ensures { result ≡ begins_nil number.now }
{
    number.is_empty() || number == b"-".as_slice()
}

// No value, once its line ends.
fn first_nil(behind: &[u8], closed: bool) -> Option<First>
    requires { EndsLine behind.now (Ok closed) }
    ensures { Finds (codes "$-1" ++ behind.now) (Ok result) }
{
    if !closed {
        return None;
    }
    Some(First {
        reply: Reply::Nil,
        left: behind.len() - 2,
    })
}

// A bulk of a known length. Its bytes aren't looked at before all of them are there.
fn sized_bulk(alloc: Global, body: &[u8], count: usize) -> Result<Option<First>, ReplyFault>
    requires { count < 2 ^ 63 }
    ensures { Finds (codes "$" ++ decimal count ++ line_end ++ body.now) result }
{
    if body.len() < count {
        return Ok(None);
    }
    let (text, behind) = body.split_at(count);
    if !is_line_end(behind)? {
        return Ok(None);
    }
    let text = Text::copy(alloc, text)?;
    Ok(Some(First {
        reply: Reply::Bulk(text),
        left: behind.len() - 2,
    }))
}
