// The members of a job that are handed on to the worker.
ghost use Rattle.std.specs.Prelude.{◌≡◌, ◌≤◌, IfOk, IsTrue, OnOk};
ghost use Rattle.fk_json.specs.Members.{IsMemberIn, inner_levels};
ghost use Rattle.fk_job.specs.Members.{body_of, is_handed_on, sent_member};
ghost use Rattle.fk_job.specs.Pieces.{IsBehindComma, IsCloseIn, joined, with_counting};
ghost use Rattle.fk_job.specs.Values.{ArePlaced};

use crate::counting::{counting_flags, counts};
use crate::named::sent_value;
use fk_json::{Member, Text};
use std::alloc::{AllocError, Global};

/// The most members whose names are compared with each other in turn.
const FEW_MEMBERS: usize = 16;

// The members that count and are handed on, with commas between them: no more bytes than the text.
pub(crate) fn body_of(alloc: Global, text: &[u8], members: &[Member]) -> Result<Text, AllocError>
    requires { ArePlaced text.now members.now }
    ensures { IfOk result (λ body. body ≡ body_of text.now members.now) }
{
    if members.len() <= FEW_MEMBERS {
        body_of_few(alloc, text, members)
    } else {
        body_of_many(alloc, text, members)
    }
}

// The same, where each name is compared with those behind it. It takes no memory but the body's.
fn body_of_few(alloc: Global, text: &[u8], members: &[Member]) -> Result<Text, AllocError>
    requires { ArePlaced text.now members.now }
    ensures { IfOk result (λ body. body ≡ body_of text.now members.now) }
{
    let mut body = Text::with_room(alloc, text.len())?;
    let mut at = 0;
    'members: while at < members.len() {
        let member = &members[at];
        at += 1;
        push_counting(&mut body, text, member, counts(member, &members[at..]))?;
    }
    Ok(body)
}

// The same, where the names are kept in order.
fn body_of_many(alloc: Global, text: &[u8], members: &[Member]) -> Result<Text, AllocError>
    requires { ArePlaced text.now members.now }
    ensures { IfOk result (λ body. body ≡ body_of text.now members.now) }
{
    let flags = counting_flags(alloc, members)?;
    let mut body = Text::with_room(alloc, text.len())?;
    let mut at = 0;
    'members: while at < members.len() {
        push_counting(&mut body, text, &members[at], flags[at])?;
        at += 1;
    }
    Ok(body)
}

// Adds a member that counts, if it is handed on.
fn push_counting(
    body: &mut Text,
    text: &[u8],
    member: &Member,
    counts: bool,
) -> Result<(), AllocError>
    requires { IsMemberIn inner_levels text.now member.now }
    ensures { OnOk result (body.new ≡ with_counting text.now counts body.old member.now) }
{
    if counts && is_handed_on(text, member) {
        push_sent(body, text, member)
    } else {
        Ok(())
    }
}

// What the server writes itself isn't handed on.
fn is_handed_on(text: &[u8], member: &Member) -> bool
    requires { IsMemberIn inner_levels text.now member.now }
    ensures { result ≡ is_handed_on text.now member.now }
{
    let name = member.name.bytes();
    name != b"queue".as_slice()
        && name != b"enqueued_at".as_slice()
        && name != b"failure".as_slice()
        && !(name == b"created_at".as_slice() && sent_value(text, member) == b"null".as_slice())
}

// Adds a member as it was sent, without the white space around its colon: in one piece with the comma
// before it, where it can be.
fn push_sent(body: &mut Text, text: &[u8], member: &Member) -> Result<(), AllocError>
    requires { IsMemberIn inner_levels text.now member.now }
    ensures { OnOk result (body.new ≡ joined body.old (sent_member text.now member.now)) }
{
    if !is_close(text, member) {
        return push_parts(body, text, member);
    }
    if body.is_empty() {
        return body.push_bytes(&text[member.name_from..member.to]);
    }
    if !is_behind_comma(text, member) {
        return push_parts(body, text, member);
    }
    body.push_bytes(&text[member.name_from - 1..member.to])
}

// Whether no white space stands around its colon.
fn is_close(text: &[u8], member: &Member) -> bool
    requires { IsMemberIn inner_levels text.now member.now }
    ensures { IsTrue result → IsCloseIn text.now member.now }
{
    member.from == member.name_to + 1 && text[member.name_to] == b':'
}

// Whether a comma stands right before its name.
fn is_behind_comma(text: &[u8], member: &Member) -> bool
    requires placed { IsMemberIn inner_levels text.now member.now }
    requires ordered { member.now.name_from ≤ member.now.to }
    ensures { IsTrue result → IsBehindComma text.now member.now }
{
    0 < member.name_from && text[member.name_from - 1] == b','
}

// The same by its parts.
fn push_parts(body: &mut Text, text: &[u8], member: &Member) -> Result<(), AllocError>
    requires { IsMemberIn inner_levels text.now member.now }
    ensures { OnOk result (body.new ≡ joined body.old (sent_member text.now member.now)) }
{
    if !body.is_empty() {
        body.push_bytes(b",")?;
    }
    body.push_bytes(&text[member.name_from..member.name_to])?;
    body.push_bytes(b":")?;
    body.push_bytes(sent_value(text, member))
}
