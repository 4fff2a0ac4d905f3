// The members of a job's text by name.
ghost use Rattle.std.specs.Prelude.{◌≡◌, ℕ, List, Ok, None, find, reverse, IfOk, IfSome};
ghost use Rattle.std.specs.Option.{option_copied};
ghost use Rattle.fk_json.specs.Members.{IsMemberIn, inner_levels};
ghost use Rattle.fk_job.specs.Fields.{HasString};
ghost use Rattle.fk_job.specs.Members.{given_value, is_named, sent_value, value_of};
ghost use Rattle.fk_job.specs.Values.{ArePlaced, IsSomeValue};

use fk_json::{Member, Text, string_value};
use std::alloc::{AllocError, Global};

// The last member of a name, which is the one that counts.
fn last_named<'a>(members: &'a [Member], name: &[u8]) -> Option<&'a Member>
    ensures { option_copied result ≡ find (is_named name.now) (reverse members.now) }
{
    let mut at = members.len();
    'members: while at > 0 {
        at -= 1;
        let member = &members[at];
        if member.name.bytes() == name {
            return Some(member);
        }
    }
    None
}

// A member's value, as it was sent.
pub(crate) fn sent_value<'a>(text: &'a [u8], member: &Member) -> &'a [u8]
    requires { IsMemberIn inner_levels text.now member.now }
    ensures same { result.now ≡ sent_value text.now member.now }
    ensures valued { IsSomeValue result.now }
{
    &text[member.from..member.to]
}

// The value of the last member of a name, as it was sent.
pub(crate) fn value_of<'a>(text: &'a [u8], members: &[Member], name: &[u8]) -> Option<&'a [u8]>
    requires { ArePlaced text.now members.now }
    ensures same { option_copied result ≡ value_of text.now members.now name.now }
    ensures valued { IfSome result (λ value. IsSomeValue value.now) }
{
    match last_named(members, name) {
        Some(member) => Some(sent_value(text, member)),
        None => None,
    }
}

// The same, unless it is null, which counts as absent.
pub(crate) fn given_value<'a>(text: &'a [u8], members: &[Member], name: &[u8]) -> Option<&'a [u8]>
    requires { ArePlaced text.now members.now }
    ensures { option_copied result ≡ given_value text.now members.now name.now }
{
    let value = value_of(text, members, name)?;
    if value == b"null".as_slice() {
        None
    } else {
        Some(value)
    }
}

/// What the last member of a name stands for, where it is a string; `None` where there is none or it is
/// something else.
pub fn string_of(
    alloc: Global,
    text: &[u8],
    members: &[Member],
    name: &[u8],
) -> Result<Option<Text>, AllocError>
    requires { ArePlaced text.now members.now }
    ensures some { IfOk result (λ found. IfSome found
        (HasString text.now members.now name.now)) }
    ensures none { result ≡ Ok None
        → (decoded : List ℕ) → ¬ HasString text.now members.now name.now decoded }
{
    match value_of(text, members, name) {
        Some(value) => string_value(alloc, value),
        None => Ok(None),
    }
}
