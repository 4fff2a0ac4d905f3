// What serde_json decodes or writes: a member of an object, and bytes as a text of an ask.
ghost use Rattle.std.specs.Prelude.{◌≡◌, option_map, IfOk};
ghost use Rattle.serde_json.specs.Find.{get_member};
ghost use Rattle.serde_json.specs.View.{members_view, view};
ghost use Rattle.fk_job.specs.Spellings.{IsText};

use fk_json::Text;
use fk_model::TEXT_LIMIT;
use serde_json::{Map, Value};
use std::alloc::{AllocError, Global};

/// The member of this name, if there is one.
pub fn member<'v>(members: &'v Map<String, Value>, name: &str) -> Option<&'v Value>
    ensures { option_map (λ value. view value.now) result
        ≡ get_member name.now (members_view members.now.entries) }
{
    members.get(name)
}

/// A text of these bytes, fewer than 2^32: more are told as want of memory. They are far fewer, and no
/// clause of serde_json bounds what it decodes or writes by the line that it was read from.
pub fn short_text(alloc: Global, bytes: &[u8]) -> Result<Text, AllocError>
    ensures same { IfOk result (λ text. text ≡ bytes.now) }
    ensures short { IfOk result IsText }
{
    if bytes.len() >= TEXT_LIMIT {
        return Err(AllocError);
    }
    Text::copy(alloc, bytes)
}
