// Members of an object that is told.
ghost use Rattle.std.specs.Prelude.{◌≡◌, IfOk, IsUtf8, OnOk, string_bytes};
ghost use Rattle.serde_json.specs.Data.{put};
ghost use Rattle.serde_json.specs.View.{members_view, view};
ghost use Rattle.fk_model.specs.Info.{count};

use serde_json::{Map, Number, Value};
use std::alloc::{AllocError, Global};

/// Puts a number under a name, in the place of what was there.
pub(crate) fn put_count(
    alloc: Global,
    name: &[u8],
    number: u64,
    members: &mut Map<String, Value>,
) -> Result<(), AllocError>
    requires { IsUtf8 name.now }
    ensures { OnOk result (members_view members.new.entries
        ≡ put name.now (count number) (members_view members.old.entries)) }
{
    put_value(alloc, name, Value::Number(Number::from(number)), members)
}

/// Puts a value under a name, in the place of what was there.
#[tactic(auto, using(crate::proofs::Objects::inserted))]
pub(crate) fn put_value(
    alloc: Global,
    name: &[u8],
    value: Value,
    members: &mut Map<String, Value>,
) -> Result<(), AllocError>
    requires { IsUtf8 name.now }
    ensures { OnOk result (members_view members.new.entries
        ≡ put name.now (view value) (members_view members.old.entries)) }
{
    let key = string_from(alloc, name)?;
    drop(members.insert(key, value)?);
    Ok(())
}

/// The bytes as a string.
pub(crate) fn string_from(alloc: Global, bytes: &[u8]) -> Result<String, AllocError>
    requires { IsUtf8 bytes.now }
    ensures { IfOk result (λ text. string_bytes text ≡ bytes.now) }
{
    match str::from_utf8(bytes) {
        Ok(text) => String::from_str(alloc, text),
        Err(_) => unreachable!(),
    }
}
