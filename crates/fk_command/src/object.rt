// The object of a command's arguments, as serde_json reads it.
ghost use Rattle.std.specs.Prelude.{◌≡◌, map, option_and_then, option_map, IfOk};
ghost use Rattle.serde_json.specs.Find.{as_array, as_object, get_member};
ghost use Rattle.serde_json.specs.View.{items_view, members_view, view};
ghost use Rattle.fk_model.specs.Payloads.{elements_among, object_read, string_among, value_read};

use fk_filter::member;
use serde_json::{Map, Value};
use std::alloc::{AllocError, Global};

/// The members of the object that a text is, or `None` where it is none that is read.
pub fn read_object(alloc: Global, text: &[u8]) -> Result<Option<Map<String, Value>>, AllocError>
    ensures { IfOk result (λ found.
        option_map (λ members. members_view members.entries) found ≡ object_read text.now) }
{
    match read_value(alloc, text)? {
        Some(value) => Ok(members_of(value)),
        None => Ok(None),
    }
}

/// The members of a value, or `None` where it is no object.
fn members_of(value: Value) -> Option<Map<String, Value>>
    ensures { option_map (λ members. members_view members.entries) result ≡ as_object (view value) }
{
    match value {
        Value::Object(members) => Some(members),
        _ => None,
    }
}

/// The value of a text, or `None` where it isn't read.
fn read_value(alloc: Global, text: &[u8]) -> Result<Option<Value>, AllocError>
    ensures { IfOk result (λ found. option_map view found ≡ value_read text.now) }
{
    match Value::from_slice(alloc, text) {
        Ok(value) => Ok(Some(value)),
        Err(error) if error.is_memory() => Err(AllocError),
        Err(_) => Ok(None),
    }
}

/// The string of this name among the members, if there is one.
pub fn string_among<'v>(members: &'v Map<String, Value>, name: &str) -> Option<&'v str>
    ensures { option_map (λ text. text.now) result
        ≡ string_among name.now (members_view members.now.entries) }
{
    member(members, name).and_then(Value::as_str)
}

/// The elements of the array of this name among the members, or none where there is no array.
pub(crate) fn elements_among<'v>(members: &'v Map<String, Value>, name: &str) -> &'v [Value]
    ensures { map view result.now ≡ elements_among name.now (members_view members.now.entries) }
{
    match array_among(members, name) {
        Some(elements) => elements,
        None => &[],
    }
}

/// The array of this name among the members, if there is one.
fn array_among<'v>(members: &'v Map<String, Value>, name: &str) -> Option<&'v Vec<Value>>
    ensures { option_map (λ elements. items_view elements.now.items) result
        ≡ option_and_then as_array (get_member name.now (members_view members.now.entries)) }
{
    member(members, name).and_then(Value::as_array)
}
