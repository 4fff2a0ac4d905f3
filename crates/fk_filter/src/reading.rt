ghost use Rattle.std.specs.Prelude.{◌≡◌, Err, None, Some, IfOk, IfSome};
ghost use Rattle.serde_json.specs.View.{members_view, view};
ghost use Rattle.fk_job.specs.Spellings.{IsText};
ghost use Rattle.fk_model.specs.Range.{IsFilter};
ghost use Rattle.fk_model.specs.Spellings.{AreTexts};
ghost use Rattle.fk_filter.specs.declared.fault.FilterFault.TheVariants.{BadFilter};
ghost use Rattle.fk_model.specs.Filters.{filter_in, filter_of, text_in, text_of, texts_in, texts_of};
ghost use Rattle.fk_filter.specs.Reads.{Reads};

use crate::decoded::member;
use crate::fault::FilterFault;
use crate::texts::{few_strings, unless_empty};
use fk_json::{Text, Texts};
use fk_model::Filter;
use serde_json::{Map, Value};
use std::alloc::Global;

/// The filter that a value is. Null has no condition. Of an object `jobtype`, `jids` and `regexp`, which is
/// the glob, are the conditions: null counts as absent, and the empty string, too. An empty `jids` is a
/// condition, which no row meets.
pub fn read_filter(alloc: Global, value: &Value) -> Result<Filter, FilterFault>
    ensures ok { IfOk result (λ filter. filter_of (view value.now) ≡ Some filter) }
    ensures bad { result ≡ Err BadFilter → filter_of (view value.now) ≡ None }
    ensures short { IfOk result IsFilter }
{
    match value {
        Value::Null => Ok(Filter {
            jobtype: None,
            jids: None,
            glob: None,
        }),
        Value::Object(members) => filter_in(alloc, members),
        _ => Err(FilterFault::BadFilter),
    }
}

/// The filter that an object is.
fn filter_in(alloc: Global, members: &Map<String, Value>) -> Result<Filter, FilterFault>
    ensures is { Reads (filter_in (members_view members.now.entries)) result }
    ensures short { IfOk result IsFilter }
{
    Ok(Filter {
        jobtype: text_in(alloc, members, "jobtype")?,
        jids: texts_in(alloc, members, "jids")?,
        glob: text_in(alloc, members, "regexp")?,
    })
}

/// The text of a condition of this name among the members, where none need be.
fn text_in(
    alloc: Global,
    members: &Map<String, Value>,
    name: &str,
) -> Result<Option<Text>, FilterFault>
    ensures is { Reads (text_in name.now (members_view members.now.entries)) result }
    ensures short { IfOk result (λ text. IfSome text IsText) }
{
    match member(members, name) {
        Some(value) => text_of(alloc, value),
        None => Ok(None),
    }
}

/// The texts of a condition of this name among the members, where none need be.
fn texts_in(
    alloc: Global,
    members: &Map<String, Value>,
    name: &str,
) -> Result<Option<Texts>, FilterFault>
    ensures is { Reads (texts_in name.now (members_view members.now.entries)) result }
    ensures short { IfOk result (λ texts. IfSome texts AreTexts) }
{
    match member(members, name) {
        Some(value) => texts_of(alloc, value),
        None => Ok(None),
    }
}

/// The text of a condition of this value.
fn text_of(alloc: Global, value: &Value) -> Result<Option<Text>, FilterFault>
    ensures is { Reads (text_of (view value.now)) result }
    ensures short { IfOk result (λ text. IfSome text IsText) }
{
    match value {
        Value::Null => Ok(None),
        Value::String(text) => Ok(unless_empty(alloc, text.as_bytes())?),
        _ => Err(FilterFault::BadFilter),
    }
}

/// The texts of a condition of this value.
fn texts_of(alloc: Global, value: &Value) -> Result<Option<Texts>, FilterFault>
    ensures is { Reads (texts_of (view value.now)) result }
    ensures short { IfOk result (λ texts. IfSome texts AreTexts) }
{
    match value {
        Value::Null => Ok(None),
        Value::Array(elements) => Ok(Some(few_strings(alloc, elements)?)),
        _ => Err(FilterFault::BadFilter),
    }
}
