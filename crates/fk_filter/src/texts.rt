// What serde_json decodes, as the texts of a filter.
ghost use Rattle.std.specs.Prelude.{◌≡◌, ◌++◌, ◌∷◌, [], map, All, IfOk, IfSome, MatchOption, MatchResult, Some, None};
ghost use Rattle.serde_json.specs.Find.{as_str};
ghost use Rattle.serde_json.specs.View.{view};
ghost use Rattle.fk_job.specs.Spellings.{IsText};
ghost use Rattle.fk_model.specs.Spellings.{AreTexts};
ghost use Rattle.fk_model.specs.Filters.{strings, unless_empty};
ghost use Rattle.fk_filter.specs.Reads.{Reads};

use crate::decoded::short_text;
use crate::fault::FilterFault;
use fk_json::{Text, Texts};
use fk_model::TEXT_LIMIT;
use serde_json::Value;
use std::alloc::{AllocError, Global};

/// A text of these bytes, unless there are none.
pub(crate) fn unless_empty(alloc: Global, bytes: &[u8]) -> Result<Option<Text>, AllocError>
    ensures same { IfOk result (λ text. text ≡ unless_empty bytes.now) }
    ensures short { IfOk result (λ text. IfSome text IsText) }
{
    match bytes {
        [] => Ok(None),
        [_, ..] => Ok(Some(short_text(alloc, bytes)?)),
    }
}

/// The texts that these elements are, each a string, and fewer than 2^32: more are told as want of memory.
pub(crate) fn few_strings(alloc: Global, elements: &[Value]) -> Result<Texts, FilterFault>
    ensures is { Reads (strings (map view elements.now)) result }
    ensures short { IfOk result AreTexts }
{
    let texts = strings(alloc, elements)?;
    if texts.len() < TEXT_LIMIT {
        Ok(texts)
    } else {
        Err(FilterFault::NoMemory)
    }
}

/// The texts that these elements are, each a string.
fn strings(alloc: Global, elements: &[Value]) -> Result<Texts, FilterFault>
    ensures is { Reads (strings (map view elements.now)) result }
    ensures each { IfOk result (All IsText) }
{
    let mut texts = Texts::new(alloc);
    for element in elements {
        texts.push(string(alloc, element)?)?;
    }
    Ok(texts)
}

/// The text that an element is, if it is a string.
fn string(alloc: Global, element: &Value) -> Result<Text, FilterFault>
    ensures is { Reads (as_str (view element.now)) result }
    ensures short { IfOk result IsText }
{
    match element.as_str() {
        Some(string) => Ok(short_text(alloc, string.as_bytes())?),
        None => Err(FilterFault::BadFilter),
    }
}
