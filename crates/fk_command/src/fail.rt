// What a FAIL gives: the jid of its arguments, as serde_json reads them, and why its job failed.
ghost use Rattle.std.specs.Prelude.{◌≡◌, ◌∷◌, ◌++◌, [], map, All, IfOk, OnOk};
ghost use Rattle.std.specs.List.{filter_map};
ghost use Rattle.serde_json.specs.Find.{as_str};
ghost use Rattle.serde_json.specs.View.{members_view, view};
ghost use Rattle.fk_job.specs.Spellings.{IsText};
ghost use Rattle.fk_model.specs.Payloads.{IsReported, reported, string_or_unknown, strings_among};
ghost use Rattle.fk_model.specs.Spellings.{AreTexts};
ghost use Rattle.fk_command.specs.Commands.{IsInForm};

use crate::object::{elements_among, read_object, string_among};
use crate::refusal::{Refusal, refuse};
use fk_filter::short_text;
use fk_json::{Text, Texts};
use fk_model::{Ask, Item, TEXT_LIMIT};
use serde_json::{Map, Value};
use std::alloc::{AllocError, Global};

/// What stands for a text that a worker didn't send.
const UNKNOWN: &str = "unknown";

/// What a FAIL of these arguments gives.
pub(crate) fn report(alloc: Global, arguments: &[u8]) -> Result<Item, AllocError>
    ensures item { IfOk result (IsReported arguments.now) }
    ensures form { IfOk result IsInForm }
{
    match read_object(alloc, arguments)? {
        Some(members) => report_in(alloc, &members),
        None => Ok(refuse(alloc, Refusal::BadJson)),
    }
}

/// What a FAIL of these members gives: the job of their jid failed, for the reason that they tell.
fn report_in(alloc: Global, members: &Map<String, Value>) -> Result<Item, AllocError>
    ensures item { IfOk result (λ item. item ≡ reported (members_view members.now.entries)) }
    ensures form { IfOk result IsInForm }
{
    match string_among(members, "jid") {
        Some(jid) => Ok(Item::Asks(Ask::Fail {
            jid: short_text(alloc, jid.as_bytes())?,
            errtype: string_or_unknown(alloc, members, "errtype")?,
            message: string_or_unknown(alloc, members, "message")?,
            backtrace: strings_among(alloc, members, "backtrace")?,
        })),
        None => Ok(refuse(alloc, Refusal::NoJid)),
    }
}

/// The string of this name among the members, or `unknown` where there is none.
fn string_or_unknown(
    alloc: Global,
    members: &Map<String, Value>,
    name: &str,
) -> Result<Text, AllocError>
    ensures same { IfOk result (λ text.
        text ≡ string_or_unknown name.now (members_view members.now.entries)) }
    ensures short { IfOk result IsText }
{
    let string = string_among(members, name).unwrap_or(UNKNOWN);
    short_text(alloc, string.as_bytes())
}

/// The strings in the array of this name among the members, in order, or none where there is no array.
fn strings_among(
    alloc: Global,
    members: &Map<String, Value>,
    name: &str,
) -> Result<Texts, AllocError>
    ensures same { IfOk result (λ texts.
        texts ≡ strings_among name.now (members_view members.now.entries)) }
    ensures short { IfOk result AreTexts }
{
    few_strings_in(alloc, elements_among(members, name))
}

/// The strings among these elements, fewer than 2^32: more are told as want of memory.
fn few_strings_in(alloc: Global, elements: &[Value]) -> Result<Texts, AllocError>
    ensures same { IfOk result (λ texts. texts ≡ filter_map as_str (map view elements.now)) }
    ensures short { IfOk result AreTexts }
{
    let texts = strings_in(alloc, elements)?;
    if texts.len() < TEXT_LIMIT {
        Ok(texts)
    } else {
        Err(AllocError)
    }
}

/// The strings among these elements, each a text, in order.
fn strings_in(alloc: Global, elements: &[Value]) -> Result<Texts, AllocError>
    ensures same { IfOk result (λ texts. texts ≡ filter_map as_str (map view elements.now)) }
    ensures each { IfOk result (All IsText) }
{
    let mut texts = Texts::new(alloc);
    for element in elements {
        add_string(alloc, element, &mut texts)?;
    }
    Ok(texts)
}

/// Adds the string that an element is, unless it is none.
fn add_string(alloc: Global, element: &Value, texts: &mut Texts) -> Result<(), AllocError>
    ensures same { OnOk result
        (texts.new ≡ texts.old ++ filter_map as_str (view element.now ∷ [])) }
    ensures each { OnOk result (All IsText texts.old → All IsText texts.new) }
{
    match element.as_str() {
        Some(string) => texts.push(short_text(alloc, string.as_bytes())?),
        None => Ok(()),
    }
}
