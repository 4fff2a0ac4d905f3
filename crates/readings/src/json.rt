use crate::answer::Answer;
use crate::fault::Fault;
use fk_json::{
    JsonFault, Member, Members, Spans, Text, integer_value, push_string, scan_array, scan_object,
    string_value,
};

/// Of more elements than these the last one's place alone is told.
const MANY: usize = 16;

/// `object TEXT`: the members, each with the place of its name, that of its value and the decoded
/// name, or why the text isn't read.
pub(crate) fn object(answer: &mut Answer, text: &[u8]) -> Result<(), Fault> {
    match scan_object(answer.alloc(), text) {
        Ok(members) => say_members(answer, &members),
        Err(fault) => refuse(answer, &fault),
    }
}

fn say_members(answer: &mut Answer, members: &Members) -> Result<(), Fault> {
    let count = format!(in answer.alloc(); "members: {}", members.len())?;
    answer.say(count.as_str())?;
    for member in members.as_slice() {
        say_member(answer, member)?;
    }
    Ok(())
}

fn say_member(answer: &mut Answer, member: &Member) -> Result<(), Fault> {
    let name = format!(in answer.alloc(); "{}..{}", member.name_from, member.name_to)?;
    let places = format!(in answer.alloc(); "{name}, {}..{}", member.from, member.to)?;
    answer.say_text(places.as_str(), member.name.bytes())?;
    Ok(())
}

/// `array TEXT`: the elements' places, or why the text isn't read.
pub(crate) fn array(answer: &mut Answer, text: &[u8]) -> Result<(), Fault> {
    match scan_array(answer.alloc(), text) {
        Ok(elements) => say_elements(answer, &elements),
        Err(fault) => refuse(answer, &fault),
    }
}

fn say_elements(answer: &mut Answer, elements: &Spans) -> Result<(), Fault> {
    let count = elements.len();
    let told = format!(in answer.alloc(); "elements: {count}")?;
    answer.say(told.as_str())?;
    let first = if count > MANY { count - 1 } else { 0 };
    for place in first..count {
        if let Some(element) = elements.get(place) {
            let told = format!(in answer.alloc(); "{}..{}", element.from, element.to)?;
            answer.say(told.as_str())?;
        }
    }
    Ok(())
}

fn refuse(answer: &mut Answer, fault: &JsonFault) -> Result<(), Fault> {
    if let JsonFault::NoMemory = fault {
        return Err(Fault::NoMemory);
    }
    let told = format!(in answer.alloc(); "refused: {fault}")?;
    answer.say(told.as_str())?;
    Ok(())
}

/// `string TEXT`: what a JSON string stands for.
pub(crate) fn string(answer: &mut Answer, text: &[u8]) -> Result<(), Fault> {
    match string_value(answer.alloc(), text)? {
        Some(value) => answer.say_text("value", value.bytes())?,
        None => answer.say("no string")?,
    }
    Ok(())
}

/// `integer TEXT`: the number of a JSON integer.
pub(crate) fn integer(answer: &mut Answer, text: &[u8]) -> Result<(), Fault> {
    match integer_value(text) {
        Some(number) => {
            let told = format!(in answer.alloc(); "{number}")?;
            answer.say(told.as_str())?;
        }
        None => answer.say("no integer")?,
    }
    Ok(())
}

/// `spelling TEXT`: the JSON string that is written for a value.
pub(crate) fn spelling(answer: &mut Answer, text: &[u8]) -> Result<(), Fault> {
    let mut out = Text::fixed(answer.alloc(), b"");
    push_string(&mut out, &Text::copy(answer.alloc(), text)?)?;
    answer.say_text("string", out.bytes())?;
    Ok(())
}
