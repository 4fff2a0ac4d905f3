// What a script makes of the bytes of a file.
use crate::ScriptFault;
use crate::digits::push_bytes;
use crate::said::place;

/// Edits the bytes of a file: `file HEX` adds bytes, `cut LENGTH` leaves so many, `zero PLACE` makes each byte from
/// there on 0, and `byte PLACE VALUE` makes one byte this value.
pub fn edit(bytes: &mut Vec<u8>, directive: &str, rest: &str) -> Result<(), ScriptFault> {
    match directive {
        "file" => push_bytes(bytes, rest),
        "cut" => cut(bytes, place(rest)?),
        "zero" => zero(bytes, place(rest)?),
        "byte" => {
            let (at, value) = rest.split_once(' ').ok_or(ScriptFault::NoNumber)?;
            set(bytes, place(at)?, value_of(value)?)
        }
        _ => Err(ScriptFault::NoDirective),
    }
}

fn cut(bytes: &mut Vec<u8>, len: usize) -> Result<(), ScriptFault> {
    if len > bytes.len() {
        return Err(ScriptFault::NoPlace);
    }
    bytes.truncate(len);
    Ok(())
}

fn zero(bytes: &mut [u8], from: usize) -> Result<(), ScriptFault> {
    match bytes.get_mut(from..) {
        Some(rest) => {
            rest.fill(0);
            Ok(())
        }
        None => Err(ScriptFault::NoPlace),
    }
}

/// Sets one byte.
pub fn set(bytes: &mut [u8], at: usize, value: u8) -> Result<(), ScriptFault> {
    match bytes.get_mut(at) {
        Some(byte) => {
            *byte = value;
            Ok(())
        }
        None => Err(ScriptFault::NoPlace),
    }
}

fn value_of(text: &str) -> Result<u8, ScriptFault> {
    match text.parse() {
        Ok(value) => Ok(value),
        Err(_) => Err(ScriptFault::NoNumber),
    }
}
