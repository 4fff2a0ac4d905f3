// Bytes as hexadecimal digits, both ways.
use crate::ScriptFault;
use std::alloc::AllocError;

/// Adds the bytes that a text of hexadecimal digits says, two digits each, with spaces anywhere between.
pub fn push_bytes(into: &mut Vec<u8>, text: &str) -> Result<(), ScriptFault> {
    let mut high = None;
    for character in text.chars() {
        if character == ' ' {
            continue;
        }
        let Some(digit) = character.to_digit(16) else {
            return Err(ScriptFault::NoDigits);
        };
        let digit = digit as u8;
        match high.take() {
            None => high = Some(digit),
            Some(high) => into.push(high.saturating_mul(16).saturating_add(digit))?,
        }
    }
    if high.is_some() {
        return Err(ScriptFault::NoDigits);
    }
    Ok(())
}

/// Adds the two hexadecimal digits of each byte.
pub fn push_digits(into: &mut String, bytes: &[u8]) -> Result<(), AllocError> {
    for byte in bytes {
        into.push(digit_of(byte / 16))?;
        into.push(digit_of(*byte))?;
    }
    Ok(())
}

/// The hexadecimal digit of a value, or of its last one.
pub(crate) fn digit_of(value: u8) -> char {
    char::from(b"0123456789abcdef"[usize::from(value % 16)])
}
