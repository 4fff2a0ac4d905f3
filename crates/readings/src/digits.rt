// Bytes as hexadecimal digits, both ways.
use crate::fault::Fault;
use crate::spelling::digit_of;
use std::alloc::{AllocError, Global};

/// The bytes that a text of hexadecimal digits says, two digits each, with spaces anywhere between.
pub(crate) fn hexadecimal(alloc: Global, text: &str) -> Result<Vec<u8>, Fault> {
    let mut bytes = Vec::new(alloc);
    let mut high = None;
    for character in text.chars() {
        if character == ' ' {
            continue;
        }
        let Some(digit) = character.to_digit(16) else {
            return Err(Fault::BadLine);
        };
        let digit = digit as u8;
        match high.take() {
            None => high = Some(digit),
            Some(high) => bytes.push(high.saturating_mul(16).saturating_add(digit))?,
        }
    }
    if high.is_some() {
        return Err(Fault::BadLine);
    }
    Ok(bytes)
}

/// The hexadecimal digits of bytes, two for each.
pub(crate) fn digits_of(alloc: Global, bytes: &[u8]) -> Result<String, AllocError> {
    let mut digits = String::new(alloc);
    for byte in bytes {
        digits.push(char::from(digit_of(byte / 16)))?;
        digits.push(char::from(digit_of(*byte)))?;
    }
    Ok(digits)
}
