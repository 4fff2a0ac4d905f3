// Bytes as a transcript shows them.
use crate::digits::digit_of;
use std::alloc::AllocError;

/// Adds bytes: CR, LF and a backslash as `\r`, `\n` and `\\`, and those that aren't ASCII or have no form of their own
/// as `\xHH`.
pub fn push_escaped(into: &mut String, bytes: &[u8]) -> Result<(), AllocError> {
    for byte in bytes {
        push_byte(into, *byte)?;
    }
    Ok(())
}

fn push_byte(into: &mut String, byte: u8) -> Result<(), AllocError> {
    match byte {
        b'\r' => into.push_str("\\r"),
        b'\n' => into.push_str("\\n"),
        b'\\' => into.push_str("\\\\"),
        b' '..=b'~' => into.push(char::from(byte)),
        _ => push_escape(into, byte),
    }
}

fn push_escape(into: &mut String, byte: u8) -> Result<(), AllocError> {
    into.push_str("\\x")?;
    into.push(digit_of(byte / 16))?;
    into.push(digit_of(byte))
}
