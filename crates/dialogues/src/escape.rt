// The bytes that a text of a script says.
use fk_cases::ScriptFault;
use fk_json::Text;
use std::alloc::Global;

/// What was read of an escape.
#[derive(Clone, Copy)]
enum Escape {
    /// Nothing: the next byte stands for itself, or begins one.
    Nothing,
    /// The backslash.
    Begun,
    /// The backslash and the `x`.
    Hex,
    /// The backslash, the `x` and the first digit.
    HexDigit(u8),
}

/// The bytes that a text says, as a text of the server.
pub fn unescaped(alloc: Global, text: &str) -> Result<Text, ScriptFault> {
    let mut bytes = Vec::new(alloc);
    push_unescaped(&mut bytes, text)?;
    Ok(Text::copy(alloc, &bytes)?)
}

/// Adds the bytes that a text says. `\r`, `\n` and `\\` stand for CR, LF and a backslash, and `\x`
/// with two hexadecimal digits for the byte of that number. Each other byte stands for itself.
pub fn push_unescaped(into: &mut Vec<u8>, text: &str) -> Result<(), ScriptFault> {
    let mut escape = Escape::Nothing;
    for byte in text.as_bytes() {
        escape = after_byte(into, escape, *byte)?;
    }
    match escape {
        Escape::Nothing => Ok(()),
        _ => Err(ScriptFault::NoEscape),
    }
}

/// Goes on by one byte, and adds the byte that is then said, if one is.
fn after_byte(into: &mut Vec<u8>, escape: Escape, byte: u8) -> Result<Escape, ScriptFault> {
    let said = match (escape, byte) {
        (Escape::Nothing, b'\\') => return Ok(Escape::Begun),
        (Escape::Nothing, plain) => plain,
        (Escape::Begun, b'x') => return Ok(Escape::Hex),
        (Escape::Begun, b'r') => b'\r',
        (Escape::Begun, b'n') => b'\n',
        (Escape::Begun, b'\\') => b'\\',
        (Escape::Begun, _) => return Err(ScriptFault::NoEscape),
        (Escape::Hex, digit) => return Ok(Escape::HexDigit(digit_of(digit)?)),
        (Escape::HexDigit(high), digit) => high << 4 | digit_of(digit)?,
    };
    into.push(said)?;
    Ok(Escape::Nothing)
}

/// The value of a hexadecimal digit.
fn digit_of(digit: u8) -> Result<u8, ScriptFault> {
    match digit {
        b'0'..=b'9' => Ok(digit - b'0'),
        b'a'..=b'f' => Ok(digit - b'a' + 10),
        b'A'..=b'F' => Ok(digit - b'A' + 10),
        _ => Err(ScriptFault::NoEscape),
    }
}
