// Bytes as a transcript shows them.
use fk_cases::push_escaped;
use std::alloc::AllocError;
use std::fmt::Write;

/// From how many equal bytes on a transcript shows one of them and their number.
const MANY: usize = 64;

/// Adds what was written, a line for each that CR and LF end. A line without them ends with a
/// backslash.
pub fn push_written(into: &mut String, written: &[u8]) -> Result<(), AllocError> {
    for line in written.split_inclusive(|byte| *byte == b'\n') {
        into.push_str("< ")?;
        match line.strip_suffix(b"\r\n") {
            Some(line) => push_shown(into, line)?,
            None => {
                push_shown(into, line)?;
                into.push_str("\\")?;
            }
        }
        into.push_str("\n")?;
    }
    Ok(())
}

/// Adds bytes in the escapes of a script. Many equal bytes are shown as one and their number, as
/// `{x*4194304}`.
pub fn push_shown(into: &mut String, bytes: &[u8]) -> Result<(), AllocError> {
    for equal in bytes.chunk_by(|one, other| one == other) {
        push_equal(into, equal)?;
    }
    Ok(())
}

/// Adds equal bytes.
fn push_equal(into: &mut String, equal: &[u8]) -> Result<(), AllocError> {
    let count = equal.len();
    match equal.first() {
        Some(byte) if count >= MANY => {
            into.push_str("{")?;
            push_escaped(into, &[*byte])?;
            write!(into, "*{count}}}")
        }
        _ => push_escaped(into, equal),
    }
}
