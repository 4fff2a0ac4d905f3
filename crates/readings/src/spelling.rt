use std::alloc::AllocError;

/// The most bytes of one value in a row that are spelled one by one.
const SHORT_RUN: usize = 16;

/// Adds a text as a script would spell it, with a run of one byte as `\{COUNT*BYTE}`.
pub(crate) fn spell(out: &mut Vec<u8>, text: &[u8]) -> Result<(), AllocError> {
    for run in text.chunk_by(|one, next| one == next) {
        spell_run(out, run)?;
    }
    Ok(())
}

/// Adds bytes that are all the same.
fn spell_run(out: &mut Vec<u8>, run: &[u8]) -> Result<(), AllocError> {
    let alloc = *out.allocator();
    match run {
        [byte, ..] if run.len() > SHORT_RUN => {
            let head = format!(in alloc; "\\{{{}*", run.len())?;
            out.extend_from_slice(head.as_bytes())?;
            spell_byte(out, *byte)?;
            out.extend_from_slice(b"}")
        }
        _ => {
            for byte in run {
                spell_byte(out, *byte)?;
            }
            Ok(())
        }
    }
}

fn spell_byte(out: &mut Vec<u8>, byte: u8) -> Result<(), AllocError> {
    match byte {
        b'\\' => out.extend_from_slice(b"\\\\"),
        b'\r' => out.extend_from_slice(b"\\r"),
        b'\n' => out.extend_from_slice(b"\\n"),
        b'\t' => out.extend_from_slice(b"\\t"),
        b' '..=b'~' => out.extend_from_slice(&[byte]),
        _ => out.extend_from_slice(&[b'\\', b'x', digit_of(byte / 16), digit_of(byte % 16)]),
    }
}

/// The hexadecimal digit of a value, or of its last one.
pub(crate) fn digit_of(value: u8) -> u8 {
    b"0123456789abcdef"[usize::from(value % 16)]
}
