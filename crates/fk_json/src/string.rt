ghost use Rattle.std.specs.Prelude.{drop, ◌≡◌, ◌∷◌, [], ◌++◌, ◌<◌, ℕ, List, Ok, None, Some, flat_map, IfOk, IfSome, IsUtf8, OnErr, OnOk};
ghost use Rattle.std.specs.Char.{digit_char};
ghost use Rattle.std.specs.List.{prefix_len, take_while};
ghost use Rattle.std.specs.Str.{bytes_eq};
ghost use Rattle.fk_json.specs.Pieces.{GainsBehind, IsQuoted, StandsFor};
ghost use Rattle.fk_json.specs.String.{IsString, is_itself, quote, spelled_byte, spelled_control, spelling};

use crate::Text;
use crate::ends::itself_end;
use crate::piece::{part_at, push_alone, push_piece};
use std::alloc::{AllocError, Global};

/// Adds the one JSON string that is written for a value, or leaves the text as it is.
pub fn push_string(out: &mut Text, value: &Text) -> Result<(), AllocError>
    ensures ok { OnOk result (out.new ≡ out.old ++ spelling value.now) }
    ensures err { OnErr result (out.new ≡ out.old) }
{
    let spelled = spelled(out.allocator(), value.bytes())?;
    out.push_bytes(spelled.bytes())
}

// A value as it is written, by runs of the bytes that stand for themselves.
fn spelled(alloc: Global, value: &[u8]) -> Result<Text, AllocError>
    ensures { IfOk result (λ text. text ≡ spelling value.now) }
{
    let mut spelled = Text::with_room(alloc, value.len().saturating_add(2))?;
    spelled.push_bytes(b"\"")?;
    let mut rest = push_run(&mut spelled, value)?;
    'escapes: while let Some((byte, after)) = rest.split_first() {
        push_byte(&mut spelled, *byte)?;
        rest = push_run(&mut spelled, after)?;
    }
    spelled.push_bytes(b"\"")?;
    Ok(spelled)
}

// Adds the bytes at the front that stand for themselves in a string, and answers what stands behind
// them.
fn push_run<'a>(out: &mut Text, bytes: &'a [u8]) -> Result<&'a [u8], AllocError>
    ensures gains { OnOk result (out.new ≡ out.old ++ take_while is_itself bytes.now) }
    ensures rest { IfOk result
        (λ rest. rest.now ≡ drop (prefix_len is_itself bytes.now) bytes.now) }
{
    let (run, rest) = itself_front(bytes);
    out.push_bytes(run)?;
    Ok(rest)
}

// The bytes at the front that stand for themselves in a string, and what stands behind them.
fn itself_front(bytes: &[u8]) -> (&[u8], &[u8])
    ensures run { result.0.now ≡ take_while is_itself bytes.now }
    ensures rest { result.1.now ≡ drop (prefix_len is_itself bytes.now) bytes.now }
{
    bytes.split_at(itself_end(bytes, 0))
}

// One byte of a value, as it is written.
fn push_byte(out: &mut Text, byte: u8) -> Result<(), AllocError>
    ensures { OnOk result (out.new ≡ out.old ++ spelled_byte byte) }
{
    match byte {
        b'"' => out.push_bytes(b"\\\""),
        b'\\' => out.push_bytes(b"\\\\"),
        8 => out.push_bytes(b"\\b"),
        9 => out.push_bytes(b"\\t"),
        10 => out.push_bytes(b"\\n"),
        12 => out.push_bytes(b"\\f"),
        13 => out.push_bytes(b"\\r"),
        0..=31 => push_control(out, byte),
        _ => out.push_bytes(&[byte]),
    }
}

fn push_control(out: &mut Text, byte: u8) -> Result<(), AllocError>
    requires { byte < 32 }
    ensures { OnOk result (out.new ≡ out.old ++ spelled_control byte) }
{
    out.push_bytes(&[b'\\', b'u', b'0', b'0', b'0' + byte / 16, digit(byte % 16)])
}

// A hexadecimal digit in lower case.
fn digit(value: u8) -> u8
    requires { value < 16 }
    ensures { result ≡ digit_char value }
{
    if value < 10 {
        b'0' + value
    } else {
        b'a' + (value - 10)
    }
}

/// What a text stands for that is one JSON string, with no white space around it.
pub fn string_value(alloc: Global, text: &[u8]) -> Result<Option<Text>, AllocError>
    ensures some { IfOk result (λ found. IfSome found (λ value. IsString text.now value)) }
    ensures none { result ≡ Ok None → (value : List ℕ) → ¬ IsString text.now value }
    ensures utf8 { IfOk result (λ found. IfSome found (λ value. IsUtf8 value)) }
    ensures again { (value : List ℕ) → IsUtf8 value → text.now ≡ spelling value
        → IfOk result (λ found. found ≡ Some value) }
{
    match str::from_utf8(text) {
        Ok(_) => quoted(alloc, text),
        Err(_) => Ok(None),
    }
}

fn quoted(alloc: Global, text: &[u8]) -> Result<Option<Text>, AllocError>
    ensures some { IfOk result (λ found. IfSome found (λ value. IsQuoted text.now value)) }
    ensures none { result ≡ Ok None → (value : List ℕ) → ¬ IsQuoted text.now value }
{
    match text.split_first() {
        Some((byte, inside)) => behind_quote(alloc, *byte, inside),
        None => Ok(None),
    }
}

fn behind_quote(alloc: Global, byte: u8, inside: &[u8]) -> Result<Option<Text>, AllocError>
    ensures some { IfOk result (λ found. IfSome found
        (λ value. IsQuoted (byte ∷ inside.now) value)) }
    ensures none { result ≡ Ok None → (value : List ℕ) → ¬ IsQuoted (byte ∷ inside.now) value }
{
    if byte == b'"' {
        decoded(alloc, inside)
    } else {
        Ok(None)
    }
}

// What parts and a closing quote stand for. Where no part is an escape, it is a copy of them.
fn decoded(alloc: Global, inside: &[u8]) -> Result<Option<Text>, AllocError>
    ensures some { IfOk result (λ found. IfSome found (λ value. StandsFor None inside.now value)) }
    ensures none { result ≡ Ok None → (value : List ℕ) → ¬ StandsFor None inside.now value }
{
    let (plain, rest) = itself_front(inside);
    if is_quote(rest) {
        return Ok(Some(Text::copy(alloc, plain)?));
    }
    decoded_parts(alloc, inside)
}

// The same, by runs between escapes.
fn decoded_parts(alloc: Global, inside: &[u8]) -> Result<Option<Text>, AllocError>
    ensures some { IfOk result (λ found. IfSome found (λ value. StandsFor None inside.now value)) }
    ensures none { result ≡ Ok None → (value : List ℕ) → ¬ StandsFor None inside.now value }
{
    let mut value = Text::with_room(alloc, inside.len())?;
    let mut high = None;
    let mut rest = push_run(&mut value, inside)?;
    'parts: while let Some((piece, after)) = part_at(rest) {
        high = push_piece(&mut value, high, piece)?;
        rest = push_run_behind(&mut value, high, after)?;
    }
    if !is_quote(rest) {
        return Ok(None);
    }
    push_alone(&mut value, high)?;
    Ok(Some(value))
}

// The same, unless a high surrogate looks for its partner there.
fn push_run_behind<'a>(
    value: &mut Text,
    high: Option<u16>,
    bytes: &'a [u8],
) -> Result<&'a [u8], AllocError>
    ensures { IfOk result (λ rest. GainsBehind high value.old bytes.now value.new rest.now) }
{
    match high {
        Some(_) => Ok(bytes),
        None => push_run(value, bytes),
    }
}

// Whether a closing quote is left and nothing else.
fn is_quote(rest: &[u8]) -> bool
    ensures { result ≡ bytes_eq rest.now (34 ∷ []) }
{
    rest == b"\"".as_slice()
}
