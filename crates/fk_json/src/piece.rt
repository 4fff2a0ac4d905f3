// The parts of a JSON string.
ghost use Rattle.std.specs.Char.{IsScalar, digit_value};
ghost use Rattle.std.specs.Char.Utf16.{is_high_surrogate, is_low_surrogate};
ghost use Rattle.std.specs.Option.{SomeIff};
ghost use Rattle.std.specs.Prelude.{◌≡◌, ◌∷◌, ◌<◌, ◌++◌, List, Option, None, Some, OnOk, IfOk, IfSome, MatchOption, encode_utf8, true};
ghost use Rattle.fk_json.specs.Pieces.{NoPart, Takes, alone, behind_high, pair_of, sense};
ghost use Rattle.fk_json.specs.String.{IsHexadecimal, code_unit, is_letter, letter_byte, lone_unit};
ghost use Rattle.fk_json.specs.declared.piece.Piece as declared;

use crate::Text;
use std::alloc::AllocError;

/// What a part brings: a byte, or sixteen bits that may be half a character.
#[derive(Clone, Copy, PartialEq, Eq)]
pub(crate) enum Piece {
    Byte(u8),
    Unit(u16),
}

/// The part at the front of a string's rest, and what stands behind it.
pub(crate) fn part_at(bytes: &[u8]) -> Option<(Piece, &[u8])>
    ensures { MatchOption result (NoPart bytes.now) (λ found. Takes bytes.now found.0 found.1.now) }
{
    match bytes.split_first() {
        Some((byte, rest)) => part_from(*byte, rest),
        None => None,
    }
}

fn part_from(byte: u8, rest: &[u8]) -> Option<(Piece, &[u8])>
    ensures { MatchOption result (NoPart (byte ∷ rest.now))
        (λ found. Takes (byte ∷ rest.now) found.0 found.1.now) }
{
    if byte == b'\\' {
        escape_at(rest)
    } else if byte < 32 {
        None
    } else if byte == b'"' {
        None
    } else {
        Some((Piece::Byte(byte), rest))
    }
}

// What stands behind a backslash.
fn escape_at(rest: &[u8]) -> Option<(Piece, &[u8])>
    ensures { MatchOption result (NoPart (92 ∷ rest.now))
        (λ found. Takes (92 ∷ rest.now) found.0 found.1.now) }
{
    match rest {
        [b'u', digits @ ..] => unit_at(digits),
        [letter, after @ ..] => match letter_byte(*letter) {
            Some(byte) => Some((Piece::Byte(byte), after)),
            None => None,
        },
        [] => None,
    }
}

// What stands behind `\u`.
fn unit_at(digits: &[u8]) -> Option<(Piece, &[u8])>
    ensures { MatchOption result (NoPart (92 ∷ 117 ∷ digits.now))
        (λ found. Takes (92 ∷ 117 ∷ digits.now) found.0 found.1.now) }
{
    match digits {
        [a, b, c, d, after @ ..] => match code_unit(*a, *b, *c, *d) {
            Some(unit) => Some((Piece::Unit(unit), after)),
            None => None,
        },
        _ => None,
    }
}

fn letter_byte(letter: u8) -> Option<u8>
    ensures { SomeIff result (is_letter letter ≡ true) (letter_byte letter) }
{
    match letter {
        b'"' | b'\\' | b'/' => Some(letter),
        b'b' => Some(8),
        b'f' => Some(12),
        b'n' => Some(10),
        b'r' => Some(13),
        b't' => Some(9),
        _ => None,
    }
}

fn code_unit(a: u8, b: u8, c: u8, d: u8) -> Option<u16>
    ensures { SomeIff result
        (IsHexadecimal a × IsHexadecimal b × IsHexadecimal c × IsHexadecimal d)
        (code_unit a b c d) }
{
    let first = digit_value(a)?;
    let second = digit_value(b)?;
    let third = digit_value(c)?;
    let fourth = digit_value(d)?;
    Some(first * 4096 + second * 256 + third * 16 + fourth)
}

fn digit_value(digit: u8) -> Option<u16>
    ensures { SomeIff result (IsHexadecimal digit) (digit_value digit) }
{
    match digit {
        b'0'..=b'9' => Some((digit - b'0') as u16),
        b'A'..=b'F' => Some((digit - 55) as u16),
        b'a'..=b'f' => Some((digit - 87) as u16),
        _ => None,
    }
}

/// Adds what a piece brings behind a high surrogate, and answers the high surrogate that is left.
pub(crate) fn push_piece(
    value: &mut Text,
    high: Option<u16>,
    piece: Piece,
) -> Result<Option<u16>, AllocError>
    ensures { IfOk result (λ left. (pieces : List declared.Piece)
        → value.new ++ sense left pieces ≡ value.old ++ sense high (piece ∷ pieces)) }
{
    match piece {
        Piece::Byte(byte) => {
            push_alone(value, high)?;
            value.push_bytes(&[byte])?;
            Ok(None)
        }
        Piece::Unit(unit) => push_unit(value, high, unit),
    }
}

fn push_unit(value: &mut Text, high: Option<u16>, unit: u16) -> Result<Option<u16>, AllocError>
    ensures { IfOk result (λ left. (pieces : List declared.Piece)
        → value.new ++ sense left pieces ≡ value.old ++ sense high (Piece.Unit unit ∷ pieces)) }
{
    match pair_of(high, unit) {
        Some(pair) => {
            push_char(value, pair)?;
            Ok(None)
        }
        None => push_unpaired(value, high, unit),
    }
}

fn push_unpaired(value: &mut Text, high: Option<u16>, unit: u16) -> Result<Option<u16>, AllocError>
    ensures { IfOk result (λ left. (pieces : List declared.Piece)
        → value.new ++ sense left pieces
        ≡ value.old ++ behind_high None high unit (sense None pieces) (sense (Some unit) pieces)) }
{
    push_alone(value, high)?;
    if is_high_surrogate(unit) {
        return Ok(Some(unit));
    }
    push_lone(value, unit)?;
    Ok(None)
}

// The character of two units that are a pair.
fn pair_of(high: Option<u16>, unit: u16) -> Option<u32>
    ensures value { result ≡ pair_of high unit }
    ensures scalar { IfSome result (λ code. IsScalar code) }
{
    let high = high?;
    if !is_high_surrogate(high) || !is_low_surrogate(unit) {
        return None;
    }
    Some(0x10000 + (high as u32 - 0xD800) * 0x400 + (unit as u32 - 0xDC00))
}

/// Adds U+FFFD for a high surrogate that found no partner.
pub(crate) fn push_alone(value: &mut Text, high: Option<u16>) -> Result<(), AllocError>
    ensures { OnOk result (value.new ≡ value.old ++ alone high) }
{
    match high {
        Some(unit) => push_lone(value, unit),
        None => Ok(()),
    }
}

fn push_lone(value: &mut Text, unit: u16) -> Result<(), AllocError>
    ensures { OnOk result (value.new ≡ value.old ++ lone_unit unit) }
{
    if is_high_surrogate(unit) || is_low_surrogate(unit) {
        push_char(value, 0xFFFD)
    } else {
        push_char(value, unit as u32)
    }
}

fn is_high_surrogate(unit: u16) -> bool
    ensures { result ≡ is_high_surrogate unit }
{
    0xD800 <= unit && unit < 0xDC00
}

fn is_low_surrogate(unit: u16) -> bool
    ensures { result ≡ is_low_surrogate unit }
{
    0xDC00 <= unit && unit < 0xE000
}

fn push_char(value: &mut Text, code: u32) -> Result<(), AllocError>
    requires { IsScalar code }
    ensures { OnOk result (value.new ≡ value.old ++ encode_utf8 code) }
{
    match char::from_u32(code) {
        Some(character) => {
            let mut buffer = [0; 4];
            value.push_bytes(character.encode_utf8(&mut buffer).as_bytes())
        }
        None => Ok(()),
    }
}
