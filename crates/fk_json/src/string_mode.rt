// Strings, read byte by byte: their parts (RFC 8259, section 7), and what is left of a character
// of more than one byte (RFC 3629, section 4).
ghost use Rattle.std.specs.Prelude.{◌≡◌};
ghost use Rattle.fk_json.specs.Tokens.{behind_backslash, behind_byte, character_first, continued, digit_then, is_hexadecimal, string_ends, string_step};

/// Where a scan stands in a string: between parts, behind a backslash, with so many hexadecimal
/// digits to come, with so many bytes of a character to come, behind a first byte whose second one
/// has a range of its own, behind the closing quote.
#[derive(Clone, Copy)]
pub(crate) enum StringMode {
    Inside,
    Escape,
    Four,
    Three,
    Two,
    One,
    LastByte,
    TwoBytes,
    ThreeBytes,
    NotOverlongOfThree,
    NoSurrogate,
    NotOverlongOfFour,
    NotPastTheLast,
    Closed,
}

/// Where one more byte of the string leads.
pub(crate) fn string_step(mode: StringMode, byte: u8) -> Option<StringMode>
    ensures { result ≡ string_step mode byte }
{
    match mode {
        StringMode::Inside => behind_byte(byte),
        StringMode::Escape => behind_backslash(byte),
        StringMode::Four => digit_then(byte, StringMode::Three),
        StringMode::Three => digit_then(byte, StringMode::Two),
        StringMode::Two => digit_then(byte, StringMode::One),
        StringMode::One => digit_then(byte, StringMode::Inside),
        StringMode::LastByte => continued(byte, 0x80, 0xC0, StringMode::Inside),
        StringMode::TwoBytes => continued(byte, 0x80, 0xC0, StringMode::LastByte),
        StringMode::ThreeBytes => continued(byte, 0x80, 0xC0, StringMode::TwoBytes),
        StringMode::NotOverlongOfThree => continued(byte, 0xA0, 0xC0, StringMode::LastByte),
        StringMode::NoSurrogate => continued(byte, 0x80, 0xA0, StringMode::LastByte),
        StringMode::NotOverlongOfFour => continued(byte, 0x90, 0xC0, StringMode::TwoBytes),
        StringMode::NotPastTheLast => continued(byte, 0x80, 0x90, StringMode::TwoBytes),
        StringMode::Closed => None,
    }
}

// Behind the first byte of a part, or the closing quote.
fn behind_byte(byte: u8) -> Option<StringMode>
    ensures { result ≡ behind_byte byte }
{
    if byte == b'"' {
        Some(StringMode::Closed)
    } else if byte == b'\\' {
        Some(StringMode::Escape)
    } else if byte < 32 {
        None
    } else if byte < 0x80 {
        Some(StringMode::Inside)
    } else {
        character_first(byte)
    }
}

// Behind the first byte of a character of more than one.
fn character_first(byte: u8) -> Option<StringMode>
    ensures { result ≡ character_first byte }
{
    match byte {
        0xC2..=0xDF => Some(StringMode::LastByte),
        0xE0 => Some(StringMode::NotOverlongOfThree),
        0xED => Some(StringMode::NoSurrogate),
        0xE1..=0xEF => Some(StringMode::TwoBytes),
        0xF0 => Some(StringMode::NotOverlongOfFour),
        0xF1..=0xF3 => Some(StringMode::ThreeBytes),
        0xF4 => Some(StringMode::NotPastTheLast),
        _ => None,
    }
}

fn behind_backslash(byte: u8) -> Option<StringMode>
    ensures { result ≡ behind_backslash byte }
{
    match byte {
        b'u' => Some(StringMode::Four),
        b'"' | b'\\' | b'/' | b'b' | b'f' | b'n' | b'r' | b't' => Some(StringMode::Inside),
        _ => None,
    }
}

fn digit_then(byte: u8, next: StringMode) -> Option<StringMode>
    ensures { result ≡ digit_then byte next }
{
    if is_hexadecimal(byte) {
        Some(next)
    } else {
        None
    }
}

pub(crate) fn is_hexadecimal(byte: u8) -> bool
    ensures { result ≡ is_hexadecimal byte }
{
    byte.is_ascii_digit() || b'A' <= byte && byte <= b'F' || b'a' <= byte && byte <= b'f'
}

fn continued(byte: u8, from: u8, end: u8, next: StringMode) -> Option<StringMode>
    ensures { result ≡ continued byte from end next }
{
    if from <= byte && byte < end {
        Some(next)
    } else {
        None
    }
}

/// Whether the string has ended here.
pub(crate) fn string_ends(mode: StringMode) -> bool
    ensures { result ≡ string_ends mode }
{
    match mode {
        StringMode::Closed => true,
        _ => false,
    }
}
