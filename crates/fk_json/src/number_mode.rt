// Numbers, read byte by byte (RFC 8259, section 6).
ghost use Rattle.std.specs.Prelude.{◌≡◌};
ghost use Rattle.fk_json.specs.Tokens.{behind_whole, number_ends, number_first, number_step, raised_by};

/// Where a scan stands in a number: behind its minus, in its whole part, behind the point, in the
/// fraction, behind the `e`, behind the exponent's sign, in the exponent.
#[derive(Clone, Copy)]
pub(crate) enum NumberMode {
    Minus,
    Zero,
    Whole,
    Point,
    Fraction,
    Letter,
    Sign,
    Exponent,
}

/// Where a number's first byte leads.
pub(crate) fn number_first(byte: u8) -> Option<NumberMode>
    ensures { result ≡ number_first byte }
{
    match byte {
        b'-' => Some(NumberMode::Minus),
        b'0' => Some(NumberMode::Zero),
        b'1'..=b'9' => Some(NumberMode::Whole),
        _ => None,
    }
}

/// Where one more byte of the number leads.
pub(crate) fn number_step(mode: NumberMode, byte: u8) -> Option<NumberMode>
    ensures { result ≡ number_step mode byte }
{
    let digit = byte.is_ascii_digit();
    match mode {
        NumberMode::Minus if digit => number_first(byte),
        NumberMode::Whole if digit => Some(NumberMode::Whole),
        NumberMode::Zero | NumberMode::Whole => behind_whole(byte),
        NumberMode::Point | NumberMode::Fraction if digit => Some(NumberMode::Fraction),
        NumberMode::Fraction => raised_by(byte),
        NumberMode::Letter if byte == b'+' || byte == b'-' => Some(NumberMode::Sign),
        NumberMode::Letter | NumberMode::Sign | NumberMode::Exponent if digit => {
            Some(NumberMode::Exponent)
        }
        _ => None,
    }
}

// Behind the whole part: a point or an exponent.
fn behind_whole(byte: u8) -> Option<NumberMode>
    ensures { result ≡ behind_whole byte }
{
    if byte == b'.' {
        Some(NumberMode::Point)
    } else {
        raised_by(byte)
    }
}

fn raised_by(byte: u8) -> Option<NumberMode>
    ensures { result ≡ raised_by byte }
{
    if byte == b'e' || byte == b'E' {
        Some(NumberMode::Letter)
    } else {
        None
    }
}

/// Whether the number may end here.
pub(crate) fn number_ends(mode: NumberMode) -> bool
    ensures { result ≡ number_ends mode }
{
    match mode {
        NumberMode::Zero | NumberMode::Whole | NumberMode::Fraction | NumberMode::Exponent => true,
        NumberMode::Minus | NumberMode::Point | NumberMode::Letter | NumberMode::Sign => false,
    }
}
