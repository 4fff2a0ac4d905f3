ghost use Rattle.std.specs.Int.{w64};
ghost use Rattle.std.specs.Option.{SomeIff};
ghost use Rattle.std.specs.Prelude.{◌≡◌, FitsSigned};
ghost use Rattle.std.specs.Str.Parse.{IsNumeral, without_leading_sign};
ghost use Rattle.fk_json.specs.Number.{IsInteger, are_digits, behind_minus, integer_of, is_integer, is_whole};

/// The number of a text that is one JSON number without fraction and exponent, with no white space
/// around it, where it has 64 bits with a sign.
pub fn integer_value(text: &[u8]) -> Option<i64>
    ensures { SomeIff result (IsInteger text.now × FitsSigned w64 (integer_of text.now))
        (integer_of text.now) }
{
    if !is_integer(text) {
        return None;
    }
    match str::from_utf8(text) {
        Ok(digits) => parsed(digits),
        Err(_) => None,
    }
}

fn parsed(text: &str) -> Option<i64>
    ensures { SomeIff result
        (IsNumeral 10 (without_leading_sign text.now) × FitsSigned w64 (integer_of text.now))
        (integer_of text.now) }
{
    match text.parse() {
        Ok(value) => Some(value),
        Err(_) => None,
    }
}

#[tactic(auto, unfolding(crate::specs::Number::is_integer))]
fn is_integer(text: &[u8]) -> bool
    ensures { result ≡ is_integer text.now }
{
    is_whole(behind_minus(text))
}

fn behind_minus(text: &[u8]) -> &[u8]
    ensures { result.now ≡ behind_minus text.now }
{
    match text {
        [b'-', rest @ ..] => rest,
        _ => text,
    }
}

fn is_whole(text: &[u8]) -> bool
    ensures { result ≡ is_whole text.now }
{
    text == b"0".as_slice() || are_digits(text) && text[0] != b'0'
}

fn are_digits(text: &[u8]) -> bool
    ensures { result ≡ are_digits text.now }
{
    !text.is_empty() && text.iter().all(|byte| byte.is_ascii_digit())
}
