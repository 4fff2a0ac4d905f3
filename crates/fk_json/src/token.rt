// Values without brackets, read byte by byte (RFC 8259, sections 3, 6 and 7).
ghost use Rattle.std.specs.Prelude.{◌≡◌};
ghost use Rattle.fk_json.specs.Tokens.{letters_end, letters_step, token_ends, token_first};

use crate::number_mode::{NumberMode, number_ends, number_first};
use crate::string_mode::{StringMode, string_ends};

/// What is left of `null`, `true` or `false`.
#[derive(Clone, Copy)]
pub(crate) enum Letters {
    Ull,
    Ll,
    L,
    Rue,
    Ue,
    E,
    Alse,
    Lse,
    Se,
    Nothing,
}

/// Where a scan stands in a value without brackets, or that it is behind a closing bracket.
#[derive(Clone, Copy)]
pub(crate) enum Token {
    Number(NumberMode),
    Quoted(StringMode),
    Letters(Letters),
    Bracketed,
}

/// Where the first byte of a value without brackets leads.
pub(crate) fn token_first(byte: u8) -> Option<Token>
    ensures { result ≡ token_first byte }
{
    match byte {
        b'"' => Some(Token::Quoted(StringMode::Inside)),
        b'n' => Some(Token::Letters(Letters::Ull)),
        b't' => Some(Token::Letters(Letters::Rue)),
        b'f' => Some(Token::Letters(Letters::Alse)),
        _ => Some(Token::Number(number_first(byte)?)),
    }
}

/// Where one more byte of the letters leads.
pub(crate) fn letters_step(left: Letters, byte: u8) -> Option<Letters>
    ensures { result ≡ letters_step left byte }
{
    match (left, byte) {
        (Letters::Ull, b'u') => Some(Letters::Ll),
        (Letters::Ll, b'l') => Some(Letters::L),
        (Letters::L, b'l') => Some(Letters::Nothing),
        (Letters::Rue, b'r') => Some(Letters::Ue),
        (Letters::Ue, b'u') => Some(Letters::E),
        (Letters::E, b'e') => Some(Letters::Nothing),
        (Letters::Alse, b'a') => Some(Letters::Lse),
        (Letters::Lse, b'l') => Some(Letters::Se),
        (Letters::Se, b's') => Some(Letters::E),
        _ => None,
    }
}

/// Whether the value may end here.
pub(crate) fn token_ends(token: Token) -> bool
    ensures { result ≡ token_ends token }
{
    match token {
        Token::Number(mode) => number_ends(mode),
        Token::Quoted(mode) => string_ends(mode),
        Token::Letters(left) => letters_end(left),
        Token::Bracketed => true,
    }
}

fn letters_end(left: Letters) -> bool
    ensures { result ≡ letters_end left }
{
    match left {
        Letters::Nothing => true,
        _ => false,
    }
}
