// Where a scan may stand between brackets (RFC 8259, sections 2, 4 and 5).
ghost use Rattle.std.specs.Prelude.{◌≡◌};
ghost use Rattle.fk_json.specs.Json.{is_space};
ghost use Rattle.fk_json.specs.Moves.{closing, opening};

use crate::string_mode::StringMode;
use crate::token::Token;

/// What is open: an array's bracket or an object's brace.
#[derive(Clone, Copy)]
pub(crate) enum Bracket {
    Array,
    Object,
}

/// Where a scan stands between two brackets.
#[derive(Clone, Copy)]
pub(crate) enum Mode {
    /// Behind the opening bracket.
    First,
    /// Behind a comma.
    Next,
    /// In a member's name.
    Naming(StringMode),
    /// Behind a member's name.
    Colon,
    /// Behind a member's colon.
    Value,
    /// In a value, or at its end.
    Within(Token),
    /// Behind a value and perhaps white space.
    After,
}

/// A space, a tab, a line feed or a carriage return.
pub(crate) fn is_space(byte: u8) -> bool
    ensures { result ≡ is_space byte }
{
    byte == b' ' || byte == b'\t' || byte == b'\n' || byte == b'\r'
}

/// The byte that opens brackets.
pub(crate) fn opening(bracket: Bracket) -> u8
    ensures { result ≡ opening bracket }
{
    match bracket {
        Bracket::Array => b'[',
        Bracket::Object => b'{',
    }
}

/// The byte that closes brackets.
pub(crate) fn closing(bracket: Bracket) -> u8
    ensures { result ≡ closing bracket }
{
    match bracket {
        Bracket::Array => b']',
        Bracket::Object => b'}',
    }
}
