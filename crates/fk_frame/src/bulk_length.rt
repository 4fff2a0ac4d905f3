ghost use Rattle.std.specs.Prelude.{◌≡◌, false, MatchOption};
ghost use Rattle.fk_frame.specs.Fronts.{HasLength, IsLength, is_padded};

/// The greatest length of a bulk, which is the greatest number of 64 bits with a sign.
const LONGEST_BULK: usize = 9_223_372_036_854_775_807;

/// The digits of `LONGEST_BULK`.
const MOST_DIGITS: usize = 19;

/// The length that decimal digits without leading zeros give.
pub(crate) fn bulk_length(digits: &[u8]) -> Option<usize>
    ensures { MatchOption result (¬ HasLength digits.now) (IsLength digits.now) }
{
    if digits.len() > MOST_DIGITS || is_padded(digits) {
        return None;
    }
    match str::from_utf8(digits) {
        Ok(text) => number_in(text),
        Err(_) => None,
    }
}

// Whether a plus stands in front, or a zero before other digits.
fn is_padded(digits: &[u8]) -> bool
    ensures { result ≡ is_padded digits.now }
{
    match digits {
        [b'+', ..] => true,
        [b'0', ..] => digits.len() != 1,
        _ => false,
    }
}

fn number_in(digits: &str) -> Option<usize>
    requires { is_padded digits.now ≡ false }
    ensures { MatchOption result (¬ HasLength digits.now) (IsLength digits.now) }
{
    match digits.parse::<usize>() {
        Ok(count) if count <= LONGEST_BULK => Some(count),
        _ => None,
    }
}
