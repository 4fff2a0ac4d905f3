ghost use Rattle.std.specs.Prelude.{◌≡◌, ◌<◌, ◌≤◌, ◌+◌, length, IfSome};
ghost use Rattle.fk_time.specs.Places.{pair_at, is_separator, has_marks, front_at, IsShort};

/// The numbers of a text as `2023-11-14T22:13:20`, each of as many digits as its place has.
#[derive(Clone, Copy)]
pub(crate) struct Front {
    pub year: u16,
    pub month: u8,
    pub day: u8,
    pub hour: u8,
    pub minute: u8,
    pub second: u8,
}

// The number that two bytes spell.
pub(crate) fn pair_at(text: &[u8], place: usize) -> Option<u8>
    requires { place + 1 < length text.now }
    ensures value { result ≡ pair_at text.now place }
    ensures bound { IfSome result (λ n. n < 100) }
{
    let (tens, ones) = (text[place], text[place + 1]);
    if tens.is_ascii_digit() && ones.is_ascii_digit() {
        Some((tens - b'0') * 10 + (ones - b'0'))
    } else {
        None
    }
}

fn is_separator(byte: u8) -> bool
    ensures { result ≡ is_separator byte }
{
    byte == b'T' || byte == b't' || byte == b' '
}

fn has_marks(text: &[u8]) -> bool
    requires { 19 ≤ length text.now }
    ensures { result ≡ has_marks text.now }
{
    text[4] == b'-'
        && text[7] == b'-'
        && is_separator(text[10])
        && text[13] == b':'
        && text[16] == b':'
}

// The numbers at the front of a text.
#[tactic(auto, unfolding(crate::specs::Places::front_at))]
pub(crate) fn front_of(text: &[u8]) -> Option<Front>
    requires { 19 ≤ length text.now }
    ensures value { result ≡ front_at text.now }
    ensures bound { IfSome result IsShort }
{
    if !has_marks(text) {
        return None;
    }
    let century = pair_at(text, 0)?;
    let year = pair_at(text, 2)?;
    let month = pair_at(text, 5)?;
    let day = pair_at(text, 8)?;
    let hour = pair_at(text, 11)?;
    let minute = pair_at(text, 14)?;
    let second = pair_at(text, 17)?;
    Some(Front {
        year: century as u16 * 100 + year as u16,
        month,
        day,
        hour,
        minute,
        second,
    })
}
