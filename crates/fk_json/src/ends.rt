// Where runs of bytes of one kind end.
ghost use Rattle.std.specs.Prelude.{◌≡◌, ◌+◌, ◌≤◌, length, drop};
ghost use Rattle.std.specs.Char.{is_ascii_digit};
ghost use Rattle.std.specs.List.{prefix_len};
ghost use Rattle.fk_json.specs.Json.{is_space};
ghost use Rattle.fk_json.specs.String.{is_itself};
ghost use Rattle.fk_json.specs.Runs.{is_plain};

use crate::mode::is_space;

/// Where the bytes end that stand for themselves in a string.
pub(crate) fn itself_end(text: &[u8], from: usize) -> usize
    requires { from ≤ length text.now }
    ensures end { result ≡ from + prefix_len is_itself (drop from text.now) }
    ensures within { result ≤ length text.now }
{
    let mut at = from;
    'bytes: while at < text.len() && is_itself(text[at]) {
        at += 1;
    }
    at
}

fn is_itself(byte: u8) -> bool
    ensures { result ≡ is_itself byte }
{
    byte != b'"' && byte != b'\\' && byte >= 32
}

/// Where the bytes end that stand for themselves in a string, and are characters of their own.
pub(crate) fn plain_end(text: &[u8], from: usize) -> usize
    requires { from ≤ length text.now }
    ensures { result ≡ from + prefix_len is_plain (drop from text.now) }
{
    let mut at = from;
    'bytes: while at < text.len() && is_plain(text[at]) {
        at += 1;
    }
    at
}

fn is_plain(byte: u8) -> bool
    ensures { result ≡ is_plain byte }
{
    is_itself(byte) && byte < 0x80
}

/// Where digits end.
pub(crate) fn digits_end(text: &[u8], from: usize) -> usize
    requires { from ≤ length text.now }
    ensures { result ≡ from + prefix_len is_ascii_digit (drop from text.now) }
{
    let mut at = from;
    'bytes: while at < text.len() && text[at].is_ascii_digit() {
        at += 1;
    }
    at
}

/// Where white space ends.
pub(crate) fn space_end(text: &[u8], from: usize) -> usize
    requires { from ≤ length text.now }
    ensures { result ≡ from + prefix_len is_space (drop from text.now) }
{
    let mut at = from;
    'bytes: while at < text.len() && is_space(text[at]) {
        at += 1;
    }
    at
}
