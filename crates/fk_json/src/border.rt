// What a byte does between brackets (RFC 8259, sections 2, 4 and 5).
ghost use Rattle.std.specs.Prelude.{◌≡◌, ℕ, false, None};
ghost use Rattle.fk_json.specs.Moves.{behind_item, behind_name, behind_value, colon_at, first_at, item_at, move_of, value_at};
ghost use Rattle.fk_json.specs.Runs.{stays_between};
ghost use Rattle.fk_json.specs.Standing.{between_by, moved};
ghost use Rattle.fk_json.specs.Step.{gives};

use crate::mode::{Bracket, Mode, closing, is_space};
use crate::standing::{
    Found, Led, Region, Standing, begun_at, closed, ended_at, named_at, names_at, opened,
};
use crate::string_mode::{StringMode, string_ends};
use crate::token::{token_ends, token_first};

/// Reads a byte between brackets of this kind that doesn't lead on inside of a name, of a value or of
/// white space. Behind a name or a value it has ended it.
pub(crate) fn between(
    bracket: Bracket,
    standing: &mut Standing,
    mode: Mode,
    at: usize,
    byte: u8,
) -> Led
    requires { stays_between mode byte ≡ None }
    ensures { gives result standing.new
        ≡ between_by bracket standing.old at byte (move_of bracket mode byte) }
{
    match mode {
        Mode::First => first_at(bracket, standing, at, byte),
        Mode::Next => item_at(bracket, standing, at, byte),
        Mode::Naming(name) => {
            if !string_ends(name) {
                return Led::Stops;
            }
            named_at(standing, at);
            behind_name(standing, byte)
        }
        Mode::Colon => colon_at(standing, byte),
        Mode::Value => value_at(standing, at, byte),
        Mode::Within(token) => {
            if !token_ends(token) {
                return Led::Stops;
            }
            let found = ended_at(standing, at);
            behind_value(bracket, standing, found, byte)
        }
        Mode::After => behind_item(bracket, standing, None, byte),
    }
}

// Behind the opening bracket.
fn first_at(bracket: Bracket, standing: &mut Standing, at: usize, byte: u8) -> Led
    ensures { gives result standing.new ≡ moved standing.old None at (first_at bracket byte) }
{
    if byte == closing(bracket) {
        closed(standing);
        Led::On(None)
    } else {
        item_at(bracket, standing, at, byte)
    }
}

// Where an item may begin: a value of an array, a name of an object.
fn item_at(bracket: Bracket, standing: &mut Standing, at: usize, byte: u8) -> Led
    ensures { gives result standing.new ≡ moved standing.old None at (item_at bracket byte) }
{
    match bracket {
        Bracket::Array => value_at(standing, at, byte),
        Bracket::Object if byte == b'"' => {
            names_at(standing, at);
            standing.region = Region::Between(Mode::Naming(StringMode::Inside));
            Led::On(None)
        }
        Bracket::Object => Led::Stops,
    }
}

fn value_at(standing: &mut Standing, at: usize, byte: u8) -> Led
    ensures { gives result standing.new ≡ moved standing.old None at (value_at byte) }
{
    match byte {
        b'[' => opened(standing, at, Bracket::Array),
        b'{' => opened(standing, at, Bracket::Object),
        _ => match token_first(byte) {
            Some(token) => {
                begun_at(standing, at);
                standing.region = Region::Between(Mode::Within(token));
                Led::On(None)
            }
            None => Led::Stops,
        },
    }
}

// Behind a name, white space may stand before the colon.
fn behind_name(standing: &mut Standing, byte: u8) -> Led
    ensures { (at : ℕ)
        → gives result standing.new ≡ moved standing.old None at (behind_name byte) }
{
    if is_space(byte) {
        standing.region = Region::Between(Mode::Colon);
        Led::On(None)
    } else {
        colon_at(standing, byte)
    }
}

fn colon_at(standing: &mut Standing, byte: u8) -> Led
    ensures { (at : ℕ)
        → gives result standing.new ≡ moved standing.old None at (colon_at byte) }
{
    if byte != b':' {
        return Led::Stops;
    }
    standing.region = Region::Between(Mode::Value);
    Led::On(None)
}

// Behind a value, white space may stand before a comma or the closing bracket.
fn behind_value(bracket: Bracket, standing: &mut Standing, found: Option<Found>, byte: u8) -> Led
    ensures { (at : ℕ)
        → gives result standing.new ≡ moved standing.old found at (behind_value bracket byte) }
{
    if is_space(byte) {
        standing.region = Region::Between(Mode::After);
        Led::On(found)
    } else {
        behind_item(bracket, standing, found, byte)
    }
}

fn behind_item(bracket: Bracket, standing: &mut Standing, found: Option<Found>, byte: u8) -> Led
    ensures { (at : ℕ)
        → gives result standing.new ≡ moved standing.old found at (behind_item bracket byte) }
{
    if byte == b',' {
        standing.region = Region::Between(Mode::Next);
        Led::On(found)
    } else if byte == closing(bracket) {
        closed(standing);
        Led::On(found)
    } else {
        Led::Stops
    }
}
