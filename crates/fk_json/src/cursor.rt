// A text of one object or one array, read from one item to the next.
ghost use Rattle.std.specs.Prelude.{◌≡◌, ◌+◌, ◌-◌, ◌<◌, ◌≤◌, ◌^◌, List, length, IfErr, IfOk};
ghost use Rattle.fk_json.specs.Json.{Faults};
ghost use Rattle.fk_json.specs.Left.{Item};
ghost use Rattle.fk_json.specs.Cursors.{GoesFarther, LeadsTo};
ghost use Rattle.fk_json.specs.Reached.{IsReadTo};
ghost use Rattle.fk_json.specs.Remainder.{IsTextOf};
ghost use Rattle.fk_json.specs.Runs.{RunsTo, stays};
ghost use Rattle.fk_json.specs.Standing.{first_standing};

use crate::JsonFault;
use crate::mode::Bracket;
use crate::run::region_run;
use crate::standing::{Found, Led, Standing, first_standing, is_whole, read};

/// How far a text was read, and where the scan stands.
#[derive(Clone, Copy)]
pub(crate) struct Cursor {
    pub at: usize,
    pub standing: Standing,
}

/// What comes next in a text.
#[derive(Clone, Copy)]
pub(crate) enum Next {
    /// An item of the outermost brackets, and how far the text was read to find it.
    Found(Found, Cursor),
    /// The text has no further item, and is whole.
    End,
}

/// The start of any text.
pub(crate) fn first_cursor() -> Cursor
    ensures at { result.at ≡ 0 }
    ensures standing { result.standing ≡ first_standing }
{
    Cursor {
        at: 0,
        standing: first_standing(),
    }
}

/// Reads on to the end of the next item.
pub(crate) fn next_found(outer: Bracket, text: &[u8], cursor: Cursor) -> Result<Next, JsonFault>
    requires { cursor.at ≤ length text.now }
    ensures ok { IfOk result (λ next. LeadsTo outer text.now cursor next) }
    ensures farther { IfOk result (λ next. GoesFarther (length text.now) cursor next) }
    ensures fault { IfErr result (λ fault. (found : List (Item outer))
        → IsReadTo outer text.now cursor.at found cursor.standing
        → Faults (IsTextOf outer) text.now fault) }
{
    let mut at = cursor.at;
    let mut standing = cursor.standing;
    'tokens: loop {
        at = pass_run(text, at, &mut standing);
        if at == text.len() {
            return if is_whole(&standing) {
                Ok(Next::End)
            } else {
                Err(JsonFault::Syntax(text.len()))
            };
        }
        match read(outer, &mut standing, at, text[at]) {
            Led::On(None) => at += 1,
            Led::On(Some(found)) => return Ok(Next::Found(found, behind(at, standing))),
            Led::TooDeep => return Err(JsonFault::TooDeep(at)),
            Led::Stops => return Err(JsonFault::Syntax(at)),
        }
    }
}

// Reads on to the end of a token or of white space, and answers where that is.
fn pass_run(text: &[u8], from: usize, standing: &mut Standing) -> usize
    requires { from ≤ length text.now }
    ensures run { RunsTo stays text.now from standing.old.region result standing.new.region }
    ensures kept { standing.new ≡ record standing.old { region = standing.new.region } }
{
    let run = region_run(text, from, standing.region);
    standing.region = run.mode;
    run.to
}

// The cursor behind the byte at a place.
fn behind(at: usize, standing: Standing) -> Cursor
    requires { at < 2 ^ 64 - 1 }
    ensures at { result.at ≡ at + 1 }
    ensures standing { result.standing ≡ standing }
{
    Cursor {
        at: at + 1,
        standing,
    }
}
