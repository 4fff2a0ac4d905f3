// Where a scan stands in a text, and how a byte leads on (RFC 8259, section 2).
ghost use Rattle.std.specs.Prelude.{◌≡◌, false, None};
ghost use Rattle.fk_json.specs.Json.{is_space};
ghost use Rattle.fk_json.specs.Runs.{stays};
ghost use Rattle.fk_json.specs.Standing.{before, begun_at, closed, ended_at, first_standing, is_whole, named_at, names_at, opened, read};
ghost use Rattle.fk_json.specs.Step.{gives};

use crate::border::between;
use crate::brackets::Brackets;
use crate::mode::{Bracket, Mode, opening};
use crate::token::Token;

/// Where the item that is being read stands: its name with the quotes, and where its value begins.
#[derive(Clone, Copy)]
pub(crate) struct Places {
    pub name_from: usize,
    pub name_to: usize,
    pub from: usize,
}

/// An item between the outermost brackets, and where its value has ended.
#[derive(Clone, Copy)]
pub(crate) struct Found {
    pub places: Places,
    pub to: usize,
}

/// Where a scan stands: before the outermost brackets, between them or behind them.
#[derive(Clone, Copy)]
pub(crate) enum Region {
    Before,
    Between(Mode),
    Behind,
}

/// Where a scan stands, with the brackets that are open inside of the outermost.
#[derive(Clone, Copy)]
pub(crate) struct Standing {
    pub region: Region,
    pub inner: Brackets,
    pub places: Places,
}

/// What a byte did to a scan.
#[derive(Clone, Copy)]
pub(crate) enum Led {
    /// It led on, and perhaps an item ended before it.
    On(Option<Found>),
    /// It opens a level too many.
    TooDeep,
    /// It can't stand there.
    Stops,
}

/// Where a scan begins.
pub(crate) fn first_standing() -> Standing
    ensures { result ≡ first_standing }
{
    Standing {
        region: Region::Before,
        inner: Brackets::none(),
        places: Places {
            name_from: 0,
            name_to: 0,
            from: 0,
        },
    }
}

/// Reads the byte at a place, which doesn't lead on inside of what stands before it: it ends a token,
/// or stands behind one.
pub(crate) fn read(outer: Bracket, standing: &mut Standing, at: usize, byte: u8) -> Led
    requires { stays standing.old.region byte ≡ None }
    ensures { gives result standing.new ≡ read outer standing.old at byte }
{
    match standing.region {
        Region::Before => before(outer, standing, byte),
        Region::Between(mode) => {
            let bracket = standing.inner.innermost(outer);
            between(bracket, standing, mode, at, byte)
        }
        Region::Behind => Led::Stops,
    }
}

/// Whether the text may end here.
pub(crate) fn is_whole(standing: &Standing) -> bool
    ensures { result ≡ is_whole standing.now.region }
{
    match standing.region {
        Region::Behind => true,
        Region::Before | Region::Between(_) => false,
    }
}

// The outermost brackets open.
fn before(outer: Bracket, standing: &mut Standing, byte: u8) -> Led
    requires { is_space byte ≡ false }
    ensures { gives result standing.new ≡ before outer standing.old byte }
{
    if byte == opening(outer) {
        standing.region = Region::Between(Mode::First);
        Led::On(None)
    } else {
        Led::Stops
    }
}

/// The name has ended.
pub(crate) fn named_at(standing: &mut Standing, at: usize)
    ensures { standing.new ≡ named_at standing.old at }
{
    if standing.inner.is_empty() {
        standing.places.name_to = at;
    }
}

/// The item whose value has ended, where it stands between the outermost brackets.
pub(crate) fn ended_at(standing: &Standing, at: usize) -> Option<Found>
    ensures { result ≡ ended_at standing.now at }
{
    if !standing.inner.is_empty() {
        return None;
    }
    Some(Found {
        places: standing.places,
        to: at,
    })
}

/// A name begins.
pub(crate) fn names_at(standing: &mut Standing, at: usize)
    ensures { standing.new ≡ names_at standing.old at }
{
    if standing.inner.is_empty() {
        standing.places.name_from = at;
    }
}

/// A value begins.
pub(crate) fn begun_at(standing: &mut Standing, at: usize)
    ensures { standing.new ≡ begun_at standing.old at }
{
    if standing.inner.is_empty() {
        standing.places.from = at;
    }
}

/// A value in brackets begins.
pub(crate) fn opened(standing: &mut Standing, at: usize, bracket: Bracket) -> Led
    ensures { gives result standing.new ≡ opened (begun_at standing.old at) None bracket }
{
    begun_at(standing, at);
    if standing.inner.is_full() {
        return Led::TooDeep;
    }
    standing.region = Region::Between(Mode::First);
    standing.inner = standing.inner.push(bracket);
    Led::On(None)
}

/// The innermost brackets end.
pub(crate) fn closed(standing: &mut Standing)
    ensures { standing.new ≡ closed standing.old }
{
    match standing.inner.pop() {
        Some(inner) => {
            standing.region = Region::Between(Mode::Within(Token::Bracketed));
            standing.inner = inner;
        }
        None => standing.region = Region::Behind,
    }
}
