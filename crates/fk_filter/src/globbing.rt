ghost use Rattle.std.specs.Prelude.{◌≡◌, ◌∷◌, ◌↔◌, IsTrue};
ghost use Rattle.fk_model.specs.Glob.{globs, parts_of};
ghost use Rattle.fk_filter.specs.Match.{Match, MatchesEnd};
ghost use Rattle.fk_filter.specs.Stretches.{Seeks, SeeksLess};

use crate::stretch::{Left, Stop, stretch};

/// Where the search for a text behind a run has led.
#[derive(Clone, Copy)]
enum Search<'a> {
    On(Left<'a>),
    Ends(bool),
}

/// Whether a pattern matches the whole text, byte by byte: `*` is any bytes, `?` one byte, `\` with a
/// byte behind it that byte, and at the end itself.
///
/// It takes no memory, and at worst about as many steps as the two lengths multiplied: behind each `*`
/// what comes up to the next is looked for at one place of the text after the other. The first place will
/// do, since the next `*` can leave out whatever lies up to a later one.
pub(crate) fn glob(pattern: &[u8], text: &[u8]) -> bool
    ensures { result ≡ globs pattern.now text.now }
{
    is_whole(Left { pattern, text })
}

/// Whether what is left of a pattern matches what is left of the text.
fn is_whole(left: Left) -> bool
    ensures { IsTrue result ↔ Match (parts_of left.entry.pattern.now) left.entry.text.now }
{
    match stretch(left) {
        Stop::Run(left) => anywhere(left),
        Stop::Whole => true,
        Stop::Elsewhere | Stop::Nowhere => false,
    }
}

/// Whether what is left of a pattern matches an end of what is left of the text.
fn anywhere(start: Left) -> bool
    ensures { IsTrue result ↔ MatchesEnd (parts_of start.entry.pattern.now) start.entry.text.now }
{
    let mut left = start;
    'places: loop {
        match seek(left) {
            Search::On(next) => left = next,
            Search::Ends(found) => return found,
        }
    }
}

/// Holds the pattern up to its next run against the front of the text. Where that fails, the text is to
/// begin one byte later.
fn seek<'a>(left: Left<'a>) -> Search<'a>
    ensures is { Seeks (parts_of left.entry.pattern.now) left.entry.text.now result }
    ensures less { SeeksLess left.entry result }
{
    match stretch(left) {
        Stop::Run(next) => Search::On(next),
        Stop::Whole => Search::Ends(true),
        Stop::Elsewhere => later(left),
        Stop::Nowhere => Search::Ends(false),
    }
}

/// The text begins one byte later, unless it is at its end.
fn later<'a>(left: Left<'a>) -> Search<'a>
    requires { ¬ Match (parts_of left.pattern.now) left.text.now }
    ensures is { Seeks (parts_of left.entry.pattern.now) left.entry.text.now result }
    ensures less { SeeksLess left.entry result }
{
    match left.text {
        [] => Search::Ends(false),
        [_, behind @ ..] => Search::On(Left {
            pattern: left.pattern,
            text: behind,
        }),
    }
}
