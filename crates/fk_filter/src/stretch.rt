// How the parts of a pattern up to its next run are held against the front of a text.
ghost use Rattle.std.specs.Prelude.{◌≡◌, ◌≢◌, ◌<◌, ◌∷◌, [], length};
ghost use Rattle.fk_model.specs.Glob.{parts_of, run};
ghost use Rattle.fk_filter.specs.Parts.{meant};
ghost use Rattle.fk_filter.specs.Stretches.{Shows, Shrinks, Stops, StopShrinks, takes};

use crate::part::{Cut, Part, first_part};

/// What is left of a pattern, and of a text.
#[derive(Clone, Copy)]
pub(crate) struct Left<'a> {
    pub pattern: &'a [u8],
    pub text: &'a [u8],
}

/// Where a stretch of a pattern, up to its next run, has led.
#[derive(Clone, Copy)]
pub(crate) enum Stop<'a> {
    /// To a run, with this left behind it.
    Run(Left<'a>),
    /// To the end of both.
    Whole,
    /// Nowhere from here.
    Elsewhere,
    /// Nowhere from here, nor from further on in the text.
    Nowhere,
}

/// Where one part has led.
#[derive(Clone, Copy)]
pub(crate) enum Led<'a> {
    On(Left<'a>),
    Stop(Stop<'a>),
}

/// Holds the parts of the pattern up to its next run against the text.
pub(crate) fn stretch<'a>(start: Left<'a>) -> Stop<'a>
    ensures is { Stops (parts_of start.entry.pattern.now) start.entry.text.now result }
    ensures less { StopShrinks start.entry result }
{
    let mut left = start;
    'parts: loop {
        match step(left) {
            Led::On(next) => left = next,
            Led::Stop(stop) => return stop,
        }
    }
}

/// Holds the first part of the pattern against the text.
fn step<'a>(left: Left<'a>) -> Led<'a>
    ensures is { Shows (parts_of left.entry.pattern.now) left.entry.text.now result }
    ensures less { Shrinks left.entry result }
{
    match first_part(left.pattern) {
        Some(cut) => pass(left, cut),
        None => Led::Stop(end(left)),
    }
}

/// Holds the end of the pattern against the text.
fn end<'a>(left: Left<'a>) -> Stop<'a>
    ensures is { Stops [] left.entry.text.now result }
    ensures less { StopShrinks left.entry result }
{
    if left.text.is_empty() {
        Stop::Whole
    } else {
        Stop::Elsewhere
    }
}

/// Holds this part, with which the pattern begins, against the text.
fn pass<'a>(left: Left<'a>, cut: Cut<'a>) -> Led<'a>
    requires { length cut.behind.now < length left.pattern.now }
    ensures is { Shows (meant cut.entry.part ∷ parts_of cut.entry.behind.now)
        left.entry.text.now result }
    ensures less { Shrinks left.entry result }
{
    match cut.part {
        Part::Run => Led::Stop(Stop::Run(Left {
            pattern: cut.behind,
            text: left.text,
        })),
        Part::One | Part::Itself(_) => pass_byte(left, cut),
    }
}

/// Holds this part for one byte, with which the pattern begins, against the text.
fn pass_byte<'a>(left: Left<'a>, cut: Cut<'a>) -> Led<'a>
    requires one { meant cut.part ≢ run }
    requires less { length cut.behind.now < length left.pattern.now }
    ensures is { Shows (meant cut.entry.part ∷ parts_of cut.entry.behind.now)
        left.entry.text.now result }
    ensures less { Shrinks left.entry result }
{
    match left.text {
        [] => Led::Stop(Stop::Nowhere),
        [byte, behind @ ..] if takes(cut.part, *byte) => Led::On(Left {
            pattern: cut.behind,
            text: behind,
        }),
        [_, ..] => Led::Stop(Stop::Elsewhere),
    }
}

/// Whether a part for one byte stands for this one.
fn takes(part: Part, byte: u8) -> bool
    ensures { result ≡ takes (meant part) byte }
{
    match part {
        Part::Run => false,
        Part::One => true,
        Part::Itself(itself) => itself == byte,
    }
}
