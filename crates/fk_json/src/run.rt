// Bytes that are read at once: the rest of a token, and white space between two.
ghost use Rattle.std.specs.Bool.{OnTrue};
ghost use Rattle.std.specs.Prelude.{◌≤◌, length};
ghost use Rattle.fk_json.specs.Runs.{AreFourDigits, Passes, RunsTo, stays, stays_between};
ghost use Rattle.fk_json.specs.Tokens.{letters_step, number_step, string_step, token_step};
ghost use Rattle.fk_json.specs.declared.string_mode.StringMode.TheVariants.{Four};

use crate::ends::{digits_end, plain_end, space_end};
use crate::mode::Mode;
use crate::number_mode::{NumberMode, number_step};
use crate::standing::Region;
use crate::string_mode::{StringMode, is_hexadecimal, string_step};
use crate::token::{Letters, Token, letters_step};

/// How far bytes lead on, and where.
#[derive(Clone, Copy)]
pub(crate) struct Run<M> {
    pub to: usize,
    pub mode: M,
}

/// Reads on to the end of a name, of a value without brackets, or of white space.
pub(crate) fn region_run(text: &[u8], from: usize, region: Region) -> Run<Region>
    requires { from ≤ length text.now }
    ensures { RunsTo stays text.now from region result.to result.mode }
{
    match region {
        Region::Between(mode) => {
            let run = mode_run(text, from, mode);
            Run {
                to: run.to,
                mode: Region::Between(run.mode),
            }
        }
        Region::Before | Region::Behind => Run {
            to: space_end(text, from),
            mode: region,
        },
    }
}

fn mode_run(text: &[u8], from: usize, mode: Mode) -> Run<Mode>
    requires { from ≤ length text.now }
    ensures { RunsTo stays_between text.now from mode result.to result.mode }
{
    match mode {
        Mode::Naming(name) => {
            let run = string_run(text, from, name);
            Run {
                to: run.to,
                mode: Mode::Naming(run.mode),
            }
        }
        Mode::Within(token) => {
            let run = token_run(text, from, token);
            Run {
                to: run.to,
                mode: Mode::Within(run.mode),
            }
        }
        Mode::First | Mode::Next | Mode::Colon | Mode::Value | Mode::After => Run {
            to: space_end(text, from),
            mode,
        },
    }
}

// Reads on to the end of a value without brackets.
fn token_run(text: &[u8], from: usize, token: Token) -> Run<Token>
    requires { from ≤ length text.now }
    ensures { RunsTo token_step text.now from token result.to result.mode }
{
    match token {
        Token::Number(mode) => {
            let run = number_run(text, from, mode);
            Run {
                to: run.to,
                mode: Token::Number(run.mode),
            }
        }
        Token::Quoted(mode) => {
            let run = string_run(text, from, mode);
            Run {
                to: run.to,
                mode: Token::Quoted(run.mode),
            }
        }
        Token::Letters(left) => {
            let run = letters_run(text, from, left);
            Run {
                to: run.to,
                mode: Token::Letters(run.mode),
            }
        }
        Token::Bracketed => Run {
            to: from,
            mode: token,
        },
    }
}

// Reads on to the end of a string. Behind its closing quote no byte is looked at.
fn string_run(text: &[u8], from: usize, mode: StringMode) -> Run<StringMode>
    requires { from ≤ length text.now }
    ensures { RunsTo string_step text.now from mode result.to result.mode }
{
    let first = behind_part(text, from, mode);
    let mut to = first.to;
    let mut mode = first.mode;
    'parts: while to < text.len() {
        match string_step(mode, text[to]) {
            Some(StringMode::Closed) => {
                return Run {
                    to: to + 1,
                    mode: StringMode::Closed,
                };
            }
            Some(next) => {
                let run = behind_part(text, to + 1, next);
                to = run.to;
                mode = run.mode;
            }
            None => break,
        }
    }
    Run { to, mode }
}

// Behind the plain bytes that stand here, or behind the four digits of an escape.
fn behind_part(text: &[u8], from: usize, mode: StringMode) -> Run<StringMode>
    requires { from ≤ length text.now }
    ensures { Passes string_step text.now from mode result.to result.mode }
{
    match mode {
        StringMode::Inside => Run {
            to: plain_end(text, from),
            mode,
        },
        StringMode::Four => behind_four(text, from),
        _ => Run { to: from, mode },
    }
}

// Behind the four digits of an escape, where they stand here.
fn behind_four(text: &[u8], from: usize) -> Run<StringMode>
    requires { from ≤ length text.now }
    ensures { Passes string_step text.now from Four result.to result.mode }
{
    if are_four_digits(text, from) {
        Run {
            to: from + 4,
            mode: StringMode::Inside,
        }
    } else {
        Run {
            to: from,
            mode: StringMode::Four,
        }
    }
}

// Whether four hexadecimal digits stand here.
fn are_four_digits(text: &[u8], from: usize) -> bool
    requires { from ≤ length text.now }
    ensures { OnTrue result (AreFourDigits text.now from) }
{
    text.len() - from >= 4
        && is_hexadecimal(text[from])
        && is_hexadecimal(text[from + 1])
        && is_hexadecimal(text[from + 2])
        && is_hexadecimal(text[from + 3])
}

// Reads on to the end of a number.
fn number_run(text: &[u8], from: usize, mode: NumberMode) -> Run<NumberMode>
    requires { from ≤ length text.now }
    ensures { RunsTo number_step text.now from mode result.to result.mode }
{
    let mut to = behind_digits(text, from, mode);
    let mut mode = mode;
    'parts: while to < text.len() {
        match number_step(mode, text[to]) {
            Some(next) => {
                mode = next;
                to = behind_digits(text, to + 1, next);
            }
            None => break,
        }
    }
    Run { to, mode }
}

// Behind the digits that stand here, where the scan is among digits of which there may be more.
fn behind_digits(text: &[u8], from: usize, mode: NumberMode) -> usize
    requires { from ≤ length text.now }
    ensures { Passes number_step text.now from mode result mode }
{
    match mode {
        NumberMode::Whole | NumberMode::Fraction | NumberMode::Exponent => digits_end(text, from),
        _ => from,
    }
}

// Reads on to the end of `null`, `true` or `false`.
fn letters_run(text: &[u8], from: usize, left: Letters) -> Run<Letters>
    requires { from ≤ length text.now }
    ensures { RunsTo letters_step text.now from left result.to result.mode }
{
    let mut to = from;
    let mut left = left;
    'bytes: while to < text.len() {
        match letters_step(left, text[to]) {
            Some(next) => {
                left = next;
                to += 1;
            }
            None => break,
        }
    }
    Run { to, mode: left }
}
