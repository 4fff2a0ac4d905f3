ghost use Rattle.std.specs.Prelude.{◌≡◌, ◌≢◌, [], false, Err, codes, IfErr, IfOk, IfSome, OnOk};
ghost use Rattle.clap.specs.Matches.{found_of};
ghost use Rattle.clap.specs.Walk.{first_of, one_of, rows_of, rule_of, texts};
ghost use Rattle.clap.specs.Simple.{app_of, matches_of};
ghost use Rattle.clap.specs.Faults.{fault_of};
ghost use Rattle.fk_server.specs.Words.{AreValid, settings_of, pipe_options, settings_in};
ghost use Rattle.fk_server.specs.Words.{iterations_of, dir_of, AreWithin, IsCount};
ghost use Rattle.fk_server.specs.Words.{no_options, text_option, iterations_option};

use clap::error::ErrorKind;
use clap::{Arg, ArgMatches, Command, value_parser};
use fk_json::Text;
use std::alloc::{AllocError, Global};
use thiserror::Error;

/// The most iterations that a password may be hashed with.
const ITERATIONS_MAX: i64 = 65_536;

/// How often a password is hashed where the words don't say it.
const ITERATIONS: u32 = 4_096;

/// The first word.
#[derive(Clone, Copy, Debug, PartialEq, Eq)]
pub enum CommandWord {
    Pipe,
}

/// What the words of a command line say.
#[derive(Drop)]
pub struct Settings {
    pub command: CommandWord,
    pub password: Option<Text>,
    pub iterations: u32,
    pub dir: Text,
}

/// Why words couldn't be read.
#[derive(Debug, Drop, PartialEq, Eq, Error)]
pub enum WordsFault {
    #[error("the words aren't valid")]
    Usage,
    #[error("memory ran out")]
    NoMemory,
}

impl From<AllocError> for WordsFault {
    ghost use Rattle.fk_server.specs.declared.words.WordsFault.TheVariants.{NoMemory};

    ghost from_gives = { λ _ fault. fault ≡ NoMemory };

    fn from(_: AllocError) -> WordsFault {
        WordsFault::NoMemory
    }
}

/// Reads the words behind the program's name: the first one by hand, and the others, which are
/// options, by `clap`.
pub fn read_words(alloc: Global, words: &[&str]) -> Result<Settings, WordsFault>
    ensures valid { OnOk result (AreValid words.now) }
    ensures usage { result ≡ Err WordsFault.Usage → ¬ AreValid words.now }
    ensures ok { IfOk result (λ settings. settings ≡ settings_of words.now) }
    ensures counted { IfOk result (λ settings. AreWithin settings.iterations) }
{
    match words {
        [first, rest @ ..] if *first == "pipe" => read_options(alloc, rest),
        _ => Err(WordsFault::Usage),
    }
}

/// Reads the options of `pipe`.
fn read_options<'a>(alloc: Global, words: &'a [&'a str]) -> Result<Settings, WordsFault>
    ensures valid { OnOk result (fault_of pipe_options (texts words.now) ≡ []) }
    ensures usage { result ≡ Err WordsFault.Usage → fault_of pipe_options (texts words.now) ≢ [] }
    ensures ok { IfOk result (λ settings.
        settings ≡ settings_in (matches_of pipe_options (texts words.now))) }
    ensures counted { IfOk result (λ settings. AreWithin settings.iterations) }
{
    let command = options(alloc)?;
    match command.try_get_matches_from(words) {
        Ok(found) => settings_in(alloc, &found),
        Err(error) => Err(fault_of(error.kind())),
    }
}

fn fault_of(kind: ErrorKind) -> WordsFault
    ensures { result ≡ WordsFault.Usage → kind ≢ ErrorKind.OutOfMemory }
{
    match kind {
        ErrorKind::OutOfMemory => WordsFault::NoMemory,
        _ => WordsFault::Usage,
    }
}

/// The options that may stand behind `pipe`.
fn options<'a>(alloc: Global) -> Result<Command<'a>, AllocError>
    ensures { IfOk result (λ command. app_of command ≡ pipe_options) }
{
    no_options(alloc)
        .arg(text_option(alloc, "password"))?
        .arg(iterations_option(alloc))?
        .arg(text_option(alloc, "dir"))
}

/// A command without options, and without a word of its own.
fn no_options<'a>(alloc: Global) -> Command<'a>
    ensures { app_of result ≡ no_options }
{
    Command::new(alloc, "pipe")
        .no_binary_name(true)
        .disable_help_flag(true)
}

/// An option with any text.
fn text_option<'a>(alloc: Global, name: &'a str) -> Arg<'a>
    ensures rule { rule_of result ≡ text_option name.now }
    ensures local { result.global ≡ false }
{
    Arg::new(alloc, name).long(name)
}

/// The option with a number of iterations.
fn iterations_option<'a>(alloc: Global) -> Arg<'a>
    ensures rule { rule_of result ≡ iterations_option }
    ensures local { result.global ≡ false }
{
    Arg::new(alloc, "iterations")
        .long("iterations")
        .value_parser(value_parser!(u32).range(1..=ITERATIONS_MAX))
}

/// What the options say that were found.
fn settings_in(alloc: Global, found: &ArgMatches) -> Result<Settings, WordsFault>
    requires { IfSome (one_of (codes "iterations") (rows_of (found_of found.now))) IsCount }
    ensures ok { IfOk result (λ settings. settings ≡ settings_in (rows_of (found_of found.now))) }
    ensures counted { IfOk result (λ settings. AreWithin settings.iterations) }
    ensures memory { IfErr result (λ fault. fault ≡ WordsFault.NoMemory) }
{
    Ok(Settings {
        command: CommandWord::Pipe,
        password: password_in(alloc, found)?,
        iterations: iterations_in(found),
        dir: dir_in(alloc, found)?,
    })
}

/// The password that the option says, if it stands there.
#[tactic(auto, using(crate::proofs::Found::first_found))]
fn password_in(alloc: Global, found: &ArgMatches) -> Result<Option<Text>, AllocError>
    ensures { IfOk result (λ password.
        password ≡ first_of (codes "password") (rows_of (found_of found.now))) }
{
    match found.get_str("password") {
        Some(password) => Ok(Some(Text::copy(alloc, password.as_bytes())?)),
        None => Ok(None),
    }
}

/// The folder that the option says, or the default.
#[tactic(auto, using(crate::proofs::Found::first_found))]
fn dir_in(alloc: Global, found: &ArgMatches) -> Result<Text, AllocError>
    ensures { IfOk result (λ dir. dir ≡ dir_of (rows_of (found_of found.now))) }
{
    match found.get_str("dir") {
        Some(dir) => Text::copy(alloc, dir.as_bytes()),
        None => Ok(Text::fixed(alloc, b".")),
    }
}

/// How many iterations the option says, or the default.
#[tactic(auto, using(crate::proofs::Found::one_found, crate::proofs::Counts::count_or_default))]
fn iterations_in(found: &ArgMatches) -> u32
    requires { IfSome (one_of (codes "iterations") (rows_of (found_of found.now))) IsCount }
    ensures value { result ≡ iterations_of (rows_of (found_of found.now)) }
    ensures range { AreWithin result }
{
    found.get_one::<u32>("iterations").unwrap_or(ITERATIONS)
}
