// The parts of a line, and what it asks for.
ghost use Rattle.std.specs.Prelude.{◌≡◌, ◌≤◌, length, position};
ghost use Rattle.std.specs.List.{position_or_len};
ghost use Rattle.fk_model.specs.Commands.{verb, arguments, is_space};
ghost use Rattle.fk_model.specs.Script.{command_of};
ghost use Rattle.fk_command.specs.Verbs.{command};

/// A verb that is known, or that it is none of them.
#[derive(Clone, Copy, PartialEq, Eq)]
pub enum Verb {
    End,
    Hello,
    Push,
    Batch,
    Fetch,
    Ack,
    Fail,
    Beat,
    Signal,
    Info,
    Flush,
    Mutate,
    Unknown,
}

/// The verb of a line.
pub fn command_in(line: &[u8]) -> Verb
    ensures { command result ≡ command_of line.now }
{
    let verb = verb_of(line);
    if verb == b"END".as_slice() {
        Verb::End
    } else if verb == b"HELLO".as_slice() {
        Verb::Hello
    } else if verb == b"PUSH".as_slice() {
        Verb::Push
    } else if verb == b"PUSHB".as_slice() {
        Verb::Batch
    } else if verb == b"FETCH".as_slice() {
        Verb::Fetch
    } else if verb == b"ACK".as_slice() {
        Verb::Ack
    } else if verb == b"FAIL".as_slice() {
        Verb::Fail
    } else if verb == b"BEAT".as_slice() {
        Verb::Beat
    } else if verb == b"SIGNAL".as_slice() {
        Verb::Signal
    } else if verb == b"INFO".as_slice() {
        Verb::Info
    } else if verb == b"FLUSH".as_slice() {
        Verb::Flush
    } else if verb == b"MUTATE".as_slice() {
        Verb::Mutate
    } else {
        Verb::Unknown
    }
}

/// The place of the line's first space.
fn first_space(line: &[u8]) -> Option<usize>
    ensures { result ≡ position is_space line.now }
{
    line.iter().position(|byte| *byte == b' ')
}

/// The place of the line's first space, or the line's length where it has none.
#[tactic(auto, using(fk_frame::proofs::Places::unwrap_or_position))]
fn space_at(line: &[u8]) -> usize
    ensures place { result ≡ position_or_len is_space line.now }
    ensures within { result ≤ length line.now }
{
    first_space(line).unwrap_or(line.len())
}

/// The line's bytes before its first space, or all of them.
fn verb_of(line: &[u8]) -> &[u8]
    ensures { result.now ≡ verb line.now }
{
    &line[..space_at(line)]
}

/// The line's bytes behind its first space, or none.
pub fn arguments_of(line: &[u8]) -> &[u8]
    ensures { result.now ≡ arguments line.now }
{
    let at = space_at(line);
    if at < line.len() {
        &line[at + 1..]
    } else {
        &line[at..]
    }
}
