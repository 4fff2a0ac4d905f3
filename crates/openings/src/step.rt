// What a turn is asked for.
ghost use Rattle.std.specs.Prelude.{IfOk};
ghost use Rattle.fk_job.specs.Spellings.{IsText};
ghost use Rattle.fk_model.specs.Range.{IsInRange};

use fk_cases::ScriptFault;
use fk_command::{Command, read_command};
use fk_frame::LINE_MAX;
use fk_json::Text;
use fk_model::Ask;
use std::alloc::Global;

/// A turn of a case.
#[derive(Clone, Copy)]
pub enum Step<'a> {
    /// The worker of this name says HELLO, and the lines behind it are its.
    Hello(&'a str),
    /// A line that asks for a turn.
    Line(&'a str),
    /// Nobody asks.
    Tick,
}

/// What a step asks for on the connection of a worker of this name, or of a producer where it is empty.
pub fn ask_of(alloc: Global, step: &Step, name: &[u8]) -> Result<Ask, ScriptFault>
    ensures { IfOk result IsInRange }
{
    let wid = wid_of(alloc, name)?;
    match step {
        Step::Hello(_) => Ok(Ask::Hello { wid }),
        Step::Line(line) => ask_in(alloc, line.as_bytes(), &wid),
        Step::Tick => Ok(Ask::Tick),
    }
}

/// The name of a worker, as a text of the server.
fn wid_of(alloc: Global, name: &[u8]) -> Result<Text, ScriptFault>
    ensures { IfOk result IsText }
{
    if name.len() > u32::MAX as usize {
        return Err(ScriptFault::NoAsk);
    }
    Ok(Text::copy(alloc, name)?)
}

/// What a line asks for.
fn ask_in(alloc: Global, line: &[u8], wid: &Text) -> Result<Ask, ScriptFault>
    requires { IsText wid.now }
    ensures { IfOk result IsInRange }
{
    if line.len() > LINE_MAX {
        return Err(ScriptFault::NoAsk);
    }
    match read_command(alloc, line, wid)? {
        Command::Ask(ask) => Ok(ask),
        Command::End | Command::Wrong(_) => Err(ScriptFault::NoAsk),
    }
}
