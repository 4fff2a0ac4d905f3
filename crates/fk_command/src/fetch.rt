// What a FETCH gives: the queues that its arguments name, and the wid of its connection.
ghost use Rattle.std.specs.Prelude.{◌≡◌, ◌∷◌, ◌++◌, [], filter, IfOk, OnOk};
ghost use Rattle.std.specs.List.{slice_split};
ghost use Rattle.fk_model.specs.Commands.{is_space};
ghost use Rattle.fk_job.specs.Spellings.{IsText};
ghost use Rattle.fk_model.specs.Payloads.{IsFetched, is_some_text, queue_names};
ghost use Rattle.fk_command.specs.Commands.{IsInForm};

use fk_job::DEFAULT_QUEUE;
use fk_json::{Text, Texts};
use fk_model::{Ask, Item};
use std::alloc::{AllocError, Global};

/// What a FETCH of these arguments gives to the worker of this wid, or to a producer where it is empty.
pub(crate) fn fetch(alloc: Global, arguments: &[u8], wid: &Text) -> Result<Item, AllocError>
    requires { IsText wid.now }
    ensures item { IfOk result (IsFetched wid.now arguments.now) }
    ensures form { IfOk result IsInForm }
{
    Ok(Item::Asks(Ask::Fetch {
        wid: wid.copied()?,
        queues: queue_names(alloc, arguments)?,
    }))
}

/// The names among these arguments, or `default` where there is none.
fn queue_names(alloc: Global, arguments: &[u8]) -> Result<Texts, AllocError>
    ensures { IfOk result (λ names. names ≡ queue_names arguments.now) }
{
    let mut names = names_in(alloc, arguments)?;
    if names.is_empty() {
        names.push(Text::fixed(alloc, DEFAULT_QUEUE))?;
    }
    Ok(names)
}

/// What stands between the spaces, without what is empty.
fn names_in(alloc: Global, arguments: &[u8]) -> Result<Texts, AllocError>
    ensures { IfOk result
        (λ names. names ≡ filter is_some_text (slice_split is_space arguments.now)) }
{
    let mut names = Texts::new(alloc);
    for name in arguments.split(|byte| *byte == b' ') {
        add_name(alloc, name, &mut names)?;
    }
    Ok(names)
}

/// Adds a name, unless it is empty.
fn add_name(alloc: Global, name: &[u8], names: &mut Texts) -> Result<(), AllocError>
    ensures { OnOk result (names.new ≡ names.old ++ filter is_some_text (name.now ∷ [])) }
{
    if name.is_empty() {
        return Ok(());
    }
    names.push(Text::copy(alloc, name)?)
}
