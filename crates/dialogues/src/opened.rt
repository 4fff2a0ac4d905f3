// Stores that are opened on copies of files, to be looked at.
ghost use Rattle.std.specs.Prelude.{[]};

use fk_cases::ScriptFault;
use fk_disk::MemoryDisk;
use fk_io::{ListClock, ListDice};
use fk_journal::OpenFault;
use fk_store::{OpenRefused, Store};
use std::alloc::Global;

/// A store over disks in memory.
pub type MemoryStore = Store<MemoryDisk, ListClock, ListDice>;

/// A store on copies of these files, or none where they are damaged.
pub fn opened(alloc: Global, a: &[u8], b: &[u8]) -> Result<Option<MemoryStore>, ScriptFault> {
    let a = MemoryDisk::new(alloc, a, &[])?;
    let b = MemoryDisk::new(alloc, b, &[])?;
    let clock = ListClock::new(alloc, &[0])?;
    let dice = ListDice::new(alloc, &[0])?;
    match Store::open(alloc, a, b, clock, dice) {
        Ok(store) => Ok(Some(store)),
        Err(refused) => none_where_damaged(refused),
    }
}

/// No store, where that is for a damage: without memory alone a disk fails that has no failing calls.
fn none_where_damaged(
    refused: OpenRefused<MemoryDisk>,
) -> Result<Option<MemoryStore>, ScriptFault> {
    match refused.cause {
        OpenFault::Damaged(_) => Ok(None),
        OpenFault::DiskFault | OpenFault::NoMemory => Err(ScriptFault::NoMemory),
    }
}
