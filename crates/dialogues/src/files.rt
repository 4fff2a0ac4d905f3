use crate::making::make;
use crate::opened::{MemoryStore, opened};
use crate::pieces::{tables_of, with_piece};
use fk_cases::{ScriptFault, edit};
use fk_core::Tables;
use fk_disk::Choice;
use fk_journal::File;
use fk_json::Buffer;
use fk_model::Move;
use std::alloc::{AllocError, Global};

/// The bytes of the files on which a connection is served.
#[derive(Drop)]
pub struct Files {
    pub a: Vec<u8>,
    pub b: Vec<u8>,
}

/// A piece that file A doesn't have yet.
#[derive(Drop)]
pub struct Begun {
    /// What the file and the moves of the piece lead to.
    tables: Tables,
    /// The bytes of these moves.
    moves: Buffer,
}

impl Files {
    /// Files without a byte.
    pub fn blank(alloc: Global) -> Files {
        Files {
            a: Vec::new(alloc),
            b: Vec::new(alloc),
        }
    }

    /// Edits the bytes of a file.
    pub fn edit(&mut self, file: File, directive: &str, rest: &str) -> Result<(), ScriptFault> {
        match file {
            File::A => edit(&mut self.a, directive, rest),
            File::B => edit(&mut self.b, directive, rest),
        }
    }
}

/// Makes a move, if it fits, in the piece that was begun or in a new one. A move ends it that tells the numbers.
pub fn make_in(
    alloc: Global,
    files: &mut Files,
    begun: &mut Option<Begun>,
    step: Move,
) -> Result<(), ScriptFault> {
    let is_last = matches!(&step, Move::Totals { .. });
    if begun.is_none() {
        begin(alloc, files, begun)?;
    }
    add(alloc, begun, step)?;
    if is_last {
        append(alloc, files, begun)
    } else {
        Ok(())
    }
}

/// Puts the piece that was begun into file A, behind a move that tells the numbers as they are.
pub fn end_piece(
    alloc: Global,
    files: &mut Files,
    begun: &mut Option<Begun>,
) -> Result<(), ScriptFault> {
    let numbers = match begun {
        Some(begun) => last_move(&begun.tables)?,
        None => return Ok(()),
    };
    add(alloc, begun, numbers)?;
    append(alloc, files, begun)
}

/// Begins a piece, in a new file where both are blank. Files that are damaged take no moves.
fn begin(alloc: Global, files: &mut Files, begun: &mut Option<Begun>) -> Result<(), ScriptFault> {
    files.a = bytes_once_open(alloc, &files.a, &files.b)?;
    *begun = Some(Begun {
        tables: tables_of(alloc, &files.a)?,
        moves: Buffer::new(alloc),
    });
    Ok(())
}

/// Makes a move of the piece that was begun, if it fits.
fn add(alloc: Global, begun: &mut Option<Begun>, step: Move) -> Result<(), ScriptFault> {
    match begun {
        Some(begun) => make(alloc, &mut begun.tables, &mut begun.moves, step),
        None => Ok(()),
    }
}

/// Puts the piece that was begun into file A.
fn append(alloc: Global, files: &mut Files, begun: &mut Option<Begun>) -> Result<(), ScriptFault> {
    if let Some(begun) = begun {
        files.a = with_piece(alloc, &files.a, begun.moves.bytes())?;
    }
    *begun = None;
    Ok(())
}

/// The bytes of file A once a store is open on both.
fn bytes_once_open(alloc: Global, a: &[u8], b: &[u8]) -> Result<Vec<u8>, ScriptFault> {
    match opened(alloc, a, b)? {
        Some(store) => Ok(bytes_left(alloc, store)?),
        None => Err(ScriptFault::NotOpened),
    }
}

/// What a read gives of file A of a store.
fn bytes_left(alloc: Global, store: MemoryStore) -> Result<Vec<u8>, AllocError> {
    let (a, _) = store.close();
    let text = a.image(Choice::New)?;
    Vec::from_slice(alloc, text.bytes())
}

/// The move that ends a piece: it tells the numbers as they are.
fn last_move(tables: &Tables) -> Result<Move, ScriptFault> {
    let numbers = numbers_of(tables);
    if tables.fits(&numbers) {
        Ok(numbers)
    } else {
        Err(ScriptFault::NextTooLow)
    }
}

/// The move that tells the numbers as they are.
fn numbers_of(tables: &Tables) -> Move {
    Move::Totals {
        next: tables.next(),
        processed: tables.processed(),
        failures: tables.failures(),
    }
}
