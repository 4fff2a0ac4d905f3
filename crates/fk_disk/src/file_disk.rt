ghost use Rattle.std.specs.Prelude.{◌≡◌, [], false, IfOk};
ghost use Rattle.std.proofs.lemmas.Bool.{false≢true};
ghost use Rattle.fk_io.specs.Faults.{HasCause};

use crate::Disk;
use fk_io::{Failed, raised};
use std::alloc::{AllocError, Global};
use std::fs::{File, OpenOptions};
use std::io;
use std::marker::Model;
use std::os::unix::fs::{FileExt, OpenOptionsExt};
use std::path::Path;
use std::rt::Files;

/// A file of the file system. It tells nothing of its bytes, and is seen as its count of faults.
#[derive(Drop)]
pub struct FileDisk<R: Files<File = File> + Drop> {
    rt: R,
    path: String,
    file: Option<File>,
    faults: u64,
}

impl<R: Files<File = File> + Drop> Model for FileDisk<R> {
    ghost use Rattle.std.specs.Prelude.{ℕ, ◌≤◌};
    ghost use Rattle.fk_io.specs.Faults.{last_count};

    ghost Value = { ℕ };

    ghost view = { λ disk. disk.faults };

    ghost invariant = { λ disk. disk.faults ≤ last_count };
}

impl<R: Files<File = File> + Drop> FileDisk<R> {
    /// The file at a path. Nothing is done yet: the first call opens or creates the file, for its
    /// owner alone, locks it, and syncs its folder, and where one of these fails that call does, and
    /// the next call tries again. So a second one on the same file fails and changes nothing.
    pub fn at(rt: R, alloc: Global, path: &str) -> Result<FileDisk<R>, AllocError>
        ensures { IfOk result (λ disk. disk ≡ 0) }
    {
        Ok(FileDisk {
            rt,
            path: String::from_str(alloc, path)?,
            file: None,
            faults: 0,
        })
    }

    /// Opens the file where it isn't open yet.
    fn open(&mut self) -> Result<(), Failed>
        ensures { HasCause self.old self.new result }
    {
        if self.file.is_some() {
            return Ok(());
        }
        match opened(&self.rt, self.path.as_str()) {
            Ok(file) => {
                self.file = Some(file);
                Ok(())
            }
            Err(_) => {
                self.faults = raised(self.faults);
                Err(Failed)
            }
        }
    }

    /// Counts a fault where there is no outcome.
    fn counted<T>(&mut self, outcome: Option<T>) -> Result<T, Failed>
        ensures { HasCause self.old self.new result }
    {
        match outcome {
            Some(value) => Ok(value),
            None => {
                self.faults = raised(self.faults);
                Err(Failed)
            }
        }
    }
}

/// The file at a path, locked, with its folder synced.
fn opened<R: Files<File = File>>(rt: &R, path: &str) -> io::Result<File> {
    let file = OpenOptions::new()
        .read(true)
        .write(true)
        .create(true)
        .mode(0o600)
        .open(rt, path)?;
    if file.try_lock().is_err() {
        return Err(io::Error::from(io::ErrorKind::WouldBlock));
    }
    folder_of(rt, path)?.sync_all()?;
    Ok(file)
}

/// The folder in which a file lies, opened.
fn folder_of<R: Files<File = File>>(rt: &R, path: &str) -> io::Result<File> {
    let folder = match Path::new(path).parent() {
        Some(folder) if !folder.as_str().is_empty() => folder,
        _ => Path::new("."),
    };
    File::open(rt, folder)
}

/// The length of an open file.
fn length_of(file: &Option<File>) -> Option<u64> {
    match file {
        Some(file) => Some(file.metadata().ok()?.len()),
        None => None,
    }
}

/// Reads whole from a place of an open file.
fn read(file: &Option<File>, at: u64, into: &mut [u8]) -> Option<()> {
    match file {
        Some(file) => file.read_exact_at(into, at).ok(),
        None => None,
    }
}

/// Writes whole to a place of an open file.
fn write(file: &Option<File>, at: u64, bytes: &[u8]) -> Option<()> {
    match file {
        Some(file) => file.write_all_at(bytes, at).ok(),
        None => None,
    }
}

/// Cuts an open file to a length.
fn shorten(file: &Option<File>, len: u64) -> Option<()> {
    match file {
        Some(file) => file.set_len(len).ok(),
        None => None,
    }
}

/// Syncs the data of an open file.
fn make_sure(file: &Option<File>) -> Option<()> {
    match file {
        Some(file) => file.sync_data().ok(),
        None => None,
    }
}

#[tactic(auto, using(crate::proofs::Elapsing::nothing_told))]
impl<R: Files<File = File> + Drop> Disk for FileDisk<R> {
    ghost told = { λ _. false };

    ghost content = { λ _. [] };

    ghost moment = { λ _. 0 };

    ghost images = { λ _ _ _. ⊥ };

    ghost fault_count = { λ disk. disk };

    ghost has_told = { λ disk at image is. absurd is };

    ghost has_bytes = { λ disk at image is. absurd is };

    ghost has_content = { λ disk told. false≢true told };

    fn len(&mut self) -> Result<u64, Failed> {
        self.open()?;
        let length = length_of(&self.file);
        self.counted(length)
    }

    fn read_at(&mut self, at: u64, into: &mut [u8]) -> Result<(), Failed> {
        self.open()?;
        let outcome = read(&self.file, at, into);
        self.counted(outcome)
    }

    fn write_at(&mut self, at: u64, bytes: &[u8]) -> Result<(), Failed> {
        self.open()?;
        let outcome = write(&self.file, at, bytes);
        self.counted(outcome)
    }

    fn cut(&mut self, len: u64) -> Result<(), Failed> {
        self.open()?;
        let outcome = shorten(&self.file, len);
        self.counted(outcome)
    }

    fn sync(&mut self) -> Result<(), Failed> {
        self.open()?;
        let outcome = make_sure(&self.file);
        self.counted(outcome)
    }

    fn faults(&self) -> u64 {
        self.faults
    }
}
