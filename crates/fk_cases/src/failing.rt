use fk_journal::File;
use std::alloc::{AllocError, Global};

/// The numbers of the calls of each disk that fail, counted from 0.
#[derive(Drop)]
pub struct Failing {
    pub a: Vec<u64>,
    pub b: Vec<u64>,
}

impl Failing {
    /// No call fails.
    pub fn none(alloc: Global) -> Failing {
        Failing {
            a: Vec::new(alloc),
            b: Vec::new(alloc),
        }
    }

    /// One call of the disk of a file fails.
    pub fn one(alloc: Global, file: File, number: u64) -> Result<Failing, AllocError> {
        let mut failing = Failing::none(alloc);
        failing.set(file, vec![in alloc; number]?);
        Ok(failing)
    }

    /// Puts the calls of a file's disk in the place of those before.
    pub fn set(&mut self, file: File, numbers: Vec<u64>) {
        match file {
            File::A => self.a = numbers,
            File::B => self.b = numbers,
        }
    }
}
