// What connections leave of the files.
use crate::files::Files;
use fk_disk::{Choice, MemoryDisk};
use fk_journal::File;
use fk_json::Text;
use std::alloc::{AllocError, Global};

/// The disks that a connection left.
#[derive(Drop)]
pub struct Left {
    pub a: MemoryDisk,
    pub b: MemoryDisk,
}

impl Left {
    /// Lays out the files as a crash may leave them, by a choice for each.
    pub fn lay(
        &self,
        alloc: Global,
        files: &mut Files,
        a: Choice,
        b: Choice,
    ) -> Result<(), AllocError> {
        let image = self.a.image(a)?;
        files.a = Vec::from_slice(alloc, image.bytes())?;
        let image = self.b.image(b)?;
        files.b = Vec::from_slice(alloc, image.bytes())?;
        Ok(())
    }

    /// The bytes of a file, as reads give them.
    pub fn bytes(&self, file: File) -> Result<Text, AllocError> {
        match file {
            File::A => self.a.image(Choice::New),
            File::B => self.b.image(Choice::New),
        }
    }

    /// Whether a disk failed for want of memory.
    pub fn is_starved(&self) -> bool {
        self.a.starved() > 0 || self.b.starved() > 0
    }
}
