/// What a turn tells of itself.
#[derive(Clone, Copy)]
pub struct Told {
    /// The moment of the turn, in milliseconds since 1970-01-01T00:00:00Z.
    pub moment: u64,
    /// The random word of the turn.
    pub word: u64,
    /// The disks' faults before the turn, of all disks together.
    pub before: u128,
    /// The disks' faults after it.
    pub after: u128,
    /// How the compaction of a Tick went; none is due for another ask.
    pub compaction: Compaction,
}

/// How a turn's compaction of the files went.
#[derive(Clone, Copy, PartialEq, Eq)]
pub enum Compaction {
    /// None was due.
    NotDue,
    /// The files were compacted.
    Done,
    /// Memory ran out.
    NoMemory,
    /// A number would be beyond its limit.
    Full,
    /// A disk failed.
    DiskFault,
}
