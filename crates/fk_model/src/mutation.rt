use fk_json::{Text, Texts};

/// What a MUTATE does to the rows that match.
#[derive(Clone, Copy, PartialEq, Eq)]
pub enum Cmd {
    /// They are dead from now on. Those that are dead already stay as they are.
    Kill,
    /// They are forgotten.
    Discard,
    /// They are put into their queues.
    Requeue,
    /// All rows of the target are forgotten, whatever the filter says.
    Clear,
}

/// The set of rows that a MUTATE is about.
#[derive(Clone, Copy, PartialEq, Eq)]
pub enum Target {
    /// Those that are scheduled.
    Scheduled,
    /// Those that failed and are tried again.
    Retries,
    /// Those that failed for good or were killed.
    Dead,
}

/// Which rows of the target match: those that meet each condition that is there.
#[derive(Drop)]
pub struct Filter {
    /// The job's type.
    pub jobtype: Option<Text>,
    /// The jids of which the job's is one. No row matches an empty list.
    pub jids: Option<Texts>,
    /// The pattern that the row's text matches, in which `*` stands for any bytes, `?` for one byte
    /// and `\` before a byte for that byte, and at the end for itself.
    pub glob: Option<Text>,
}
