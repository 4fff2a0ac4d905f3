/// What becomes of a job that failed. Moments are in milliseconds since 1970-01-01T00:00:00Z.
#[derive(Clone, Copy, PartialEq, Eq)]
pub enum Fate {
    /// It is forgotten.
    Drop,
    /// It is tried again at this moment.
    Retry(u64),
    /// It is dead, and is forgotten at this moment.
    Dead(u64),
}
